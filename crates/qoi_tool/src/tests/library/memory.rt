//! Allocations that are refused, and the calls that take no memory.
use crate::tests::fakes::{ONE_RGB_PIXEL, PIXEL, take_but, take_memory};
use crate::tests::library::support::{
    assert_bytes, assert_count, assert_cut, assert_decoded, assert_given, assert_header,
    assert_no_memory, assert_number, made,
};
use qoi::{
    Decoder, Reader, Result, RowIndex, decode_header, decode_to_buf, encode_to_buf, encode_to_vec,
};
use std::alloc::Global;
use std::io::Cursor;
use std::process::Abort;

// Decodes while all memory is taken but for one block of `spare` bytes.
fn starved<R: Reader>(
    rt: &impl Abort,
    alloc: Global,
    decoder: &mut Decoder<R>,
    spare: usize,
) -> Result<Vec<u8>> {
    let held = take_but(alloc, spare).expect(rt, "refused");
    let found = decoder.decode_to_vec(alloc);
    drop(held);
    found
}

// The first allocation is refused; when it is granted, there is no second one. A refusal leaves the
// decoder as it was.
fn assert_one_allocation<R: Reader>(
    rt: &impl Abort,
    alloc: Global,
    decoder: &mut Decoder<R>,
    raw: &[u8],
) {
    let header = *decoder.header();
    assert_no_memory(rt, starved(rt, alloc, decoder, 0));
    assert_header(rt, decoder.header(), &header);
    assert_given(rt, starved(rt, alloc, decoder, raw.len()), raw);
}

// The same from a slice and from both kinds of reader.
fn assert_allocations(rt: &impl Abort, alloc: Global, file: &[u8], raw: &[u8]) {
    assert_one_allocation(rt, alloc, &mut made::slice(rt, file), raw);
    assert_one_allocation(rt, alloc, &mut made::stream(rt, file), raw);
    assert_one_allocation(rt, alloc, &mut made::buffered(rt, file), raw);
}

// A vector that grows by several steps is allocated once, too.
#[test]
fn each_allocation_of_decode_to_vec(rt: HostRuntime) {
    let alloc = rt.alloc();
    assert_allocations(&rt, alloc, &ONE_RGB_PIXEL, &PIXEL);
    let raw = made::filled(&rt, alloc, 9, 150_000);
    let file = made::encoded(&rt, alloc, &raw, 50_000, 1);
    assert_allocations(&rt, alloc, &file, &raw);
}

// Encodes the pixel while all memory is taken but for one block of `spare` bytes.
fn starved_file(rt: &impl Abort, alloc: Global, spare: usize) -> Result<Vec<u8>> {
    let held = take_but(alloc, spare).expect(rt, "refused");
    let file = encode_to_vec(alloc, &PIXEL, 1, 1);
    drop(held);
    file
}

// The first allocation is refused; when it is granted, there is no second one.
#[test]
fn each_allocation_of_encode_to_vec(rt: HostRuntime) {
    assert_no_memory(&rt, starved_file(&rt, rt.alloc(), 0));
    let file = starved_file(&rt, rt.alloc(), ONE_RGB_PIXEL.len());
    assert_given(&rt, file, &ONE_RGB_PIXEL);
}

// Nothing stands after the header, whose image has 20000 by 20000 pixels. If the first allocation is
// refused, that comes before the cut. The decoder is as before.
#[test]
fn largest_image(rt: HostRuntime) {
    let mut decoder = made::slice(&rt, b"qoif\0\0\x4e\x20\0\0\x4e\x20\x03\0");
    assert_no_memory(&rt, starved(&rt, rt.alloc(), &mut decoder, 0));
    assert_cut(&rt, decoder.decode_to_vec(rt.alloc()));
    assert_bytes(&rt, decoder.data(), &[]);
    assert_number(&rt, decoder.header().n_pixels(), 400_000_000);
}

// Encodes the pixel by the calls that take no memory.
fn assert_encodes(rt: &impl Abort) {
    let mut file = [0xaa; 26];
    assert_count(rt, encode_to_buf(&mut file, &PIXEL, 1, 1), 26);
    assert_bytes(rt, &file, &ONE_RGB_PIXEL);
    let mut file = [0xaa; 26];
    let encoder = made::encoder(rt, &PIXEL, 1, 1);
    let sent = encoder.encode_to_stream(&mut file.as_mut_slice());
    assert_count(rt, sent, 26);
    assert_bytes(rt, &file, &ONE_RGB_PIXEL);
}

// Decodes the pixel into a buffer.
fn assert_decodes<R: Reader>(rt: &impl Abort, decoder: &mut Decoder<R>) {
    let mut buf = [0xaa; 3];
    assert_number(rt, made::decoded(rt, decoder, &mut buf), 3);
    assert_bytes(rt, &buf, &PIXEL);
}

// Decodes the file of the pixel by the calls that take no memory.
fn assert_decodes_file(rt: &impl Abort, file: &[u8]) {
    let mut buf = [0xaa; 3];
    let header = decode_to_buf(&mut buf, file).expect(rt, "refused");
    let own = decode_header(file).expect(rt, "refused");
    assert_header(rt, &own, &header);
    assert_bytes(rt, &buf, &PIXEL);
    assert_decodes(rt, &mut made::stream(rt, file));
    assert_decodes(rt, &mut made::buffered(rt, file));
}

// While all memory is taken, the calls that take none succeed. The clone of a reader that owns its
// bytes is refused, which leaves the decoder as it was.
#[test]
fn calls_without_memory(rt: HostRuntime) {
    let alloc = rt.alloc();
    let file = made::bytes(&rt, alloc, &ONE_RGB_PIXEL);
    let mut decoder = made::stream(&rt, Cursor::new(file));
    let held = take_memory(alloc, 2).expect(&rt, "refused");
    assert_encodes(&rt);
    assert_decodes_file(&rt, &ONE_RGB_PIXEL);
    assert_no_memory(&rt, decoder.clone());
    drop(held);
    assert_decoded(&rt, alloc, &mut decoder, &PIXEL);
}

// An index of rows is allocated once, and its rows take no memory.
#[test]
fn rows_without_memory(rt: HostRuntime) {
    let alloc = rt.alloc();
    let raw = made::filled(&rt, alloc, 9, 30_000);
    let file = made::encoded(&rt, alloc, &raw, 100, 100);
    let held = take_memory(alloc, 2).expect(&rt, "refused");
    assert_no_memory(&rt, RowIndex::new(alloc, &file, 4));
    drop(held);
    let index = RowIndex::new(alloc, &file, 4).expect(&rt, "refused");
    let held = take_memory(alloc, 2).expect(&rt, "refused");
    let left = index.rows(&file, 20).expect(&rt, "refused").left();
    drop(held);
    assert_number(&rt, left, 24_000);
}
