//! What users want to know of compositions of the calls. None has a proof file.
ghost use Rattle.std.specs.Prelude.{◌≡◌, ◌+◌, ◌≤◌, ℕ, List, length, slice_set, Some, IfOk};
ghost use Rattle.qoi.specs.declared.header.Header.{Header};
ghost use Rattle.qoi.specs.Decoding.{DecodesFile};

use crate::tests::fakes::{ONE_RGB_PIXEL, PIXEL};
use crate::tests::library::support::{
    assert_both, assert_bytes, assert_count, assert_given, assert_header, assert_number,
};
use qoi::laws::reading::images_are_accepted;
use qoi::{
    ColorSpace, Decoder, Encoder, Error, Header, decode_header, decode_to_buf, decode_to_vec,
    encode_to_vec,
};
use std::alloc::Global;
use std::io::{Cursor, Read};

/// The same bytes are the same image: into a vector and into a buffer.
pub fn vector_and_buffer<'a>(
    alloc: Global,
    buf: &'a mut [u8],
    file: &[u8],
) -> Result<(Vec<u8>, &'a [u8]), Error>
    ensures { IfOk result (λ x. x.0.items ≡ x.1.now) }
{
    let (_, first) = decode_to_vec(alloc, file)?;
    let header = decode_to_buf(buf, file)?;
    Ok((first, &buf[..header.n_bytes()]))
}

/// Headers. The encoder's comes back.
pub fn header_back(
    alloc: Global,
    raw: &[u8],
    width: u32,
    height: u32,
) -> Result<(Header, Header), Error>
    ensures { IfOk result (λ x. x.0 ≡ x.1) }
{
    let encoder = Encoder::new(raw, width, height)?;
    let file = encoder.encode_to_vec(alloc)?;
    let header = decode_header(&file)?;
    Ok((header, *encoder.header()))
}

/// Color spaces. In `Linear` the fourteenth byte is 1, and all else is as in `Srgb`.
pub fn both_spaces(
    alloc: Global,
    raw: &[u8],
    width: u32,
    height: u32,
) -> Result<(Vec<u8>, Vec<u8>), Error>
    ensures changed { IfOk result (λ x. x.1.items ≡ slice_set x.0.items 13 1) }
    ensures as_long { IfOk result (λ x. length x.1.items ≡ length x.0.items) }
{
    let encoder = Encoder::new(raw, width, height)?;
    let srgb = encoder.encode_to_vec(alloc)?;
    let encoder = encoder.with_colorspace(ColorSpace::Linear);
    let linear = encoder.encode_to_vec(alloc)?;
    Ok((srgb, linear))
}

/// Measures. A success took nine bytes at least.
pub fn took(alloc: Global, file: &[u8]) -> Result<usize, Error>
    ensures { IfOk result (λ left. left + 9 ≤ length file.now) }
{
    let mut decoder = Decoder::new(file)?;
    decoder.decode_to_vec(alloc)?;
    Ok(decoder.data().len())
}

/// Files from a reader. If its bytes are known, a success means that they begin with a file.
pub fn file_ahead<R: Read + Drop>(alloc: Global, reader: R) -> Result<(Header, Vec<u8>), Error>
    ensures { (bytes : List ℕ) → R.remaining reader ≡ Some bytes → IfOk result (λ x. (rest : List ℕ)
        × DecodesFile bytes x.0 rest x.1.items) }
{
    let mut decoder = Decoder::from_stream(reader)?;
    let header = *decoder.header();
    let raw = decoder.decode_to_vec(alloc)?;
    Ok((header, raw))
}

/// Images that are decoded can be encoded again: an encoder accepts them.
pub fn encoded_again(alloc: Global, file: &[u8]) -> Result<Vec<u8>, Error> {
    let (header, raw) = decode_to_vec(alloc, file)?;
    images_are_accepted();
    match Encoder::new(&raw, header.width, header.height) {
        Ok(encoder) => encoder.encode_to_vec(alloc),
        Err(_) => unreachable!(),
    }
}

/// Clones. A decoder of a cursor and its clone give the same image.
pub fn by_clone_of_cursor(alloc: Global, file: &[u8]) -> Result<(Vec<u8>, Vec<u8>), Error>
    ensures { IfOk result (λ x. x.0.items ≡ x.1.items) }
{
    let mut decoder = Decoder::from_stream(Cursor::new(file))?;
    let mut clone = decoder.clone()?;
    let first = decoder.decode_to_vec(alloc)?;
    let second = clone.decode_to_vec(alloc)?;
    Ok((first, second))
}

#[test]
fn the_same_image(rt: HostRuntime) {
    let mut buf = [0xaa; 4];
    let both = vector_and_buffer(rt.alloc(), &mut buf, &ONE_RGB_PIXEL);
    let (first, second) = both.expect(&rt, "refused");
    assert_bytes(&rt, &first, &PIXEL);
    assert_bytes(&rt, second, &PIXEL);
    let both = by_clone_of_cursor(rt.alloc(), &ONE_RGB_PIXEL);
    assert_both(&rt, both, &PIXEL, &PIXEL);
}

#[test]
fn a_file_from_a_reader(rt: HostRuntime) {
    let found = file_ahead(rt.alloc(), ONE_RGB_PIXEL.as_slice());
    let (header, raw) = found.expect(&rt, "refused");
    assert_number(&rt, header.n_pixels(), 1);
    assert_bytes(&rt, &raw, &PIXEL);
}

#[test]
fn headers_and_lengths(rt: HostRuntime) {
    let alloc = rt.alloc();
    let (found, given) = header_back(alloc, &PIXEL, 1, 1).expect(&rt, "refused");
    assert_header(&rt, &found, &given);
    assert_count(&rt, took(alloc, &ONE_RGB_PIXEL), 0);
    assert_given(&rt, encoded_again(alloc, &ONE_RGB_PIXEL), &ONE_RGB_PIXEL);
}

#[test]
fn spaces(rt: HostRuntime) {
    let mut changed = ONE_RGB_PIXEL;
    changed[13] = 1;
    let both = both_spaces(rt.alloc(), &PIXEL, 1, 1);
    assert_both(&rt, both, &ONE_RGB_PIXEL, &changed);
}
