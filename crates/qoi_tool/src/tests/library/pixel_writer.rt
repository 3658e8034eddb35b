//! Images whose raw bytes come piece by piece: what a writer gets; writers that fail, and memory that
//! does.
use crate::tests::fakes::{Bad, ENDS, NONE, ONE_RGB_PIXEL, PIXEL, Sink, take_but};
use crate::tests::library::support::images::{Image, row};
use crate::tests::library::support::{
    assert_bytes, assert_fails, assert_header, assert_number, assert_refused, made,
};
use qoi::{Channels, Error, Header, PixelWriter, Style};
use std::alloc::Global;
use std::io::{ErrorKind, Write};
use std::process::Abort;

// A pixel writer in front of a writer.
fn before<W: Write + Drop>(
    rt: &impl Abort,
    alloc: Global,
    header: Header,
    style: Style,
    writer: W,
) -> PixelWriter<W> {
    PixelWriter::new(alloc, header, style, writer).expect(rt, "refused")
}

// Hands over the next raw bytes.
fn write<W: Write + Drop>(rt: &impl Abort, pixels: &mut PixelWriter<W>, piece: &[u8]) {
    let left = pixels.left().saturating_sub(piece.len());
    pixels.write(piece).expect(rt, "refused");
    assert_number(rt, pixels.left(), left);
}

// The calls that a writer gets: the header; none for bytes that are held; the rest. None of them is
// a flush.
#[test]
fn calls_of_the_writer(rt: HostRuntime) {
    let alloc = rt.alloc();
    let sink = made::sink(&rt, alloc, usize::MAX, NONE);
    let mut pixels = before(&rt, alloc, Header::default(), Style::Tight, sink);
    assert_header(&rt, pixels.header(), &Header::default());
    assert!(rt; pixels.style() == Style::Tight);
    write(&rt, &mut pixels, &PIXEL[..1]);
    write(&rt, &mut pixels, &PIXEL[1..]);
    let sink = pixels.finish().expect(&rt, "refused");
    assert_bytes(&rt, &sink.got, &ONE_RGB_PIXEL);
    assert_number(&rt, sink.calls, 2);
}

// A writer can be had back before all bytes came: it has a beginning of the file, here the header,
// the first pixel's luma chunk, and the full runs of 1400 pixels.
#[test]
fn unfinished(rt: HostRuntime) {
    let sink = made::sink(&rt, rt.alloc(), usize::MAX, NONE);
    let header = row(2000, Channels::Rgb);
    let mut pixels = before(&rt, rt.alloc(), header, Style::Reference, sink);
    write(&rt, &mut pixels, &[9; 90]);
    write(&rt, &mut pixels, &[9; 4150]);
    let mut begun = [0xfd; 38];
    begun[..16].copy_from_slice(b"qoif\0\0\x07\xd0\0\0\0\x01\x03\0\xa9\x88");
    assert_bytes(&rt, &pixels.into_writer().got, &begun);
}

// After a fault each further call refuses.
fn assert_spent<W: Write + Drop>(rt: &impl Abort, mut pixels: PixelWriter<W>) {
    assert_fails(rt, pixels.write(&[1]).err(), ErrorKind::BrokenPipe);
    assert_fails(rt, pixels.write(&[]).err(), ErrorKind::BrokenPipe);
    assert_fails(rt, pixels.finish().err(), ErrorKind::BrokenPipe);
}

// Hands the image over in pieces to a writer, and returns its fault.
fn fault_of<W: Write + Drop>(
    rt: &impl Abort,
    alloc: Global,
    image: &Image,
    writer: W,
) -> Option<Error> {
    let mut pixels = match PixelWriter::new(alloc, image.header, image.style, writer) {
        Ok(pixels) => pixels,
        Err(fault) => return Some(fault),
    };
    for piece in image.raw.chunks(3000) {
        if let Err(fault) = pixels.write(piece) {
            assert_spent(rt, pixels);
            return Some(fault);
        }
    }
    pixels.finish().err()
}

// Whether a lent writer has this bad call. It is the last one, and a beginning of the file was sent.
fn fails_at(rt: &impl Abort, alloc: Global, image: &Image, bad: Bad) -> bool {
    let mut sink = made::sink(rt, alloc, usize::MAX, bad);
    let fault = fault_of(rt, alloc, image, &mut sink);
    if fault.is_none() {
        return false;
    }
    assert_fails(rt, fault, bad.end.kind(ErrorKind::WriteZero));
    assert_number(rt, sink.calls, bad.call);
    assert!(rt; image.file.starts_with(&sink.got));
    true
}

// Each call of a lent writer fails in turn, or takes no byte, the first with the header, the last
// ones in `finish`.
#[test]
fn failing_writers(rt: HostRuntime) {
    let alloc = rt.alloc();
    let header = row(12_000, Channels::Rgba);
    let image = Image::drawn(&rt, alloc, 0xfa11, header, Style::Reference);
    for end in ENDS {
        let mut bad = Bad { call: 1, end };
        for _ in 0..100u32 {
            if !fails_at(&rt, alloc, &image, bad) {
                break;
            }
            bad.call = bad.call.saturating_add(1);
        }
        // A call for the header, others for pieces that were held, and the end.
        assert!(rt; 5 < bad.call && bad.call < 100);
    }
}

// The fault of writing the pixel while all memory is taken but for one block of `spare` bytes.
fn starved(rt: &impl Abort, alloc: Global, spare: usize, file: &mut [u8]) -> Option<Error> {
    let header = Header::default();
    let raw = made::bytes(rt, alloc, &PIXEL);
    let image = Image {
        header,
        style: Style::Reference,
        raw,
        file: Vec::new(alloc),
    };
    let held = take_but(alloc, spare).expect(rt, "refused");
    let fault = fault_of(rt, alloc, &image, file);
    drop(held);
    fault
}

// The first allocation is refused, and nothing was sent; when it is granted, there is no second
// one.
#[test]
fn each_allocation(rt: HostRuntime) {
    let alloc = rt.alloc();
    let mut file = [0xaa; 26];
    let refusal = starved(&rt, alloc, 0, &mut file);
    assert_refused(&rt, alloc, refusal, "out of memory");
    assert_bytes(&rt, &file, &[0xaa; 26]);
    let granted = starved(&rt, alloc, 12_768, &mut file);
    assert_refused(&rt, alloc, granted, "accepted");
    assert_bytes(&rt, &file, &ONE_RGB_PIXEL);
}
