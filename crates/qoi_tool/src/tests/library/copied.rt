//! Images that are copied from readers to writers: each kind of reader and each style, other sizes,
//! broken files, and writers that fail.
use crate::tests::fakes::{Bad, End, NONE, Source};
use crate::tests::library::support::images::{Image, row};
use crate::tests::library::support::{
    assert_bytes, assert_cut, assert_decoded, assert_fails, assert_given, assert_number,
    assert_refused, made,
};
use qoi::{Channels, ColorSpace, Decoder, Header, PixelWriter, Reader, Style};
use std::alloc::Global;
use std::io::{ErrorKind, Write};
use std::process::Abort;

// A writer of pieces.
fn writer<W: Write + Drop>(
    rt: &impl Abort,
    alloc: Global,
    header: Header,
    style: Style,
    out: W,
) -> PixelWriter<W> {
    PixelWriter::new(alloc, header, style, out).expect(rt, "refused")
}

// The file, in this style, of what a decoder decodes: so many raw bytes are read and written, all
// others are copied, and then none.
fn copied<R: Reader + Drop>(
    rt: &impl Abort,
    alloc: Global,
    decoder: Decoder<R>,
    style: Style,
    read: usize,
) -> Vec<u8> {
    let mut copy = writer(rt, alloc, *decoder.header(), style, Vec::new(alloc));
    let (mut pixels, mut buf) = (decoder.into_pixels(), [0; 4]);
    let size = pixels.read(&mut buf[..read.min(4)]).expect(rt, "refused");
    copy.write(&buf[..size]).expect(rt, "refused");
    pixels.copy_to(&mut copy).expect(rt, "refused");
    pixels.copy_to(&mut copy).expect(rt, "refused");
    copy.finish().expect(rt, "refused")
}

// Images of up to several pieces of 4096 bytes, from each reader, from and into each style.
#[test]
fn images_are_copied(rt: HostRuntime) {
    let alloc = rt.alloc();
    for header in [
        row(1, Channels::Rgb),
        row(1024, Channels::Rgba),
        row(1366, Channels::Rgb),
        row(5000, Channels::Rgba),
    ] {
        let mut last = Image::drawn(&rt, alloc, 0xc0b1e5, header, Style::Tight).file;
        for style in [Style::Reference, Style::Places, Style::Tight] {
            let next = Image::drawn(&rt, alloc, 0xc0b1e5, header, style).file;
            let copy = copied(&rt, alloc, made::slice(&rt, &last), style, 0);
            assert_bytes(&rt, &copy, &next);
            let copy = copied(&rt, alloc, made::stream(&rt, last.as_slice()), style, 1);
            assert_bytes(&rt, &copy, &next);
            let reader = made::buffer(&rt, alloc, 100, last.as_slice());
            let copy = copied(&rt, alloc, made::buffered(&rt, reader), style, 4);
            assert_bytes(&rt, &copy, &next);
            last = next;
        }
    }
}

// More bytes than the writer takes are refused before any is read, and so are more rows than are
// left, or than it takes. Rows are counted from where the reader stands.
#[test]
fn other_sizes(rt: HostRuntime) {
    let alloc = rt.alloc();
    let file = made::encoded(&rt, alloc, b"first.secondthird.fourth", 2, 4);
    let mut pixels = made::slice(&rt, &file).into_pixels();
    let header = Header::try_new(2, 3, Channels::Rgb, ColorSpace::Srgb).expect(&rt, "refused");
    let mut part = writer(&rt, alloc, header, Style::Reference, Vec::new(alloc));
    let many = pixels.copy_to(&mut part).err();
    assert_refused(&rt, alloc, many, "invalid image length: 24 bytes for 2x3");
    assert_cut(&rt, pixels.copy_rows_to(&mut part, u32::MAX));
    pixels.copy_rows_to(&mut part, 2).expect(&rt, "refused");
    let many = pixels.copy_rows_to(&mut part, 2).err();
    assert_refused(&rt, alloc, many, "invalid image length: 24 bytes for 2x3");
    pixels.copy_rows_to(&mut part, 1).expect(&rt, "refused");
    let part = part.finish().expect(&rt, "refused");
    assert_decoded(
        &rt,
        alloc,
        &mut made::slice(&rt, &part),
        b"first.secondthird.",
    );
}

// The first bytes, so many, and the others.
fn cut(bytes: &[u8], at: usize) -> (&[u8], &[u8]) {
    bytes.split_at(at.min(bytes.len()))
}

// A file that breaks off in its middle: the writer has the pieces before, and goes on without it.
#[test]
fn a_broken_file(rt: HostRuntime) {
    let alloc = rt.alloc();
    let header = row(8000, Channels::Rgba);
    let image = Image::drawn(&rt, alloc, 0xb40ce5, header, Style::Reference);
    let (half, _) = cut(&image.file, image.file.len() / 2);
    let mut pixels = made::slice(&rt, half).into_pixels();
    let mut copy = writer(&rt, alloc, header, Style::Reference, Vec::new(alloc));
    assert_cut(&rt, pixels.copy_to(&mut copy));
    assert_cut(&rt, pixels.copy_to(&mut copy));
    assert_number(&rt, pixels.left(), copy.left());
    let came = 32_000usize.saturating_sub(copy.left());
    assert!(rt; 0 < came && came % 4096 == 0);
    copy.write(cut(&image.raw, came).1).expect(&rt, "refused");
    assert_given(&rt, copy.finish(), &image.file);
}

// How many calls a lent writer gets while an image is copied to it, if this one is bad. Behind that
// no byte is read.
fn calls_of(rt: &impl Abort, alloc: Global, image: &Image, call: usize) -> usize {
    let end = End::Late;
    let mut sink = made::sink(rt, alloc, usize::MAX, Bad { call, end });
    if let Ok(mut copy) = PixelWriter::new(alloc, image.header, image.style, &mut sink) {
        let mut pixels = made::slice(rt, &image.file).into_pixels();
        let fault = pixels.copy_to(&mut copy).err();
        if fault.is_some() {
            assert_fails(rt, fault, ErrorKind::TimedOut);
            let left = pixels.left();
            assert_fails(rt, pixels.copy_to(&mut copy).err(), ErrorKind::BrokenPipe);
            assert_number(rt, pixels.left(), left);
        }
    }
    assert!(rt; image.file.starts_with(&sink.got));
    sink.calls
}

// Each call of a writer fails: the one that sends the header, and one for each of five times at
// which two pieces that were held are written.
#[test]
fn failing_writers(rt: HostRuntime) {
    let alloc = rt.alloc();
    let header = row(12_000, Channels::Rgba);
    let image = Image::drawn(&rt, alloc, 0xfa17ed, header, Style::Reference);
    for call in 1..8usize {
        assert_number(&rt, calls_of(&rt, alloc, &image, call), call.min(6));
    }
}

// Raw bytes to a writer and from a reader, in several pieces and none. A reader that ends too
// early.
#[test]
fn raw_bytes_are_copied(rt: HostRuntime) {
    let alloc = rt.alloc();
    let image = Image::drawn(&rt, alloc, 0x4a3, row(3000, Channels::Rgb), Style::Places);
    let mut raw = Vec::new(alloc);
    let mut pixels = made::slice(&rt, &image.file).into_pixels();
    pixels.copy_raw_to(&mut raw).expect(&rt, "refused");
    pixels.copy_raw_to(&mut raw).expect(&rt, "refused");
    assert_bytes(&rt, &raw, &image.raw);
    let mut copy = writer(&rt, alloc, image.header, image.style, Vec::new(alloc));
    let fault = copy.copy_raw_from(&mut cut(&raw, 4100).0).err();
    assert_fails(&rt, fault, ErrorKind::UnexpectedEof);
    let mut rest = Source::new(cut(&raw, 4100).1, 1000, NONE);
    copy.copy_raw_from(&mut rest).expect(&rt, "refused");
    copy.copy_raw_from(&mut rest).expect(&rt, "refused");
    assert_given(&rt, copy.finish(), &image.file);
}
