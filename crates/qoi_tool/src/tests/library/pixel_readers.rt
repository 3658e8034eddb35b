//! Images that are decoded piece by piece, from each kind of reader; readers that fail, and what can
//! be done after a refusal.
use crate::tests::fakes::{Bad, ENDS, Source};
use crate::tests::library::support::decodings::{CUT, after, front};
use crate::tests::library::support::images::{Image, row};
use crate::tests::library::support::{
    assert_bytes, assert_count, assert_cut, assert_fails, assert_number, assert_refused, made,
};
use qoi::{Channels, Decoder, Error, Header, PixelReader, Reader, Style};
use std::alloc::Global;
use std::io::ErrorKind;
use std::process::Abort;

// An image of drawn pixels in a row, and its file.
fn drawn_row(rt: &impl Abort, alloc: Global, width: u32, channels: Channels) -> Image {
    let header = row(width, channels);
    Image::drawn(rt, alloc, 0x71ece5, header, Style::Reference)
}

// Reads pieces until one is refused, or none is left.
fn refusal<R: Reader>(pixels: &mut PixelReader<R>) -> Option<Error> {
    let mut piece = [7; 700];
    for _ in 0..u64::MAX {
        match pixels.read(&mut piece) {
            Ok(0) => return None,
            Ok(_) => {}
            Err(error) => return Some(error),
        }
    }
    None
}

// A reader that gives a byte a call ends this call badly. It is the last one, and some of the image
// is left for ever.
fn assert_stops(rt: &impl Abort, alloc: Global, file: &[u8], bad: Bad) {
    let mut pixels = made::stream(rt, Source::new(file, 1, bad)).into_pixels();
    let kind = bad.end.kind(ErrorKind::UnexpectedEof);
    assert_fails(rt, refusal(&mut pixels), kind);
    let left = pixels.left();
    assert_refused(rt, alloc, refusal(&mut pixels), CUT);
    assert_number(rt, pixels.left(), left);
    let source = pixels.into_decoder().into_reader();
    assert_number(rt, source.calls, bad.call);
    assert_bytes(rt, source.left, after(file, bad.call.saturating_sub(1)));
}

#[test]
fn failing_readers(rt: HostRuntime) {
    let alloc = rt.alloc();
    let image = drawn_row(&rt, alloc, 900, Channels::Rgba);
    for end in ENDS {
        for call in 15..=image.file.len() {
            assert_stops(&rt, alloc, &image.file, Bad { call, end });
        }
    }
}

// Reads a part of an image, and finishes it.
fn finished<R: Reader + Drop>(rt: &impl Abort, decoder: Decoder<R>, raw: &[u8]) -> Decoder<R> {
    let mut pixels = decoder.into_pixels();
    assert_number(rt, pixels.left(), raw.len());
    let mut piece = [7; 1000];
    let count = pixels.read(&mut piece).expect(rt, "refused");
    assert_bytes(rt, front(&piece, count), front(raw, 1000));
    pixels.finish().expect(rt, "refused")
}

// What follows the file is left, by each kind of reader.
#[test]
fn images_that_are_finished(rt: HostRuntime) {
    let alloc = rt.alloc();
    let Image { raw, file, .. } = drawn_row(&rt, alloc, 3000, Channels::Rgb);
    let bytes = made::joined(&rt, alloc, &file, &[0x78, 0x79]);
    let slice = finished(&rt, made::slice(&rt, &bytes), &raw);
    assert_bytes(&rt, slice.data(), &[0x78, 0x79]);
    let stream = finished(&rt, made::stream(&rt, bytes.as_slice()), &raw);
    assert_bytes(&rt, stream.into_reader(), &[0x78, 0x79]);
    let buffered = finished(&rt, made::buffered(&rt, bytes.as_slice()), &raw);
    assert_bytes(&rt, buffered.into_reader(), &[0x78, 0x79]);
}

// Reads the fourth of five rows of 8000 bytes, and skips all others: above it more than go at once.
fn assert_skips<R: Reader + Drop>(rt: &impl Abort, decoder: Decoder<R>, raw: &[u8]) {
    let (mut pixels, mut piece) = (decoder.into_pixels(), [7; 8000]);
    assert_cut(rt, pixels.skip_rows(6));
    assert_number(rt, pixels.left(), raw.len());
    pixels.skip_rows(3).expect(rt, "refused");
    assert_count(rt, pixels.read(&mut piece), 8000);
    assert_bytes(rt, &piece, front(after(raw, 24_000), 8000));
    pixels.skip_rows(1).expect(rt, "refused");
    pixels.skip_rows(0).expect(rt, "refused");
    assert_cut(rt, pixels.skip_rows(1));
    assert_number(rt, pixels.left(), 0);
}

// Reads three bytes of the second row and of the third, behind 4000, and keeps what follows them.
fn assert_cuts<R: Reader + Drop>(rt: &impl Abort, decoder: Decoder<R>, raw: &[u8]) {
    let (mut pixels, mut parts) = (decoder.into_pixels(), [7; 8]);
    pixels.skip_rows(1).expect(rt, "refused");
    pixels
        .read_rectangle(4000, 2, 3, &mut parts)
        .expect(rt, "refused");
    assert_bytes(rt, &parts[..3], front(after(raw, 12_000), 3));
    assert_bytes(rt, &parts[3..6], front(after(raw, 20_000), 3));
    assert_bytes(rt, &parts[6..], &[7, 7]);
    assert_number(rt, pixels.left(), 16_000);
}

#[test]
fn rows_that_are_skipped(rt: HostRuntime) {
    let alloc = rt.alloc();
    let header = Header {
        height: 5,
        ..row(2000, Channels::Rgba)
    };
    let Image { raw, file, .. } = Image::drawn(&rt, alloc, 0x5c1b5, header, Style::Reference);
    assert_skips(&rt, made::slice(&rt, &file), &raw);
    assert_cuts(&rt, made::slice(&rt, &file), &raw);
    assert_skips(&rt, made::stream(&rt, file.as_slice()), &raw);
    assert_cuts(&rt, made::stream(&rt, file.as_slice()), &raw);
    assert_skips(&rt, made::buffered(&rt, file.as_slice()), &raw);
    assert_cuts(&rt, made::buffered(&rt, file.as_slice()), &raw);
}
