//! Files that are cut, changed and followed by other bytes, and buffers of other lengths: each of
//! the examples, by each call, from a slice, from a stream and from a reader with a buffer.
use crate::tests::library::support::decodings::{CUT, Decoding, after};
use crate::tests::library::support::examples::files;
use crate::tests::library::support::images::{Image, row};
use crate::tests::library::support::{assert_fails, assert_refused, made};
use qoi::{Channels, ColorSpace, Decoder, Header, Style, decode_header};
use std::alloc::Global;
use std::io::ErrorKind;
use std::process::Abort;

// These bytes, taken as a file of the image.
fn decoding<'a>(image: &'a Image, bytes: &'a [u8]) -> Decoding<'a> {
    Decoding {
        bytes,
        ..image.decoding()
    }
}

// Fewer bytes than a header has.
fn assert_no_header(rt: &impl Abort, alloc: Global, cut: &[u8]) {
    assert_refused(rt, alloc, decode_header(cut).err(), CUT);
    assert_refused(rt, alloc, Decoder::new(cut).err(), CUT);
    let stream = Decoder::from_stream(cut).err();
    assert_fails(rt, stream, ErrorKind::UnexpectedEof);
    let buffered = Decoder::from_buf_read(cut).err();
    assert_fails(rt, buffered, ErrorKind::UnexpectedEof);
}

// Each beginning of a file but the whole.
#[test]
fn beginnings(rt: HostRuntime) {
    for image in &files(&rt, rt.alloc()) {
        for size in 0..image.file.len() {
            let cut = &image.file[..size];
            if size < 14 {
                assert_no_header(&rt, rt.alloc(), cut);
            } else {
                decoding(image, cut).check_cut(&rt, rt.alloc());
            }
        }
    }
}

// Each byte of the end marker is another one in turn. A byte follows, which a stream keeps.
#[test]
fn changed_markers(rt: HostRuntime) {
    for image in &files(&rt, rt.alloc()) {
        for back in 1..9usize {
            let mut changed = made::joined(&rt, rt.alloc(), &image.file, &[0x78]);
            if let Some(byte) = changed.get_mut(image.file.len().saturating_sub(back)) {
                *byte = byte.wrapping_add(1);
            }
            decoding(image, &changed).check_wrong(&rt, rt.alloc(), &[0x78]);
        }
    }
}

// Nothing, a byte, or an end marker and a byte stands after a file.
#[test]
fn followed(rt: HostRuntime) {
    let all = [0, 0, 0, 0, 0, 0, 0, 1, 0x78];
    for image in &files(&rt, rt.alloc()) {
        for from in [0, 8, 9usize] {
            let bytes = made::joined(&rt, rt.alloc(), &image.file, after(&all, from));
            decoding(image, &bytes).check(&rt, rt.alloc(), &image.raw, after(&all, from));
        }
    }
}

// A buffer that lacks a byte is refused and as before.
#[test]
fn short_buffers(rt: HostRuntime) {
    let alloc = rt.alloc();
    for image in &files(&rt, alloc) {
        let required = image.raw.len();
        let size = required.saturating_sub(1);
        let text = format!(in alloc;
            "output buffer size too small: {size} (required: {required})"
        ).expect(&rt, "refused");
        image.decoding().check_short(&rt, alloc, size, &text);
    }
}

// Nothing stands after the header, whose image would have 1,600,000,000 bytes.
#[test]
fn largest_image(rt: HostRuntime) {
    let size = Header::try_new(20000, 20000, Channels::Rgba, ColorSpace::Srgb);
    let largest = Decoding {
        bytes: b"qoif\x00\x00\x4e\x20\x00\x00\x4e\x20\x04\x00",
        header: size.expect(&rt, "refused"),
        channels: Channels::Rgba,
    };
    let text = "output buffer size too small: 0 (required: 1600000000)";
    largest.check_short(&rt, rt.alloc(), 0, text);
}

// A black row, and a file of these chunks.
fn black_row(rt: &impl Abort, alloc: Global, width: u32, chunks: &[u8]) -> Image {
    let header = row(width, Channels::Rgb);
    Image {
        header,
        style: Style::Reference,
        raw: made::filled(rt, alloc, 0, 3 * width as usize),
        file: made::file(rt, alloc, header, chunks),
    }
}

// The last run's surplus pixels are dropped; a chunk after it stands where the marker should.
#[test]
fn last_run(rt: HostRuntime) {
    let alloc = rt.alloc();
    let image = black_row(&rt, alloc, 100, &[0xfd, 0xfd]);
    image.decoding().check(&rt, alloc, &image.raw, &[]);
    let image = black_row(&rt, alloc, 1, &[0xc0, 0xc0]);
    image.decoding().check_wrong(&rt, alloc, &[1]);
    let image = black_row(&rt, alloc, 100, &[0xfd, 0xfd, 0xfd]);
    image.decoding().check_wrong(&rt, alloc, &[1]);
}
