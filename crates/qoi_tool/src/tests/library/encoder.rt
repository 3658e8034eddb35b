//! Images that are encoded, by example.
use crate::tests::fakes::ONE_RGB_PIXEL;
use crate::tests::library::support::examples::{self, image, word, written};
use crate::tests::library::support::images::{Image, row};
use crate::tests::library::support::{
    assert_bytes, assert_count, assert_given, assert_named, assert_number, assert_refused, made,
};
use qoi::{Channels, ColorSpace, Header, Result, Style, encode_to_buf};
use std::alloc::Global;
use std::process::Abort;

// Each call encodes an example in this style, if it is one of its own.
fn assert_written(rt: &impl Abort, alloc: Global, example: &str, letter: u8, style: Style) {
    if word(example, 1).as_bytes().contains(&letter) {
        let image = image(rt, alloc, example, style);
        let file = image.encoder(rt).encode_to_vec(alloc);
        assert_named(rt, example, &file.expect(rt, "refused"), &image.file);
        image.check(rt, alloc);
    }
}

// Each call encodes each of the examples.
#[test]
fn written_examples(rt: HostRuntime) {
    for example in written() {
        assert_written(&rt, rt.alloc(), example, b'r', Style::Reference);
        assert_written(&rt, rt.alloc(), example, b'p', Style::Places);
        assert_written(&rt, rt.alloc(), example, b't', Style::Tight);
    }
}

// The color space is the fourteenth byte.
#[test]
fn one_rgb_pixel(rt: HostRuntime) {
    let image = examples::one_rgb_pixel(&rt, rt.alloc());
    assert_number(&rt, image.header.encode_max_len(), 26);
    image.check(&rt, rt.alloc());
    let mut linear = ONE_RGB_PIXEL;
    linear[13] = 1;
    let encoder = image.encoder(&rt).with_colorspace(ColorSpace::Linear);
    assert_given(&rt, encoder.encode_to_vec(rt.alloc()), &linear);
}

// Encodes a black pixel into the buffer.
fn black_into(buf: &mut [u8]) -> Result<usize> {
    encode_to_buf(buf, &[0, 0, 0], 1, 1)
}

// The file has 23 bytes, and the buffer 26. One of 25 would do, but is refused, untouched.
#[test]
fn one_black_pixel(rt: HostRuntime) {
    let mut buf = [0xaa; 26];
    assert_count(&rt, black_into(&mut buf), 23);
    let end = [0xc0, 0, 0, 0, 0, 0, 0, 0, 1, 0xaa, 0xaa, 0xaa];
    assert_bytes(&rt, &buf[14..], &end);
    let mut buf = [0xaa; 25];
    let text = "output buffer size too small: 25 (required: 26)";
    assert_refused(&rt, rt.alloc(), black_into(&mut buf).err(), text);
    assert_bytes(&rt, &buf, &[0xaa; 25]);
}

// Each channel of pixel k is k modulo 251: steps of 1, and of 6 from 250 to 0.
#[test]
fn two_megapixels(rt: HostRuntime) {
    let (mut raw, mut chunks) = (Vec::new(rt.alloc()), Vec::new(rt.alloc()));
    for k in 0..2_000_000u32 {
        made::append(&rt, &mut raw, &[(k % 251) as u8; 3]);
        if k == 0 {
            chunks.push(0xc0).expect(&rt, "refused");
        } else if k % 251 == 0 {
            made::append(&rt, &mut chunks, &[0xa6, 0x88]);
        } else {
            chunks.push(0x7f).expect(&rt, "refused");
        }
    }
    let header = Header {
        height: 1000,
        ..row(2000, Channels::Rgb)
    };
    let image = Image {
        header,
        style: Style::Reference,
        raw,
        file: made::file(&rt, rt.alloc(), header, &chunks),
    };
    assert_number(&rt, image.file.len(), 2_007_990);
    image.check(&rt, rt.alloc());
}
