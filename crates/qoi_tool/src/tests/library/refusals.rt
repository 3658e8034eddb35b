//! Refused sizes, numbers of raw bytes and color spaces.
use crate::tests::library::support::{assert_refused, made};
use qoi::{Channels, ColorSpace, Encoder, Header};
use std::alloc::Global;
use std::process::Abort;

// An encoder of so many bytes for a row of this width is refused.
fn assert_bytes_refused(rt: &impl Abort, alloc: Global, size: usize, width: u32, text: &str) {
    let raw = made::filled(rt, alloc, 0, size);
    assert_refused(rt, alloc, Encoder::new(&raw, width, 1).err(), text);
}

// The number of channels is cut at 255.
#[test]
fn numbers_of_bytes(rt: HostRuntime) {
    let alloc = rt.alloc();
    assert_bytes_refused(&rt, alloc, 0, 1, "invalid number of channels: 0");
    assert_bytes_refused(&rt, alloc, 300, 1, "invalid number of channels: 255");
    assert_bytes_refused(&rt, alloc, 7, 2, "invalid image length: 7 bytes for 2x1");
}

// A header of this size is refused.
fn assert_size(rt: &impl Abort, alloc: Global, width: u32, height: u32, text: &str) {
    let tried = Header::try_new(width, height, Channels::Rgba, ColorSpace::Linear);
    assert_refused(rt, alloc, tried.err(), text);
}

// No pixel, and one more than there may be; as many as there may be are accepted.
#[test]
fn sizes_of_headers(rt: HostRuntime) {
    let alloc = rt.alloc();
    assert_size(&rt, alloc, 0, 5, "invalid image dimensions: 0x5");
    assert_size(
        &rt,
        alloc,
        400_000_001,
        1,
        "invalid image dimensions: 400000001x1",
    );
    assert_size(&rt, alloc, 20_000, 20_000, "accepted");
    let text = "invalid color space: 2 (expected 0 or 1)";
    assert_refused(&rt, alloc, ColorSpace::try_from(2).err(), text);
}
