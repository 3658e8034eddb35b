//! Vectors that cost what they hold, and pieces of a file.
use crate::tests::fakes::PIXEL;
use crate::tests::library::support::images::{Image, row};
use crate::tests::library::support::{assert_number, made};
use qoi::{Channels, Result, Style, encode_to_vec};
use std::alloc::Global;
use std::process::Abort;

// A vector that holds a file has just its capacity.
fn assert_exact(rt: &impl Abort, file: Result<Vec<u8>>) {
    let file = file.expect(rt, "refused");
    assert_number(rt, file.capacity(), file.len());
}

// An image of 5000 drawn pixels.
fn drawn(rt: &impl Abort, alloc: Global) -> Image {
    Image::drawn(rt, alloc, 0xca9ac, row(5000, Channels::Rgba), Style::Tight)
}

#[test]
fn files_take_their_length(rt: HostRuntime) {
    let alloc = rt.alloc();
    let flat = made::filled(&rt, alloc, 7, 300_000);
    assert_exact(&rt, encode_to_vec(alloc, &flat, 1000, 100));
    assert_exact(&rt, encode_to_vec(alloc, &PIXEL, 1, 1));
    let image = drawn(&rt, alloc);
    assert_exact(&rt, image.encoder(&rt).encode_to_vec(alloc));
}

// A file goes to a writer in pieces of 4096 bytes.
#[test]
fn pieces_of_a_file(rt: HostRuntime) {
    let image = drawn(&rt, rt.alloc());
    let calls = image.sent(&rt, rt.alloc(), usize::MAX).calls;
    assert_number(&rt, calls, image.file.len().div_ceil(4096));
}
