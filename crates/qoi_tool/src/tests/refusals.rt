//! What the program prints for refusals of the library: those of an input with ample memory, and
//! the longest of each.
use crate::tests::fakes::{Bad, End, NONE, ONE_RGB_PIXEL, PIXEL};
use crate::tests::library::support::{assert_bytes, made};
use crate::tests::{CUT, assert_refuses};
use crate::{Fault, report};
use qoi::Error;
use std::alloc::Global;
use std::process::Abort;

const WRONG: &[u8] = b"qoi_tool: invalid padding (stream end marker mismatch)\n";

const MAGIC: &[u8] = b"qoi_tool: invalid magic: expected 1903126886, got [113, 111, 105, 103]\n";

// Inputs that each of these words refuses.
fn assert_wrong(rt: &impl Abort, alloc: Global, words: &str) {
    let mut unmarked = ONE_RGB_PIXEL;
    unmarked[25] = 2;
    assert_refuses(rt, alloc, words, &unmarked, WRONG);
    assert_refuses(rt, alloc, words, &ONE_RGB_PIXEL[..25], CUT);
    assert_refuses(rt, alloc, words, &ONE_RGB_PIXEL[..13], CUT);
    let mut other = ONE_RGB_PIXEL;
    other[3] = 0x67;
    assert_refuses(rt, alloc, words, &other, MAGIC);
}

#[test]
fn wrong_inputs(rt: HostRuntime) {
    let alloc = rt.alloc();
    assert_wrong(&rt, alloc, "dec");
    assert_wrong(&rt, alloc, "dec rgb");
    assert_wrong(&rt, alloc, "dec rgba");
    let mut other = ONE_RGB_PIXEL;
    other[3] = 0x67;
    assert_refuses(&rt, alloc, "info", &other, MAGIC);
    let line = b"qoi_tool: invalid image length: 7 bytes for 2x1\n";
    assert_refuses(&rt, alloc, "enc 2 1", &[0; 7], line);
    let line = b"qoi_tool: invalid image dimensions: 0x1\n";
    assert_refuses(&rt, alloc, "enc 0 1", &PIXEL, line);
}

// Compares what an error's report writes and returns. What its writes return is ignored.
fn assert_reports(rt: &impl Abort, alloc: Global, error: Error, line: &[u8]) {
    let fault = Fault::Image(error);
    let mut err = made::sink(rt, alloc, usize::MAX, NONE);
    let end = End::Fault;
    let mut bad = made::sink(rt, alloc, usize::MAX, Bad { call: 1, end });
    let statuses = [report(&fault, &mut err), report(&fault, &mut bad)];
    assert_bytes(rt, &statuses, &[1, 1]);
    assert_bytes(rt, &err.got, line);
    assert_bytes(rt, &bad.got, &[]);
}

// The longest line of each error but an i/o error.
#[test]
#[rattlefmt::skip]
fn longest_lines(rt: HostRuntime) {
    let alloc = rt.alloc();
    let (size, required, width, height) = (usize::MAX, usize::MAX, u32::MAX, u32::MAX);
    assert_reports(&rt, alloc, Error::InvalidMagic { magic: u32::MAX },
        b"qoi_tool: invalid magic: expected 1903126886, got [255, 255, 255, 255]\n");
    assert_reports(&rt, alloc, Error::InvalidChannels { channels: 255 },
        b"qoi_tool: invalid number of channels: 255\n");
    assert_reports(&rt, alloc, Error::InvalidColorSpace { colorspace: 255 },
        b"qoi_tool: invalid color space: 255 (expected 0 or 1)\n");
    assert_reports(&rt, alloc, Error::InvalidImageDimensions { width, height },
        b"qoi_tool: invalid image dimensions: 4294967295x4294967295\n");
    assert_reports(&rt, alloc, Error::InvalidImageLength { size, width, height },
        b"qoi_tool: invalid image length: 18446744073709551615 bytes for 4294967295x4294967295\n");
    assert_reports(&rt, alloc, Error::OutputBufferTooSmall { size, required },
b"qoi_tool: output buffer size too small: 18446744073709551615 (required: 18446744073709551615)\n");
    assert_reports(&rt, alloc, Error::UnexpectedBufferEnd, CUT);
    assert_reports(&rt, alloc, Error::InvalidPadding, WRONG);
    assert_reports(&rt, alloc, Error::OutOfMemory, b"qoi_tool: out of memory\n");
}
