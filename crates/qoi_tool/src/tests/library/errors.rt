//! Texts for debugging, and an i/o error as the library's own.
use crate::tests::library::support::assert_text;
use qoi::parts::{Chunk, Pixel};
use qoi::{Channels, ColorSpace, Error, Header, Style};
use std::alloc::Global;
use std::fmt::Debug;
use std::io;
use std::process::Abort;

// Compares a text for debugging.
fn assert_shows<T: Debug>(rt: &impl Abort, alloc: Global, value: &T, text: &str) {
    let shown = format!(in alloc; "{value:?}").expect(rt, "refused");
    assert_text(rt, shown.as_str(), text);
}

// Each error but an i/o error.
#[test]
#[rattlefmt::skip]
fn errors_are_shown(rt: HostRuntime) {
    let alloc = rt.alloc();
    let (width, height, size) = (1, 2, 5);
    assert_shows(&rt, alloc, &Error::InvalidMagic { magic: 0x0102_03ff },
        "InvalidMagic { magic: 16909311 }");
    assert_shows(&rt, alloc, &Error::InvalidChannels { channels: 5 },
        "InvalidChannels { channels: 5 }");
    assert_shows(&rt, alloc, &Error::InvalidColorSpace { colorspace: 2 },
        "InvalidColorSpace { colorspace: 2 }");
    assert_shows(&rt, alloc, &Error::InvalidImageDimensions { width, height },
        "InvalidImageDimensions { width: 1, height: 2 }");
    assert_shows(&rt, alloc, &Error::InvalidImageLength { size, width, height },
        "InvalidImageLength { size: 5, width: 1, height: 2 }");
    assert_shows(&rt, alloc, &Error::OutputBufferTooSmall { size, required: 26 },
        "OutputBufferTooSmall { size: 5, required: 26 }");
    assert_shows(&rt, alloc, &Error::UnexpectedBufferEnd, "UnexpectedBufferEnd");
    assert_shows(&rt, alloc, &Error::InvalidPadding, "InvalidPadding");
    assert_shows(&rt, alloc, &Error::OutOfMemory, "OutOfMemory");
}

// An i/o error of a kind alone, and one with words of its own.
#[test]
fn io_errors_are_shown(rt: HostRuntime) {
    let alloc = rt.alloc();
    let kind = Error::from(io::Error::from(io::ErrorKind::BrokenPipe));
    assert_shows(&rt, alloc, &kind, "IoError(Kind(BrokenPipe))");
    let named = Error::from(io::Error::new(io::ErrorKind::Other, "x"));
    let text = "IoError(Custom { kind: Other, error: \"x\" })";
    assert_shows(&rt, alloc, &named, text);
}

// An error of std's trait, through the bound.
fn is_error<E: std::error::Error>(_error: &E) -> bool {
    true
}

#[test]
fn io_errors_are_kept(rt: HostRuntime) {
    let error = Error::from(io::Error::from(io::ErrorKind::BrokenPipe));
    assert!(rt; is_error(&error));
    assert!(rt; matches!(error, Error::IoError(e) if e.kind() == io::ErrorKind::BrokenPipe));
}

#[test]
fn types_are_shown(rt: HostRuntime) {
    let alloc = rt.alloc();
    assert_shows(&rt, alloc, &Channels::Rgba, "Rgba");
    assert_shows(&rt, alloc, &ColorSpace::Linear, "Linear");
    assert_shows(&rt, alloc, &Style::Reference, "Reference");
    assert_shows(&rt, alloc, &Style::Places, "Places");
    assert_shows(&rt, alloc, &Style::Tight, "Tight");
    let text = "Header { width: 1, height: 1, channels: Rgb, colorspace: Srgb }";
    assert_shows(&rt, alloc, &Header::default(), text);
    assert_shows(&rt, alloc, &Pixel::<3>::new(), "Pixel([0, 0, 0])");
    assert_shows(&rt, alloc, &Chunk::Luma(128, 136), "Luma(128, 136)");
}
