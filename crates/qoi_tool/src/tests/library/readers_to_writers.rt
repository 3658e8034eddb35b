//! Callers from any reader to any writer, that hold a row: a file is encoded again, in chosen
//! channels, and a smaller picture is made of it. Only the loops have proof files, with their
//! invariants.
ghost use Rattle.std.specs.Prelude.{◌≡◌, ◌<◌, ◌≤◌, ◌+◌, ◌^◌, ℕ, List, Option, length, Some, IfOk, OnOk};
ghost use Rattle.std.specs.Io.KnownBytes.{Appends};
ghost use Rattle.qoi.specs.declared.types.Style.TheVariants.{Reference};
ghost use Rattle.qoi.specs.Encoded.{image_file};
ghost use Rattle.qoi.specs.EncoderState.{EncoderState};
ghost use Rattle.qoi.specs.pieces.PixelWriter.{HasTaken};
ghost use Rattle.qoi.specs.Images.{front_image};
ghost use Rattle.qoi.specs.Sent.{SendsSomeFile};

use crate::tests::fakes::ONE_RGB_PIXEL;
use crate::tests::library::support::images::row;
use crate::tests::library::support::{assert_decoded, assert_given, made};
use qoi::{Channels, Decoder, Header, PixelReader, PixelWriter, Reader, Result, Style};
use std::alloc::Global;
use std::io::Write;
use std::process::Abort;

/// A file is encoded again, by a row that is an array.
pub fn by_array<R: Reader + Drop, W: Write + Drop>(
    alloc: Global,
    decoder: Decoder<R>,
    out: W,
) -> Result<W>
    ensures { (bytes : List ℕ) → R.ahead decoder.reader ≡ Some bytes → IfOk result (λ w.
        Appends (W.contents out) (W.contents w) (image_file Reference
        (record decoder.header { channels = decoder.channels })
        (front_image decoder.channels decoder.header bytes))) }
{
    let header = decoder.header().with_channels(decoder.channels());
    let mut writer = PixelWriter::new(alloc, header, Style::Reference, out)?;
    let mut pixels = decoder.into_pixels();
    let mut row = [0; 4096];
    while pixels.left() > 0 {
        let count = pixels.read(&mut row)?;
        writer.write(&row[..count])?;
    }
    Ok(writer.finish()?)
}

// Where in a row byte i of its every second pixel stands.
fn twice_as_far(i: usize, channels: Channels) -> usize
    requires { i + i < 2 ^ 64 }
    ensures { result ≤ i + i }
{
    match channels {
        Channels::Rgb => i + i / 3 * 3,
        Channels::Rgba => i + i / 4 * 4,
    }
}

/// Every second pixel of a row.
pub fn halve(row: &[u8], half: &mut [u8], channels: Channels)
    requires { length half.old + length half.old ≤ length row.now }
    ensures { length half.new ≡ length half.old }
{
    for i in 0..half.len() {
        half[i] = row[twice_as_far(i, channels)];
    }
}

/// Writes every second pixel of every second row, as many as the writer lacks.
pub fn shrink<R: Reader, W: Write + Drop>(
    pixels: &mut PixelReader<R>,
    row: &mut [u8],
    half: &mut [u8],
    writer: &mut PixelWriter<W>,
) -> Result<()>
    requires fits { length half.old + length half.old ≤ length row.old }
    requires some { 0 < length half.old }
    ensures { (e : EncoderState) (before : Option (List ℕ))
        → HasTaken W.contents e before writer.old
        → OnOk result ((f : EncoderState) × (f.header ≡ e.header) × (f.style ≡ e.style)
        × HasTaken W.contents f before writer.new) }
{
    while writer.left() > 0 {
        pixels.read(row)?;
        pixels.read(row)?;
        halve(row, half, pixels.channels());
        writer.write(half)?;
    }
    Ok(())
}

/// The file of a smaller picture, in its header's channels: of every second row every second pixel.
pub fn thumbnail<R: Reader + Drop, W: Write + Drop>(
    alloc: Global,
    decoder: Decoder<R>,
    small: Header,
    row: &mut [u8],
    half: &mut [u8],
    out: W,
) -> Result<W>
    requires fits { length half.old + length half.old ≤ length row.old }
    requires some { 0 < length half.old }
    ensures { IfOk result (λ w.
        SendsSomeFile Reference small (W.contents out) (W.contents w)) }
{
    let mut writer = PixelWriter::new(alloc, small, Style::Reference, out)?;
    let mut pixels = decoder.with_channels(small.channels).into_pixels();
    shrink(&mut pixels, row, half, &mut writer)?;
    let out = writer.finish()?;
    Ok(out)
}

// The file of a pixel.
#[test]
fn files_are_encoded_again(rt: HostRuntime) {
    let alloc = rt.alloc();
    let file: &[u8] = &ONE_RGB_PIXEL;
    let decoder = made::slice(&rt, file);
    assert_given(&rt, by_array(alloc, decoder, Vec::new(alloc)), file);
}

// The file of a smaller picture has these raw bytes.
fn assert_small(rt: &impl Abort, alloc: Global, small: Result<Vec<u8>>, raw: &[u8]) {
    let file = small.expect(rt, "refused");
    assert_decoded(rt, alloc, &mut made::slice(rt, &file), raw);
}

// Two rows of four pixels: of the second every second pixel, in three channels and in four.
#[test]
fn a_smaller_picture(rt: HostRuntime) {
    let alloc = rt.alloc();
    let file = made::encoded(&rt, alloc, b"first row...sEcOnD rOw..", 4, 2);
    let (mut whole, mut half) = ([0; 16], [0; 8]);
    let decoder = made::slice(&rt, &file);
    let three = row(2, Channels::Rgb);
    let (short, few) = (&mut whole[..12], &mut half[..6]);
    let small = thumbnail(alloc, decoder, three, short, few, Vec::new(alloc));
    assert_small(&rt, alloc, small, b"sEc rO");
    let decoder = made::slice(&rt, &file);
    let four = row(2, Channels::Rgba);
    let small = thumbnail(alloc, decoder, four, &mut whole, &mut half, Vec::new(alloc));
    assert_small(&rt, alloc, small, b"sEc\xff rO\xff");
}
