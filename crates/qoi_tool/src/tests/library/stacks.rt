//! Two images, one above the other, are encoded as one, in constant memory and without a loop.
ghost use Rattle.std.specs.Prelude.{◌≡◌, ◌+◌, ◌++◌, ℕ, List, Option, Some, IfOk, IfSome, OnOk};
ghost use Rattle.std.specs.Io.KnownBytes.{Appends};
ghost use Rattle.qoi.specs.declared.types.Style.TheVariants.{Reference};
ghost use Rattle.qoi.specs.Encoded.{image_file};
ghost use Rattle.qoi.specs.EncoderState.{EncoderState};
ghost use Rattle.qoi.specs.Images.{front_image};
ghost use Rattle.qoi.specs.pieces.PixelWriter.{HasTaken, and_raw};

use crate::tests::library::support::images::row;
use crate::tests::library::support::{assert_decoded, assert_given, made};
use qoi::{Channels, Decoder, Error, Header, PixelWriter, Reader, Result, Style};
use std::alloc::Global;
use std::io::Write;
use std::process::Abort;

/// Encodes a decoder's image behind what a writer took. `IfSome` stands where a variable for the bytes
/// ahead would do, so that the prover finds what two calls in a row come to.
pub fn append_image<R: Reader + Drop, W: Write + Drop>(
    decoder: Decoder<R>,
    writer: &mut PixelWriter<W>,
) -> Result<()>
    ensures { (e : EncoderState) (before : Option (List ℕ))
        → HasTaken W.contents e before writer.old → IfSome (R.ahead decoder.reader) (λ bytes.
        OnOk result (HasTaken W.contents
        (and_raw e (front_image decoder.channels decoder.header bytes)) before writer.new)) }
{
    let mut pixels = decoder.into_pixels();
    pixels.copy_to(writer)?;
    Ok(())
}

/// Encodes two decoders' images behind what a writer took.
pub fn append_both<R: Reader + Drop, S: Reader + Drop, W: Write + Drop>(
    above: Decoder<R>,
    below: Decoder<S>,
    writer: &mut PixelWriter<W>,
) -> Result<()>
    ensures { (one other : List ℕ) (e : EncoderState) (before : Option (List ℕ))
        → R.ahead above.reader ≡ Some one → S.ahead below.reader ≡ Some other
        → HasTaken W.contents e before writer.old → OnOk result (HasTaken W.contents
        (and_raw e (front_image above.channels above.header one
        ++ front_image below.channels below.header other)) before writer.new) }
{
    above.into_pixels().copy_to(writer)?;
    below.into_pixels().copy_to(writer)?;
    Ok(())
}

// The header of both images, one above the other; refused if they aren't as wide, or have other channels.
fn header_of_both(above: Header, below: Header) -> Result<Header>
    ensures both { IfOk result (λ h. h ≡ record above { height = above.height + below.height }) }
    ensures fits { OnOk result ((above.width ≡ below.width) × (above.channels ≡ below.channels)) }
{
    let (width, height) = (below.width, below.height);
    match above.height.checked_add(height) {
        Some(height) if width == above.width && below.channels == above.channels => {
            Ok(Header { height, ..above })
        }
        _ => Err(Error::InvalidImageDimensions { width, height }),
    }
}

/// The file, with this header, of an image and then another one.
fn write_both<R: Reader + Drop, S: Reader + Drop, W: Write + Drop>(
    alloc: Global,
    header: Header,
    above: Decoder<R>,
    below: Decoder<S>,
    out: W,
) -> Result<W>
    ensures { (one other : List ℕ) → R.ahead above.reader ≡ Some one
        → S.ahead below.reader ≡ Some other → IfOk result (λ w.
        Appends (W.contents out) (W.contents w) (image_file Reference header
        (front_image above.channels above.header one
        ++ front_image below.channels below.header other))) }
{
    let mut writer = PixelWriter::new(alloc, header, Style::Reference, out)?;
    append_image(above, &mut writer)?;
    append_image(below, &mut writer)?;
    let out = writer.finish()?;
    Ok(out)
}

/// The file of an image above another one, which has as many pixels in a row, and as many channels.
pub fn stack<R: Reader + Drop, S: Reader + Drop, W: Write + Drop>(
    alloc: Global,
    above: Decoder<R>,
    below: Decoder<S>,
    out: W,
) -> Result<W>
    ensures stacked { (one other : List ℕ) → R.ahead above.reader ≡ Some one
        → S.ahead below.reader ≡ Some other → IfOk result (λ w.
        Appends (W.contents out) (W.contents w) (image_file Reference (record above.header {
          channels = above.channels;
          height = above.header.height + below.header.height;
        })
        (front_image above.channels above.header one
        ++ front_image below.channels below.header other))) }
    ensures fits { OnOk result ((above.header.width ≡ below.header.width)
        × (above.channels ≡ below.channels)) }
{
    let first = above.header().with_channels(above.channels());
    let second = below.header().with_channels(below.channels());
    let header = header_of_both(first, second)?;
    let out = write_both(alloc, header, above, below, out)?;
    Ok(out)
}

// A writer of two rows of two pixels.
fn writer_of_four(rt: &impl Abort, alloc: Global) -> PixelWriter<Vec<u8>> {
    let header = Header {
        height: 2,
        ..row(2, Channels::Rgb)
    };
    PixelWriter::new(alloc, header, Style::Reference, Vec::new(alloc)).expect(rt, "refused")
}

// Two pictures of a row each, in both ways, and one of another width.
#[test]
fn one_above_the_other(rt: HostRuntime) {
    let alloc = rt.alloc();
    let above = made::encoded(&rt, alloc, b"above.", 2, 1);
    let below = made::encoded(&rt, alloc, b"below.", 2, 1);
    let (first, second) = (made::slice(&rt, &above), made::stream(&rt, &below[..]));
    let both = stack(alloc, first, second, Vec::new(alloc)).expect(&rt, "refused");
    assert_decoded(&rt, alloc, &mut made::slice(&rt, &both), b"above.below.");
    let (first, second) = (made::slice(&rt, &above), made::slice(&rt, &below));
    let mut writer = writer_of_four(&rt, alloc);
    append_both(first, second, &mut writer).expect(&rt, "refused");
    assert_given(&rt, writer.finish(), &both);
    let tall = made::encoded(&rt, alloc, b"below.", 1, 2);
    let (first, second) = (made::slice(&rt, &above), made::slice(&rt, &tall));
    assert!(rt; stack(alloc, first, second, Vec::new(alloc)).is_err());
}
