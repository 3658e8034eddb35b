//! Callers that copy an image from a reader to a writer, in constant memory, without a loop and
//! without a proof file: a file in its shortest form, a file without alpha, a strip of a picture.
ghost use Rattle.std.specs.Prelude.{◌≡◌, ◌≤◌, ℕ, List, length, Some, Ok, IfOk};
ghost use Rattle.std.specs.Io.KnownBytes.{Appends};
ghost use Rattle.qoi.specs.declared.header.Header.{Header};
ghost use Rattle.qoi.specs.declared.types.Channels.TheVariants.{Rgb};
ghost use Rattle.qoi.specs.declared.types.Style.{Style};
ghost use Rattle.qoi.specs.declared.types.Style.TheVariants.{Reference, Tight};
ghost use Rattle.qoi.specs.Encoded.{image_file, IsFileOf};
ghost use Rattle.qoi.specs.Images.{front_image, file_image, file_image_in};
ghost use Rattle.qoi.specs.Qoi.{header_of};
ghost use Rattle.qoi.specs.Rectangles.{rectangle, row_size};
ghost use Rattle.qoi.specs.Sent.{SendsFile};
ghost use Rattle.qoi.specs.pieces.PixelWriter.{HasTaken};
ghost use Rattle.qoi.specs.pieces.RowIndex.{IsRowIndex};

use crate::tests::library::support::images::{file_of, row};
use crate::tests::library::support::{assert_decoded, assert_given, made};
use qoi::{Channels, Decoder, Header, PixelWriter, Reader, Result, RowIndex, Style};
use std::alloc::Global;
use std::io::{BufRead, Write};

/// A pixel writer, of a file with this header, that took a decoder's image. An image may follow.
pub fn begin<R: Reader + Drop, W: Write + Drop>(
    alloc: Global,
    header: Header,
    style: Style,
    decoder: Decoder<R>,
    out: W,
) -> Result<PixelWriter<W>>
    ensures { (bytes : List ℕ) → R.ahead decoder.reader ≡ Some bytes → IfOk result
        (HasTaken W.contents (record {
          raw = front_image decoder.channels decoder.header bytes;
          header = header;
          style = style;
        }) (W.contents out)) }
{
    let mut writer = PixelWriter::new(alloc, header, style, out)?;
    let mut pixels = decoder.into_pixels();
    pixels.copy_to(&mut writer)?;
    Ok(writer)
}

/// A decoder's image is sent as a file with this header.
pub fn send<R: Reader + Drop, W: Write + Drop>(
    alloc: Global,
    header: Header,
    style: Style,
    decoder: Decoder<R>,
    out: W,
) -> Result<W>
    ensures sends { (bytes : List ℕ) → R.ahead decoder.reader ≡ Some bytes → IfOk result (λ w.
        (n : ℕ) × SendsFile (record {
          raw = front_image decoder.channels decoder.header bytes;
          header = header;
          style = style;
        }) (W.contents out) (W.contents w) n) }
    ensures sent { (bytes : List ℕ) → R.ahead decoder.reader ≡ Some bytes → IfOk result (λ w.
        Appends (W.contents out) (W.contents w) (image_file style header
        (front_image decoder.channels decoder.header bytes))) }
    ensures no_longer { (bytes other : List ℕ) (in_style : Style)
        → R.ahead decoder.reader ≡ Some bytes → style ≡ Tight
        → IsFileOf in_style header (front_image decoder.channels decoder.header bytes) other
        → IfOk result (λ w. length (image_file style header
        (front_image decoder.channels decoder.header bytes)) ≤ length other) }
{
    let writer = begin(alloc, header, style, decoder, out)?;
    let out = writer.finish()?;
    Ok(out)
}

/// A file in its shortest form.
pub fn shrink<R: BufRead + Drop, W: Write + Drop>(alloc: Global, input: R, out: W) -> Result<W>
    ensures sent { (bytes : List ℕ) (h : Header) → R.remaining input ≡ Some bytes
        → header_of bytes ≡ Ok h → IfOk result (λ w. Appends (W.contents out) (W.contents w)
        (image_file Tight h (file_image bytes))) }
    ensures no_longer { (bytes other : List ℕ) (h : Header) (style : Style)
        → R.remaining input ≡ Some bytes → header_of bytes ≡ Ok h
        → IsFileOf style h (file_image bytes) other
        → IfOk result (λ w. length (image_file Tight h (file_image bytes)) ≤ length other) }
{
    let decoder = Decoder::from_buf_read(input)?;
    let header = *decoder.header();
    let out = send(alloc, header, Style::Tight, decoder, out)?;
    Ok(out)
}

/// A file in three channels: alpha is dropped.
pub fn to_rgb<R: BufRead + Drop, W: Write + Drop>(alloc: Global, input: R, out: W) -> Result<W>
    ensures sent { (bytes : List ℕ) (h : Header) → R.remaining input ≡ Some bytes
        → header_of bytes ≡ Ok h → IfOk result (λ w. Appends (W.contents out) (W.contents w)
        (image_file Reference (record h { channels = Rgb }) (file_image_in Rgb bytes))) }
{
    let decoder = Decoder::from_buf_read(input)?.with_channels(Channels::Rgb);
    let header = decoder.header().with_channels(Channels::Rgb);
    let out = send(alloc, header, Style::Reference, decoder, out)?;
    Ok(out)
}

/// Some rows of a picture, as a file of their own: as many as its header says, from a row on.
pub fn strip<W: Write + Drop>(
    alloc: Global,
    index: &RowIndex,
    file: &[u8],
    first: u32,
    header: Header,
    out: W,
) -> Result<W>
    requires { IsRowIndex file.now index.now }
    ensures { (h : Header) → header_of file.now ≡ Ok h → IfOk result (λ w.
        Appends (W.contents out) (W.contents w) (image_file Reference header
        (rectangle (row_size h.channels h) first 0 header.height (row_size h.channels h)
        (file_image file.now)))) }
{
    let mut pixels = index.rows(file, first)?;
    let mut copy = PixelWriter::new(alloc, header, Style::Reference, out)?;
    pixels.copy_rows_to(&mut copy, header.height)?;
    let out = copy.finish()?;
    Ok(out)
}

// A file of two equal pixels in full gets shorter; alpha is dropped; the second row is cut out.
#[test]
fn callers_copy(rt: HostRuntime) {
    let alloc = rt.alloc();
    let long = [255, 1, 2, 3, 4, 255, 1, 2, 3, 4];
    let long = file_of(&rt, alloc, row(2, Channels::Rgba), &long);
    let short = file_of(&rt, alloc, row(2, Channels::Rgba), &[255, 1, 2, 3, 4, 0xc0]);
    let reader = made::buffer(&rt, alloc, 8, long.as_slice());
    assert_given(&rt, shrink(alloc, reader, Vec::new(alloc)), &short);
    let reader = made::buffer(&rt, alloc, 8, long.as_slice());
    let rgb = to_rgb(alloc, reader, Vec::new(alloc)).expect(&rt, "refused");
    assert_decoded(&rt, alloc, &mut made::slice(&rt, &rgb), &[1, 2, 3, 1, 2, 3]);
    let file = made::encoded(&rt, alloc, b"first.second", 2, 2);
    let index = RowIndex::new(alloc, &file, 1).expect(&rt, "refused");
    let header = row(2, Channels::Rgb);
    let part = strip(alloc, &index, &file, 1, header, Vec::new(alloc)).expect(&rt, "refused");
    assert_decoded(&rt, alloc, &mut made::slice(&rt, &part), b"second");
}
