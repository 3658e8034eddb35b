//! A contact sheet: the images of many files, one below the other, are encoded as one, in constant
//! memory; or pictures beside each other, row by row. Only the loops have a proof file, with their
//! invariants.
ghost use Rattle.std.specs.Prelude.{◌≡◌, ℕ, List, Ok, Option, IfOk, OnOk, take, drop};
ghost use Rattle.std.specs.List.{flat_map};
ghost use Rattle.std.specs.Io.KnownBytes.{Appends};
ghost use Rattle.qoi.specs.declared.header.Header.{Header};
ghost use Rattle.qoi.specs.declared.types.Style.TheVariants.{Reference};
ghost use Rattle.qoi.specs.Encoded.{image_file};
ghost use Rattle.qoi.specs.EncoderState.{EncoderState};
ghost use Rattle.qoi.specs.Images.{file_image_in};
ghost use Rattle.qoi.specs.Qoi.{header_of};
ghost use Rattle.qoi.specs.pieces.PixelWriter.{HasTaken, and_raw};

use crate::tests::library::support::images::row;
use crate::tests::library::support::{assert_decoded, made};
use qoi::{Channels, Decoder, Error, Header, PixelWriter, Result, Style};
use std::alloc::Global;
use std::io::Write;

/// Encodes a file's image, in the sheet's channels, behind what the sheet took. It is refused if it is
/// narrower or wider.
pub fn append_file<W: Write + Drop>(file: &[u8], sheet: &mut PixelWriter<W>) -> Result<()>
    ensures image { (e : EncoderState) (before : Option (List ℕ))
        → HasTaken W.contents e before sheet.old → OnOk result (HasTaken W.contents
        (and_raw e (file_image_in e.header.channels file.now)) before sheet.new) }
    ensures fits { (e : EncoderState) (before : Option (List ℕ))
        → HasTaken W.contents e before sheet.old → OnOk result ((h : Header)
        × (header_of file.now ≡ Ok h) × (h.width ≡ e.header.width)) }
{
    let of_sheet = *sheet.header();
    let decoder = Decoder::new(file)?.with_channels(of_sheet.channels);
    let Header { width, height, .. } = *decoder.header();
    if width != of_sheet.width {
        return Err(Error::InvalidImageDimensions { width, height });
    }
    let mut pixels = decoder.into_pixels();
    pixels.copy_to(sheet)?;
    Ok(())
}

/// Encodes the images of files, one below the other, behind what the sheet took.
pub fn append_files<W: Write + Drop>(files: &[&[u8]], sheet: &mut PixelWriter<W>) -> Result<()>
    ensures { (e : EncoderState) (before : Option (List ℕ))
        → HasTaken W.contents e before sheet.old → OnOk result (HasTaken W.contents
        (and_raw e (flat_map (λ file. file_image_in e.header.channels file.now) files.now)) before
        sheet.new) }
{
    for file in files {
        append_file(file, sheet)?;
    }
    Ok(())
}

/// Encodes a row of pictures that stand beside each other, behind what the sheet took: of each so many
/// raw bytes, behind so many.
pub fn append_row<W: Write + Drop>(
    pictures: &[&[u8]],
    above: usize,
    size: usize,
    sheet: &mut PixelWriter<W>,
) -> Result<()>
    ensures { (e : EncoderState) (before : Option (List ℕ))
        → HasTaken W.contents e before sheet.old → OnOk result (HasTaken W.contents
        (and_raw e (flat_map (λ p. take size (drop above p.now)) pictures.now)) before
        sheet.new) }
{
    for p in pictures {
        let Some(rest) = p.get(above..) else {
            return Err(Error::UnexpectedBufferEnd);
        };
        let Some(row) = rest.get(..size) else {
            return Err(Error::UnexpectedBufferEnd);
        };
        sheet.write(row)?;
    }
    Ok(())
}

/// The file, with this header, of the images of files, one below the other. Each has its width, and
/// they have its height together.
pub fn contact_sheet<W: Write + Drop>(
    alloc: Global,
    header: Header,
    files: &[&[u8]],
    out: W,
) -> Result<W>
    ensures { IfOk result (λ w. Appends (W.contents out) (W.contents w) (image_file Reference
        header (flat_map (λ file. file_image_in header.channels file.now) files.now))) }
{
    let mut sheet = PixelWriter::new(alloc, header, Style::Reference, out)?;
    append_files(files, &mut sheet)?;
    let out = sheet.finish()?;
    Ok(out)
}

// Three pictures of two pixels' width, of one row or two; too few, too many, and one that is narrower.
#[test]
fn three_pictures(rt: HostRuntime) {
    let alloc = rt.alloc();
    let header = Header {
        height: 4,
        ..row(2, Channels::Rgb)
    };
    let first = made::encoded(&rt, alloc, b"first.", 2, 1);
    let second = made::encoded(&rt, alloc, b"second rows.", 2, 2);
    let four = made::encoded(&rt, alloc, b"fou-rth-", 2, 1);
    let files: [&[u8]; 3] = [&first, &second, &four];
    let sheet = contact_sheet(alloc, header, &files, Vec::new(alloc)).expect(&rt, "refused");
    assert_decoded(
        &rt,
        alloc,
        &mut made::slice(&rt, &sheet),
        b"first.second rows.fourth",
    );
    assert!(&rt; contact_sheet(alloc, header, &files[..2], Vec::new(alloc)).is_err());
    let more: [&[u8]; 4] = [&first, &second, &four, &first];
    assert!(&rt; contact_sheet(alloc, header, &more, Vec::new(alloc)).is_err());
    let narrow = made::encoded(&rt, alloc, b"new", 1, 1);
    let other: [&[u8]; 3] = [&first, &second, &narrow];
    assert!(&rt; contact_sheet(alloc, header, &other, Vec::new(alloc)).is_err());
}

// Three pictures of a pixel's width, beside each other: both of their rows, and a third, which they lack.
#[test]
fn pictures_beside_each_other(rt: HostRuntime) {
    let alloc = rt.alloc();
    let header = Header {
        height: 2,
        ..row(3, Channels::Rgb)
    };
    let sheet = PixelWriter::new(alloc, header, Style::Reference, Vec::new(alloc));
    let mut sheet = sheet.expect(&rt, "refused");
    let pictures: [&[u8]; 3] = [b"abcdef", b"ABCDEF", b"123456"];
    append_row(&pictures, 0, 3, &mut sheet).expect(&rt, "refused");
    append_row(&pictures, 3, 3, &mut sheet).expect(&rt, "refused");
    assert!(&rt; append_row(&pictures, 6, 3, &mut sheet).is_err());
    let file = sheet.finish().expect(&rt, "refused");
    assert_decoded(
        &rt,
        alloc,
        &mut made::slice(&rt, &file),
        b"abcABC123defDEF456",
    );
}
