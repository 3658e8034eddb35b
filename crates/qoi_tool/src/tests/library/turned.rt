//! A picture is turned upside down: its rows are read by an index of them, the last one first. Only the
//! loop has a proof file, with its invariant.
ghost use Rattle.std.specs.Prelude.{◌≡◌, ◌++◌, ℕ, List, length, Option, Ok, IfOk, OnOk};
ghost use Rattle.std.specs.Io.KnownBytes.{Appends};
ghost use Rattle.qoi.specs.declared.header.Header.{Header};
ghost use Rattle.qoi.specs.declared.types.Style.TheVariants.{Reference};
ghost use Rattle.qoi.specs.Encoded.{image_file};
ghost use Rattle.qoi.specs.Images.{file_image};
ghost use Rattle.qoi.specs.Qoi.{header_of};
ghost use Rattle.qoi.specs.Rectangles.{row_bytes};
ghost use Rattle.qoi.specs.pieces.PixelWriter.{HasTaken};
ghost use Rattle.qoi.specs.pieces.RowIndex.{row_size, IsRowIndex};
ghost use Rattle.qoi_tool.specs.Pictures.{from_below};

use crate::tests::library::support::{assert_decoded, made};
use qoi::{Error, Header, PixelWriter, Result, RowIndex, Style, decode_header};
use std::alloc::Global;
use std::io::Write;

/// Row k of a file's image, by an index of its rows.
fn read_row(index: &RowIndex, file: &[u8], k: u32, row: &mut [u8]) -> Result<()>
    requires { IsRowIndex file.now index.now }
    ensures { (h : Header) → header_of file.now ≡ Ok h → length row.old ≡ row_size h.channels h
        → OnOk result (row.new ≡ row_bytes (row_size h.channels h) (file_image file.now) k) }
{
    if index.rows(file, k)?.read(row)? < row.len() {
        return Err(Error::UnexpectedBufferEnd);
    }
    Ok(())
}

/// Row k of a file's image is written behind what a writer took.
fn write_row<W: Write + Drop>(
    index: &RowIndex,
    file: &[u8],
    k: u32,
    row: &mut [u8],
    writer: &mut PixelWriter<W>,
) -> Result<()>
    requires { IsRowIndex file.now index.now }
    ensures taken { (h : Header) (before : Option (List ℕ)) (done : List ℕ)
        → header_of file.now ≡ Ok h → length row.old ≡ row_size h.channels h
        → HasTaken W.contents (record { raw = done; header = h; style = Reference }) before
        writer.old
        → OnOk result (HasTaken W.contents (record {
          raw = done ++ row_bytes (row_size h.channels h) (file_image file.now) k;
          header = h;
          style = Reference;
        }) before writer.new) }
    ensures size { length row.new ≡ length row.old }
{
    read_row(index, file, k, row)?;
    writer.write(row)?;
    Ok(())
}

/// The rows of a file's image, the last one first, are written.
fn write_from_below<W: Write + Drop>(
    alloc: Global,
    file: &[u8],
    header: Header,
    row: &mut [u8],
    out: W,
) -> Result<W>
    requires header { header_of file.now ≡ Ok header }
    requires row { length row.old ≡ row_size header.channels header }
    ensures { IfOk result (λ w. Appends (W.contents out) (W.contents w)
        (image_file Reference header (from_below (row_size header.channels header)
        header.height (file_image file.now) header.height))) }
{
    let index = RowIndex::new(alloc, file, 16)?;
    let mut writer = PixelWriter::new(alloc, header, Style::Reference, out)?;
    for i in 0..header.height {
        write_row(&index, file, header.height - 1 - i, row, &mut writer)?;
    }
    Ok(writer.finish()?)
}

/// The file of a file's image upside down, in the memory of a row and an index.
pub fn upside_down<W: Write + Drop>(alloc: Global, file: &[u8], out: W) -> Result<W>
    ensures { (h : Header) → header_of file.now ≡ Ok h → IfOk result (λ w.
        Appends (W.contents out) (W.contents w) (image_file Reference h
        (from_below (row_size h.channels h) h.height (file_image file.now) h.height))) }
{
    let header = decode_header(file)?;
    let mut row = vec![in alloc; 0u8; header.bytes_per_row()]?;
    let out = write_from_below(alloc, file, header, &mut row, out)?;
    Ok(out)
}

#[test]
fn three_rows(rt: HostRuntime) {
    let alloc = rt.alloc();
    let file = made::encoded(&rt, alloc, b"one.two.six.", 1, 3);
    let turned = upside_down(alloc, &file, Vec::new(alloc)).expect(&rt, "refused");
    assert_decoded(&rt, alloc, &mut made::slice(&rt, &turned), b"six.two.one.");
}
