//! Callers of the pixel writer, proved by the contracts of its calls alone: an image's raw bytes
//! come in parts, and the file is that of the whole image.
ghost use Rattle.std.specs.Prelude.{◌≡◌, ◌++◌, ◌<◌, IfOk};
ghost use Rattle.qoi.specs.Encoded.{image_file};

use crate::tests::fakes::{ONE_RGB_PIXEL, PIXEL};
use crate::tests::library::support::{assert_both, assert_given};
use qoi::{Encoder, Header, PixelWriter, Result, Style};
use std::alloc::Global;

/// Two parts. The file of an image whose raw bytes are in two slices.
pub fn write_two(
    alloc: Global,
    header: Header,
    style: Style,
    first: &[u8],
    second: &[u8],
) -> Result<Vec<u8>>
    ensures { IfOk result (λ v. v.items ≡ image_file style header (first.now ++ second.now)) }
{
    let mut writer = PixelWriter::new(alloc, header, style, Vec::new(alloc))?;
    writer.write(first)?;
    writer.write(second)?;
    let file = writer.finish()?;
    Ok(file)
}

/// Rows. The file of an image whose raw bytes are handed over row by row.
pub fn write_rows(
    alloc: Global,
    header: Header,
    style: Style,
    raw: &[u8],
    row: usize,
) -> Result<Vec<u8>>
    requires { 0 < row }
    ensures { IfOk result (λ v. v.items ≡ image_file style header raw.now) }
{
    let mut writer = PixelWriter::new(alloc, header, style, Vec::new(alloc))?;
    let mut rest = raw;
    while !rest.is_empty() {
        let (next, after) = rest.split_at(row.min(rest.len()));
        writer.write(next)?;
        rest = after;
    }
    let file = writer.finish()?;
    Ok(file)
}

/// Rows and the whole. Both make the same file.
pub fn rows_and_whole(
    alloc: Global,
    raw: &[u8],
    width: u32,
    height: u32,
    style: Style,
) -> Result<(Vec<u8>, Vec<u8>)>
    ensures { IfOk result (λ x. x.0.items ≡ x.1.items) }
{
    let encoder = Encoder::new(raw, width, height)?.with_style(style);
    let whole = encoder.encode_to_vec(alloc)?;
    let rows = write_rows(alloc, *encoder.header(), encoder.style(), raw, 1024)?;
    Ok((rows, whole))
}

#[test]
fn in_parts_and_rows(rt: HostRuntime) {
    let alloc = rt.alloc();
    let header = Header::default();
    let file = write_two(alloc, header, Style::Places, &PIXEL[..1], &PIXEL[1..]);
    assert_given(&rt, file, &ONE_RGB_PIXEL);
    let file = write_rows(alloc, header, Style::Tight, &PIXEL, 2);
    assert_given(&rt, file, &ONE_RGB_PIXEL);
    let both = rows_and_whole(alloc, &PIXEL, 1, 1, Style::Reference);
    assert_both(&rt, both, &ONE_RGB_PIXEL, &ONE_RGB_PIXEL);
}
