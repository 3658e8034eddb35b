//! Callers that take a row or cut a rectangle out of a picture, in memory or while its rows are
//! decoded, and that paste one into a picture. Only the loops have proof files, with their invariants.
ghost use Rattle.std.specs.Prelude.{◌≡◌, ◌+◌, ◌*◌, ◌≤◌, ℕ, List, length, Some, Ok, IfOk, OnOk};
ghost use Rattle.qoi.specs.declared.header.Header.{Header};
ghost use Rattle.qoi.specs.Qoi.{header_of};
ghost use Rattle.qoi.specs.Images.{front_image, file_image};
ghost use Rattle.qoi.specs.Rectangles.{row_bytes, row_size, rectangle, KeepsOutside};

use crate::tests::library::support::{assert_bytes, assert_cut, assert_given, made};
use qoi::laws::rectangles::{rows_are_put, rows_that_come};
use qoi::{Decoder, Error, Reader};
use std::alloc::Global;

/// Of each of `rows` rows, from row `top` on, the `size` bytes from byte `left` on.
#[derive(Clone, Copy)]
pub struct Area {
    pub top: u32,
    pub rows: u32,
    pub left: usize,
    pub size: usize,
}

/// Row k of a picture whose rows have `stride` bytes.
pub fn row(raw: &[u8], stride: usize, k: usize) -> &[u8]
    requires { stride * k + stride ≤ length raw.now }
    ensures row { result.now ≡ row_bytes stride raw.now k }
    ensures size { length result.now ≡ stride }
{
    let at = stride * k;
    &raw[at..at + stride]
}

/// A tile cut out of a picture, which has `height` rows of `stride` bytes.
pub fn cut(
    alloc: Global,
    raw: &[u8],
    stride: usize,
    height: u32,
    area: Area,
) -> Result<Vec<u8>, Error>
    requires picture { stride * height ≤ length raw.now }
    requires below { area.top + area.rows ≤ height }
    requires within { area.left + area.size ≤ stride }
    ensures { IfOk result (λ tile.
        tile.items ≡ rectangle stride area.top area.left area.rows area.size raw.now) }
{
    rows_that_come();
    let mut tile = Vec::new(alloc);
    for k in 0..area.rows {
        let row = row(raw, stride, (area.top + k) as usize);
        tile.extend_from_slice(&row[area.left..area.left + area.size])?;
    }
    Ok(tile)
}

/// Row k of an image from any reader: the rows above it are decoded, and none of them is kept.
pub fn row_of<R: Reader + Drop>(decoder: Decoder<R>, k: u32, row: &mut [u8]) -> Result<(), Error>
    ensures { (bytes : List ℕ) → R.ahead decoder.reader ≡ Some bytes
        → length row.old ≡ row_size decoder.channels decoder.header
        → OnOk result (row.new ≡ row_bytes (length row.old)
        (front_image decoder.channels decoder.header bytes) k) }
{
    let mut pixels = decoder.into_pixels();
    pixels.skip_rows(k)?;
    if pixels.read(row)? < row.len() {
        return Err(Error::UnexpectedBufferEnd);
    }
    Ok(())
}

/// A tile cut out of an image from any reader while that is decoded, in the memory of the tile.
pub fn cut_rows<R: Reader + Drop>(
    decoder: Decoder<R>,
    area: Area,
    tile: &mut [u8],
) -> Result<(), Error>
    requires { length tile.old ≡ area.size * area.rows }
    ensures { (bytes : List ℕ) → R.ahead decoder.reader ≡ Some bytes → OnOk result
        (tile.new ≡ rectangle (row_size decoder.channels decoder.header) area.top area.left
        area.rows area.size (front_image decoder.channels decoder.header bytes)) }
{
    let mut pixels = decoder.into_pixels();
    pixels.skip_rows(area.top)?;
    pixels.read_rectangle(area.left, area.rows, area.size, tile)
}

/// A tile cut out of the image of a file, in the memory of the tile.
pub fn cut_file(alloc: Global, file: &[u8], area: Area) -> Result<Vec<u8>, Error>
    ensures { (h : Header) → header_of file.now ≡ Ok h
        → IfOk result (λ tile. tile.items ≡ rectangle (row_size h.channels h)
        area.top area.left area.rows area.size (file_image file.now)) }
{
    let Some(size) = area.size.checked_mul(area.rows as usize) else {
        return Err(Error::UnexpectedBufferEnd);
    };
    let mut tile = vec![in alloc; 0u8; size]?;
    cut_rows(Decoder::new(file)?, area, &mut tile)?;
    Ok(tile)
}

/// Puts a tile into a picture, which has `height` rows of `stride` bytes.
pub fn paste(raw: &mut [u8], stride: usize, height: u32, area: Area, tile: &[u8])
    requires picture { stride * height ≤ length raw.old }
    requires below { area.top + area.rows ≤ height }
    requires within { area.left + area.size ≤ stride }
    requires tile { length tile.now ≡ area.size * area.rows }
    ensures pasted { rectangle stride area.top area.left area.rows area.size raw.new ≡ tile.now }
    ensures stays { KeepsOutside stride area.top area.left area.rows area.size raw.old raw.new }
{
    rows_that_come();
    rows_are_put();
    for k in 0..area.rows {
        let at = stride * (area.top + k) as usize + area.left;
        raw[at..at + area.size].copy_from_slice(row(tile, area.size, k as usize));
    }
}

// Three rows of four bytes.
const PICTURE: [u8; 12] = [11, 12, 13, 14, 21, 22, 23, 24, 31, 32, 33, 34];

// Its last two rows, without their first byte and their last.
const MIDDLE: Area = Area {
    top: 1,
    rows: 2,
    left: 1,
    size: 2,
};

#[test]
fn a_tile_of_a_picture(rt: HostRuntime) {
    assert_given(
        &rt,
        cut(rt.alloc(), &PICTURE, 4, 3, MIDDLE),
        &[22, 23, 32, 33],
    );
    let mut picture = PICTURE;
    paste(&mut picture, 4, 3, MIDDLE, &[1, 2, 3, 4]);
    assert_bytes(&rt, &picture, &[11, 12, 13, 14, 21, 1, 2, 24, 31, 3, 4, 34]);
}

#[test]
fn a_tile_of_a_file(rt: HostRuntime) {
    // One pixel of four channels in a row.
    let file = made::encoded(&rt, rt.alloc(), &PICTURE, 1, 3);
    assert_given(&rt, cut_file(rt.alloc(), &file, MIDDLE), &[22, 23, 32, 33]);
    let wide = Area { size: 4, ..MIDDLE };
    let refused = cut_file(rt.alloc(), &file, wide);
    assert_cut(&rt, refused);
}

// The second of two rows.
#[test]
fn one_row(rt: HostRuntime) {
    let file = made::encoded(&rt, rt.alloc(), b"first.second", 2, 2);
    let mut row = [0; 6];
    row_of(made::slice(&rt, &file), 1, &mut row).expect(&rt, "refused");
    assert_bytes(&rt, &row, b"second");
}
