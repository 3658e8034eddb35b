//! Callers that cut tiles out of a file by an index of its rows, and put a picture together from them.
//! Only the loop has a proof file, with its invariant.
ghost use Rattle.std.specs.Prelude.{◌≡◌, ℕ, ◌+◌, ◌*◌, ◌≤◌, List, length, Ok, IsTrue, IfOk, OnOk};
ghost use Rattle.qoi.specs.Images.{file_image};
ghost use Rattle.qoi.specs.Qoi.{header_of};
ghost use Rattle.qoi.specs.Rectangles.{rectangle};
ghost use Rattle.qoi.specs.declared.header.Header.{Header};
ghost use Rattle.qoi.specs.pieces.RowIndex.{row_size, IsRowIndex};

use crate::tests::library::rectangles::{Area, paste};
use crate::tests::library::support::{assert_bytes, assert_count, assert_given, made};
use qoi::laws::rectangles::{rectangles_are_parts, rows_are_put};
use qoi::{Channels, Error, RowIndex, decode_header};
use std::alloc::Global;

/// Reads a tile of the image of a file by an index of its rows: no row above the index's point is
/// decoded, and below the tile no more than 3,072 bytes.
pub fn read_tile(index: &RowIndex, file: &[u8], area: Area, tile: &mut [u8]) -> Result<(), Error>
    requires index { IsRowIndex file.now index.now }
    requires size { length tile.old ≡ area.size * area.rows }
    ensures { (h : Header) → header_of file.now ≡ Ok h → OnOk result (tile.new
        ≡ rectangle (row_size h.channels h) area.top area.left area.rows area.size
        (file_image file.now)) }
{
    let mut pixels = index.rows(file, area.top)?;
    pixels.read_rectangle(area.left, area.rows, area.size, tile)
}

/// The same in memory of its own.
pub fn tile(alloc: Global, index: &RowIndex, file: &[u8], area: Area) -> Result<Vec<u8>, Error>
    requires index { IsRowIndex file.now index.now }
    ensures tile { (h : Header) → header_of file.now ≡ Ok h
        → IfOk result (λ tile. tile.items ≡ rectangle (row_size h.channels h)
        area.top area.left area.rows area.size (file_image file.now)) }
    ensures size { IfOk result (λ tile. length tile.items ≡ area.size * area.rows) }
{
    let Some(size) = area.size.checked_mul(area.rows as usize) else {
        return Err(Error::UnexpectedBufferEnd);
    };
    let mut tile = vec![in alloc; 0u8; size]?;
    read_tile(index, file, area, &mut tile)?;
    Ok(tile)
}

// How many rows a tile has, but for the last one.
const ROWS: u32 = 2;

// Whether these are the raw bytes of so many rows.
fn has_rows(raw: &[u8], stride: usize, height: u32) -> bool
    ensures { IsTrue result → length raw.now ≡ stride * height }
{
    stride.checked_mul(height as usize) == Some(raw.len())
}

// Puts a tile of whole rows below those that a picture has of an image already.
fn put_rows(raw: &mut [u8], height: u32, area: Area, tile: &[u8])
    requires picture { length raw.old ≡ area.size * height }
    requires below { area.top + area.rows ≤ height }
    requires whole { area.left ≡ 0 }
    requires tile { length tile.now ≡ area.size * area.rows }
    ensures size { length raw.new ≡ length raw.old }
    ensures rows { (image : List ℕ) → tile.now ≡ rectangle area.size area.top 0 area.rows area.size
        image → rectangle area.size 0 0 area.top area.size raw.old
        ≡ rectangle area.size 0 0 area.top area.size image
        → rectangle area.size 0 0 (area.top + area.rows) area.size raw.new
        ≡ rectangle area.size 0 0 (area.top + area.rows) area.size image }
{
    rows_are_put();
    paste(raw, area.size, height, area, tile);
}

/// Puts the image of a file together from tiles of whole rows, which are cut by one index.
pub fn put_together(alloc: Global, file: &[u8], raw: &mut [u8]) -> Result<(), Error>
    ensures { OnOk result (raw.new ≡ file_image file.now) }
{
    rectangles_are_parts();
    let header = decode_header(file)?;
    let (stride, height) = (header.bytes_per_row(), header.height);
    if !has_rows(raw, stride, height) {
        return Err(Error::UnexpectedBufferEnd);
    }
    let index = RowIndex::new(alloc, file, 1)?;
    let mut top = 0;
    while top < height {
        let area = Area {
            top,
            rows: ROWS.min(height - top),
            left: 0,
            size: stride,
        };
        let tile = tile(alloc, &index, file, area)?;
        put_rows(raw, height, area, &tile);
        top += area.rows;
    }
    Ok(())
}

// Three rows of four bytes.
const PICTURE: [u8; 12] = [11, 12, 13, 14, 21, 22, 23, 24, 31, 32, 33, 34];

#[test]
fn a_tile_by_an_index(rt: HostRuntime) {
    let alloc = rt.alloc();
    let file = made::encoded(&rt, alloc, &PICTURE, 1, 3);
    let index = RowIndex::new(alloc, &file, 2).expect(&rt, "refused");
    let area = Area {
        top: 1,
        rows: 2,
        left: 1,
        size: 2,
    };
    assert_given(&rt, tile(alloc, &index, &file, area), &[22, 23, 32, 33]);
    let mut picture = [0; 12];
    put_together(alloc, &file, &mut picture).expect(&rt, "refused");
    assert_bytes(&rt, &picture, &PICTURE);
}

// Rows of four channels, read in three.
#[test]
fn rows_in_other_channels(rt: HostRuntime) {
    let alloc = rt.alloc();
    let file = made::encoded(&rt, alloc, &PICTURE, 1, 3);
    let index = RowIndex::new(alloc, &file, 2).expect(&rt, "refused");
    let rows = index.rows_in(&file, Channels::Rgb, 1);
    let mut rgb = [0; 6];
    assert_count(&rt, rows.expect(&rt, "refused").read(&mut rgb), 6);
    assert_bytes(&rt, &rgb, &[21, 22, 23, 31, 32, 33]);
}
