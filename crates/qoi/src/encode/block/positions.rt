//! The index positions of sixteen pixels, and which of these pixels the table held there already
//! (QOI specification 1.0, "Chunks").
ghost use lib.Lanes.{zip2};
ghost use Rattle.std.specs.Prelude.{◌≡◌, ◌≢◌, ◌<◌, ◌≤◌, ◌-◌, ℕ, List, ◌++◌, map, length, take, drop, slice_index, Bool};
ghost use Rattle.qoi.specs.Qoi.{RgbaPixel, pixel_eq, hash, Past};
ghost use Rattle.qoi.specs.declared.encode.pixels.TheConstants.{ALL_RGBA};
ghost use Rattle.qoi.specs.inner.Table.{Holds};
ghost use Rattle.qoi.specs.inner.block.Lanes.{mask};
ghost use Rattle.qoi.specs.inner.block.Planes.{AreSixteen, ArePlanes, AreFourWords, AreBlockWords};
ghost use Rattle.qoi.specs.inner.block.Positions.{four_times, HasPutBlock};

use crate::encode::block::planes::{Planes, Words};
use crate::encode::pixels::ALL_RGBA;
use crate::encode::table::PixelTable;
use std::simd::prelude::*;

/// The index positions, from 3, 5, 7 and 11 times red, green, blue and alpha.
#[inline(always)]
pub(in crate::encode) fn index_positions(p: Planes) -> u8x16
    ensures { (ps : List RgbaPixel) → AreSixteen ps → ArePlanes ps p → result ≡ map hash ps }
{
    // Three times all, and then 2, 4 and 8 times green, blue and alpha.
    let s = p.r + p.g + p.b + p.a;
    let t = p.a + p.a + p.b;
    let u = t + t + p.g + s;
    (u + u + s) & u8x16::splat(63)
}

/// Stores index positions in the last sixteen bytes of `out`, a piece's room of `ROOM` bytes, which
/// no chunk reaches (`SPARE`); but not if `ALL_RGBA`. To read a position back from there
/// (`read_indices`) is faster than to take it out of the vector. The compiler would take it out of
/// the vector if it knew that the bytes still are the same; but in between `Carry::store_run` stores
/// a byte, which might be one of them.
#[tactic(auto, using(crate::proofs::encoding::stores::StoredParts::front_stays, crate::proofs::encoding::stores::StoredParts::end_stored))]
#[inline(always)]
pub(in crate::encode) fn store_indices<const ROOM: usize, const STYLE: u8>(
    out: &mut [u8],
    indices: u8x16,
)
    requires size { length out.old ≡ ROOM }
    requires room { 16 ≤ ROOM }
    ensures same { length out.new ≡ length out.old }
    ensures front { take (ROOM - 16) out.new ≡ take (ROOM - 16) out.old }
    ensures lanes { STYLE ≢ ALL_RGBA → drop (ROOM - 16) out.new ≡ indices }
{
    if STYLE == ALL_RGBA {
        return;
    }
    indices.copy_to_slice(&mut out[ROOM - 16..]);
}

/// The index positions: as `store_indices` stored them in `out`; but if `ALL_RGBA`, when it didn't,
/// those that were taken out of the vector, `in_vector`.
#[inline(always)]
pub(in crate::encode) fn read_indices<'a, const ROOM: usize, const STYLE: u8>(
    out: &'a [u8],
    in_vector: &'a [u8; 16],
) -> &'a [u8]
    requires size { length out.now ≡ ROOM }
    requires room { 16 ≤ ROOM }
    requires stored { STYLE ≢ ALL_RGBA → drop (ROOM - 16) out.now ≡ in_vector.now }
    ensures { result.now ≡ in_vector.now }
{
    if STYLE == ALL_RGBA {
        return in_vector;
    }
    &out[ROOM - 16..]
}

// Which of four packed pixels are those that were found: four bytes of 255 or 0 for each.
#[inline(always)]
fn equal(found: u32x4, pixels: u32x4) -> u8x16
    ensures { (qs ps : List RgbaPixel) → AreFourWords qs found → AreFourWords ps pixels
        → result ≡ four_times (zip2 pixel_eq qs ps) }
{
    found
        .simd_eq(pixels)
        .select(u32x4::splat(0xffff_ffff), u32x4::splat(0))
        .to_le_bytes()
}

// One byte of each four.
#[tactic(auto, using(crate::proofs::encoding::lanes::StandMasks::one_of_same))]
#[inline(always)]
fn one_of_four(a: u8x16, b: u8x16, c: u8x16, d: u8x16) -> u8x16
    ensures { (p q r s : List Bool) → length p ≡ 4 → length q ≡ 4 → length r ≡ 4 → length s ≡ 4
        → a ≡ four_times p → b ≡ four_times q → c ≡ four_times r → d ≡ four_times s
        → result ≡ map mask (p ++ (q ++ (r ++ s))) }
{
    let low: u8x8 = a.shuffle(b, [0, 4, 8, 12, 16, 20, 24, 28]);
    let high: u8x8 = c.shuffle(d, [0, 4, 8, 12, 16, 20, 24, 28]);
    low.shuffle(high, [0, 1, 2, 3, 4, 5, 6, 7, 8, 9, 10, 11, 12, 13, 14, 15])
}

/// Puts sixteen packed pixels at their index positions, `indices`, one after the other. Returns
/// which of them stood there already: 255 or 0. A repeat does, since its fresh pixel was put
/// (`goes_by_blocks`).
#[inline(always)]
pub(in crate::encode) fn put_block(table: &mut PixelTable, indices: &[u8], w: Words) -> u8x16
    requires long { length indices.now ≡ 16 }
    requires below { (k : ℕ) → k < 16 → slice_index indices.now k < 64 }
    ensures { (held : Past) (ps : List RgbaPixel) → Holds table.old held → AreSixteen ps
        → AreBlockWords ps w → indices.now ≡ map hash ps → HasPutBlock held ps result table.new }
{
    let one = table.swap_four(indices, 0, w.one.to_array());
    let two = table.swap_four(indices, 4, w.two.to_array());
    let three = table.swap_four(indices, 8, w.three.to_array());
    let four = table.swap_four(indices, 12, w.four.to_array());
    one_of_four(
        equal(u32x4::from_array(one), w.one),
        equal(u32x4::from_array(two), w.two),
        equal(u32x4::from_array(three), w.three),
        equal(u32x4::from_array(four), w.four),
    )
}
