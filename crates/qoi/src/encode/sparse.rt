//! Blocks of which few pixels are fresh, from one fresh pixel to the next (QOI specification 1.0,
//! "Chunks"). The fresh ones are marked by bits.
ghost use Rattle.std.specs.Prelude.{◌≡◌, ◌-◌, ◌%◌, ◌<◌, ◌≤◌, true, Some, length, take, drop, slice_get, IsTrue};
ghost use Rattle.qoi.specs.inner.BlockLoop.{FRONT_CARRIED};
ghost use Rattle.qoi.specs.inner.Coder.{pixels_in, CoderPasses, SPARE};
ghost use Rattle.qoi.specs.inner.block.Lanes.{fresh_marks};

use crate::encode::carry::{Carry, FRONT_CARRIED};
use crate::encode::coder::Coder;
use crate::encode::piece::Piece;
use crate::encode::pixels::{LoopPixels, Pixels};
use crate::encode::table::PixelTable;

// Whether at most two bits are set: each step drops the lowest.
#[inline(always)]
fn are_two_at_most(marks: u64) -> bool {
    let others = marks & marks.wrapping_sub(1);
    others & others.wrapping_sub(1) == 0
}

/// Whether a block with these marks goes from one fresh pixel to the next: if at most two are
/// fresh, and the carried repeats and those at its front surely fit into one run. Not in three
/// channels, where photographs take longer for it; nor the first block of a loop, before which
/// maybe no fresh pixel came.
#[inline(always)]
pub(super) fn goes_by_marks<const N: usize>(
    marks: u64,
    pixels: LoopPixels<N>,
    carry: Carry<N>,
) -> bool
    ensures few { IsTrue result → marks % 2 ≡ 0 → carry.entry.count ≤ FRONT_CARRIED }
    ensures later { IsTrue result
        → length (pixels_in pixels.entry.rest) < length (pixels_in pixels.entry.whole) }
{
    if N == 3 || !are_two_at_most(marks) {
        return false;
    }
    let joins = (usize::from(carry.count) <= FRONT_CARRIED) | (marks % 2 == 1);
    joins && pixels.rest.bytes.len() < pixels.whole.bytes.len()
}

/// Writes the repeats that came before a block and its pixels, of which `marks` has a bit for each
/// fresh one, but for the repeats at its end. Returns the pixels after the block.
#[inline(always)]
pub(super) fn write_marked_pixels<'a, const N: usize, const ROOM: usize>(
    coder: &mut Coder<N>,
    table: &mut PixelTable,
    piece: &mut Piece<ROOM>,
    pixels: LoopPixels<'a, N>,
    marks: u64,
) -> Pixels<'a, N>
    requires few { slice_get (pixels_in pixels.rest) 0 ≡ Some coder.old.last.px
        → coder.old.last.repeats ≤ FRONT_CARRIED }
    requires room { piece.old.end < ROOM - SPARE }
    requires some { 0 < marks }
    requires marks { marks ≡ fresh_marks coder.old.last.px (take 16 (pixels_in pixels.rest)) }
    ensures rest { pixels_in result ≡ drop 16 (pixels_in pixels.entry.rest) }
    ensures less { length (pixels_in result) < length (pixels_in pixels.entry.rest) }
    ensures few { coder.new.last.repeats ≤ FRONT_CARRIED }
    ensures begun { coder.new.last.begun ≡ true }
    ensures written { CoderPasses coder.old table.old piece.old (pixels_in pixels.entry.rest)
        coder.new table.new piece.new (pixels_in result) }
{
    let mut rest = pixels.rest;
    // What is left of the block: how many pixels, and their marks.
    let mut pixels_left = 16;
    let mut marks_left = marks;
    while marks_left != 0 {
        let zeros = marks_left.trailing_zeros();
        let at_front = zeros as usize;
        rest = coder.write_short_group(table, piece, rest, at_front);
        pixels_left -= at_front + 1;
        marks_left = (marks_left >> zeros) / 2;
    }
    coder.last.repeats += pixels_left;
    rest.skip(pixels_left)
}
