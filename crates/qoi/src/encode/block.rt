//! A block, which is sixteen pixels, and its chunks without the repeats at its end. A block goes
//! through the files below in this order: `reading`, `planes`, `steps`, `positions`, `spelling`
//! (with `counting` and `single_repeats`), `storing`. `lanes` has what they do with vectors.
ghost use Rattle.std.specs.Prelude.{◌≡◌, ℕ, Bool, false, ◌+◌, ◌-◌, ◌<◌, List, ◌++◌, map, take, slice_index, slice_index_or, ◌%◌, IsTrue, IsFalse};
ghost use Rattle.qoi.specs.Qoi.{RgbaPixel};
ghost use Rattle.qoi.specs.Raw.{IsChannels, AreOpaque};
ghost use Rattle.qoi.specs.inner.block.Lanes.{fresh_marks, mask, State, lanes_of};
ghost use Rattle.qoi.specs.Styles.{Places, Tight, style_in};
ghost use Rattle.qoi.specs.inner.BlockLoop.{InBlocks};
ghost use Rattle.qoi.specs.inner.Coder.{pixels_in, kept_bytes};
ghost use Rattle.qoi.specs.inner.block.Planes.{ArePacked, ArePlanes, block_pixels, last_pixel};
ghost use Rattle.qoi.specs.inner.block.Vectors.{IsBlock, HasSpelled, AreChanges, ChangesFrom, FitsBlock, HasNoAbsentBlank};

mod counting;
mod lanes;
pub(super) mod planes;
mod positions;
pub(super) mod reading;
mod single_repeats;
mod spelling;
mod steps;
mod storing;

use crate::encode::block::lanes::{all_set, unset_bits, where_is};
use crate::encode::block::planes::{Planes, Words, blanks, make_planes};
use crate::encode::block::positions::{index_positions, put_block, read_indices, store_indices};
use crate::encode::block::reading::first_sixteen;
use crate::encode::block::single_repeats::name_single;
use crate::encode::block::spelling::{Spelled, are_all_rgba, spell_block, spell_rgba};
use crate::encode::block::steps::{Changes, find_changes};
use crate::encode::block::storing::store_sixteen;
use crate::encode::carry::Carry;
use crate::encode::piece::{OpenPiece, Piece};
use crate::encode::pixels::{ALL_RGBA, LoopPixels, style_in};
use crate::encode::table::PixelTable;
use crate::packed::Packed;
use crate::types::Style::{self, Places, Reference, Tight};
use std::simd::prelude::*;

/// Sixteen pixels, packed and in planes, the changes from the pixels before them, and the style
/// that the loop is told, of which `style_in` makes the loop's.
#[derive(Clone, Copy)]
pub(super) struct Block {
    pub(super) words: Words,
    pub(super) planes: Planes,
    pub(super) changes: Changes,
    pub(super) told_style: Style,
    ghost packed: { ArePacked words },
    ghost planes_are: { ArePlanes (block_pixels words) planes },
}

impl Block {
    /// The block at the front, after the last pixel that `carry` has.
    #[inline(always)]
    pub(super) fn first<const N: usize>(pixels: LoopPixels<N>, carry: Carry<N>) -> Block
        ensures changes { ChangesFrom carry.entry.before (block_pixels result.words)
            result.changes }
        ensures pixels { block_pixels result.words ≡ take 16 (pixels_in pixels.entry.rest) }
        ensures opaque { N ≡ 3 → AreOpaque (block_pixels result.words) }
        ensures style { result.told_style ≡ pixels.entry.style }
    {
        let words = first_sixteen::<N>(pixels.rest.bytes);
        let planes = make_planes::<N>(words);
        Block {
            words,
            planes,
            changes: find_changes::<N>(carry.before, planes),
            told_style: pixels.style,
        }
    }

    /// A bit for each fresh pixel, the lowest for the first.
    #[inline(always)]
    pub(super) fn marks(self) -> u64
        ensures { (before : Planes) → ChangesFrom before (block_pixels self.words) self.changes
            → result ≡ fresh_marks (last_pixel before) (block_pixels self.words) }
    {
        unset_bits(self.changes.rep)
    }

    /// Whether in style `Tight` a fresh pixel of the block may be given by another index position
    /// than its own: if it may be transparent black that doesn't stand at its position, 0.
    #[inline(always)]
    pub(super) fn may_have_absent_blank(self, style: Style, table: &PixelTable) -> bool
        ensures tight { IsTrue result → style ≡ Tight }
        ensures none { (before : Planes) → ChangesFrom before (block_pixels self.words) self.changes
            → IsFalse result → style ≡ Tight
            → HasNoAbsentBlank table.now before (block_pixels self.words) }
    {
        match style {
            Reference | Places => false,
            Tight => !self.has_no_absent_blank(table),
        }
    }

    // Whether no fresh pixel of the block is transparent black, or the table holds transparent
    // black at its index position, 0, and no other pixel of the block is put there.
    #[inline(always)]
    fn has_no_absent_blank(self, table: &PixelTable) -> bool
        ensures { (before : Planes) → ChangesFrom before (block_pixels self.words) self.changes
            → IsTrue result → HasNoAbsentBlank table.now before (block_pixels self.words) }
    {
        let blank = blanks(self.planes);
        if all_set(self.changes.rep | !blank) {
            return true;
        }
        let elsewhere = !where_is(index_positions(self.planes), 0);
        table.at(0).is_same(Packed::blank()) & all_set(blank | elsewhere)
    }

    // The block's chunks. `stands` marks the pixels that stand at their index positions, `indices`.
    #[inline(always)]
    fn spell<const N: usize, const STYLE: u8>(
        self,
        stands: u8x16,
        indices: u8x16,
        carry: Carry<N>,
    ) -> Spelled
        ensures { (s : State)
            → AreChanges (lanes_of s.held s.last (block_pixels self.words)) self.changes
            → s.carry ≡ carry.entry.count
            → (style_in STYLE self.told_style ≡ Places → s.named ≡ carry.entry.named)
            → IsBlock s (block_pixels self.words) self.planes.r stands indices
            → HasSpelled (style_in STYLE self.told_style) s (block_pixels self.words) result }
    {
        if STYLE == ALL_RGBA && are_all_rgba(self.changes.steps.a, stands) {
            return spell_rgba(self.changes.rep, self.planes.r);
        }
        let x = spell_block(self.changes, self.planes.r, stands, indices, carry.count);
        match style_in::<STYLE>(self.told_style) {
            Reference | Tight => x,
            Places => name_single(x, stands, indices, carry.named),
        }
    }

    // What is carried after the block's chunks.
    #[inline(always)]
    fn carry<const N: usize>(self, style: Style, x: Spelled, stands: u8x16) -> Carry<N>
        requires channels { IsChannels N }
        requires opaque { N ≡ 3 → AreOpaque (block_pixels self.words) }
        ensures before { result.before ≡ self.planes }
        ensures count { result.count ≡ slice_index x.count 15 % 16 }
        ensures named { (stood : List Bool) → style ≡ Places → stands ≡ map mask stood
            → result.named ≡ slice_index_or stood (15 - result.count) false }
    {
        // If the block doesn't repeat whole, at most fifteen are left: the remainder changes
        // nothing.
        let count = x.count.to_array()[15] % 16;
        let named = match style {
            Reference | Tight => false,
            Places => stands.to_array()[usize::from(15 - count)] == 255,
        };
        Carry {
            before: self.planes,
            count,
            named,
        }
    }
}

/// Appends the run of the carried repeats, if the block's first pixel is fresh, and the chunks of a
/// block that doesn't repeat whole, but for the repeats at its end. Returns what is carried then.
/// Each loop that calls it has a function of its own, which the compiler inlines there.
///
/// If `ALL_RGBA`, an RGBA chunk is expected to give each pixel, and index positions are taken from
/// the vector one by one. That takes longer than to read them back from memory, but then the
/// table's stores keep pace with its reads: where a read runs ahead of a store to the same
/// position, the processor does both and all after them again.
#[inline]
pub(super) fn write_in_lanes<'p, const N: usize, const STYLE: u8, const ROOM: usize>(
    table: &mut PixelTable,
    piece: OpenPiece<'p, ROOM>,
    block: Block,
    carry: Carry<N>,
) -> (Carry<N>, Piece<'p, ROOM>)
    requires { N ≡ 3 → AreOpaque (block_pixels block.words) }
    ensures { (unsent : List ℕ) (n : ℕ) (rest more : List RgbaPixel)
        → FitsBlock (style_in STYLE block.told_style) table.old
        carry.entry.before (block_pixels block.words) block.changes
        → InBlocks (style_in STYLE block.told_style) unsent n
        (block_pixels block.words ++ rest) more
        table.old carry.entry (kept_bytes piece.entry.piece)
        → InBlocks (style_in STYLE block.told_style) unsent n rest more
        table.new result.0 (kept_bytes result.1) }
{
    let style = style_in::<STYLE>(block.told_style);
    let Piece { bytes, end } = piece.piece;
    let indices = index_positions(block.planes);
    // `store_run` stands between `store_indices` and `read_indices`, so that the compiler reads the
    // index positions from memory (`store_indices`).
    store_indices::<ROOM, STYLE>(bytes, indices);
    carry.store_run(style, bytes, end);
    let in_vector = indices.to_array();
    let read = read_indices::<ROOM, STYLE>(bytes, &in_vector);
    let stands = put_block(table, read, block.words);
    let x = block.spell::<N, STYLE>(stands, indices, carry);
    // The run's byte is dropped if there are no repeats, or if the first pixel repeats (255, not
    // 0).
    let start = end + usize::from(carry.count > x.rep.to_array()[0]);
    let end = store_sixteen::<N>(bytes, start, x, block);
    (block.carry(style, x, stands), Piece { bytes, end })
}
