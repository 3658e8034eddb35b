//! Writes pixels one by one, and groups of repeats with the fresh pixel after them, as chunks into
//! a piece (QOI specification 1.0, "Data" and "Chunks").
ghost use Rattle.std.specs.Prelude.{◌≡◌, ◌≢◌, ℕ, ◌+◌, ◌-◌, ◌*◌, ◌<◌, ◌≤◌, true, List, [], ◌∷◌, ◌++◌, Option, None, Some, length, take, drop, replicate, slice_get};
ghost use Rattle.qoi.specs.Qoi.{Chunk, RgbaPixel, Past, run_max, chunk_max, marker_size, previous, seen, hash, IsChunk, bytes_of};
ghost use Rattle.qoi.specs.Raw.{IsChannels, IsChannels-prop};
ghost use Rattle.qoi.specs.Runs.{runs_by};
ghost use Rattle.qoi.specs.Written.{IsFirst};
ghost use Rattle.qoi.specs.Styles.{Style, choice_in};
ghost use Rattle.qoi.specs.inner.Table.{Holds};

use crate::consts::{QOI_OP_RUN, QOI_RUN_MAX};
use crate::encode::fresh::spell_pixel;
use crate::encode::piece::{Piece, REPEATS_AT_ONCE};
use crate::encode::pixels::{PixelOf, Pixels};
use crate::encode::repeats::repeats_of;
use crate::encode::table::PixelTable;
use crate::packed::Packed;
use crate::types::Style::{self, Places, Reference, Tight};
use crate::utils::pick;

/// What a coder has after some pixels:
/// - `px`, the last one, written or a repeat;
/// - `repeats`, how many repeats of it aren't written yet: fewer than a full run has;
/// - `begun`, whether a fresh pixel came, one that differs from the pixel before it;
/// - `named`, in style `Places` whether the chunk before those repeats names `px`'s position.
///
/// `repeats` stands first: else the zeros of the start are stored in other widths than they are
/// read in, which is slower.
#[derive(Clone, Copy)]
pub(super) struct LastPixel {
    pub(super) repeats: usize,
    pub(super) px: Packed,
    pub(super) begun: bool,
    pub(super) named: bool,
    ghost few: { repeats < run_max },
}

impl LastPixel {
    ghost use Rattle.qoi.specs.inner.Coder.{CoderAfter};

    /// Before the first pixel, as if opaque black came before.
    #[tactic(auto, unfolding(crate::specs::Qoi::start))]
    pub(super) fn start() -> LastPixel
        ensures none { result.repeats ≡ 0 }
        ensures state { (style : Style) (table : List RgbaPixel) → Holds table []
            → CoderAfter style [] None table result }
    {
        LastPixel {
            px: Packed::new(0, 0, 0, 0xff),
            begun: false,
            named: false,
            repeats: 0,
        }
    }
}

/// Writes pixels of `N` channels one by one, in this style and after this last one. The table is
/// passed beside it, so that these few stay in registers.
#[derive(Drop)]
pub(super) struct Coder<const N: usize> {
    pub(super) last: LastPixel,
    pub(super) style: Style,
    ghost channels: { IsChannels N } by { IsChannels-prop N },
    ghost opaque: { N ≡ 3 → last.px.a ≡ 255 },
}

impl<const N: usize> Coder<N> {
    ghost use Rattle.qoi.specs.inner.Coder.{put_in, last_chunk, pixels_in, kept_bytes, CoderAfter, single_chunk, CoderBetween, CoderPasses, CoderEnds, SPARE, RUNS_AT_ONCE};
    ghost use Rattle.qoi.specs.inner.block.Storing.{chunk_of};

    /// The coder in this style, after this pixel.
    #[inline(always)]
    pub(super) fn new(style: Style, last: LastPixel) -> Coder<N>
        requires channels { IsChannels N }
        requires opaque { N ≡ 3 → last.px.a ≡ 255 }
        ensures style { result.style ≡ style }
        ensures last { result.last ≡ last }
    {
        Coder { style, last }
    }

    // The byte of the single repeat left of `count` after runs of 62, before a fresh pixel; unused
    // if none or several are left. A run of 1; in style `Places` the index position, if a fresh
    // pixel came earlier and the chunk before isn't that position (a run of 62 never is).
    #[inline(always)]
    fn single_repeat_byte(&self, count: usize) -> u8
        ensures { bytes_of (single_chunk self.now.style self.now.last.begun self.now.last.named
            (hash self.now.last.px) count) ≡ result ∷ [] }
    {
        let names = self.last.begun & ((count > 1) | !self.last.named);
        match self.style {
            Reference | Tight => QOI_OP_RUN,
            Places => pick(names, self.last.px.hash_index(), QOI_OP_RUN),
        }
    }

    // Updates table and last pixel after `count` repeats were written, none or more, and `left` are
    // left. Only style `Tight` puts the pixel at its position; that changes the table only before
    // the first fresh pixel.
    #[inline(always)]
    fn update_after_repeats(&mut self, table: &mut PixelTable, count: usize, left: usize)
        requires { left < run_max }
        ensures style { self.new.style ≡ self.old.style }
        ensures same { (self.new.last.px ≡ self.old.last.px)
            × (self.new.last.begun ≡ self.old.last.begun) }
        ensures left { self.new.last.repeats ≡ left }
        ensures state { (past : Past) (before : Option Chunk)
            → CoderAfter self.old.style past before table.old self.old.last
            → CoderAfter self.old.style (replicate count (previous past) ++ past)
            (last_chunk before (runs_by (Chunk.Run 1) count)) table.new self.new.last }
    {
        match self.style {
            Reference | Places => {}
            Tight => table.put_if(count > 0, self.last.px.hash_index(), self.last.px),
        }
        self.last.named &= count == 0;
        self.last.repeats = left;
    }

    // The chunk, as number and size, of a fresh pixel that isn't at its index position: the one
    // that is passed; but in style `Tight`, for transparent black, the least position that holds
    // it (no pixel was put there), if there is one.
    #[inline(always)]
    fn chunk_if_absent(&self, table: &PixelTable, px: Packed, spelled: (u32, u32)) -> (u32, u32)
        ensures few { spelled.1 ≤ N + 1 → result.1 ≤ N + 1 }
        ensures choice { (past : Past) (alpha : ℕ) (c : Chunk)
            → Holds table.now (put_in self.now.style past)
            → IsChunk c → chunk_of spelled.1 spelled.0 alpha ≡ bytes_of c → IsFirst past px c
            → seen (put_in self.now.style past) (hash px) ≢ px
            → (d : Chunk) × IsChunk d × (chunk_of result.1 result.0 alpha ≡ bytes_of d)
            × choice_in self.now.style past px d }
    {
        match self.style {
            Reference | Places => spelled,
            Tight => {
                if px.is_same(Packed::blank()) {
                    if let Some(index) = table.first_blank() {
                        return (u32::from(index), 1);
                    }
                }
                spelled
            }
        }
    }

    // Writes the fresh pixel `next`: by its index position if it stands there, else as
    // `chunk_if_absent` has it. Then puts it at its position, and it is the last pixel.
    #[inline(always)]
    fn write_fresh_pixel<const ROOM: usize>(
        &mut self,
        table: &mut PixelTable,
        piece: &mut Piece<ROOM>,
        next: PixelOf<N>,
    )
        requires { piece.old.end + (chunk_max + marker_size) ≤ ROOM }
        ensures end { piece.new.end ≤ piece.old.end + chunk_max }
        ensures style { self.new.style ≡ self.old.style }
        ensures begun { (self.new.last.begun ≡ true) × (self.new.last.repeats ≡ 0) }
        ensures px { self.new.last.px ≡ next.entry.px }
        ensures written { (unsent : List ℕ) (rest : List RgbaPixel)
            → next.entry.px ≢ self.old.last.px → self.old.last.repeats ≡ 0
            → CoderBetween self.old.style unsent (next.entry.px ∷ rest) table.old self.old.last
            (kept_bytes piece.old)
            → CoderBetween self.new.style unsent rest
            table.new self.new.last (kept_bytes piece.new) }
    {
        let px = next.px;
        let index = px.hash_index();
        let stands = table.at(index).is_same(px);
        let before = self.last.px;
        self.last = LastPixel {
            px,
            begun: true,
            // In the other styles a constant, which no register holds.
            named: match self.style {
                Reference | Tight => false,
                Places => stands,
            },
            repeats: 0,
        };
        let spelled = spell_pixel::<N>(before, px);
        let (number, size) = self.chunk_if_absent(table, px, spelled);
        table.put(index, px);
        let number = pick(stands, u32::from(index), number);
        piece.append_chunk::<N>(px.number(), number, pick(stands, 1, size));
    }

    // Writes the repeats that came before these pixels and those at their front, at most 992 in
    // all; but if no pixel is left then, only their full runs. Returns how many there are at the
    // front. If there are none at all, that is seen at the first pixel.
    #[inline(always)]
    fn write_runs<const ROOM: usize>(
        &mut self,
        table: &mut PixelTable,
        piece: &mut Piece<ROOM>,
        raw: Pixels<N>,
    ) -> usize
        requires room { piece.old.end + (RUNS_AT_ONCE + marker_size) < ROOM }
        ensures end { piece.new.end ≤ piece.old.end + RUNS_AT_ONCE + 1 }
        ensures each { piece.new.end ≤ piece.old.end + (self.old.last.repeats + result) }
        ensures inside { result ≤ length (pixels_in raw.entry) }
        ensures none { drop result (pixels_in raw.entry) ≢ [] → self.new.last.repeats ≡ 0 }
        ensures some { slice_get (drop result (pixels_in raw.entry)) 0 ≡ Some self.old.last.px
            → 0 < result }
        ensures same { (self.new.last.px ≡ self.old.last.px)
            × (self.new.last.begun ≡ self.old.last.begun) }
        ensures written { CoderPasses self.old table.old piece.old (pixels_in raw.entry)
            self.new table.new piece.new (drop result (pixels_in raw.entry)) }
    {
        let carried = self.last.repeats;
        if carried == 0 && !raw.begin_with(self.last.px) {
            return 0;
        }
        let at_front = repeats_of::<N>(
            raw.at_most(REPEATS_AT_ONCE - carried),
            PixelOf { px: self.last.px },
        );
        let count = carried + at_front;
        let (runs, left) = (count / QOI_RUN_MAX, count % QOI_RUN_MAX);
        piece.append_full_runs(runs);
        if raw.skip(at_front).is_empty() {
            // Others may follow.
            self.update_after_repeats(table, QOI_RUN_MAX * runs, left);
            return at_front;
        }
        // If more than 992 repeat, 992 are counted: sixteen runs of 62, and no single one.
        piece.append_run(left, self.single_repeat_byte(count));
        self.update_after_repeats(table, count, 0);
        at_front
    }

    /// Writes the repeats that came before these pixels and the first `at_front`, which repeat,
    /// too, as one run, and the fresh pixel after them. Returns the rest.
    #[inline(always)]
    pub(super) fn write_short_group<'a, const ROOM: usize>(
        &mut self,
        table: &mut PixelTable,
        piece: &mut Piece<ROOM>,
        raw: Pixels<'a, N>,
        at_front: usize,
    ) -> Pixels<'a, N>
        requires few { self.old.last.repeats + at_front < run_max }
        requires inside { at_front < length (pixels_in raw) }
        requires repeat { take at_front (pixels_in raw) ≡ replicate at_front self.old.last.px }
        requires fresh { slice_get (pixels_in raw) at_front ≢ Some self.old.last.px }
        requires room { piece.old.end + (1 + chunk_max + marker_size) ≤ ROOM }
        ensures end { piece.new.end ≤ piece.old.end + (1 + chunk_max) }
        ensures begun { (self.new.last.begun ≡ true) × (self.new.last.repeats ≡ 0) }
        ensures px { slice_get (pixels_in raw.entry) at_front ≡ Some self.new.last.px }
        ensures rest { pixels_in result ≡ drop (at_front + 1) (pixels_in raw.entry) }
        ensures less { length (pixels_in result) < length (pixels_in raw.entry) }
        ensures written { CoderPasses self.old table.old piece.old (pixels_in raw.entry)
            self.new table.new piece.new (pixels_in result) }
    {
        let count = self.last.repeats + at_front;
        piece.append_run(count, self.single_repeat_byte(count));
        self.update_after_repeats(table, count, 0);
        let after = raw.skip(at_front);
        self.write_fresh_pixel(table, piece, after.first());
        after.skip(1)
    }

    /// Writes the repeats that came before these pixels, those at their front, and the fresh pixel
    /// after them; but if no pixel is left behind the repeats, or over 992 repeat, only full runs.
    /// Returns the rest.
    #[inline(always)]
    pub(super) fn write_next_group<'a, const ROOM: usize>(
        &mut self,
        table: &mut PixelTable,
        piece: &mut Piece<ROOM>,
        raw: Pixels<'a, N>,
    ) -> Pixels<'a, N>
        requires some { pixels_in raw ≢ [] }
        requires room { piece.old.end + (RUNS_AT_ONCE + 1 + chunk_max + marker_size) ≤ ROOM }
        ensures end { piece.new.end ≤ piece.old.end + RUNS_AT_ONCE + 1 + chunk_max }
        ensures each { self.old.last.repeats ≡ 0
            → piece.new.end + chunk_max * length (pixels_in result)
            ≤ piece.old.end + chunk_max * length (pixels_in raw.entry) }
        ensures less { length (pixels_in result) < length (pixels_in raw.entry) }
        ensures none { pixels_in result ≢ [] → self.new.last.repeats ≡ 0 }
        ensures begun { self.old.last.begun ≡ true → self.new.last.begun ≡ true }
        ensures written { CoderPasses self.old table.old piece.old (pixels_in raw.entry)
            self.new table.new piece.new (pixels_in result) }
    {
        let at_front = self.write_runs(table, piece, raw);
        let after = raw.skip(at_front);
        if after.is_empty() || after.begin_with(self.last.px) {
            return after;
        }
        self.write_fresh_pixel(table, piece, after.first());
        after.skip(1)
    }

    /// `write_last_groups` as a function of its own, which all images of these channels and this
    /// room share.
    #[inline(never)]
    pub(super) fn write_last_groups_shared<const ROOM: usize>(
        &mut self,
        table: &mut PixelTable,
        piece: &mut Piece<ROOM>,
        raw: Pixels<N>,
    )
        requires few { length (pixels_in raw) < 16 }
        requires not_full { piece.old.end < ROOM - SPARE }
        ensures { CoderEnds self.old table.old piece.old (pixels_in raw.entry) piece.new }
    {
        self.write_last_groups(table, piece, raw);
    }

    /// Writes an image's last pixels, fewer than a block has, group by group (`write_next_group`),
    /// and the repeats that wait, also if no pixel is left.
    #[inline(always)]
    pub(super) fn write_last_groups<const ROOM: usize>(
        &mut self,
        table: &mut PixelTable,
        piece: &mut Piece<ROOM>,
        raw: Pixels<N>,
    )
        requires few { length (pixels_in raw) < 16 }
        requires not_full { piece.old.end < ROOM - SPARE }
        ensures { CoderEnds self.old table.old piece.old (pixels_in raw.entry) piece.new }
    {
        let mut rest = raw;
        while !rest.is_empty() {
            rest = self.write_next_group(table, piece, rest);
        }
        // No fresh pixel follows, so that a single one is a run in each style.
        piece.append_run(self.last.repeats, QOI_OP_RUN);
    }
}
