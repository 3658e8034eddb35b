//! The loops over chunks of a slice or a reader's buffer while `INPUT_ROOM` is ahead and the output
//! has room for eight short ones and a full one, which is tested once for all nine or, near the end
//! of a piece behind which the image goes on, for one of each. `fast_chunks` and `chunks_with_room`
//! of `stretches` enter them.
ghost use Rattle.std.specs.Prelude.{◌≡◌, ◌⊎◌, ◌↔◌, IsTrue, ◌+◌, ◌-◌, ◌*◌, ◌/◌, ◌<◌, ◌≤◌, ◌^◌, length};
ghost use Rattle.qoi.specs.Qoi.{run_tag, rgb_tag};
ghost use Rattle.qoi.specs.Raw.{IsChannels};

use crate::consts::{QOI_OP_RGB, QOI_OP_RGBA, QOI_OP_RUN};
use crate::decode::deltas::{advance, is_luma};
use crate::decode::hashed::Hashed;
use crate::decode::output::{RUN_ROOM, VECTOR, store_late_run, store_run, store_vector};
use crate::decode::table::TermTable;
use crate::utils::pick;

/// Bytes of eight short chunks, of which each has two at most, of an RGBA chunk and of the byte
/// after it.
pub(super) const INPUT_ROOM: usize = 22;

/// Bytes of room for the vectors of eight short chunks and of a full one.
pub(super) const OUTPUT_ROOM: usize = 144;

/// An output of fewer bytes, in which any run is to have room, is short for `fast_chunks` over a
/// slice (`LEAVES_SHORT`): to enter `fast_loop` for its chunks would take longer than to decode
/// them with every test. `take_in_place` doesn't compare a piece with it; `some_chunks` of a slice
/// does.
pub(super) const SHORT_OUTPUT: usize = 528;

/// What `fast_loop` has between two chunks, in `N` channels of output, of a file of `F` channels:
/// the last pixel, how many bytes are taken, where the output stopped, and the next byte.
#[derive(Clone, Copy)]
pub(super) struct Progress<const N: usize, const F: usize> {
    pub(super) last: Hashed,
    pub(super) taken: usize,
    pub(super) at: usize,
    pub(super) next: u8,
}

/// Whether a chunk with this first byte is short: an index position, a difference, a luma, or a run
/// that a vector of sixteen bytes holds.
#[inline(always)]
pub(super) fn is_short<const N: usize>(b1: u8) -> bool
    requires { IsChannels N }
    ensures { IsTrue result ↔ (b1 ≤ run_tag - 1 + 16 / N) }
{
    b1 <= (QOI_OP_RUN - 1) + (16 / N) as u8
}

// Whether a run with this first byte has fewer bytes of pixels than there is room for.
#[inline(always)]
#[tactic(auto, using(crate::proofs::decoding::FastSteps::run_below))]
fn leaves_room<const N: usize>(b1: u8, room: usize) -> bool
    requires channels { IsChannels N }
    requires run { (run_tag ≤ b1) × (b1 < rgb_tag) }
    ensures { IsTrue result ↔ (N * (b1 - (run_tag - 1)) < room) }
{
    RUN_ROOM <= room || advance::<N>(b1 as usize) < room
}

impl<const N: usize, const F: usize> Progress<N, F> {
    ghost use Rattle.qoi.specs.inner.Filling.{taken_further, CanLoop, HasAhead, FastStep, FastChunks};

    // `count` bytes more are taken.
    #[inline(always)]
    fn taken_further(self, count: usize) -> Self
        requires { self.taken + count < 2 ^ 64 }
        ensures { result ≡ taken_further count self.entry }
    {
        Progress {
            taken: self.taken + count,
            ..self
        }
    }

    /// A copy, field by field: `..self` copies so, too. A copy of the whole would take along the
    /// bytes after the last field, for which a loop would need registers, and load two numbers at
    /// once, which waits until both, just stored, are in the cache.
    #[inline(always)]
    pub(super) fn by_fields(self) -> Self
        ensures { result ≡ self.entry }
    {
        Progress {
            last: self.last,
            ..self
        }
    }

    // Decodes a short chunk, without a jump. Its vector of output is written whole, and what goes
    // past its pixels is written again later.
    //
    // `short_chunks` decoded `DONE` others before it. Their first bytes aren't counted in `taken`
    // nor, after the call, its own: `short_chunks` adds them at last. So from chunk to chunk only
    // the second byte of a luma is added, and the next byte's address is known a cycle sooner.
    #[inline(always)]
    fn short_chunk<const DONE: usize>(
        self,
        table: &mut TermTable,
        bytes: &[u8],
        out: &mut [u8],
    ) -> Self
        requires done { DONE < 4 }
        requires ahead { HasAhead 3 16 bytes.now out.old (taken_further DONE self) }
        requires short { self.next ≤ run_tag - 1 + 16 / N }
        ensures { FastStep 1 2 16 bytes.now (taken_further DONE self.entry) table.old out.old
            (taken_further (DONE + 1) result) table.new out.new }
    {
        let b1 = self.next as usize;
        let done = self.taken + DONE;
        let (one, two) = (bytes[done + 1], bytes[done + 2]);
        let last = self.last.after_short(table, b1, one);
        table.put(last);
        store_vector::<N, F>(out, self.at, last);
        let luma = is_luma(self.next);
        Progress {
            last,
            taken: self.taken + usize::from(luma),
            at: self.at + advance::<N>(b1),
            next: pick(luma, two, one),
        }
    }

    /// Decodes short chunks that follow each other, `MOST` at most: one or four. `short_series`
    /// decodes up to as many as `fast_loop` tests room for.
    #[inline(always)]
    pub(super) fn short_chunks<const MOST: usize>(
        self,
        table: &mut TermTable,
        bytes: &[u8],
        out: &mut [u8],
    ) -> Self
        requires most { (MOST ≡ 1) ⊎ (MOST ≡ 4) }
        requires ahead { HasAhead 9 (16 * MOST) bytes.now out.old self }
        ensures step { FastStep 0 (2 * MOST) (16 * MOST) bytes.now
            self.entry table.old out.old result table.new out.new }
        ensures some { result.next ≤ run_tag - 1 + 16 / N → self.entry.taken < result.taken }
    {
        if !is_short::<N>(self.next) {
            return self;
        }
        let one = self.short_chunk::<0>(table, bytes, out);
        if MOST == 1 || !is_short::<N>(one.next) {
            return one.taken_further(1);
        }
        let two = one.short_chunk::<1>(table, bytes, out);
        if !is_short::<N>(two.next) {
            return two.taken_further(2);
        }
        let three = two.short_chunk::<2>(table, bytes, out);
        if !is_short::<N>(three.next) {
            return three.taken_further(3);
        }
        three.short_chunk::<3>(table, bytes, out).taken_further(4)
    }

    // Decodes short chunks that follow each other, `AT_ONCE` at most: one or, as twice four by
    // `short_chunks`, eight.
    #[inline(always)]
    fn short_series<const AT_ONCE: usize>(
        self,
        table: &mut TermTable,
        bytes: &[u8],
        out: &mut [u8],
    ) -> Self
        requires at_once { (AT_ONCE ≡ 1) ⊎ (AT_ONCE ≡ 8) }
        requires ahead { HasAhead 17 (16 * AT_ONCE) bytes.now out.old self }
        ensures step { FastStep 0 16 (16 * AT_ONCE) bytes.now
            self.entry table.old out.old result table.new out.new }
        ensures some { result.next ≤ run_tag - 1 + 16 / N → self.entry.taken < result.taken }
    {
        if AT_ONCE == 1 {
            return self.short_chunks::<1>(table, bytes, out);
        }
        let four = self.short_chunks::<4>(table, bytes, out);
        if !is_short::<N>(four.next) {
            return four;
        }
        four.short_chunks::<4>(table, bytes, out)
    }

    // Decodes an RGB or RGBA chunk, without a jump between the two. The byte that comes next is one
    // of two, which are loaded before it is known which. Not side by side: the compiler would load
    // one byte, whose address waits.
    #[inline(always)]
    fn full_chunk(self, table: &mut TermTable, bytes: &[u8], out: &mut [u8]) -> Self
        requires ahead { HasAhead 6 16 bytes.now out.old self }
        requires full { rgb_tag ≤ self.next }
        ensures { FastStep 4 5 4 bytes.now self.entry table.old out.old result table.new out.new }
    {
        let four = bytes[self.taken + 4];
        let last = self
            .last
            .after_full::<4>(self.next as usize, &bytes[self.taken..]);
        table.put(last);
        store_vector::<N, F>(out, self.at, last);
        let five = bytes[self.taken + 5];
        let rgba = self.next == QOI_OP_RGBA;
        Progress {
            last,
            taken: self.taken + 4 + usize::from(rgba),
            at: self.at + N,
            next: pick(rgba, five, four),
        }
    }

    // Decodes a run that a vector doesn't hold, and that doesn't fill the output: by the vectors of
    // any run, if those have room.
    #[inline(always)]
    fn long_run(self, table: &mut TermTable, bytes: &[u8], out: &mut [u8]) -> Self
        requires ahead { HasAhead 2 (N * (self.next - (run_tag - 1)) + 1) bytes.now out.old self }
        requires run { (run_tag ≤ self.next) × (self.next < rgb_tag) }
        ensures step { FastStep 1 1 (N * (self.entry.next - (run_tag - 1))) bytes.now
            self.entry table.old out.old result table.new out.new }
        ensures below { result.at < length out.new }
    {
        let count = (self.next - (QOI_OP_RUN - 1)) as usize;
        table.put(self.last);
        if RUN_ROOM <= out.len() - self.at {
            store_run::<N, F>(out, self.at, self.last, count);
        } else {
            // Less room, but more than the run has bytes, as `leaves_room` found.
            store_late_run::<N, F>(out, self.at, self.last, count);
        }
        Progress {
            last: self.last,
            taken: self.taken + 1,
            at: self.at + N * count,
            next: bytes[self.taken + 1],
        }
    }

    /// Decodes chunks while `INPUT_ROOM` is ahead and the output has room for `AT_ONCE` short ones
    /// and a full one, up to a run that would fill it or has no room.
    #[inline(always)]
    pub(super) fn fast_loop<const AT_ONCE: usize>(
        self,
        table: &mut TermTable,
        bytes: &[u8],
        out: &mut [u8],
    ) -> Self
        requires { CanLoop AT_ONCE 1 bytes.now out.old self }
        ensures { FastChunks bytes.now self.entry table.old out.old result table.new out.new }
    {
        let mut now = self.by_fields();
        let input_end = bytes.len() - INPUT_ROOM;
        let output_end = out.len() - (VECTOR * AT_ONCE + VECTOR);
        while now.taken <= input_end && now.at <= output_end {
            now = now.short_series::<AT_ONCE>(table, bytes, out);
            if is_short::<N>(now.next) {
                // `AT_ONCE` were decoded, and room for others isn't known.
                continue;
            }
            if now.next >= QOI_OP_RGB {
                now = now.full_chunk(table, bytes, out);
            } else if leaves_room::<N>(now.next, out.len() - now.at) {
                now = now.long_run(table, bytes, out);
            } else {
                return now.by_fields();
            }
        }
        now.by_fields()
    }
}
