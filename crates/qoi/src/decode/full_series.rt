//! The loop for noise, in which most chunks are RGB or RGBA ones: it takes those in series, of
//! which no chunk waits for another, and each jump goes the same way until the series ends.
ghost use Rattle.std.specs.Prelude.{◌≡◌, ◌+◌, ◌<◌, ◌≤◌, length};
ghost use Rattle.qoi.specs.inner.Filling.{CanLoop, CanStore, HasAhead, HasCopies, FastChunks, IsFullTag};
ghost use Rattle.qoi.specs.inner.Hashed.{pixel_of_lanes, IsAfterFull};

use crate::consts::{QOI_OP_RGB, QOI_OP_RGBA};
use crate::decode::fast::{INPUT_ROOM, Progress, is_short};
use crate::decode::hashed::Hashed;
use crate::decode::output::{VECTOR, store_four, store_vector};
use crate::decode::table::TermTable;

// Bytes of room for the vectors of two short chunks, one full pixel and another's vector (16, 16, 4
// and 16): little, so that few bytes of a row are left for other loops.
const DENSE_ROOM: usize = 52;

// A series of chunks with the first byte `TAG`: how far it came, and the pixel before it, whose
// alpha RGB chunks keep. So no chunk waits for another.
#[derive(Clone, Copy)]
struct Series<const N: usize, const F: usize, const TAG: u8> {
    to: Progress<N, F>,
    before: Hashed,
}

impl<const N: usize, const F: usize, const TAG: u8> Series<N, F, TAG> {
    ghost use Rattle.qoi.specs.inner.Filling.{HasAhead, FastStep, KeepsAlpha};

    // Decodes the chunk that comes next, whose first byte is `TAG`.
    #[inline(always)]
    fn take_chunk(self, table: &mut TermTable, bytes: &[u8], out: &mut [u8]) -> Self
        requires ahead { HasAhead 9 16 bytes.now out.old self.to }
        requires tag { IsFullTag TAG × (self.to.next ≡ TAG) }
        requires alpha { KeepsAlpha TAG self.before self.to.last }
        ensures step { FastStep 4 5 4 bytes.now
            self.entry.to table.old out.old result.to table.new out.new }
        ensures alpha { KeepsAlpha TAG result.before result.to.last }
    {
        let Series { to, before } = self;
        let last = before.after_full::<8>(TAG as usize, &bytes[to.taken..]);
        table.put(last);
        store_full::<N, F, TAG>(out, to.at, (before, last), &bytes[to.taken..]);
        let taken = to.taken + (TAG - (QOI_OP_RGB - 4)) as usize;
        let to = Progress {
            last,
            taken,
            at: to.at + N,
            next: bytes[taken],
        };
        Series { to, before }
    }
}

// Stores the pixel of the chunk that the bytes begin with, whose first byte is `TAG`, by the
// chunk's own bytes, if those are the output's. The pixel before the series is for the contract
// alone.
#[inline(always)]
#[tactic(auto, using(crate::proofs::decoding::FastSteps::in_vector))]
fn store_full<const N: usize, const F: usize, const TAG: u8>(
    out: &mut [u8],
    at: usize,
    pixels: (Hashed, Hashed),
    bytes: &[u8],
)
    requires space { CanStore N (at + VECTOR) out.old }
    requires tag { IsFullTag TAG × (5 ≤ length bytes.now) }
    requires pixel { IsAfterFull TAG bytes.now
        (pixel_of_lanes pixels.0) (pixel_of_lanes pixels.1) }
    ensures { HasCopies F N at 1 pixels.1 out.old out.new }
{
    if N == 3 || F == 4 && TAG == QOI_OP_RGBA {
        return store_four::<N, F>(out, at, pixels.1, &bytes[1..]);
    }
    store_vector::<N, F>(out, at, pixels.1);
}

// Decodes chunks with the first byte `TAG`, as many as come one after the other: two, and others
// while there is room ahead, which is tested for two at once.
#[inline(always)]
fn series_of<const N: usize, const F: usize, const TAG: u8>(
    table: &mut TermTable,
    from: Progress<N, F>,
    bytes: &[u8],
    out: &mut [u8],
) -> Progress<N, F>
    requires tag { IsFullTag TAG × (from.next ≡ TAG) }
    requires room { CanLoop 8 1 bytes.now out.old from }
    requires ahead { HasAhead 14 20 bytes.now out.old from }
    ensures chunks { FastChunks bytes.now from.entry table.old out.old result table.new out.new }
    ensures some { from.entry.taken < result.taken }
{
    let before = from.last;
    let mut series = Series::<N, F, TAG> { to: from, before };
    let input_end = bytes.len() - INPUT_ROOM;
    let output_end = out.len() - DENSE_ROOM;
    loop {
        let one = series.take_chunk(table, bytes, out);
        if one.to.next != TAG {
            return one.to.by_fields();
        }
        series = one.take_chunk(table, bytes, out);
        let Series { to, .. } = series;
        if to.next != TAG || input_end < to.taken || output_end < to.at {
            return to.by_fields();
        }
    }
}

/// `fast_loop` for noise: short chunks by twos, and full ones in series.
#[inline(never)]
pub(super) fn dense_loop<const N: usize, const F: usize>(
    table: &mut TermTable,
    from: Progress<N, F>,
    bytes: &[u8],
    out: &mut [u8],
) -> Progress<N, F>
    requires { CanLoop 8 1 bytes.now out.old from }
    ensures { FastChunks bytes.now from.entry table.old out.old result table.new out.new }
{
    let mut now = from.by_fields();
    let input_end = bytes.len() - INPUT_ROOM;
    let output_end = out.len() - DENSE_ROOM;
    while now.taken <= input_end && now.at <= output_end {
        let one = now.short_chunks::<1>(table, bytes, out);
        now = one.short_chunks::<1>(table, bytes, out);
        if is_short::<N>(now.next) {
            continue;
        }
        if now.next == QOI_OP_RGB {
            now = series_of::<N, F, 0xfe>(table, now, bytes, out);
        } else if now.next == QOI_OP_RGBA {
            now = series_of::<N, F, 0xff>(table, now, bytes, out);
        } else {
            // A long run, which noise has seldom, ends the loop.
            return now.by_fields();
        }
    }
    now.by_fields()
}
