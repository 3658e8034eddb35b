//! Chunks of a slice or a reader's buffer while input and output have room ahead, from any pixel
//! on: in stretches, behind each of which, if it was noise, comes a loop for that. So noise costs
//! other chunks no test. `AT_ONCE` is for how many short chunks room is tested at once.
ghost use Rattle.std.specs.Prelude.{◌≡◌, ◌⊎◌, ◌+◌, ◌*◌, ◌<◌, ◌≤◌, length, drop, Some, true};
ghost use Rattle.qoi.specs.Raw.{IsChannels};
ghost use Rattle.qoi.specs.inner.Filling.{INPUT_ROOM, IsFillable, filling, CanLoop, FastChunks};
ghost use Rattle.qoi.specs.inner.Chunks.{TakesMore};

use crate::decode::fast::{INPUT_ROOM, OUTPUT_ROOM, Progress, SHORT_OUTPUT};
use crate::decode::full_series::dense_loop;
use crate::decode::reached::{Decoded, Reached};
use crate::decode::table::TermTable;

// How many bytes of input the first stretch has, and a later one.
const FIRST_STRETCH: usize = 512;

const STRETCH: usize = 2048;

// A stretch is dense, as noise is, if it took more bytes than this a pixel. Then some
// `DENSE_STRETCH` bytes go by `dense_loop`, and the next stretch has `SHORT_STRETCH`.
const DENSE: usize = 3;

const DENSE_STRETCH: usize = 8192;

const SHORT_STRETCH: usize = 128;

// Whether chunks of so many bytes, which gave so many bytes of pixels, were dense.
#[inline(always)]
fn is_dense<const N: usize>(taken: usize, written: usize) -> bool
    requires { IsChannels N }
{
    DENSE * (written / N) < taken
}

// Decodes some `DENSE_STRETCH` bytes by `dense_loop`, if the chunks before were dense, and notes
// whether these are.
#[inline(always)]
fn take_dense<const N: usize, const F: usize>(
    table: &mut TermTable,
    from: Progress<N, F>,
    bytes: &[u8],
    out: &mut [u8],
) -> Progress<N, F>
    requires { CanLoop 8 1 bytes.now out.old from }
    ensures { FastChunks bytes.now from.entry table.old out.old result table.new out.new }
{
    if !table.is_dense() {
        return from;
    }
    let Progress { taken, at, .. } = from;
    let end = bytes.len().min(taken + DENSE_STRETCH);
    let dense = dense_loop(table, from, &bytes[..end], out);
    let more = dense.taken - taken;
    let written = dense.at - at;
    let was_dense = is_dense::<N>(more, written);
    table.note_dense(was_dense);
    dense
}

// `chunks_with_room` from a state of the loop: in stretches, if `AT_ONCE` is 8.
#[inline(always)]
fn chunks_by_stretches<const N: usize, const F: usize, const AT_ONCE: usize>(
    table: &mut TermTable,
    from: Progress<N, F>,
    bytes: &[u8],
    out: &mut [u8],
) -> Progress<N, F>
    requires { CanLoop AT_ONCE 1 bytes.now out.old from }
    ensures { FastChunks bytes.now from.entry table.old out.old result table.new out.new }
{
    if AT_ONCE == 1 {
        return from.fast_loop::<1>(table, bytes, out);
    }
    let mut now = from.by_fields();
    let input_end = bytes.len() - INPUT_ROOM;
    let mut size = FIRST_STRETCH;
    while now.taken <= input_end {
        let was_noise = table.is_dense();
        let dense = take_dense(table, now, bytes, out);
        let stretch_end = input_end.min(dense.taken + if was_noise { SHORT_STRETCH } else { size });
        // For this call the input ends behind the stretch.
        let stretch = dense.fast_loop::<8>(table, &bytes[..stretch_end + INPUT_ROOM], out);
        // Within the stretch the output has no room for what comes; or the input ends.
        if stretch.taken <= stretch_end || input_end < stretch.taken {
            return stretch.by_fields();
        }
        let taken = stretch.taken - dense.taken;
        let written = stretch.at - dense.at;
        let was_dense = is_dense::<N>(taken, written);
        table.note_dense(was_dense);
        now = stretch.by_fields();
        size = STRETCH;
    }
    now.by_fields()
}

/// Decodes chunks while `INPUT_ROOM` is ahead and the output has room for `AT_ONCE` short ones and
/// a full one, up to a run that would fill it or has no room, from where other chunks stopped.
#[inline(always)]
pub(super) fn chunks_with_room<const N: usize, const F: usize, const AT_ONCE: usize>(
    table: &mut TermTable,
    from: Decoded,
    bytes: &[u8],
    out: &mut [u8],
) -> Decoded
    requires at_once { (AT_ONCE ≡ 1) ⊎ (AT_ONCE ≡ 8) }
    requires input { INPUT_ROOM ≤ length bytes.now }
    requires room { 16 * AT_ONCE + 16 ≤ length out.old }
    requires within { from.taken < length bytes.now }
    requires fillable { IsFillable N out.old from.reached.at }
    ensures takes { TakesMore F N true
        (Some (drop from.taken bytes.now)) (Some (drop result.taken bytes.now))
        (filling table.old from.reached out.old) (filling table.new result.reached out.new) }
    ensures within { result.taken < length bytes.now }
{
    let old = from.reached;
    let now = Progress::<N, F> {
        last: old.last,
        taken: from.taken,
        at: old.at,
        next: bytes[from.taken],
    };
    let now = chunks_by_stretches::<N, F, AT_ONCE>(table, now, bytes, out);
    let (last, at) = (now.last, now.at);
    Decoded {
        taken: now.taken,
        reached: Reached { last, at },
    }
}

/// Decodes chunks from the front of the bytes, after what others reached, while there is room
/// ahead, and returns where it stopped; it decodes none if `LEAVES_SHORT` and the output is short
/// (`SHORT_OUTPUT`). The caller goes on chunk by chunk.
#[inline(always)]
pub(super) fn fast_chunks<const N: usize, const F: usize, const LEAVES_SHORT: bool>(
    table: &mut TermTable,
    from: Reached,
    bytes: &[u8],
    out: &mut [u8],
) -> Decoded
    requires { IsFillable N out.old from.at }
    ensures takes { TakesMore F N true (Some bytes.now) (Some (drop result.taken bytes.now))
        (filling table.old from out.old) (filling table.new result.reached out.new) }
    ensures within { result.taken ≤ length bytes.now }
{
    let start = Decoded {
        taken: 0,
        reached: from,
    };
    let has_no_room = out.len() < OUTPUT_ROOM || LEAVES_SHORT && out.len() < SHORT_OUTPUT;
    if has_no_room || bytes.len() < INPUT_ROOM {
        return start;
    }
    chunks_with_room::<N, F, 8>(table, start, bytes, out)
}
