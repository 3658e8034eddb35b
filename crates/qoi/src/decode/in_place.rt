//! A piece of an image that is decoded in place: by `fast_loop` (`chunks_with_room` of
//! `stretches`), near its end with room for one short chunk and a full one, up to a run to its end
//! or past it.
ghost use Rattle.std.specs.Prelude.{◌≡◌, ◌↔◌, IsTrue, false, ◌-◌, ◌*◌, ◌<◌, ◌≤◌, length, drop, Some};
ghost use Rattle.qoi.specs.Qoi.{run_tag, rgb_tag};
ghost use Rattle.qoi.specs.Raw.{IsChannels};
ghost use Rattle.qoi.specs.inner.Filling.{HasRoom, filling};
ghost use Rattle.qoi.specs.pieces.Unread.{TakesInPlace, IsInPlace};

use crate::consts::{QOI_OP_RGB, QOI_OP_RUN};
use crate::decode::deltas::advance;
use crate::decode::fast::{INPUT_ROOM, OUTPUT_ROOM};
use crate::decode::output::store_within;
use crate::decode::reached::{Decoded, Reached};
use crate::decode::stretches::chunks_with_room;
use crate::decode::table::TermTable;

// Whether a chunk with this first byte is a run with at least so many bytes of pixels.
#[inline(always)]
fn is_run_to_end<const N: usize>(b1: u8, rest: usize) -> bool
    requires { IsChannels N }
    ensures { IsTrue result
        ↔ (run_tag ≤ b1) × (b1 < rgb_tag) × (rest ≤ N * (b1 - (run_tag - 1))) }
{
    QOI_OP_RUN <= b1 && b1 < QOI_OP_RGB && rest <= advance::<N>(b1 as usize)
}

// Takes a run that goes on to the end of the output or past it, if one comes next, and fills the
// output with it. Returns what was reached, and how many bytes of the run are still to be given.
#[inline(always)]
fn last_run<const N: usize, const F: usize>(
    table: &mut TermTable,
    from: Decoded,
    bytes: &[u8],
    out: &mut [u8],
) -> (Decoded, usize)
    requires ahead { from.taken < length bytes.now }
    requires room { HasRoom N false out.old from.reached.at }
    ensures takes { TakesInPlace F N
        (Some (drop from.taken bytes.now)) (Some (drop result.0.taken bytes.now))
        (filling table.old from.reached out.old) table.new out.new result.0.reached result.1 }
    ensures sizes { IsInPlace N (length out.new) result.0.reached result.1 }
    ensures within { result.0.taken ≤ length bytes.now }
{
    let b1 = bytes[from.taken];
    let now = from.reached;
    let rest = out.len() - now.at;
    if !is_run_to_end::<N>(b1, rest) {
        return (from, 0);
    }
    table.put(now.last);
    store_within::<N, F>(out, now.at, now.last, rest / N);
    let (last, at) = (now.last, out.len());
    let now = Decoded {
        taken: from.taken + 1,
        reached: Reached { last, at },
    };
    (now, advance::<N>(b1 as usize) - rest)
}

/// Decodes chunks from the front of the bytes into a piece of an image, `out`, after what others
/// reached: of fewer than 22 bytes (`INPUT_ROOM`) none, else until less than 32 bytes of the piece
/// are open or fewer than 22 are ahead, and then one more, if that is a run to the piece's end or
/// past it, which fills it. What stays open is for `decode_while_runs_fit` and `decode_ahead` of
/// `Unread`. Returns what was reached, and how many bytes of that run come after the piece.
#[inline(always)]
pub(super) fn take_in_place<const N: usize, const F: usize>(
    table: &mut TermTable,
    from: Reached,
    bytes: &[u8],
    out: &mut [u8],
) -> (Decoded, usize)
    requires { HasRoom N false out.old from.at }
    ensures takes { TakesInPlace F N (Some bytes.now) (Some (drop result.0.taken bytes.now))
        (filling table.old from out.old) table.new out.new result.0.reached result.1 }
    ensures sizes { IsInPlace N (length out.new) result.0.reached result.1 }
    ensures within { result.0.taken ≤ length bytes.now }
{
    let start = Decoded {
        taken: 0,
        reached: from,
    };
    // `out` is never so short here (`LONG_PIECE`): that is tested for the prover.
    if bytes.len() < INPUT_ROOM || out.len() < OUTPUT_ROOM {
        return (start, 0);
    }
    let front = chunks_with_room::<N, F, 8>(table, start, bytes, out);
    // Asked again in `last_run`; here it keeps the two ways apart: were they joined, what the loops
    // return would be copied, and the copy would wait for the stores before it.
    if is_run_to_end::<N>(bytes[front.taken], out.len() - front.reached.at) {
        return last_run::<N, F>(table, front, bytes, out);
    }
    let near = chunks_with_room::<N, F, 1>(table, front, bytes, out);
    last_run::<N, F>(table, near, bytes, out)
}
