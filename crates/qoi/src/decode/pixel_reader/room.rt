//! How many bytes of an image are decoded at once, and the calls that do it.
ghost use Rattle.std.specs.Prelude.{true, ◌≡◌, ◌+◌, ◌-◌, ◌%◌, ◌<◌, ◌≤◌, length, take, IfOk, IfErr, OnOk};
ghost use Rattle.qoi.specs.Raw.{IsChannels};
ghost use Rattle.qoi.specs.declared.decode.pixel_reader.room.TheConstants.{DECODED_AHEAD, LONG_PIECE};
ghost use Rattle.qoi.specs.inner.Chunks.{TakesChunks, RefusesFilling, ReadsRest, RefusesRest};
ghost use Rattle.qoi.specs.inner.Filling.{RUN_ROOM, reached, filling};

use crate::decode::chunks::Chunks;
use crate::decode::hashed::Hashed;
use crate::decode::output::RUN_ROOM;
use crate::decode::reached::Reached;
use crate::decode::table::TermTable;
use crate::error::Result;

/// How many bytes are kept at most, decoded ahead of a piece: whole pixels of three channels and of
/// four. No more than `decoded_ahead`, by `early` of `RefusesPiece`. By hand have to follow AHEAD
/// of fuzz/session.h, and the numbers in comments and on the pages.
pub(super) const DECODED_AHEAD: usize = 3072;

/// A piece with at least so many bytes open behind kept ones is long. If `RUN_ROOM` of the image
/// follows it, what a slice or a reader's buffer shows is decoded in place (`take_in_place`, which
/// doesn't ask for `SHORT_OUTPUT`). Into what is open then, or all if less follows, `some_chunks`
/// decodes at least as long as any run fits (`RUN_ROOM`).
pub(super) const LONG_PIECE: usize = 512;

/// The room to decode ahead into, if as much is left of the image, for a piece that asks for
/// `asked` bytes behind kept ones, of which the first `filled` are decoded: all that can be kept if
/// none of them are, else what the piece lacks (little, behind `Unread::decode_while_runs_fit`) and
/// room for a run, in whole pixels.
#[inline]
pub(super) fn kept_room(asked: usize, filled: usize) -> usize
    requires within { filled ≤ asked }
    requires last { 0 < filled → asked < filled + (RUN_ROOM + 3) }
    requires short { filled ≡ 0 → asked < LONG_PIECE }
    ensures within { result ≤ DECODED_AHEAD }
    ensures whole { result % 12 ≡ 0 }
    ensures enough { asked - filled + RUN_ROOM ≤ result }
{
    if filled == 0 {
        DECODED_AHEAD
    } else {
        (asked - filled + (RUN_ROOM + 11)) / 12 * 12
    }
}

/// Decodes chunks into the first `size` bytes of `out`, by the reader's `some_chunks`. The part of
/// the array is taken here: where a part of a field is lent, no fact ties it to the field.
pub(super) fn keep_some_chunks<R: Chunks<N, F>, const N: usize, const F: usize>(
    reader: &mut R,
    table: &mut TermTable,
    last: Hashed,
    out: &mut [u8],
    size: usize,
) -> Result<Reached>
    requires channels { IsChannels N }
    requires within { size ≤ length out.old }
    requires whole { size % N ≡ 0 }
    ensures read { IfOk result (λ now. TakesChunks F N true
        (R.ahead reader.old) (R.ahead reader.new)
        (filling table.old (reached last 0) (take size out.old))
        (filling table.new now (take size out.new))) }
    ensures refused { IfErr result (RefusesFilling F N R.in_memory
        (R.ahead reader.old) (R.ahead reader.new)
        (filling table.old (reached last 0) (take size out.old))) }
{
    reader.some_chunks(table, Reached { last, at: 0 }, &mut out[..size])
}

/// Decodes the rest of an image into the first `size` bytes of `out`, and takes the end marker, by
/// the reader's method of this name.
pub(super) fn keep_rest_of_image<R: Chunks<N, F>, const N: usize, const F: usize>(
    reader: &mut R,
    table: &mut TermTable,
    last: Hashed,
    out: &mut [u8],
    size: usize,
) -> Result<()>
    requires channels { IsChannels N }
    requires within { size ≤ length out.old }
    requires whole { size % N ≡ 0 }
    ensures read { OnOk result (ReadsRest F N (R.ahead reader.old) (R.ahead reader.new)
        (filling table.old (reached last 0) (take size out.old)) (take size out.new)) }
    ensures refused { IfErr result (RefusesRest F N R.in_memory
        (R.ahead reader.old) (R.ahead reader.new)
        (filling table.old (reached last 0) (take size out.old))) }
{
    reader.rest_of_image(table, Reached { last, at: 0 }, &mut out[..size])
}
