//! What each kind of reader does with chunks (`Chunks`, of `slice`, `stream` and `buffered`), and
//! the loops over it: into a buffer, and into a vector that grows.
ghost use Rattle.std.specs.Prelude.{◌≡◌, ℕ, ◌+◌, ◌-◌, ◌*◌, ◌/◌, ◌%◌, ◌≤◌, List, ◌++◌, length, replicate, Option, Bool, true, false, IfSome, IfOk, IfErr, OnOk};
ghost use Rattle.std.specs.Vec.{vec_len, vec_capacity};
ghost use Rattle.qoi.specs.Raw.{IsChannels, raw_per_byte};
ghost use Rattle.qoi.specs.Decoding.{ReadsImage};
ghost use Rattle.qoi.specs.inner.Chunks.{RefusesChunks, TakesChunks, RefusesFilling, ReadsRest, RefusesRest};
ghost use Rattle.qoi.specs.inner.Filling.{RUN_ROOM, IsFillable, HasRoom, filling};
ghost use Rattle.qoi.specs.pieces.Unread.{TakesInPlace, IsInPlace};
ghost use Rattle.qoi.specs.declared.decode.chunks.TheConstants.{GROWTH};

use crate::decode::hashed::Hashed;
use crate::decode::reached::Reached;
use crate::decode::table::TermTable;
use crate::error::Result;

/// By how many pixels a vector grows, before they are decoded: few enough to stay in the cache.
const GROWTH: usize = 16384;

/// What takes chunks, in `N` channels of output, from a file of `F` channels; in three of output
/// `F` is 3 for any file (`in_channels` of `reader`). Contracts name the file's first: `F N`.
pub(super) trait Chunks<const N: usize, const F: usize>: Sized {
    /// The bytes that stand ahead, if the reader's contract states them.
    ghost ahead: { Self → Option (List ℕ) };

    /// Whether they stand in memory.
    ghost in_memory: { Bool };

    /// Decodes chunks, after what others reached, at least as long as any run's vectors have room
    /// in `out` (`RUN_ROOM`); those that a slice or a reader's buffer shows are taken nearer to the
    /// end of `out`. Returns what it reached.
    ///
    /// Chunks that are refused are refused for any image of more pixels than fit, too.
    fn some_chunks(
        &mut self,
        table: &mut TermTable,
        from: Reached,
        out: &mut [u8],
    ) -> Result<Reached>
        requires { IsFillable N out.old from.at }
        ensures read { IfOk result (λ now. TakesChunks F N true (ahead self.old) (ahead self.new)
            (filling table.old from out.old) (filling table.new now out.new)) }
        ensures refused { IfErr result (RefusesFilling F N in_memory
            (ahead self.old) (ahead self.new) (filling table.old from out.old)) };

    /// Decodes chunks, after what others reached, until `out` is full, and takes the end marker and
    /// no byte past it.
    fn rest_of_image(&mut self, table: &mut TermTable, from: Reached, out: &mut [u8]) -> Result<()>
        requires { IsFillable N out.old from.at }
        ensures read { OnOk result (ReadsRest F N (ahead self.old) (ahead self.new)
            (filling table.old from out.old) out.new) }
        ensures refused { IfErr result (RefusesRest F N in_memory
            (ahead self.old) (ahead self.new) (filling table.old from out.old)) };

    /// Decodes chunks that a slice or a reader's buffer shows into a piece of an image, `out`, as
    /// `take_in_place` (of `in_place`) does. Returns what was reached, and how many bytes of a run
    /// come behind it. By default, and so from other readers, no chunk is decoded.
    fn chunks_in_place(
        &mut self,
        table: &mut TermTable,
        from: Reached,
        out: &mut [u8],
    ) -> Result<(Reached, usize)>
        requires { HasRoom N false out.old from.at }
        ensures takes { IfOk result (λ now. TakesInPlace F N (ahead self.old) (ahead self.new)
            (filling table.old from out.old) table.new out.new now.0 now.1) }
        ensures sizes { IfOk result (λ now. IsInPlace N (length out.new) now.0 now.1) }
        ensures refused { IfErr result (RefusesFilling F N in_memory
            (ahead self.old) (ahead self.new) (filling table.old from out.old)) }
    {
        Ok((from, 0))
    }
}

// Appends zeros to a vector up to `size` bytes, for which it has the capacity, and no more of them
// than a step.
#[inline]
fn grow<const N: usize>(out: &mut Vec<u8>, size: usize)
    requires more { vec_len out.old ≤ size }
    requires step { size ≤ vec_len out.old + GROWTH * N }
    requires room { size ≤ vec_capacity out.old }
    ensures items { out.new.items ≡ out.old.items ++ replicate (size - vec_len out.old) 0 }
    ensures len { vec_len out.new ≡ size }
    ensures capacity { vec_capacity out.old ≤ vec_capacity out.new }
{
    let _within = out.resize(size, 0);
}

/// Decodes chunks and the end marker into a buffer, and takes no byte past them.
pub(super) fn image_to_buf<R: Chunks<N, F>, const N: usize, const F: usize>(
    reader: &mut R,
    out: &mut [u8],
) -> Result<()>
    requires channels { IsChannels N }
    requires whole { length out.old % N ≡ 0 }
    ensures read { OnOk result (ReadsImage F N (length out.old / N)
        (R.ahead reader.old) (R.ahead reader.new) out.new) }
    ensures refused { IfErr result (RefusesChunks R.in_memory (length out.old / N)
        (R.ahead reader.old) (R.ahead reader.new)) }
{
    let mut table = TermTable::new();
    let last = Hashed::start();
    reader.rest_of_image(&mut table, Reached { last, at: 0 }, out)
}

/// Decodes an image and its end marker into an empty vector with capacity for `size` bytes, which
/// then has as many. It grows by steps, each of which is filled, but for less than `RUN_ROOM`,
/// before the next.
pub(super) fn image_to_vec<R: Chunks<N, F>, const N: usize, const F: usize>(
    reader: &mut R,
    out: &mut Vec<u8>,
    size: usize,
) -> Result<()>
    requires channels { IsChannels N }
    requires whole { size % N ≡ 0 }
    requires empty { vec_len out.old ≡ 0 }
    requires room { size ≤ vec_capacity out.old }
    ensures read { OnOk result (ReadsImage F N (size / N)
        (R.ahead reader.old) (R.ahead reader.new) out.new.items) }
    ensures refused { IfErr result (RefusesChunks R.in_memory (size / N)
        (R.ahead reader.old) (R.ahead reader.new)) }
    // Whatever the size, the vector has at most `raw_per_byte` for each byte ahead, and those of a
    // step and `RUN_ROOM`.
    ensures grown { IfSome (R.ahead reader.old) (λ bytes.
        vec_len out.new ≤ raw_per_byte * length bytes + (GROWTH * N + RUN_ROOM)) }
{
    let mut table = TermTable::new();
    let last = Hashed::start();
    let mut now = Reached { last, at: 0 };
    while GROWTH * N < size - out.len() {
        let more = out.len() + GROWTH * N;
        grow::<N>(out, more);
        now = reader.some_chunks(&mut table, now, out)?;
    }
    grow::<N>(out, size);
    reader.rest_of_image(&mut table, now, out)
}
