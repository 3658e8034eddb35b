//! Decoding an image from a reader with a buffer of its own.
ghost use Rattle.std.specs.Prelude.{◌<◌, [], length, true, false, IfOk, IfErr, OnErr};
ghost use Rattle.std.specs.Io.KnownBytes.{Consumes};
ghost use Rattle.qoi.specs.declared.error.Error.{Error};
ghost use Rattle.qoi.specs.inner.Chunks.{TakesMore, TakesChunks, RefusesFilling};
ghost use Rattle.qoi.specs.inner.Filling.{IsFillable, filling};

use crate::decode::chunks::Chunks;
use crate::decode::fast::OUTPUT_ROOM;
use crate::decode::in_place::take_in_place;
use crate::decode::output::RUN_ROOM;
use crate::decode::reached::Reached;
use crate::decode::reader::Buffered;
use crate::decode::stream::{ended, next_chunk, stream_marker};
use crate::decode::stretches::fast_chunks;
use crate::decode::table::TermTable;
use crate::error::{Error, Result};
use std::io;
use std::io::BufRead;

// Decodes chunks from what the reader's buffer shows, after what others reached, while it shows
// `INPUT_ROOM` and `OUTPUT_ROOM` is open, and takes just those. The reader is asked for its buffer
// only while pixels are missing, so a fault leaves the image cut, and so does the reader's end:
// behind either it isn't asked again.
#[inline(always)]
fn chunks_in_buffer<R: BufRead, const N: usize, const F: usize>(
    reader: &mut R,
    table: &mut TermTable,
    from: Reached,
    out: &mut [u8],
) -> io::Result<Reached>
    requires { IsFillable N out.old from.at }
    ensures takes { IfOk result (λ now. TakesMore F N true
        (R.remaining reader.old) (R.remaining reader.new)
        (filling table.old from out.old) (filling table.new now out.new)) }
    ensures failed { OnErr result
        (Consumes (R.remaining reader.old) (R.remaining reader.new) []) }
    ensures unfilled { OnErr result (from.at < length out.old) }
{
    if out.len() - from.at < OUTPUT_ROOM {
        return Ok(from);
    }
    let bytes = reader.fill_buf()?;
    if bytes.is_empty() {
        return Err(ended());
    }
    let now = fast_chunks::<N, F, false>(table, from, bytes, out);
    reader.consume(now.taken);
    Ok(now.reached)
}

// Decodes chunks from a reader with a buffer, after what others reached: if `WHILE_RUNS_FIT`, as
// long as any run's vectors have room in `out`, else until it is full. Takes no byte past the last
// chunk. Each turn reads one chunk, which may stand across two fillings of the buffer, and then
// takes those that the buffer shows.
#[inline(always)]
fn decode_chunks<R: BufRead, const N: usize, const F: usize, const WHILE_RUNS_FIT: bool>(
    reader: &mut R,
    table: &mut TermTable,
    from: Reached,
    out: &mut [u8],
) -> io::Result<Reached>
    requires { IsFillable N out.old from.at }
    ensures read { IfOk result (λ now. TakesChunks F N WHILE_RUNS_FIT
        (R.remaining reader.old) (R.remaining reader.new)
        (filling table.old from out.old) (filling table.new now out.new)) }
    ensures refused { IfErr result (λ e. RefusesFilling F N false
        (R.remaining reader.old) (R.remaining reader.new)
        (filling table.old from out.old) (Error.IoError e)) }
{
    let least = if WHILE_RUNS_FIT { RUN_ROOM } else { 1 };
    let mut now = from;
    while least <= out.len() - now.at {
        let next = next_chunk::<R, N, F, WHILE_RUNS_FIT>(reader, table, now, out)?;
        now = chunks_in_buffer::<R, N, F>(reader, table, next, out)?;
    }
    Ok(now)
}

impl<R: BufRead, const N: usize, const F: usize> Chunks<N, F> for Buffered<R> {
    ghost ahead = { R.remaining };

    ghost in_memory = { false };

    #[inline(always)]
    fn some_chunks(
        &mut self,
        table: &mut TermTable,
        from: Reached,
        out: &mut [u8],
    ) -> Result<Reached> {
        let front = chunks_in_buffer::<R, N, F>(&mut self.0, table, from, out)?;
        let now = decode_chunks::<R, N, F, true>(&mut self.0, table, front, out)?;
        Ok(now)
    }

    #[inline(always)]
    fn rest_of_image(
        &mut self,
        table: &mut TermTable,
        from: Reached,
        out: &mut [u8],
    ) -> Result<()> {
        decode_chunks::<R, N, F, false>(&mut self.0, table, from, out)?;
        stream_marker(&mut self.0)
    }

    #[inline(always)]
    fn chunks_in_place(
        &mut self,
        table: &mut TermTable,
        from: Reached,
        out: &mut [u8],
    ) -> Result<(Reached, usize)> {
        let bytes = self.0.fill_buf()?;
        if bytes.is_empty() {
            return Err(Error::IoError(ended()));
        }
        let (now, run) = take_in_place::<N, F>(table, from, bytes, out);
        self.0.consume(now.taken);
        Ok((now.reached, run))
    }
}
