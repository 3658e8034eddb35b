//! Decoding an image from a stream.
ghost use Rattle.std.specs.Prelude.{◌<◌, [], ◌∷◌, length, false, IfOk, IfErr, OnOk, OnErr};
ghost use Rattle.std.specs.Io.KnownBytes.{Consumes};
ghost use Rattle.qoi.specs.Qoi.{Error, AreBytes, end_marker};
ghost use Rattle.qoi.specs.Verdicts.{IsPartOfChunk};
ghost use Rattle.qoi.specs.Decoding.{TakesBytes, RefusesTaken};
ghost use Rattle.qoi.specs.inner.Chunks.{TakesChunks, RefusesFilling};
ghost use Rattle.qoi.specs.inner.Filling.{IsFillable, HasRoom, FillsMore, DecodesChunk, filling};

use crate::consts::{QOI_OP_RGB, QOI_PADDING, QOI_PADDING_SIZE};
use crate::decode::chunks::Chunks;
use crate::decode::deltas::is_luma;
use crate::decode::one_chunk::decode_chunk;
use crate::decode::output::RUN_ROOM;
use crate::decode::reached::Reached;
use crate::decode::table::TermTable;
use crate::error::{Error, Result};
use std::io;
use std::io::{ErrorKind, Read};

/// What reading past the end of a stream returns.
#[cold]
pub(crate) fn ended() -> io::Error {
    io::Error::new(ErrorKind::UnexpectedEof, "the reader ended too early")
}

// Fills the buffer from a stream, and asks for no byte past it. The end of the stream is a fault.
// Usually the first read fills it, so that one stands before the loop. Inlined, so that the reader
// isn't lent to a call in the loop over chunks, and the compiler can keep it in registers.
#[inline(always)]
pub(super) fn read_exact<R: Read>(reader: &mut R, buf: &mut [u8]) -> io::Result<()>
    requires { 0 < length buf.old }
    ensures read { OnOk result
        (Consumes (R.remaining reader.old) (R.remaining reader.new) buf.new) }
    ensures failed { OnErr result (TakesBytes (R.remaining reader.old) (R.remaining reader.new)
        (λ taken. (length taken < length buf.old) × AreBytes taken)) }
    ensures bytes { AreBytes buf.new }
{
    let mut count = reader.read(buf)?;
    let mut filled = count;
    while filled < buf.len() {
        if count == 0 {
            return Err(ended());
        }
        count = reader.read(&mut buf[filled..])?;
        filled += count;
    }
    Ok(())
}

// Reads a byte from a stream.
#[inline(always)]
fn read_one<R: Read>(reader: &mut R) -> io::Result<u8>
    ensures read { IfOk result (λ byte.
        Consumes (R.remaining reader.old) (R.remaining reader.new) (byte ∷ [])) }
    ensures failed { OnErr result
        (Consumes (R.remaining reader.old) (R.remaining reader.new) []) }
{
    let mut one = [0];
    let count = reader.read(&mut one)?;
    if count == 0 {
        return Err(ended());
    }
    Ok(one[0])
}

// Reads one chunk from a stream, and no byte past it, and decodes it. If `RUN_FITS`, the output has
// room for the vectors of any run.
#[inline(always)]
pub(super) fn next_chunk<R: Read, const N: usize, const F: usize, const RUN_FITS: bool>(
    reader: &mut R,
    table: &mut TermTable,
    from: Reached,
    out: &mut [u8],
) -> io::Result<Reached>
    requires { HasRoom N RUN_FITS out.old from.at }
    ensures read { IfOk result (λ now.
        TakesBytes (R.remaining reader.old) (R.remaining reader.new) (λ taken.
        DecodesChunk F N taken (filling table.old from out.old) (filling table.new now out.new))) }
    ensures more { IfOk result (λ now.
        FillsMore N out.old from.at out.new now.at) }
    ensures failed { OnErr result (TakesBytes (R.remaining reader.old) (R.remaining reader.new)
        IsPartOfChunk) }
{
    let b1 = read_one(reader)?;
    if is_luma(b1) {
        let b2 = read_one(reader)?;
        let bytes = [b1, b2, 0, 0, 0, 0, 0, 0];
        return Ok(decode_chunk::<N, F, RUN_FITS, _>(table, from, &bytes, out).reached);
    }
    if b1 < QOI_OP_RGB {
        let bytes = [b1, 0, 0, 0, 0, 0, 0, 0];
        return Ok(decode_chunk::<N, F, RUN_FITS, _>(table, from, &bytes, out).reached);
    }
    if b1 == QOI_OP_RGB {
        let mut more = [0, 0, 0];
        read_exact(reader, &mut more)?;
        let bytes = [b1, more[0], more[1], more[2], 0, 0, 0, 0];
        return Ok(decode_chunk::<N, F, RUN_FITS, _>(table, from, &bytes, out).reached);
    }
    let mut more = [0, 0, 0, 0];
    read_exact(reader, &mut more)?;
    let bytes = [b1, more[0], more[1], more[2], more[3], 0, 0, 0];
    Ok(decode_chunk::<N, F, RUN_FITS, _>(table, from, &bytes, out).reached)
}

// Decodes chunks from a stream, after what others reached: if `WHILE_RUNS_FIT`, as long as `out`
// has room for the vectors of any run, else until it is full. Takes no byte past the last chunk.
fn decode_chunks<R: Read, const N: usize, const F: usize, const WHILE_RUNS_FIT: bool>(
    reader: &mut R,
    table: &mut TermTable,
    from: Reached,
    out: &mut [u8],
) -> io::Result<Reached>
    requires { IsFillable N out.old from.at }
    ensures read { IfOk result (λ now. TakesChunks F N WHILE_RUNS_FIT
        (R.remaining reader.old) (R.remaining reader.new)
        (filling table.old from out.old) (filling table.new now out.new)) }
    ensures refused { IfErr result (λ e. RefusesFilling F N false
        (R.remaining reader.old) (R.remaining reader.new)
        (filling table.old from out.old) (Error.IoError e)) }
{
    let least = if WHILE_RUNS_FIT { RUN_ROOM } else { 1 };
    let mut now = from;
    if least <= out.len() {
        // Computed once, so that the loop compares without a subtraction and needn't keep the size.
        let top = out.len() - least;
        while now.at <= top {
            now = next_chunk::<R, N, F, WHILE_RUNS_FIT>(reader, table, now, out)?;
        }
    }
    Ok(now)
}

// Reads eight bytes from a stream, and refuses them if they aren't the end marker.
pub(super) fn stream_marker<R: Read>(reader: &mut R) -> Result<()>
    ensures read { OnOk result
        (Consumes (R.remaining reader.old) (R.remaining reader.new) end_marker) }
    ensures refused { IfErr result (λ e.
        TakesBytes (R.remaining reader.old) (R.remaining reader.new)
        (λ taken. RefusesTaken 0 taken e)) }
{
    let mut eight = [0; QOI_PADDING_SIZE];
    read_exact(reader, &mut eight)?;
    if eight != QOI_PADDING {
        return Err(Error::InvalidPadding);
    }
    Ok(())
}

impl<R: Read, const N: usize, const F: usize> Chunks<N, F> for R {
    ghost ahead = { R.remaining };

    ghost in_memory = { false };

    fn some_chunks(
        &mut self,
        table: &mut TermTable,
        from: Reached,
        out: &mut [u8],
    ) -> Result<Reached> {
        let now = decode_chunks::<R, N, F, true>(self, table, from, out)?;
        Ok(now)
    }

    // First as long as any run has room, and then to the end, with every test.
    fn rest_of_image(
        &mut self,
        table: &mut TermTable,
        from: Reached,
        out: &mut [u8],
    ) -> Result<()> {
        let now = decode_chunks::<R, N, F, true>(self, table, from, out)?;
        decode_chunks::<R, N, F, false>(self, table, now, out)?;
        stream_marker(self)
    }
}
