//! Decoding an image from bytes in memory.
ghost use Rattle.std.specs.Prelude.{◌≡◌, ◌/◌, ◌%◌, ◌++◌, length, true, Some, IfSome, IfNone, IfOk, IfErr};
ghost use Rattle.qoi.specs.Raw.{IsChannels};
ghost use Rattle.qoi.specs.Qoi.{Error, end_marker};
ghost use Rattle.qoi.specs.Decoding.{ReadsImage, RefusesBytes};
ghost use Rattle.qoi.specs.inner.Chunks.{TakesChunks, RefusesFilling};
ghost use Rattle.qoi.specs.inner.Filling.{IsFillable, filling};

use crate::consts::{QOI_PADDING, QOI_PADDING_SIZE};
use crate::decode::chunks::{Chunks, image_to_buf};
use crate::decode::hashed::Hashed;
use crate::decode::in_place::take_in_place;
use crate::decode::one_chunk::decode_chunk;
use crate::decode::output::RUN_ROOM;
use crate::decode::reached::Reached;
use crate::decode::reader::Bytes;
use crate::decode::stretches::fast_chunks;
use crate::decode::table::{SizedTerms, SmallTermTable, TermTable};
use crate::error::{Error, Result};
use std::simd::prelude::*;

// A whole image of fewer bytes is decoded chunk by chunk, with every test: to fill the
// table of 256 numbers that `fast_loop` takes would take longer.
const SMALL_IMAGE: usize = 160;

// Where chunks end: what they reached, and the bytes ahead.
#[derive(Clone, Copy)]
struct ChunksEnd<'a> {
    reached: Reached,
    rest: &'a [u8],
}

// Decodes chunks one by one, with every test, after what others reached. If `WHILE_RUNS_FIT`, this
// stops once the vectors of some run might have no room in `out` (`RUN_ROOM`), and so before the
// image's end, which may be that of `out`; else once `out` is full. `None` if fewer than eight
// bytes of the file are left before it stops: the file is cut, since its end marker alone has
// eight.
#[inline(never)]
fn careful_chunks<
    'a,
    const N: usize,
    const F: usize,
    const WHILE_RUNS_FIT: bool,
    const SIZE: usize,
>(
    table: &mut SizedTerms<SIZE>,
    from: Reached,
    data: &'a [u8],
    out: &mut [u8],
) -> Option<ChunksEnd<'a>>
    requires { IsFillable N out.old from.at }
    ensures read { IfSome result (λ end. TakesChunks F N WHILE_RUNS_FIT
        (Some «data».entry.now) (Some end.rest.now)
        (filling table.old from out.old) (filling table.new end.reached out.new)) }
    ensures refused { IfNone result (RefusesFilling F N true
        (Some «data».entry.now) (Some «data».entry.now)
        (filling table.old from out.old) Error.UnexpectedBufferEnd) }
{
    let least = if WHILE_RUNS_FIT { RUN_ROOM } else { 1 };
    let mut now = from;
    let mut rest = data;
    while least <= out.len() - now.at {
        if rest.len() < QOI_PADDING_SIZE {
            return None;
        }
        let decoded = decode_chunk::<N, F, WHILE_RUNS_FIT, SIZE>(table, now, rest, out);
        let (_, after) = rest.split_at(decoded.taken);
        rest = after;
        now = decoded.reached;
    }
    Some(ChunksEnd { reached: now, rest })
}

// Decodes chunks first by `fast_chunks` of `stretches`, then by `careful_chunks`. The first goes on
// while `OUTPUT_ROOM` is open, even if `WHILE_RUNS_FIT`: it looks at the size of each long run, and
// so may stop nearer to the end of `out` than the second would.
#[inline(always)]
fn slice_chunks<'a, const N: usize, const F: usize, const WHILE_RUNS_FIT: bool>(
    table: &mut TermTable,
    from: Reached,
    data: &'a [u8],
    out: &mut [u8],
) -> Option<ChunksEnd<'a>>
    requires { IsFillable N out.old from.at }
    ensures read { IfSome result (λ end. TakesChunks F N WHILE_RUNS_FIT
        (Some «data».entry.now) (Some end.rest.now)
        (filling table.old from out.old) (filling table.new end.reached out.new)) }
    ensures refused { IfNone result (RefusesFilling F N true
        (Some «data».entry.now) (Some «data».entry.now)
        (filling table.old from out.old) Error.UnexpectedBufferEnd) }
{
    // If `WHILE_RUNS_FIT`, this leaves a short output as it was (`SHORT_OUTPUT`).
    let now = fast_chunks::<N, F, WHILE_RUNS_FIT>(table, from, data, out);
    let (_, rest) = data.split_at(now.taken);
    careful_chunks::<N, F, WHILE_RUNS_FIT, _>(table, now.reached, rest, out)
}

// Checks that the end marker stands at the front, and returns the bytes after it.
fn slice_marker(data: &[u8]) -> Result<&[u8]>
    ensures found { IfOk result (λ rest. «data».now ≡ end_marker ++ rest.now) }
    ensures refused { IfErr result (RefusesBytes 0 «data».now) }
{
    if data.len() < QOI_PADDING_SIZE {
        return Err(Error::UnexpectedBufferEnd);
    }
    let (eight, rest) = data.split_at(QOI_PADDING_SIZE);
    // One comparison of a number, where the bytes would be compared one by one.
    let number = Simd::<u64, 1>::from_le_bytes(u8x8::from_slice(eight)).to_array()[0];
    if number != u64::from_le_bytes(QOI_PADDING) {
        return Err(Error::InvalidPadding);
    }
    Ok(rest)
}

impl<'a, const N: usize, const F: usize> Chunks<N, F> for Bytes<'a> {
    ghost ahead = { Some };

    ghost in_memory = { true };

    #[inline(always)]
    fn some_chunks(
        &mut self,
        table: &mut TermTable,
        from: Reached,
        out: &mut [u8],
    ) -> Result<Reached> {
        let Some(end) = slice_chunks::<N, F, true>(table, from, self.0, out) else {
            return Err(Error::UnexpectedBufferEnd);
        };
        self.0 = end.rest;
        Ok(end.reached)
    }

    #[inline(always)]
    fn rest_of_image(
        &mut self,
        table: &mut TermTable,
        from: Reached,
        out: &mut [u8],
    ) -> Result<()> {
        let Some(end) = slice_chunks::<N, F, false>(table, from, self.0, out) else {
            return Err(Error::UnexpectedBufferEnd);
        };
        self.0 = slice_marker(end.rest)?;
        Ok(())
    }

    #[inline(always)]
    fn chunks_in_place(
        &mut self,
        table: &mut TermTable,
        from: Reached,
        out: &mut [u8],
    ) -> Result<(Reached, usize)> {
        let (now, run) = take_in_place::<N, F>(table, from, self.0, out);
        let (_, rest) = self.0.split_at(now.taken);
        self.0 = rest;
        Ok((now.reached, run))
    }
}

// Decodes chunks and the end marker, and returns the bytes after them.
pub(super) fn slice_image<'a, const N: usize, const F: usize>(
    data: &'a [u8],
    out: &mut [u8],
) -> Result<&'a [u8]>
    requires channels { IsChannels N }
    requires whole { length out.old % N ≡ 0 }
    ensures read { IfOk result (λ rest.
        ReadsImage F N (length out.old / N) (Some «data».entry.now) (Some rest.now) out.new) }
    ensures refused { IfErr result (RefusesBytes (length out.old / N) «data».entry.now) }
{
    if out.len() < SMALL_IMAGE {
        let mut table = SmallTermTable::new_small();
        let last = Hashed::start();
        let start = Reached { last, at: 0 };
        let Some(end) = careful_chunks::<N, F, false, _>(&mut table, start, data, out) else {
            return Err(Error::UnexpectedBufferEnd);
        };
        return slice_marker(end.rest);
    }
    let mut bytes = Bytes(data);
    image_to_buf::<Bytes, N, F>(&mut bytes, out)?;
    Ok(bytes.0)
}
