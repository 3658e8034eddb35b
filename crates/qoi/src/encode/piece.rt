//! The bytes of a file that are kept before they go to a writer.
ghost use lib.Lanes.{digits_l};
ghost use Rattle.std.specs.Prelude.{◌≡◌, ◌+◌, ◌-◌, ◌*◌, ◌/◌, ◌^◌, ◌<◌, ◌≤◌, [], ◌∷◌, ◌++◌, length, take, drop, replicate, IsTrue, IsFalse, OnOk, IfErr};
ghost use Rattle.std.specs.List.{copy_within};
ghost use Rattle.qoi.specs.declared.encode.piece.TheConstants.{SPARE, RUNS_AT_ONCE, REPEATS_AT_ONCE};
ghost use Rattle.qoi.specs.Qoi.{Chunk, Run, run_max, chunk_max, header_bytes, marker_size, end_marker, bytes_of, chunk_bytes};
ghost use Rattle.qoi.specs.Raw.{IsChannels};
ghost use Rattle.qoi.specs.Runs.{runs_by};
ghost use Rattle.qoi.specs.Writers.{WroteBeginning};

use crate::consts::{QOI_HEADER_SIZE, QOI_OP_RUN, QOI_PADDING, QOI_RUN_MAX};
use crate::error::Result;
use crate::header::Header;
use crate::utils::{copy_after, pick};
use crate::writers::Writer;
use std::simd::prelude::*;

/// A piece with `ROOM - SPARE` bytes is full, and sends these at once. So many bytes of room come
/// behind them: for the chunks that go past them (of a block, runs, or the last ones), the end
/// marker, and what is stored behind and never sent, such as a block's index positions.
pub(super) const SPARE: usize = 128;

/// How many bytes a piece in `LARGE_ROOM` sends at once.
pub(super) const LARGE_BATCH: usize = 4096;

/// The room of a piece for large images to memory, for images to a stream from `LEAST_BLOCK` raw
/// bytes on, and for a `PixelWriter`.
pub(super) const LARGE_ROOM: usize = LARGE_BATCH + SPARE;

/// The room of a piece that sends 512 bytes at once, for a small image that goes to memory: zeroing
/// more takes a good part of the time.
pub(super) const SMALL_ROOM: usize = 512 + SPARE;

/// A file is tiny if its `encode_max_len` is at most this; a piece keeps all of it.
pub(super) const TINY_FILE: usize = 128;

/// The room of a piece for a tiny file.
pub(super) const TINY_ROOM: usize = TINY_FILE + SPARE;

/// The room for the file of an image below `LEAST_BLOCK` raw bytes: header, chunks and end marker.
pub(super) const LEAST_ROOM: usize = 16 + SPARE;

/// The most runs that are kept at a time, stored at once as a vector.
pub(super) const RUNS_AT_ONCE: usize = 16;

/// The repeats of `RUNS_AT_ONCE` runs of 62: 992.
pub(super) const REPEATS_AT_ONCE: usize = RUNS_AT_ONCE * QOI_RUN_MAX;

/// Bytes that are kept: the first `end` ones of a room of `ROOM` bytes. Those after them mean
/// nothing, and there is room for the end marker. A full piece has `ROOM - SPARE` bytes or more.
#[derive(Drop)]
pub(super) struct Piece<'a, const ROOM: usize> {
    pub(super) end: usize,
    pub(super) bytes: &'a mut [u8],
    ghost large: { SPARE ≤ ROOM },
    ghost within: { end + marker_size ≤ ROOM },
    ghost room: { length bytes.now ≡ ROOM },
}

/// A piece that isn't full: there is room (`SPARE`) for the chunks of a block or of fewer pixels,
/// or for sixteen runs and a fresh pixel.
#[derive(Drop)]
pub(super) struct OpenPiece<'a, const ROOM: usize> {
    pub(super) piece: Piece<'a, ROOM>,
    ghost not_full: { piece.end < ROOM - SPARE },
}

impl<'a, const ROOM: usize> Piece<'a, ROOM> {
    ghost use Rattle.qoi.specs.inner.Coder.{kept_bytes};

    /// An empty piece in this room.
    #[inline(always)]
    pub(super) fn new(room: &'a mut [u8]) -> Piece<'a, ROOM>
        requires large { SPARE ≤ ROOM }
        requires room { length room.old ≡ ROOM }
        ensures { kept_bytes result ≡ [] }
    {
        Piece {
            bytes: room,
            end: 0,
        }
    }

    /// A piece in this room, with a header.
    #[inline(always)]
    pub(super) fn with_header(room: &'a mut [u8], header: &Header) -> Piece<'a, ROOM>
        requires large { SPARE ≤ ROOM }
        requires room { length room.old ≡ ROOM }
        ensures { kept_bytes result ≡ header_bytes header.now }
    {
        let end = copy_after(room, 0, &header.encode()[..QOI_HEADER_SIZE]);
        Piece { bytes: room, end }
    }

    /// Whether there are so many bytes that the first `ROOM - SPARE` are sent.
    #[inline(always)]
    pub(super) fn is_full(&self) -> bool
        ensures full { IsTrue result → ROOM - SPARE ≤ self.now.end }
        ensures room { IsFalse result → self.now.end < ROOM - SPARE }
    {
        self.end >= ROOM - SPARE
    }

    /// The piece, which isn't full.
    #[inline(always)]
    pub(super) fn open(self) -> OpenPiece<'a, ROOM>
        requires { self.end < ROOM - SPARE }
        ensures { kept_bytes result.piece ≡ kept_bytes self.entry }
    {
        OpenPiece { piece: self }
    }

    /// Appends a chunk of `size` bytes, as `store_chunk` stores it.
    #[inline(always)]
    pub(super) fn append_chunk<const N: usize>(&mut self, px: u32, number: u32, size: u32)
        requires channels { IsChannels N }
        requires room { self.old.end + (chunk_max + marker_size) ≤ ROOM }
        requires few { size ≤ N + 1 }
        ensures kept { kept_bytes self.new
            ≡ kept_bytes self.old ++ take size (digits_l 256 4 number ++ (px / 2 ^ 24) ∷ []) }
        ensures end { self.new.end ≡ self.old.end + size }
    {
        self.end = store_chunk::<N>(self.bytes, self.end, px, number, size);
    }

    /// Appends the run of fewer than 62 repeats, if there are any; a single one is the byte `one`.
    #[tactic(auto, using(crate::proofs::encoding::lists::RunBytes::run_written))]
    #[inline(always)]
    pub(super) fn append_run(&mut self, count: usize, one: u8)
        requires room { self.old.end + marker_size < ROOM }
        requires few { count < run_max }
        ensures kept { (c : Chunk) → bytes_of c ≡ one ∷ []
            → kept_bytes self.new ≡ kept_bytes self.old ++ chunk_bytes (runs_by c count) }
        ensures end { self.new.end ≤ self.old.end + 1 }
    {
        self.bytes[self.end] = pick(count == 1, one, QOI_OP_RUN - 1 + count as u8);
        self.end += usize::from(count > 0);
    }

    /// Appends runs of 62 repeats, at most sixteen.
    #[tactic(auto, using(crate::proofs::encoding::lists::RunBytes::filled_front, crate::proofs::encoding::lists::RunBytes::full_text))]
    #[inline(always)]
    pub(super) fn append_full_runs(&mut self, runs: usize)
        requires room { self.old.end + (RUNS_AT_ONCE + marker_size) ≤ ROOM }
        requires few { runs ≤ RUNS_AT_ONCE }
        ensures kept { kept_bytes self.new
            ≡ kept_bytes self.old ++ chunk_bytes (replicate runs (Run run_max)) }
        ensures end { self.new.end ≡ self.old.end + runs }
    {
        // Sixteen are stored, and as many of them kept.
        u8x16::splat(QOI_OP_RUN - 1 + QOI_RUN_MAX as u8).copy_to_slice(
            &mut self.bytes[self.end..self.end + RUNS_AT_ONCE],
        );
        self.end += runs;
    }

    /// Sends the first `ROOM - SPARE` bytes of a full piece to a writer; those after them are kept.
    #[tactic(auto, using(crate::proofs::encoding::piece::PieceSent::moved_front))]
    #[inline(always)]
    pub(super) fn send<W: Writer>(&mut self, writer: &mut W) -> Result<()>
        requires full { ROOM - SPARE ≤ self.old.end }
        requires room { ROOM - SPARE ≤ W.room writer.old }
        requires large { 2 * SPARE ≤ ROOM }
        ensures written { OnOk result
            (W.wrote writer.old (take (ROOM - SPARE) (kept_bytes self.old)) writer.new) }
        ensures kept { OnOk result
            (kept_bytes self.new ≡ drop (ROOM - SPARE) (kept_bytes self.old)) }
        ensures room { OnOk result (self.new.end < ROOM - SPARE) }
        ensures refused { IfErr result (λ e. W.IsFault e
            × WroteBeginning W.wrote writer.old (kept_bytes self.old) writer.new) }
    {
        send_front::<W, ROOM>(writer, self.bytes)?;
        self.end -= ROOM - SPARE;
        Ok(())
    }

    /// Stores the end marker after the bytes, and returns where it ends.
    #[inline(always)]
    pub(super) fn store_marker(&mut self) -> usize
        ensures end { result ≡ self.old.end + marker_size }
        ensures stored { take result self.new.bytes.now ≡ kept_bytes self.old ++ end_marker }
    {
        copy_after(self.bytes, self.end, &QOI_PADDING)
    }

    /// The first `n` bytes of the room.
    #[inline(always)]
    pub(super) fn front(&self, n: usize) -> &[u8]
        requires { n ≤ ROOM }
        ensures { result.now ≡ take n self.now.bytes.now }
    {
        &self.bytes[..n]
    }

    /// Sends all the bytes to a writer, and then the end marker. Doesn't empty the piece.
    #[inline(always)]
    pub(super) fn finish<W: Writer>(&mut self, writer: &mut W) -> Result<()>
        requires room { self.old.end + marker_size ≤ W.room writer.old }
        requires large { 2 * SPARE ≤ ROOM }
        ensures written { OnOk result
            (W.wrote writer.old (kept_bytes self.old ++ end_marker) writer.new) }
        ensures refused { IfErr result (λ e. W.IsFault e
            × WroteBeginning W.wrote writer.old (kept_bytes self.old ++ end_marker) writer.new) }
    {
        let mut end = self.store_marker();
        if end >= ROOM - SPARE {
            send_front::<W, ROOM>(writer, self.bytes)?;
            end -= ROOM - SPARE;
        }
        writer.write_many(&self.bytes[..end])
    }
}

// Sends the first `ROOM - SPARE` bytes to a writer, and moves those after them to the front.
#[inline(never)]
fn send_front<W: Writer, const ROOM: usize>(writer: &mut W, bytes: &mut [u8]) -> Result<()>
    requires large { 2 * SPARE ≤ ROOM }
    requires size { length bytes.old ≡ ROOM }
    requires room { ROOM - SPARE ≤ W.room writer.old }
    ensures written { OnOk result (W.wrote writer.old (take (ROOM - SPARE) bytes.old) writer.new) }
    ensures moved { OnOk result (bytes.new ≡ copy_within bytes.old (ROOM - SPARE) ROOM 0) }
    ensures refused { IfErr result (λ e. W.IsFault e
        × WroteBeginning W.wrote writer.old (take (ROOM - SPARE) bytes.old) writer.new) }
{
    writer.write_many(&bytes[..ROOM - SPARE])?;
    bytes.copy_within(ROOM - SPARE.., 0);
    Ok(())
}

/// Stores a chunk after the first `at` bytes, and returns where it ends. It has `size` bytes: the
/// lowest ones of the number and, if there is a fifth, the pixel's alpha. Bytes after the chunk may
/// change.
#[inline(always)]
pub(crate) fn store_chunk<const N: usize>(
    out: &mut [u8],
    at: usize,
    px: u32,
    number: u32,
    size: u32,
) -> usize
    requires channels { IsChannels N }
    requires room { at + chunk_max ≤ length out.old }
    requires few { size ≤ N + 1 }
    ensures end { result ≡ at + size }
    ensures written { take result out.new
        ≡ take at out.old ++ take size (digits_l 256 4 number ++ (px / 2 ^ 24) ∷ []) }
{
    if N == 4 {
        // All four bytes, of which alpha stays: no shift is needed.
        store_number(out, at + 1, px);
    }
    store_number(out, at, number);
    at + size as usize
}

// Stores the bytes of a number, the lowest first.
#[tactic(auto, using(crate::proofs::format::LaneBytes::four_stored))]
#[inline(always)]
fn store_number(out: &mut [u8], at: usize, number: u32)
    requires { at + 4 ≤ length out.old }
    ensures { out.new ≡ take at out.old ++ (digits_l 256 4 number ++ drop (at + 4) out.old) }
{
    Simd::<u32, 1>::from_array([number])
        .to_le_bytes()
        .copy_to_slice(&mut out[at..at + 4]);
}
