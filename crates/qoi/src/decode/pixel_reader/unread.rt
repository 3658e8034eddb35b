//! What is unread of an image, and how it is decoded piece by piece: what is decoded before a
//! caller asks for it is kept.
ghost use Rattle.std.specs.Prelude.{◌≡◌, ℕ, ◌+◌, ◌-◌, ◌*◌, ◌%◌, ◌^◌, ◌<◌, ◌≤◌, List, [], length, min, Option, Some, IfOk, OnOk, IfSome, None};
ghost use Rattle.qoi.specs.Raw.{IsChannels};
ghost use Rattle.qoi.specs.inner.Filling.{RUN_ROOM};
ghost use Rattle.qoi.specs.declared.decode.pixel_reader.room.TheConstants.{DECODED_AHEAD, LONG_PIECE};

use crate::decode::chunks::Chunks;
use crate::decode::hashed::Hashed;
use crate::decode::output::{RUN_ROOM, store_run};
use crate::decode::pixel_reader::room::{
    DECODED_AHEAD, LONG_PIECE, keep_rest_of_image, keep_some_chunks, kept_room,
};
use crate::decode::reached::Reached;
use crate::decode::table::TermTable;
use crate::error::Error;

/// What is unread of an image: the stored `bytes` from `from` to `to`, and `unstored` raw bytes,
/// of which the first `run` are copies of the last pixel, the rest of its run; `run` and, until a
/// refusal, `unstored` are whole pixels. While some are unstored, table and last pixel are those
/// behind all chunks so far. After a refusal its error stands in `fault`, until it is returned.
#[derive(Drop)]
pub struct Unread {
    pub(super) table: TermTable,
    pub(super) last: Hashed,
    pub(super) bytes: [u8; DECODED_AHEAD],
    pub(super) from: usize,
    pub(super) to: usize,
    pub(super) run: usize,
    pub(super) unstored: usize,
    pub(super) fault: Option<Error>,
}

/// A piece was refused. The error stands in `fault`, until `PixelReader::read` returns it and sets
/// `refused` for good: a result with the error in it has 104 bytes, which would be written for each
/// piece.
#[derive(Clone, Copy)]
pub struct Refused;

/// What the calls return that decode a piece.
pub type PieceResult<T> = std::result::Result<T, Refused>;

impl Unread {
    ghost use Rattle.qoi.specs.pieces.Unread.{kept_count, bytes_left, KeepsWithin, KeepsNothing, OwesWholePixels, IsUnread, GivesMore, Asks, Steps};

    /// All of an image of `size` bytes.
    pub(super) fn new(size: usize) -> Unread
        requires { 0 < size }
        ensures start { (f c n : ℕ) (start : Option (List ℕ)) → IsChannels c → size ≡ c * n
            → IsUnread f c n start start [] result }
        ensures pixels { (c n : ℕ) → IsChannels c → size ≡ c * n → OwesWholePixels c result }
        ensures left { bytes_left result ≡ size }
        ensures within { KeepsWithin result }
        ensures unstored { (result.unstored ≡ size) × (result.run ≡ 0) }
        ensures fault { result.fault ≡ None }
    {
        Unread::behind(TermTable::new(), Hashed::start(), 0, size)
    }

    /// So many raw bytes of an image, `unstored`, behind chunks that left this table and this last
    /// pixel. The first `run` of them are the rest of the last chunk's run.
    #[inline(always)]
    pub(super) fn behind(table: TermTable, last: Hashed, run: usize, unstored: usize) -> Unread
        ensures chunks { (result.table ≡ table) × (result.last ≡ last) }
        ensures none { (result.from ≡ 0) × (result.to ≡ 0) }
        ensures unstored { (result.run ≡ run) × (result.unstored ≡ unstored) }
        ensures fault { result.fault ≡ None }
    {
        Unread {
            table,
            last,
            bytes: [0; DECODED_AHEAD],
            from: 0,
            to: 0,
            run,
            unstored,
            fault: None,
        }
    }

    /// A copy, while `fault` has no error.
    pub(super) fn copied(&self) -> Unread
        requires { self.now.fault ≡ None }
        ensures { result ≡ self.now }
    {
        Unread {
            table: self.table.copied(),
            fault: None,
            ..*self
        }
    }

    /// How many bytes of the image weren't given yet.
    #[inline]
    pub(super) fn left(&self) -> usize
        requires within { KeepsWithin self.now }
        requires fits { bytes_left self.now < 2 ^ 64 }
        ensures { result ≡ bytes_left self.now }
    {
        self.to - self.from + self.unstored
    }

    // Puts the error of a refusal into `fault`.
    #[cold]
    #[inline(never)]
    fn fail(&mut self, e: Error) -> Refused
        ensures { self.new.fault ≡ Some e }
    {
        self.fault = Some(e);
        Refused
    }

    /// Takes the error of a refusal out of `fault`, and drops what is kept: as many bytes count as
    /// left as before the piece that was refused.
    #[cold]
    #[inline(never)]
    pub(super) fn take_fault(&mut self, left: usize) -> Error
        ensures left { bytes_left self.new ≡ left }
        ensures within { KeepsWithin self.new }
        ensures error { IfSome self.old.fault (λ e. result ≡ e) }
        ensures none { self.new.fault ≡ None }
    {
        self.from = 0;
        self.to = 0;
        self.run = 0;
        self.unstored = left;
        match self.fault.take() {
            Some(e) => e,
            None => Error::UnexpectedBufferEnd,
        }
    }

    /// Gives kept bytes into the front of `out`, and returns how many.
    #[inline]
    pub(super) fn give(&mut self, out: &mut [u8]) -> usize
        requires { KeepsWithin self.old }
        ensures size { result ≡ min (length out.old) (kept_count self.old) }
        ensures gives { (f c : ℕ) (now : Option (List ℕ)) → OwesWholePixels c self.old
            → GivesMore f c now now self.old self.new out.new result }
        ensures state { self.new ≡ record self.old { from = self.old.from + result } }
    {
        if self.from == self.to {
            return 0;
        }
        let size = out.len().min(self.to - self.from);
        out[..size].copy_from_slice(&self.bytes[self.from..self.from + size]);
        self.from += size;
        size
    }

    // Stores the rest of a run in what is kept, while nothing else is.
    #[cold]
    #[inline(never)]
    fn keep_run<const N: usize, const F: usize>(&mut self)
        requires channels { IsChannels N }
        requires none { kept_count self.old ≡ 0 }
        requires some { 0 < self.old.run }
        requires pixels { OwesWholePixels N self.old }
        ensures gives { (now : Option (List ℕ)) → GivesMore F N now now self.old self.new [] 0 }
        ensures none { self.new.run ≡ 0 }
        ensures within { KeepsWithin self.new }
    {
        store_run::<N, F>(&mut self.bytes, 0, self.last, self.run / N);
        self.from = 0;
        self.to = self.run;
        self.unstored -= self.run;
        self.run = 0;
    }

    // Gives the rest of a run into the front of `out`, while nothing is kept, and returns how many
    // bytes; keeps what has no room.
    #[inline(always)]
    fn give_run<const N: usize, const F: usize>(&mut self, out: &mut [u8]) -> usize
        requires channels { IsChannels N }
        requires none { kept_count self.old ≡ 0 }
        requires pixels { OwesWholePixels N self.old }
        ensures gives { (now : Option (List ℕ)) → GivesMore F N now now
            self.old self.new out.new result }
        ensures within { result ≤ length out.new }
        ensures none { result < length out.new → KeepsNothing self.new }
    {
        if self.run == 0 {
            return 0;
        }
        self.keep_run::<N, F>();
        self.give(out)
    }

    // Gives the rest of the run that the piece before left and, if `out` isn't short and `RUN_ROOM`
    // of the image follows `out` (so that any run ends in the image), the chunks behind it that a
    // slice or a reader's buffer shows (those of other readers `decode_while_runs_fit` may take).
    // Returns how many bytes, and keeps what has no room of that run; the last run that is decoded
    // may go on past the piece (`run`).
    #[inline(always)]
    fn decode_in_place<R: Chunks<N, F>, const N: usize, const F: usize>(
        &mut self,
        reader: &mut R,
        out: &mut [u8],
    ) -> PieceResult<usize>
        requires channels { IsChannels N }
        requires asks { Asks N self.old (length out.old) }
        ensures step { Steps F N R.in_memory (R.ahead reader.old) (R.ahead reader.new)
            self.old self.new out.new (λ size. size) result }
        ensures none { IfOk result (λ size. size < length out.new → KeepsNothing self.new) }
    {
        // `out` has at most `unstored` bytes, since nothing is kept (`Asks`).
        if out.len() < LONG_PIECE || self.unstored - out.len() < RUN_ROOM {
            return Ok(self.give_run::<N, F>(out));
        }
        let size = out.len() / N * N;
        // Even if none is left of a run: what is stored then is written again.
        store_run::<N, F>(out, 0, self.last, self.run / N);
        let (last, at) = (self.last, self.run);
        let start = Reached { last, at };
        let (now, run) = match reader.chunks_in_place(&mut self.table, start, &mut out[..size]) {
            Ok(decoded) => decoded,
            Err(e) => return Err(self.fail(e)),
        };
        self.last = now.last;
        self.run = run;
        // `now.at` includes the run stored above, which counted as unstored.
        self.unstored -= now.at;
        if now.at == out.len() {
            return Ok(now.at);
        }
        // A run is left here only if `out` ends within a pixel.
        Ok(now.at + self.give_run::<N, F>(&mut out[now.at..]))
    }

    // Decodes chunks into `out`, what is open of a piece behind its first `done` bytes, and returns
    // how many bytes. It doesn't stop while `RUN_ROOM` is open, and some always stays open. It
    // decodes none below `RUN_ROOM` (as mostly behind `decode_in_place` of a slice), or below
    // `LONG_PIECE` if `done` is 0, since a short piece is given from kept bytes.
    #[inline]
    fn decode_while_runs_fit<R: Chunks<N, F>, const N: usize, const F: usize>(
        &mut self,
        reader: &mut R,
        out: &mut [u8],
        done: usize,
    ) -> PieceResult<usize>
        requires channels { IsChannels N }
        requires asks { Asks N self.old (length out.old) }
        requires run { self.old.run ≡ 0 }
        requires some { 0 < length out.old }
        ensures step { Steps F N R.in_memory (R.ahead reader.old) (R.ahead reader.new)
            self.old self.new out.new (λ size. size) result }
        ensures open { IfOk result (λ size. size < length out.new) }
        ensures few { IfOk result (λ size. length out.new < size + LONG_PIECE) }
        ensures last { IfOk result (λ size. 0 < done + size
            → length out.new < size + (RUN_ROOM + 3)) }
        ensures none { OnOk result (KeepsNothing self.new) }
    {
        if out.len() < RUN_ROOM || (done == 0 && out.len() < LONG_PIECE) {
            return Ok(0);
        }
        let size = out.len() / N * N;
        let last = self.last;
        let start = Reached { last, at: 0 };
        let now = match reader.some_chunks(&mut self.table, start, &mut out[..size]) {
            Ok(now) => now,
            Err(e) => return Err(self.fail(e)),
        };
        self.last = now.last;
        self.unstored -= now.at;
        Ok(now.at)
    }

    // Decodes ahead of the caller, and keeps it: chunks into `room` bytes, of which less than
    // `RUN_ROOM` stays empty, or, if at most `DECODED_AHEAD` of the image are left, all these and
    // the marker.
    fn decode_ahead<R: Chunks<N, F>, const N: usize, const F: usize>(
        &mut self,
        reader: &mut R,
        room: usize,
    ) -> PieceResult<()>
        requires channels { IsChannels N }
        requires room { (0 < room) × (room ≤ DECODED_AHEAD) }
        requires whole { room % N ≡ 0 }
        requires none { KeepsNothing self.old }
        requires some { 0 < self.old.unstored }
        requires pixels { OwesWholePixels N self.old }
        ensures step { Steps F N R.in_memory (R.ahead reader.old) (R.ahead reader.new)
            self.old self.new [] (λ _. 0) result }
        ensures enough { OnOk result
            (min self.old.unstored (room - RUN_ROOM) ≤ kept_count self.new) }
    {
        self.from = 0;
        if DECODED_AHEAD < self.unstored {
            let some = keep_some_chunks::<R, N, F>(
                reader,
                &mut self.table,
                self.last,
                &mut self.bytes,
                room,
            );
            let now = match some {
                Ok(now) => now,
                Err(e) => return Err(self.fail(e)),
            };
            self.last = now.last;
            self.to = now.at;
            self.unstored -= now.at;
            return Ok(());
        }
        let size = self.unstored;
        let rest = keep_rest_of_image::<R, N, F>(
            reader,
            &mut self.table,
            self.last,
            &mut self.bytes,
            size,
        );
        if let Err(e) = rest {
            return Err(self.fail(e));
        }
        self.to = size;
        self.unstored = 0;
        Ok(())
    }

    /// Decodes an image's next bytes, while none are kept, and with the last ones takes the end
    /// marker. Returns how many are in `out`, maybe none; what `out` lacks, and more, is kept. They
    /// come in three ways, one after the other:
    /// - the rest of a run, and behind it what a slice or a reader's buffer shows, in place
    ///   (`decode_in_place`);
    /// - chunks of any reader, at least as long as any run has room in `out`
    ///   (`decode_while_runs_fit`);
    /// - chunks that are decoded ahead, and kept (`decode_ahead`).
    pub(in crate::decode) fn decode_more<R: Chunks<N, F>, const N: usize, const F: usize>(
        &mut self,
        reader: &mut R,
        out: &mut [u8],
    ) -> PieceResult<usize>
        requires channels { IsChannels N }
        requires asks { Asks N self.old (length out.old) }
        ensures step { Steps F N R.in_memory (R.ahead reader.old) (R.ahead reader.new)
            self.old self.new out.new (λ size. size) result }
        ensures enough { IfOk result (λ size. length out.new ≤ size + kept_count self.new) }
    {
        let done = self.decode_in_place::<R, N, F>(reader, out)?;
        if done == out.len() {
            return Ok(done);
        }
        let more = self.decode_while_runs_fit::<R, N, F>(reader, &mut out[done..], done)?;
        let filled = done + more;
        let room = kept_room(out.len(), filled);
        self.decode_ahead::<R, N, F>(reader, room)?;
        Ok(filled)
    }
}
