//! Decoding an image piece by piece.
ghost use Rattle.std.specs.Io.KnownBytes.{Keeps};
ghost use Rattle.std.specs.Prelude.{◌*◌, ◌≡◌, ℕ, ◌+◌, ◌-◌, ◌<◌, ◌≤◌, List, [], ◌++◌, length, take, drop, min, Option, Some, Ok, true, false, IsTrue, IfSome, IfOk, IfErr, OnErr, IsErrOf};
ghost use Rattle.qoi.specs.Decoded.{HasDecoded};
ghost use Rattle.qoi.specs.DecoderState.{DecoderState, output_byte_count};
ghost use Rattle.qoi.specs.Images.{front_image, front_rest};
ghost use Rattle.qoi.specs.pieces.PixelReader.{PixelsState, as_decoder, unread_bytes, HasGiven, IfGiven, IfGivenOf, IsFresh, HasRows, ReadsUpTo, RefusesPixels, RefusesPiece, StopsAt, IsSpent};
ghost use Rattle.qoi.specs.Qoi.{Error, channels_number, pixels_max};
ghost use Rattle.qoi.specs.pieces.Unread.{bytes_left, IsRestOf, OwesWholePixels, Asks, Steps};
ghost use Rattle.qoi.specs.Reading.{StandsAhead, IsCutAhead, IsWrongAhead, SaysWhy};
ghost use Rattle.qoi.specs.Rectangles.{row_bytes, rectangle, row_size};

pub(super) mod mark;
mod rectangles;
mod room;
pub(super) mod row_index;
mod seek_point;
mod skipping;
pub(super) mod unread;

use crate::decode::Decoder;
use crate::decode::pixel_reader::unread::{PieceResult, Unread};
use crate::decode::reader::Reader;
use crate::error::{Error, Result};
use crate::header::Header;
use crate::types::Channels;
use std::marker::Model;

/// Hands out the raw bytes of one image piece by piece, so that it needn't fit into memory (QOI
/// specification 1.0, "Data" and "Chunks"). Nothing is allocated; a reader has some 5 KB.
///
/// A contract sees the reader, the header, the channels of the output, what is unread, and whether
/// the image was refused.
///
/// ```
/// let mut pixels = Decoder::from_buf_read(reader)?.into_pixels();
/// while pixels.left() > 0 {
///     let count = pixels.read(&mut row)?;
///     writer.write_all(&row[..count])?;
/// }
/// ```
#[derive(Drop)]
pub struct PixelReader<R> {
    decoder: Decoder<R>,
    unread: Unread,
    refused: bool,
}

impl<R> Model for PixelReader<R> {
    ghost Value = { PixelsState R };

    ghost view = { λ p. record {
      reader = p.decoder.reader;
      header = p.decoder.header;
      channels = p.decoder.channels;
      unread = p.unread;
      refused = p.refused;
    } };

    ghost invariant = { λ p. IsRestOf p.decoder.header p.decoder.channels p.refused p.unread };
}

impl<R: Reader> Decoder<R> {
    /// Starts the decoding of the image ahead, in the decoder's channels, piece by piece. Nothing
    /// is read yet.
    pub fn into_pixels(self) -> PixelReader<R>
        ensures start { HasGiven self (R.ahead self.reader) (R.ahead result.reader) [] result }
        ensures fresh { IsFresh R.ahead result }
        ensures rows { (stride : ℕ)
            → HasRows self (R.ahead self.reader) (R.ahead result.reader) stride 0 result }
        // The same of the rows as they are: so a search need not guess how many bytes they have.
        ensures top { HasRows self (R.ahead self.reader) (R.ahead result.reader)
            (row_size self.channels self.header) 0 result }
        ensures same { as_decoder result ≡ self }
        ensures left { unread_bytes result ≡ output_byte_count self }
    {
        let size = self.required_buf_len();
        PixelReader {
            decoder: self,
            unread: Unread::new(size),
            refused: false,
        }
    }

    // `next_piece` once nothing is kept: asks the reader for bytes that are decoded into `out`, and
    // for more that are then kept, and gives of these what `out` lacks. Not inlined: what `read`
    // does for bytes that are kept is then a few instructions.
    #[inline(never)]
    fn ask_reader(&mut self, unread: &mut Unread, out: &mut [u8]) -> PieceResult<()>
        requires { Asks (channels_number self.old.channels) unread.old (length out.old) }
        ensures step { Steps (channels_number self.old.header.channels)
            (channels_number self.old.channels) R.in_memory (R.ahead self.old.reader)
            (R.ahead self.new.reader) unread.old unread.new out.new (λ _. length out.new) result }
        ensures stays { IsTrue R.in_memory
            → OnErr result (Keeps (R.ahead self.old.reader) (R.ahead self.new.reader)) }
        ensures unchanged { self.new ≡ record self.old { reader = self.new.reader } }
    {
        let conversion = self.conversion();
        let given = self.reader.decode_piece(unread, out, conversion)?;
        unread.give(&mut out[given..]);
        Ok(())
    }

    // Fills `out` with the next bytes of the image: with what is kept, and else by the reader. It
    // may end within a pixel, but what stays unstored are whole pixels.
    #[inline(always)]
    fn next_piece(&mut self, unread: &mut Unread, out: &mut [u8]) -> PieceResult<()>
        requires fits { length out.old ≤ bytes_left unread.old }
        requires pixels { OwesWholePixels (channels_number self.old.channels) unread.old }
        ensures step { Steps (channels_number self.old.header.channels)
            (channels_number self.old.channels) R.in_memory (R.ahead self.old.reader)
            (R.ahead self.new.reader) unread.old unread.new out.new (λ _. length out.new) result }
        ensures stays { IsTrue R.in_memory
            → OnErr result (Keeps (R.ahead self.old.reader) (R.ahead self.new.reader)) }
        ensures unchanged { self.new ≡ record self.old { reader = self.new.reader } }
    {
        let done = unread.give(out);
        if done == out.len() {
            return Ok(());
        }
        self.ask_reader(unread, &mut out[done..])
    }
}

impl<R: Reader> PixelReader<R> {
    /// A second reader of the rest of the same image, over a clone of this one's source. If each
    /// clone of the source equals it, as with a `&[u8]`, the readers are equal, and so is what was
    /// read. A reader over `Bytes` is doubled by `mark` and `Mark::resume`.
    ///
    /// `OutOfMemory` if an allocation of the source's clone fails.
    pub fn clone(&self) -> Result<PixelReader<R>>
    where
        R: Clone,
        ensures cloned { IfOk result (λ p. (p ≡ record self.now { reader = p.reader })
            × R.is_clone self.now.reader p.reader) }
        ensures equal { ((reader : _) → R.is_clone self.now.reader reader
            → reader ≡ self.now.reader)
            → IfOk result (λ p. p ≡ self.now) }
        ensures refused { IfErr result (λ e. e ≡ Error.OutOfMemory) }
    {
        Ok(PixelReader {
            decoder: self.decoder.clone()?,
            unread: self.unread.copied(),
            refused: self.refused,
        })
    }

    /// The file's header.
    pub fn header(&self) -> &Header
        ensures { result.now ≡ self.now.header }
    {
        self.decoder.header()
    }

    /// The channels of the raw bytes.
    pub fn channels(&self) -> Channels
        ensures { result ≡ self.now.channels }
    {
        self.decoder.channels()
    }

    /// How many raw bytes a row of the image has, in the channels of the output.
    pub fn bytes_per_row(&self) -> usize
        ensures size { result ≡ row_size self.now.channels self.now.header }
        ensures most { result ≤ 4 * pixels_max }
    {
        let header = self.decoder.header.with_channels(self.decoder.channels);
        header.bytes_per_row()
    }

    /// How many raw bytes of the image are unread: none after the last ones, and some for ever
    /// after a refusal.
    #[tactic(auto, unfolding(crate::specs::pieces::PixelReader::unread_bytes, crate::specs::pieces::PixelReader::HasGiven))]
    pub fn left(&self) -> usize
        ensures left { result ≡ unread_bytes self.now }
        ensures most { result ≤ 4 * pixels_max }
        ensures within { result ≤ output_byte_count (as_decoder self.now) }
        // If none are left, the decoder's image was decoded, and what was read are its bytes.
        ensures all { IfGiven R.ahead self.now (λ d start given. result ≡ 0
            → HasDecoded d start (R.ahead self.now.reader) given) }
        ensures image { IfGivenOf R.ahead self.now (λ d bytes given.
            result ≡ 0 → given ≡ front_image d.channels d.header bytes) }
        // Before: what was read and what is left are as many bytes as the image has, and what was
        // read is its front.
        ensures of_image { IfGiven R.ahead self.now (λ d start given.
            length given + result ≡ output_byte_count d) }
        ensures front { IfGivenOf R.ahead self.now (λ d bytes given.
            given ≡ take (length given) (front_image d.channels d.header bytes)) }
    {
        self.unread.left()
    }

    /// Reads the next raw bytes into the front of `buf`: as many as it has, or as are left of the
    /// image. Returns how many; none once all were read. Up to 3,072 raw bytes are decoded ahead of
    /// them, and kept for the next call. When the image's last bytes are decoded, the end marker is
    /// taken, and no byte past it.
    ///
    /// Refusals are those of `Decoder::decode_to_buf`, but for `OutputBufferTooSmall`. They come at
    /// the latest with the last bytes, and earlier if what is decoded ahead is broken, or the
    /// reader fails there: sound bytes before that aren't given either. A slice that is cut may be
    /// refused once fewer than eight bytes are left: up to seven runs, of 1,736 raw bytes in all,
    /// aren't read then. After a refusal the bytes of `buf` may be overwritten, as many as would
    /// have been read; a slice's tail is as before the call, and a stream stands after the bytes
    /// that were read. `left` is as before, and no more of the image can be read: each further
    /// `read` into a buffer that isn't empty returns `UnexpectedBufferEnd`.
    #[tactic(auto, unfolding(crate::specs::pieces::PixelReader::unread_bytes))]
    pub fn read(&mut self, buf: &mut [u8]) -> Result<usize>
        // A success: the bytes follow those that were read before.
        ensures read { IfGiven R.ahead self.old (λ d start given. IfOk result (λ size.
            HasGiven d start (R.ahead self.new.reader) (given ++ take size buf.new) self.new)) }
        // In the image they are those behind the bytes that were read before.
        ensures follows { IfGivenOf R.ahead self.old (λ d bytes given. IfOk result (λ size.
            take size buf.new
            ≡ take size (drop (length given) (front_image d.channels d.header bytes)))) }
        // A buffer of a row that is filled: behind k rows of the image it is row k. These two
        // follow from `strip` and `strip_rows`, for one row.
        ensures rows { (d : DecoderState R) (start : Option (List ℕ)) (stride k : ℕ)
            → HasRows d start (R.ahead self.old.reader) stride k self.old
            → length buf.old ≡ stride → IfOk result (λ size. stride ≤ size
            → HasRows d start (R.ahead self.new.reader) stride (k + 1) self.new) }
        ensures row { (d : DecoderState R) (bytes : List ℕ) (stride k : ℕ)
            → HasRows d (Some bytes) (R.ahead self.old.reader) stride k self.old
            → length buf.old ≡ stride → IfOk result (λ size. stride ≤ size
            → buf.new ≡ row_bytes stride (front_image d.channels d.header bytes) k) }
        // A buffer of n rows that is filled: the n rows behind those.
        ensures strip { (d : DecoderState R) (start : Option (List ℕ)) (stride k n : ℕ)
            → HasRows d start (R.ahead self.old.reader) stride k self.old
            → length buf.old ≡ stride * n → IfOk result (λ size. length buf.old ≤ size
            → HasRows d start (R.ahead self.new.reader) stride (k + n) self.new) }
        ensures strip_rows { (d : DecoderState R) (bytes : List ℕ) (stride k n : ℕ)
            → HasRows d (Some bytes) (R.ahead self.old.reader) stride k self.old
            → length buf.old ≡ stride * n → IfOk result (λ size. length buf.old ≤ size
            → buf.new ≡ rectangle stride k 0 n stride (front_image d.channels d.header bytes)) }
        ensures size { IfOk result (ReadsUpTo (length buf.old) self.old self.new) }
        ensures none { min (length buf.old) (unread_bytes self.old) ≡ 0
            → (result ≡ Ok 0) × (self.new ≡ self.old) }

        // The refusals: those of the image, and then no more of it is read. Bytes in memory stay.
        ensures refused { IfGiven R.ahead self.old (λ d start given. IfErr result
            (RefusesPiece R.in_memory d start given (length buf.old) (R.ahead self.new.reader))) }
        ensures stops { OnErr result (StopsAt R.in_memory R.ahead self.old self.new) }
        ensures again { IsSpent self.old → 0 < length buf.old
            → IsErrOf result Error.UnexpectedBufferEnd
            × (self.new ≡ self.old) × (buf.new ≡ buf.old) }

        // What stays: later bytes of the buffer, header and channels.
        ensures later { drop (unread_bytes self.old) buf.new
            ≡ drop (unread_bytes self.old) buf.old }
        ensures unchanged { (self.new.header ≡ self.old.header)
            × (self.new.channels ≡ self.old.channels) }
    {
        let left = self.unread.left();
        let size = buf.len().min(left);
        if size == 0 {
            return Ok(0);
        }
        if self.refused {
            return Err(Error::UnexpectedBufferEnd);
        }
        match self.decoder.next_piece(&mut self.unread, &mut buf[..size]) {
            Ok(()) => Ok(size),
            Err(_) => {
                self.refused = true;
                Err(self.unread.take_fault(left))
            }
        }
    }

    /// Refuses what is left of the image, as after a refusal of `read`: so many bytes count as
    /// left.
    #[tactic(auto, unfolding(crate::specs::pieces::PixelReader::unread_bytes))]
    pub(crate) fn refuse_rest(&mut self, left: usize)
        requires some { 0 < left }
        requires within { left ≤ output_byte_count (as_decoder self.old) }
        ensures spent { IsSpent self.new }
        ensures left { unread_bytes self.new ≡ left }
        ensures unchanged { as_decoder self.new ≡ as_decoder self.old }
    {
        // There is no fault to take: what is kept is dropped.
        let _ = self.unread.take_fault(left);
        self.refused = true;
    }

    /// Gives back the decoder, whose reader is as it stands: behind the end marker if no bytes are
    /// left, so that the decoder goes on there. Else call `finish` instead: it takes the rest. In
    /// mid-image, also after a refusal, a stream's decoder gives other pixels (`from_stream`).
    pub fn into_decoder(self) -> Decoder<R>
        ensures { result ≡ as_decoder self }
    {
        self.decoder
    }
}

impl<R: Reader + Drop> PixelReader<R> {
    /// Takes what is left of the image, and the end marker, without handing the bytes out: a file
    /// is checked, or its end found, without allocating. Gives back the decoder, which goes on
    /// behind the end marker.
    ///
    /// Refusals are those of `read`; of an image that was refused before, `UnexpectedBufferEnd`.
    /// The decoder is dropped then with its reader, so no contract can say where that stood.
    pub fn finish(mut self) -> Result<Decoder<R>>
        // A success: the bytes that were read, and others, are the image.
        ensures finished { IfGiven R.ahead self (λ d start given. IfOk result (λ decoder.
            (rest : List ℕ) × HasDecoded d start (R.ahead decoder.reader) (given ++ rest))) }
        // If nothing was read before, the image stood ahead, and the decoder goes on behind it.
        ensures passed { IsFresh R.ahead self → IfOk result (λ decoder.
            IfSome (R.ahead self.reader) (λ bytes. StandsAhead self.header bytes)) }
        ensures behind { IsFresh R.ahead self → IfOk result (λ decoder.
            IfSome (R.ahead self.reader) (λ bytes.
            R.ahead decoder.reader ≡ Some (front_rest self.header bytes))) }
        ensures same { IfOk result (λ decoder.
            decoder ≡ record (as_decoder self) { reader = decoder.reader }) }

        // The refusals: those of the image, now or before.
        ensures refused { IfGiven R.ahead self (λ d start given. IfErr result (λ e.
            (new : Option (List ℕ)) × RefusesPixels R.in_memory d start new e)) }
        ensures missing { IsFresh R.ahead self → IsTrue R.in_memory → OnErr result
            (IfSome (R.ahead self.reader) (λ bytes. StandsAhead self.header bytes → ⊥)) }
        ensures again { IsSpent self → IsErrOf result Error.UnexpectedBufferEnd }
        // In memory: bytes that are cut, and bytes that are wrong, and no others.
        ensures why { IfGivenOf R.ahead self (λ d bytes given. IsTrue R.in_memory
            → IfErr result (SaysWhy d.header bytes)) }
        ensures cut { IfGivenOf R.ahead self (λ d bytes given. IsTrue R.in_memory
            → IsCutAhead d.header bytes → IsErrOf result Error.UnexpectedBufferEnd) }
        ensures wrong { IfGivenOf R.ahead self (λ d bytes given. IsTrue R.in_memory
            → IsWrongAhead d.header bytes → IsErrOf result Error.InvalidPadding) }
    {
        let mut buf = [0; 4096];
        while self.left() > 0 {
            self.read(&mut buf)?;
        }
        Ok(self.into_decoder())
    }
}
