//! Raw bytes from a reader of pieces to any writer, and from any reader to a writer of pieces.
ghost use Rattle.std.specs.Prelude.{◌≡◌, ℕ, ◌≤◌, ◌<◌, List, ◌++◌, length, min, Option, Some, IfErr, OnOk, IsOk, IsErrAnd};
ghost use Rattle.std.specs.Io.KnownBytes.{Appends, Consumes};
ghost use Rattle.qoi.specs.Decoded.{HasDecoded};
ghost use Rattle.qoi.specs.EncoderState.{EncoderState};
ghost use Rattle.qoi.specs.Errors.{IsIoError};
ghost use Rattle.qoi.specs.Images.{front_image};
ghost use Rattle.qoi.specs.pieces.Copying.{BreaksInput, CopiesRaw};
ghost use Rattle.qoi.specs.pieces.PixelReader.{unread_bytes, IfGiven, IfGivenOf};
ghost use Rattle.qoi.specs.pieces.PixelWriter.{missing_bytes, and_raw, HasTaken, IfTaken, HasFailed};
ghost use Rattle.qoi.specs.pieces.Sizes.{copied_at_once};

use crate::copying::PIECE;
use crate::decode::{PixelReader, Reader, ended};
use crate::encode::{PixelWriter, send_bytes};
use crate::error::{Error, Result};
use std::io::{Read, Write};

impl<R: Reader> PixelReader<R> {
    /// Writes all raw bytes that are left of the image to a writer, by an array of 4,096 bytes: it
    /// allocates nothing. It doesn't flush.
    ///
    /// Refusals are those of `read`, behind which the writer has what was read before, and
    /// `IoError` if the writer reports a fault or takes no byte. Then it also has a beginning of
    /// the next piece, of at most 4,096 bytes, and nothing says how much of it. So no more of the
    /// image can be read, as after a refusal of `read`, and the piece counts in `left`.
    ///
    /// Over a slice each `IoError` is the writer's. Over a stream nothing tells whose it is: use
    /// `read` and `write_all` in a loop.
    ///
    /// ```
    /// let mut pixels = Decoder::from_buf_read(reader)?.into_pixels();
    /// pixels.copy_raw_to(&mut writer)?;
    /// ```
    pub fn copy_raw_to<W: Write>(&mut self, out: &mut W) -> Result<()>
        // All that is left is written, or it is refused.
        ensures copies { CopiesRaw R.in_memory R.ahead W.contents (unread_bytes self.old) self.old
            self.new out.old out.new result }
        // A success: what was read before and the bytes that were written, `more`, are the image.
        ensures rest { IfGivenOf R.ahead self.old (λ d bytes given. (more : List ℕ)
            → given ++ more ≡ front_image d.channels d.header bytes
            → OnOk result (Appends (W.contents out.old) (W.contents out.new) more)) }
        // So the image was decoded, and the reader stands behind its end marker.
        ensures decoded { IfGiven R.ahead self.old (λ d start given. OnOk result ((rest : List ℕ)
            × HasDecoded d start (R.ahead self.new.reader) (given ++ rest))) }
    {
        let mut buf = [0; PIECE];
        while self.left() > 0 {
            self.copy_raw_piece(out, &mut buf)?;
        }
        Ok(())
    }

    // Writes the next raw bytes, as many as `buf` has or as are left. If the writer fails, they
    // count as unread, and the rest is refused: the writer may have a beginning of them.
    fn copy_raw_piece<W: Write>(&mut self, out: &mut W, buf: &mut [u8]) -> Result<()>
        requires some { 0 < length buf.old }
        requires short { length buf.old ≤ copied_at_once }
        requires more { 0 < unread_bytes self.old }
        ensures { CopiesRaw R.in_memory R.ahead W.contents
            (min (length buf.old) (unread_bytes self.old)) self.old self.new out.old out.new
            result }
    {
        let left = self.left();
        let size = self.read(buf)?;
        match send_bytes(out, &buf[..size]) {
            Ok(()) => Ok(()),
            Err(fault) => {
                self.refuse_rest(left);
                Err(fault)
            }
        }
    }
}

impl<W: Write + Drop> PixelWriter<W> {
    /// Takes all raw bytes that are missing from a reader, by an array of 4,096 bytes, and no byte
    /// more: it allocates nothing. It doesn't finish the writer.
    ///
    /// Refusals: `IoError` if the reader reports a fault, also an interruption, or ends before. The
    /// writer took all bytes that came, and a further call goes on behind them. And `IoError` as in
    /// `write`: the last bytes that came, at most 4,096, and those that were held may then be lost,
    /// and no further call reads any. `self.write(&[])` tells whose it is: that call returns one,
    /// too, if the writer failed.
    ///
    /// ```
    /// let mut pixels = PixelWriter::new(alloc, header, Style::Reference, writer)?;
    /// pixels.copy_raw_from(&mut reader)?;
    /// let writer = pixels.finish()?;
    /// ```
    pub fn copy_raw_from<R: Read>(&mut self, input: &mut R) -> Result<()>
        // A success: the bytes that the reader gave came, and none is missing.
        ensures taken { IfTaken W.contents self.old (λ e before. OnOk result ((raw : List ℕ)
            × Consumes (R.remaining input.old) (R.remaining input.new) raw
            × HasTaken W.contents (and_raw e raw) before self.new)) }
        ensures all { OnOk result (missing_bytes self.new ≡ 0) }
        // If none is missing, nothing happens.
        ensures none { IfTaken W.contents self.old (λ e before. missing_bytes self.old ≡ 0
            → IsOk result × (self.new ≡ self.old) × (input.new ≡ input.old)) }

        // The refusals: the reader or the writer fails; a writer that failed before stays as it
        // was.
        ensures refused { IfTaken W.contents self.old (λ e before. IfErr result (BreaksInput
            W.contents (R.remaining input.old) (R.remaining input.new) e before self.new)) }
        ensures spent { (e : EncoderState) (before : Option (List ℕ))
            → HasFailed W.contents e before self.old → IsErrAnd result IsIoError
            × (self.new ≡ self.old) × (input.new ≡ input.old) }
    {
        self.check_count(0)?;
        let mut buf = [0; PIECE];
        while self.left() > 0 {
            let size = self.left().min(PIECE);
            self.take_raw_piece(input, &mut buf[..size])?;
        }
        Ok(())
    }

    // Takes the raw bytes that the reader gives at once into `piece`.
    fn take_raw_piece<R: Read>(&mut self, input: &mut R, piece: &mut [u8]) -> Result<()>
        requires some { 0 < length piece.old }
        requires short { length piece.old ≤ copied_at_once }
        requires fits { length piece.old ≤ missing_bytes self.old }
        ensures taken { IfTaken W.contents self.old (λ e before. OnOk result ((raw : List ℕ)
            × Consumes (R.remaining input.old) (R.remaining input.new) raw
            × HasTaken W.contents (and_raw e raw) before self.new)) }
        ensures less { OnOk result (missing_bytes self.new < missing_bytes self.old) }
        ensures refused { IfTaken W.contents self.old (λ e before. IfErr result (BreaksInput
            W.contents (R.remaining input.old) (R.remaining input.new) e before self.new)) }
    {
        let count = input.read(piece)?;
        if count == 0 {
            return Err(Error::IoError(ended()));
        }
        self.write(&piece[..count])
    }
}
