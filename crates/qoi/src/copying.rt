//! The raw bytes of an image, from a reader of pieces to a writer of pieces.
ghost use Rattle.std.specs.Prelude.{◌≡◌, ℕ, ◌+◌, ◌*◌, ◌<◌, ◌≤◌, List, [], ◌++◌, length, Option, Some, IfErr, OnOk, IsErrOf};
ghost use Rattle.qoi.specs.Decoded.{HasDecoded};
ghost use Rattle.qoi.specs.DecoderState.{DecoderState};
ghost use Rattle.qoi.specs.EncoderState.{EncoderState};
ghost use Rattle.qoi.specs.Images.{front_image};
ghost use Rattle.qoi.specs.Qoi.{Error, pixels_max};
ghost use Rattle.qoi.specs.Rectangles.{rectangle, row_size};
ghost use Rattle.qoi.specs.pieces.Copying.{rows_size, Gives, Takes, BreaksCopy, Copied, Copies};
ghost use Rattle.qoi.specs.pieces.PixelReader.{unread_bytes, HasGiven, IfGiven, IfGivenOf, HasRows, IsSpent};
ghost use Rattle.qoi.specs.pieces.PixelWriter.{missing_bytes, and_raw, HasTaken, IfTaken};
ghost use Rattle.qoi.specs.pieces.Sizes.{copied_at_once};

mod raw;

use crate::decode::{PixelReader, Reader};
use crate::encode::PixelWriter;
use crate::error::{Error, Result};
use std::io::Write;

// How many raw bytes go at once: no more than `copied_at_once`, by `early` of `StopsBehind`,
// `short` of `FailsBehind`, `BreaksCopy` and `BreaksInput`. By hand have to follow PIECE of
// fuzz/session.h, the numbers in comments and on the pages, and the tests whose readers and writers
// report faults.
const PIECE: usize = 4096;

impl<R: Reader> PixelReader<R> {
    /// Copies all that is left of the image to a writer of pieces, by an array of 4,096 bytes: it
    /// allocates nothing. It doesn't finish the writer, whose one image may get the pixels of other
    /// readers, too. Raw bytes are copied as they come: whether both sides have the same channels
    /// isn't asked.
    ///
    /// Refusals, in this order: `IoError` of kind `BrokenPipe` if the writer reported a fault
    /// before; `InvalidImageLength` if more bytes are left than the writer takes; and then nothing
    /// is read. Else those of `read`: the writer has the pieces that came before and takes more,
    /// but no more of the image can be read. Or `IoError` as in `write`: the reader stands behind
    /// the piece with which the writer failed, of at most 4,096 bytes, perhaps within a row, as
    /// `left` says, and goes on there, to another writer.
    ///
    /// Whose an `IoError` is, `writer.write(&[])` tells: that call returns one, too, if the writer
    /// failed.
    ///
    /// ```
    /// let mut pixels = Decoder::from_buf_read(reader)?.into_pixels();
    /// let mut copy = PixelWriter::new(alloc, *pixels.header(), Style::Tight, writer)?;
    /// pixels.copy_to(&mut copy)?;
    /// let writer = copy.finish()?;
    /// ```
    pub fn copy_to<W: Write + Drop>(&mut self, writer: &mut PixelWriter<W>) -> Result<()>
        // All that is left goes to the writer, or it is refused.
        ensures copies { Copies R.in_memory R.ahead W.contents (unread_bytes self.old) self.old
            self.new writer.old writer.new result }
        // A success: if no byte was read before, the bytes that were copied are the image. This
        // and the next clause follow from `copies`; a caller's search needs both.
        ensures copied { OnOk result ((rest : List ℕ) × Takes W.contents rest writer.old writer.new
            × ((d : DecoderState R) (bytes : List ℕ)
            → HasGiven d (Some bytes) (R.ahead self.old.reader) [] self.old
            → rest ≡ front_image d.channels d.header bytes)
            × Gives R.ahead rest self.old self.new) }
        ensures image { (d : DecoderState R) (bytes : List ℕ)
            (e : EncoderState) (before : Option (List ℕ))
            → HasGiven d (Some bytes) (R.ahead self.old.reader) [] self.old
            → HasTaken W.contents e before writer.old → OnOk result (HasTaken W.contents
            (and_raw e (front_image d.channels d.header bytes)) before writer.new) }
        // Whatever was read before: that and the bytes that were copied, `more`, are the image.
        ensures rest { IfGivenOf R.ahead self.old (λ d bytes given. (more : List ℕ)
            → given ++ more ≡ front_image d.channels d.header bytes
            → OnOk result (Takes W.contents more writer.old writer.new)) }
        // So the image was decoded, and the reader stands behind its end marker.
        ensures decoded { IfGiven R.ahead self.old (λ d start given. OnOk result ((rest : List ℕ)
            × HasDecoded d start (R.ahead self.new.reader) (given ++ rest))) }
    {
        let left = self.left();
        self.copy_bytes(writer, left)
    }

    /// Copies the next rows of the image to a writer of pieces, so many: `copy_to` for a part. It
    /// counts from where the reader stands, which may be within a row.
    ///
    /// `UnexpectedBufferEnd` if fewer are left, and then nothing is read: compare `left` first, as
    /// a cut image is refused by the same error. Else the refusals, and what they leave, are those
    /// of `copy_to`.
    ///
    /// ```
    /// let mut pixels = index.rows(file, 4000)?;
    /// pixels.copy_rows_to(&mut strip, 50)?; // rows 4000 to 4049
    /// ```
    pub fn copy_rows_to<W: Write + Drop>(
        &mut self,
        writer: &mut PixelWriter<W>,
        rows: u32,
    ) -> Result<()>
        // So many rows go to the writer, or they are refused.
        ensures copies { Copies R.in_memory R.ahead W.contents (rows_size self.old rows) self.old
            self.new writer.old writer.new result }
        // A success: behind k rows of the image they are the rows that follow.
        ensures rows { (d : DecoderState R) (start : Option (List ℕ)) (stride k : ℕ)
            → HasRows d start (R.ahead self.old.reader) stride k self.old
            → stride ≡ row_size d.channels d.header
            → OnOk result (HasRows d start (R.ahead self.new.reader) stride (k + rows) self.new) }
        ensures copied { OnOk result ((more : List ℕ) × Takes W.contents more writer.old writer.new
            × ((d : DecoderState R) (bytes : List ℕ) (stride k : ℕ)
            → HasRows d (Some bytes) (R.ahead self.old.reader) stride k self.old
            → stride ≡ row_size d.channels d.header
            → more ≡ rectangle stride k 0 rows stride (front_image d.channels d.header bytes))
            × Gives R.ahead more self.old self.new × (length more ≡ rows_size self.old rows)) }
        ensures strip { (d : DecoderState R) (bytes : List ℕ) (stride k : ℕ)
            (e : EncoderState) (before : Option (List ℕ))
            → HasRows d (Some bytes) (R.ahead self.old.reader) stride k self.old
            → stride ≡ row_size d.channels d.header → HasTaken W.contents e before writer.old
            → OnOk result (HasTaken W.contents (and_raw e (rectangle stride k 0 rows stride
            (front_image d.channels d.header bytes))) before writer.new) }
    {
        let count = self.bytes_per_row() * rows as usize;
        if count > self.left() {
            return Err(Error::UnexpectedBufferEnd);
        }
        self.copy_bytes(writer, count)
    }

    // Copies the next raw bytes, if the writer takes so many.
    fn copy_bytes<W: Write + Drop>(
        &mut self,
        writer: &mut PixelWriter<W>,
        count: usize,
    ) -> Result<()>
        requires fits { count ≤ unread_bytes self.old }
        requires few { count ≤ 4 * pixels_max }
        ensures { Copies R.in_memory R.ahead W.contents count self.old self.new writer.old
            writer.new result }
    {
        writer.check_count(count)?;
        let mut buf = [0; PIECE];
        let mut rest = count;
        while rest > 0 {
            let size = rest.min(PIECE);
            self.copy_piece(writer, &mut buf[..size])?;
            rest -= size;
        }
        Ok(())
    }

    // Copies as many raw bytes as `piece` has.
    fn copy_piece<W: Write + Drop>(
        &mut self,
        writer: &mut PixelWriter<W>,
        piece: &mut [u8],
    ) -> Result<()>
        requires fits { length piece.old ≤ unread_bytes self.old }
        requires short { length piece.old ≤ copied_at_once }
        requires room { length piece.old ≤ missing_bytes writer.old }
        ensures copied { OnOk result (Copied R.ahead W.contents (length piece.old) self.old self.new
            writer.old writer.new) }
        ensures spent { IsSpent self.old → 0 < length piece.old
            → IsErrOf result Error.UnexpectedBufferEnd
            × (self.new ≡ self.old) × (writer.new ≡ writer.old) }
        ensures refused { IfGiven R.ahead self.old (λ d start given. IfTaken W.contents writer.old
            (λ e before. IfErr result (BreaksCopy R.in_memory R.ahead W.contents d start given
            e before self.new writer.new))) }
        ensures unchanged { (self.new.header ≡ self.old.header)
            × (self.new.channels ≡ self.old.channels) }
    {
        self.read(piece)?;
        writer.write(piece)
    }
}
