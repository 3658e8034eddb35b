//! Parts of an image's rows that are read without the rest of these rows.
ghost use Rattle.std.specs.Prelude.{◌≡◌, ◌⊎◌, ℕ, ◌+◌, ◌*◌, ◌<◌, ◌≤◌, List, length, take, drop, Option, Some, IfErr, OnOk, OnErr, IsOk, IsErrOf};
ghost use Rattle.qoi.specs.DecoderState.{DecoderState};
ghost use Rattle.qoi.specs.Images.{front_image};
ghost use Rattle.qoi.specs.Qoi.{Error};
ghost use Rattle.qoi.specs.Rectangles.{rectangle, row_size};
ghost use Rattle.qoi.specs.pieces.Copying.{rows_size, Gives};
ghost use Rattle.qoi.specs.pieces.PixelReader.{unread_bytes, IfGiven, HasRows, RefusesPiece, IsSpent};
ghost use Rattle.qoi.specs.pieces.Skipping.{StopsWithin, BreaksWithin, HasRectangle, GivesRectangle};

use crate::decode::pixel_reader::PixelReader;
use crate::decode::pixel_reader::skipping::SKIPPED;
use crate::decode::reader::Reader;
use crate::error::{Error, Result};

impl<R: Reader> PixelReader<R> {
    /// Reads the next rows of the image, so many, in the channels of the output, and of each hands
    /// out the `size` bytes from byte `left` on. They fill the front of `buf`, part behind part;
    /// bytes behind them stay. It counts from where the reader stands, which should be a row's
    /// start. The rest of each row is decoded into an array of 16,384 bytes: nothing is allocated.
    ///
    /// Refusals, in this order: `UnexpectedBufferEnd` if no row has such a part, or fewer rows are
    /// left; `OutputBufferTooSmall` if `buf` has less than `size * rows` bytes; and then nothing is
    /// read. Else those of `read`, and no more of the image can be read then: `PixelReader::left`
    /// is as after a refusal of `skip_rows`, and those bytes of `buf` may be overwritten.
    ///
    /// ```
    /// let mut pixels = Decoder::new(file)?.into_pixels();
    /// pixels.skip_rows(top)?;
    /// pixels.read_rectangle(left, rows, size, &mut tile)?;
    /// ```
    pub fn read_rectangle(
        &mut self,
        left: usize,
        rows: u32,
        size: usize,
        buf: &mut [u8],
    ) -> Result<()>
        // A success: the rows were read, and these are their parts. Behind k rows of the image they
        // are the parts of the rows that follow.
        ensures read { OnOk result (GivesRectangle R.ahead left rows size self.old self.new
            (take (size * rows) buf.new)) }
        ensures rows { (d : DecoderState R) (start : Option (List ℕ)) (stride k : ℕ)
            → HasRows d start (R.ahead self.old.reader) stride k self.old
            → stride ≡ row_size d.channels d.header
            → OnOk result (HasRows d start (R.ahead self.new.reader) stride (k + rows) self.new) }
        ensures parts { (d : DecoderState R) (bytes : List ℕ) (stride k : ℕ)
            → HasRows d (Some bytes) (R.ahead self.old.reader) stride k self.old
            → stride ≡ row_size d.channels d.header → length buf.old ≡ size * rows
            → OnOk result (buf.new
            ≡ rectangle stride k left rows size (front_image d.channels d.header bytes)) }
        ensures left { OnOk result
            (unread_bytes self.new + rows_size self.old rows ≡ unread_bytes self.old) }

        // The refusals that leave it and the buffer as they were: a part that no row has, or too
        // few rows; a short buffer; and an image that was refused before.
        ensures outside { (row_size self.old.channels self.old.header < left + size)
            ⊎ (unread_bytes self.old < rows_size self.old rows)
            → IsErrOf result Error.UnexpectedBufferEnd × (self.new ≡ self.old)
            × (buf.new ≡ buf.old) }
        ensures small { left + size ≤ row_size self.old.channels self.old.header
            → rows_size self.old rows ≤ unread_bytes self.old → length buf.old < size * rows
            → IsErrOf result (Error.OutputBufferTooSmall (length buf.old) (size * rows))
            × (self.new ≡ self.old) × (buf.new ≡ buf.old) }
        ensures spent { HasRectangle self.old left rows size (length buf.old)
            → 0 < rows_size self.old rows → IsSpent self.old
            → IsErrOf result Error.UnexpectedBufferEnd × (self.new ≡ self.old)
            × (buf.new ≡ buf.old) }
        ensures none { HasRectangle self.old left rows size (length buf.old)
            → rows ≡ 0 → IsOk result × (self.new ≡ self.old)
            × (buf.new ≡ buf.old) }
        // The others: those of the image, within these rows, and then no more of it is read.
        ensures refused { IfGiven R.ahead self.old (λ d start given.
            HasRectangle self.old left rows size (length buf.old) → IfErr result (RefusesPiece
            R.in_memory d start given (rows_size self.old rows) (R.ahead self.new.reader))) }
        ensures within { HasRectangle self.old left rows size (length buf.old) → OnErr result
            (StopsWithin R.in_memory R.ahead (rows_size self.old rows) self.old self.new) }

        // What stays: later bytes of the buffer, header and channels.
        ensures later { drop (size * rows) buf.new ≡ drop (size * rows) buf.old }
        ensures unchanged { (self.new.header ≡ self.old.header)
            × (self.new.channels ≡ self.old.channels) }
    {
        let stride = self.bytes_per_row();
        let count = rows as usize;
        if left > stride || size > stride - left || stride * count > self.left() {
            return Err(Error::UnexpectedBufferEnd);
        }
        let required = size * count;
        if buf.len() < required {
            return Err(Error::OutputBufferTooSmall {
                size: buf.len(),
                required,
            });
        }
        if self.refused && stride * count > 0 {
            return Err(Error::UnexpectedBufferEnd);
        }
        self.read_parts(left, count, size, &mut buf[..required])
    }

    // Reads so many rows, and fills `out` with the `size` bytes of each from byte `left` on.
    fn read_parts(&mut self, left: usize, rows: usize, size: usize, out: &mut [u8]) -> Result<()>
        requires rectangle { HasRectangle self.old left rows size (length out.old) }
        requires filled { length out.old ≡ size * rows }
        ensures read { OnOk result (GivesRectangle R.ahead left rows size self.old self.new
            out.new) }
        ensures left { OnOk result
            (unread_bytes self.new + rows_size self.old rows ≡ unread_bytes self.old) }
        ensures none { rows ≡ 0 → IsOk result × (self.new ≡ self.old) × (out.new ≡ out.old) }
        ensures stops { IfErr result
            (BreaksWithin R.in_memory R.ahead (rows_size self.old rows) self.old self.new) }
        ensures unchanged { (self.new.header ≡ self.old.header)
            × (self.new.channels ≡ self.old.channels) }
    {
        let stride = self.bytes_per_row();
        let right = stride - left - size;
        let mut rest = [0; SKIPPED];
        for row in 0..rows {
            let at = size * row;
            self.read_part(left, &mut out[at..at + size], right, &mut rest)?;
        }
        Ok(())
    }

    // Reads a row, and fills `part` with the bytes behind `left` and before `right` others.
    fn read_part(
        &mut self,
        left: usize,
        part: &mut [u8],
        right: usize,
        rest: &mut [u8; SKIPPED],
    ) -> Result<()>
        requires { left + length part.old + right ≤ unread_bytes self.old }
        ensures read { OnOk result ((more : List ℕ) × Gives R.ahead more self.old self.new
            × (length more ≡ left + length part.old + right)
            × (part.new ≡ take (length part.old) (drop left more))) }
        ensures left { OnOk result (unread_bytes self.new + (left + length part.old + right)
            ≡ unread_bytes self.old) }
        ensures stops { IfErr result (BreaksWithin R.in_memory R.ahead
            (left + length part.old + right) self.old self.new) }
        ensures unchanged { (self.new.header ≡ self.old.header)
            × (self.new.channels ≡ self.old.channels) }
    {
        self.skip_bytes(left, rest)?;
        self.read(part)?;
        self.skip_bytes(right, rest)
    }
}
