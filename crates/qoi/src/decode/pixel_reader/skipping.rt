//! Rows of an image that are read and not handed out.
ghost use Rattle.std.specs.Prelude.{◌≡◌, ℕ, ◌+◌, ◌*◌, ◌<◌, ◌≤◌, List, length, Option, IfErr, OnOk, OnErr, IsOk, IsErrOf};
ghost use Rattle.qoi.specs.DecoderState.{DecoderState};
ghost use Rattle.qoi.specs.Qoi.{Error};
ghost use Rattle.qoi.specs.Rectangles.{row_size};
ghost use Rattle.qoi.specs.pieces.Copying.{rows_size, Gives};
ghost use Rattle.qoi.specs.pieces.PixelReader.{unread_bytes, IfGiven, HasRows, RefusesPiece, IsSpent};
ghost use Rattle.qoi.specs.pieces.Skipping.{StopsWithin};

use crate::decode::pixel_reader::PixelReader;
use crate::decode::reader::Reader;
use crate::error::{Error, Result};

// How many raw bytes are skipped at once. By 4096 the index of a picture of long runs took a fifth
// longer.
pub(super) const SKIPPED: usize = 16384;

impl<R: Reader> PixelReader<R> {
    /// Reads the next rows of the image, so many, in the channels of the output, and hands none of
    /// them out. It counts from where the reader stands, which may be within a row. Each row is
    /// decoded, by an array of 16,384 bytes: nothing is allocated. In a slice a `RowIndex` leaves
    /// out the rows above.
    ///
    /// `UnexpectedBufferEnd` if fewer rows are left, and then nothing is read. Else the refusals
    /// are those of `read`, and no more of the image can be read then. `left` is then less by some
    /// bytes of these rows, or none: those that were read before the refusal are gone.
    ///
    /// ```
    /// let mut pixels = Decoder::from_buf_read(reader)?.into_pixels();
    /// pixels.skip_rows(100)?;
    /// let count = pixels.read(&mut row)?; // the row behind them
    /// ```
    pub fn skip_rows(&mut self, rows: u32) -> Result<()>
        // A success: the bytes of so many rows were read. If the reader stood behind k rows of the
        // image, it stands behind k + `rows`.
        ensures skipped { OnOk result ((more : List ℕ) × Gives R.ahead more self.old self.new
            × (length more ≡ rows_size self.old rows)) }
        ensures rows { (d : DecoderState R) (start : Option (List ℕ)) (stride k : ℕ)
            → HasRows d start (R.ahead self.old.reader) stride k self.old
            → stride ≡ row_size d.channels d.header
            → OnOk result (HasRows d start (R.ahead self.new.reader) stride (k + rows) self.new) }
        ensures left { OnOk result
            (unread_bytes self.new + rows_size self.old rows ≡ unread_bytes self.old) }
        ensures none { rows_size self.old rows ≡ 0 → IsOk result × (self.new ≡ self.old) }

        // The refusals that leave it as it was: too few rows, and an image that was refused before.
        ensures few { unread_bytes self.old < rows_size self.old rows
            → IsErrOf result Error.UnexpectedBufferEnd × (self.new ≡ self.old) }
        ensures spent { 0 < rows_size self.old rows → IsSpent self.old
            → IsErrOf result Error.UnexpectedBufferEnd × (self.new ≡ self.old) }
        // The others: those of the image, within these rows, and then no more of it is read.
        ensures refused { IfGiven R.ahead self.old (λ d start given.
            rows_size self.old rows ≤ unread_bytes self.old → IfErr result (RefusesPiece
            R.in_memory d start given (rows_size self.old rows) (R.ahead self.new.reader))) }
        ensures within { rows_size self.old rows ≤ unread_bytes self.old → OnErr result
            (StopsWithin R.in_memory R.ahead (rows_size self.old rows) self.old self.new) }

        // What stays: header and channels.
        ensures unchanged { (self.new.header ≡ self.old.header)
            × (self.new.channels ≡ self.old.channels) }
    {
        let count = self.bytes_per_row() * rows as usize;
        if count > self.left() {
            return Err(Error::UnexpectedBufferEnd);
        }
        self.skip_bytes(count, &mut [0; SKIPPED])
    }

    // Reads the next raw bytes, so many, by an array of its caller's.
    pub(super) fn skip_bytes(&mut self, count: usize, buf: &mut [u8; SKIPPED]) -> Result<()>
        requires { count ≤ unread_bytes self.old }
        ensures skipped { OnOk result ((more : List ℕ) × Gives R.ahead more self.old self.new
            × (length more ≡ count)) }
        ensures left { OnOk result (unread_bytes self.new + count ≡ unread_bytes self.old) }
        ensures none { count ≡ 0 → IsOk result × (self.new ≡ self.old) }
        ensures spent { 0 < count → IsSpent self.old
            → IsErrOf result Error.UnexpectedBufferEnd × (self.new ≡ self.old) }
        ensures refused { IfGiven R.ahead self.old (λ d start given. IfErr result
            (RefusesPiece R.in_memory d start given count (R.ahead self.new.reader))) }
        ensures within { OnErr result
            (StopsWithin R.in_memory R.ahead count self.old self.new) }
        ensures unchanged { (self.new.header ≡ self.old.header)
            × (self.new.channels ≡ self.old.channels) }
    {
        let mut rest = count;
        while rest > 0 {
            let size = rest.min(SKIPPED);
            rest -= self.read(&mut buf[..size])?;
        }
        Ok(())
    }
}
