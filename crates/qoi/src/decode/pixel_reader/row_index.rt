//! Rows of an image, read from any of them on.
ghost use Rattle.std.specs.Prelude.{◌≡◌, ℕ, ◌+◌, ◌-◌, ◌*◌, ◌/◌, ◌<◌, ◌≤◌, List, [], ◌∷◌, ◌++◌, ◌⊎◌, max, min, length, drop, Some, Ok, Err, false, IsOk, IfOk, IfErr, OnOk, IsErrOf};
ghost use Rattle.qoi.specs.Decoded.{HasRefusedFile};
ghost use Rattle.qoi.specs.Images.{front_image, file_image};
ghost use Rattle.qoi.specs.Qoi.{Error, Header, Channels, channels_number, header_of, header_size, pixel_count, IsValid};
ghost use Rattle.qoi.specs.Reading.{StandsAhead};
ghost use Rattle.qoi.specs.Rectangles.{rectangle};
ghost use Rattle.qoi.specs.pieces.PixelReader.{unread_bytes, HasRows};
ghost use Rattle.qoi.specs.pieces.RowIndex.{file_decoder, row_size, PointState, IsPointOf, points_count, ReadsFile, HasPoints, IsRowIndex, IsNearest, IsFileDecoder};
ghost use Rattle.qoi.specs.pieces.Sizes.{decoded_ahead};
ghost use Rattle.qoi.specs.pieces.Unread.{bytes_left};

use crate::decode::Decoder;
use crate::decode::pixel_reader::PixelReader;
use crate::decode::pixel_reader::room::DECODED_AHEAD;
use crate::decode::pixel_reader::seek_point::{SeekPoint, size_in};
use crate::decode::pixel_reader::skipping::SKIPPED;
use crate::decode::reader::Bytes;
use crate::error::{Error, Result};
use crate::header::Header;
use crate::types::Channels;
use std::alloc::Global;
use std::marker::Model;

/// Points in a file's image, so many rows apart, from which its rows are read without those above.
/// It holds no part of the file.
///
/// An index of an image of `height` rows with a point each `every` rows holds at most
/// 288 * ((`height` - 1) / `every`) bytes: the last rows, up to 3,072 bytes, have no point.
///
/// A contract sees the points (`PointState`).
///
/// ```
/// let index = RowIndex::new(alloc, file, 64)?;
/// let mut pixels = index.rows(file, 4000)?; // behind 4000 rows
/// let count = pixels.read(&mut row)?;
/// ```
#[derive(Drop)]
pub struct RowIndex {
    every: u32,
    points: Vec<SeekPoint>,
}

impl Model for RowIndex {
    ghost use Rattle.std.specs.Prelude.{◌<◌, List};
    ghost use Rattle.qoi.specs.pieces.RowIndex.{PointState, AreApart};

    ghost Value = { List PointState };

    ghost view = { λ i. i.points.items };

    ghost invariant = { λ i. (0 < i.every) × AreApart i.every i.points.items };
}

// How many pixels an image has from this row on; none from its height on.
fn pixels_from(header: &Header, row: u32) -> usize
    requires { IsValid header.now }
    ensures behind { result ≡ header.now.width * (header.now.height - row) }
    ensures most { result ≤ pixel_count header.now }
{
    header.width as usize * header.height.saturating_sub(row) as usize
}

// How many raw bytes `pixels_from` this row are, in these channels.
fn bytes_from(header: &Header, channels: Channels, row: u32) -> usize
    requires { IsValid header.now }
    ensures { result
        ≡ header.now.width * (header.now.height - row) * channels_number channels }
{
    size_in(channels, pixels_from(header, row))
}

// Reads raw bytes of a file's image until no more than so many are unread.
fn skip_to(reader: &mut PixelReader<Bytes<'_>>, most_left: usize) -> Result<()>
    ensures file { (channels : Channels) (h : Header) (file : List ℕ)
        → ReadsFile channels h file reader.old
        → OnOk result (ReadsFile channels h file reader.new) }
    ensures left { OnOk result
        (unread_bytes reader.new ≡ min most_left (unread_bytes reader.old)) }
    ensures refused { (channels : Channels) (h : Header) (file : List ℕ)
        → ReadsFile channels h file reader.old → IfErr result (HasRefusedFile file) }
    ensures accepts { (channels : Channels) (h : Header) (file : List ℕ)
        → ReadsFile channels h file reader.old → StandsAhead h (drop header_size file)
        → IsOk result }
{
    let count = reader.left().saturating_sub(most_left);
    reader.skip_bytes(count, &mut [0; SKIPPED])
}

// Keeps the point behind what a reader decoded, for the row at which the reader stands.
fn keep_point(
    points: &mut Vec<SeekPoint>,
    file: &[u8],
    reader: &PixelReader<Bytes<'_>>,
    row: u32,
) -> Result<()>
    requires going { reader.now.refused ≡ false }
    requires some { decoded_ahead < bytes_left reader.now.unread }
    ensures kept { OnOk result ((m : PointState) × IsPointOf file.now row reader.now m
        × (points.new.items ≡ points.old.items ++ m ∷ [])) }
    ensures refused { IfErr result (λ e. e ≡ Error.OutOfMemory) }
{
    points.push(SeekPoint::of(file, reader, row))?;
    Ok(())
}

// How many points an index has, with one for each `every` rows: none for the last rows, which a
// reader may decode ahead.
fn count_points(header: &Header, every: u32) -> u32
    requires valid { IsValid header.now }
    requires some { 0 < every }
    ensures { result ≡ points_count header.now every }
{
    let last = DECODED_AHEAD / header.bytes_per_row();
    header.height.saturating_sub(1 + last as u32) / every
}

impl RowIndex {
    /// An index of the image of the file at the front of the bytes, with a point each `every` rows,
    /// or each row for 0. The image is decoded once, and no row of it is kept.
    ///
    /// The refusals are those of `decode_to_vec`. The memory is reserved at once, before the image
    /// is decoded.
    pub fn new(alloc: Global, file: &[u8], every: u32) -> Result<RowIndex>
        // A success: an image stands in the file, and the index is one of it, and of each file that
        // begins with it.
        ensures index { IfOk result (IsRowIndex file.now) }
        ensures index_then { (more : List ℕ) → IfOk result (IsRowIndex (file.now ++ more)) }
        // The image has as many rows as its header says.
        ensures size { (h : Header) → header_of file.now ≡ Ok h
            → OnOk result (length (file_image file.now) ≡ row_size h.channels h * h.height) }
        // It has a point for each `every` rows, but for the last ones.
        ensures points { (h : Header) → header_of file.now ≡ Ok h
            → IfOk result (HasPoints h (max every 1)) }
        // So it has no more points than this.
        ensures few { (h : Header) → header_of file.now ≡ Ok h
            → IfOk result (λ i. length i ≤ (h.height - 1) / max every 1) }
        // The refusals: memory runs out after a valid header, or the bytes are refused.
        ensures refused { IfErr result (λ e. HasRefusedFile file.now e
            ⊎ ((e ≡ Error.OutOfMemory) × (h : Header) × (header_of file.now ≡ Ok h))) }
    {
        let decoder = Decoder::new(file)?;
        let header = *decoder.header();
        let apart = every.max(1);
        let count = count_points(&header, apart);
        let mut points = Vec::with_capacity(alloc, count as usize)?;
        let mut reader = decoder.into_pixels();
        for k in 0..count {
            let row = apart * (k + 1);
            skip_to(&mut reader, bytes_from(&header, header.channels, row))?;
            keep_point(&mut points, file, &reader, row)?;
        }
        skip_to(&mut reader, 0)?;
        Ok(RowIndex {
            every: apart,
            points,
        })
    }

    // A reader from the last point above row `first` of the file's image or at its start, or from
    // the image's top.
    fn above<'a>(
        &self,
        file: &'a [u8],
        decoder: Decoder<Bytes<'a>>,
        first: u32,
    ) -> Result<PixelReader<Bytes<'a>>>
        requires { IsFileDecoder file.now decoder }
        ensures file { IsRowIndex file.entry.now self.now
            → IfOk result (ReadsFile decoder.entry.channels decoder.entry.header file.entry.now) }
        ensures accepts { IsRowIndex file.entry.now self.now → IsOk result }
        ensures left { IfOk result (λ p. decoder.entry.header.width
            * (decoder.entry.header.height - first) * channels_number decoder.entry.channels
            ≤ unread_bytes p) }
        // No point that serves was noted for a row below where the reader goes on.
        ensures nearest { IsRowIndex file.entry.now self.now → IfOk result (IsNearest
            decoder.entry.channels decoder.entry.header first self.now) }
    {
        let pixels_wanted = pixels_from(decoder.header(), first);
        let mut i = self.points.len().min((first / self.every) as usize);
        // Point `i` is that of row (i + 1) * `every`. It may lie past the wanted row, since a
        // reader decodes ahead: then an earlier one serves, in narrow images perhaps many points
        // earlier.
        while i > 0 {
            i -= 1;
            let point = &self.points[i];
            if pixels_wanted <= point.undecoded_pixels() {
                return point.resume(file, decoder);
            }
        }
        Ok(decoder.into_pixels())
    }

    /// A reader that stands before row `first` of the image of the file of which the index was
    /// made, or of one that begins with it, into the file's own channels. None of the rows above
    /// the last point before that row is decoded, and nothing is allocated.
    ///
    /// `first` may be the height, behind the last row. Refusals: those of the header, and
    /// `UnexpectedBufferEnd` if `first` is greater. With another file's index it reads wrong rows,
    /// or is refused too.
    pub fn rows<'a>(&self, file: &'a [u8], first: u32) -> Result<PixelReader<Bytes<'a>>>
        // The reader stands as if it had read `first` rows of the file's image.
        ensures rows { (h : Header) → header_of file.entry.now ≡ Ok h
            → IsRowIndex file.entry.now self.now → IfOk result (λ p. HasRows
            (file_decoder h.channels h file.entry.now) (Some (drop header_size file.entry.now))
            (Some p.reader) (row_size h.channels h) first p) }
        ensures image { (h : Header) → header_of file.entry.now ≡ Ok h
            → front_image h.channels h (drop header_size file.entry.now)
            ≡ file_image file.entry.now }
        ensures size { (h : Header) → header_of file.entry.now ≡ Ok h
            → IsRowIndex file.entry.now self.now
            → length (file_image file.entry.now) ≡ row_size h.channels h * h.height }
        // A rectangle that lies within it has `size` bytes of each row.
        ensures part { (h : Header) (top left rows size : ℕ) → header_of file.entry.now ≡ Ok h
            → IsRowIndex file.entry.now self.now → top + rows ≤ h.height
            → left + size ≤ row_size h.channels h
            → length (rectangle (row_size h.channels h) top left rows size
            (file_image file.entry.now)) ≡ size * rows }
        // The refusals.
        ensures accepts { (h : Header) → header_of file.entry.now ≡ Ok h
            → IsRowIndex file.entry.now self.now → first ≤ h.height → IsOk result }
        ensures high { (h : Header) → header_of file.entry.now ≡ Ok h → h.height < first
            → IsErrOf result Error.UnexpectedBufferEnd }
        ensures header { (e : Error) → header_of file.entry.now ≡ Err e → result ≡ Err e }
    {
        let channels = Header::decode(file)?.channels;
        self.rows_in(file, channels, first)
    }

    /// `rows` into any channels.
    pub fn rows_in<'a>(
        &self,
        file: &'a [u8],
        channels: Channels,
        first: u32,
    ) -> Result<PixelReader<Bytes<'a>>>
        // The reader stands as if it had read `first` rows of the file's image in these channels.
        ensures rows { (h : Header) → header_of file.entry.now ≡ Ok h
            → IsRowIndex file.entry.now self.now → IfOk result (λ p. HasRows
            (file_decoder channels h file.entry.now) (Some (drop header_size file.entry.now))
            (Some p.reader) (row_size channels h) first p) }
        // The refusals.
        ensures accepts { (h : Header) → header_of file.entry.now ≡ Ok h
            → IsRowIndex file.entry.now self.now → first ≤ h.height → IsOk result }
        ensures high { (h : Header) → header_of file.entry.now ≡ Ok h → h.height < first
            → IsErrOf result Error.UnexpectedBufferEnd }
        ensures header { (e : Error) → header_of file.entry.now ≡ Err e → result ≡ Err e }
    {
        let decoder = Decoder::new(file)?.with_channels(channels);
        let header = *decoder.header();
        if first > header.height {
            return Err(Error::UnexpectedBufferEnd);
        }
        let mut reader = self.above(file, decoder, first)?;
        skip_to(&mut reader, bytes_from(&header, channels, first))?;
        Ok(reader)
    }
}
