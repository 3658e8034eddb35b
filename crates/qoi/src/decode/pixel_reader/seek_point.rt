//! Points in the image of a file, between two chunks, from which decoding goes on.
ghost use Rattle.std.specs.Prelude.{◌≡◌, ◌*◌, ◌<◌, ◌≤◌, length, drop, false, IsOk, IfOk};
ghost use Rattle.qoi.specs.Qoi.{Past, channels_number, pixel_count, pixels_max};
ghost use Rattle.qoi.specs.inner.Hashed.{pixel_of_lanes, HoldsSeen};
ghost use Rattle.qoi.specs.inner.Table.{Holds};
ghost use Rattle.qoi.specs.pieces.RowIndex.{IsPointOf, GoesOnAt};
ghost use Rattle.qoi.specs.pieces.Sizes.{decoded_ahead};
ghost use Rattle.qoi.specs.pieces.Unread.{kept_count, bytes_left, KeepsWithin};

use crate::decode::Decoder;
use crate::decode::hashed::Hashed;
use crate::decode::pixel_reader::PixelReader;
use crate::decode::pixel_reader::unread::Unread;
use crate::decode::reader::Bytes;
use crate::decode::table::TermTable;
use crate::error::{Error, Result};
use crate::packed::Packed;
use crate::types::Channels;
use std::marker::Model;

/// A point between two chunks of a file's image: the pixels that the index positions hold, the last
/// pixel, how many bytes of the file stand before the point, how many pixels are to come, and how
/// many of those are copies of the last pixel, from the run before the point. And the row for which
/// it was noted: the point stands in it, or a little below.
///
/// It has 288 bytes. A contract sees these six as `PointState`, the two counts of pixels as `left`
/// and `run`.
#[derive(Drop)]
pub(super) struct SeekPoint {
    table: [Packed; 64],
    last: Packed,
    at: usize,
    undecoded_pixels: usize,
    run_pixels: usize,
    row: u32,
}

impl Model for SeekPoint {
    ghost use Rattle.std.specs.Prelude.{◌≡◌, ◌≤◌, ◌<◌, length};
    ghost use Rattle.qoi.specs.Qoi.{run_max};
    ghost use Rattle.qoi.specs.pieces.RowIndex.{PointState};

    ghost Value = { PointState };

    ghost view = { λ p. record {
      table = p.table;
      last = p.last;
      at = p.at;
      left = p.undecoded_pixels;
      run = p.run_pixels;
      row = p.row;
    } };

    ghost invariant = { λ p. (length p.table ≡ 64)
        × (p.run_pixels < p.undecoded_pixels) × (p.run_pixels ≤ run_max) };
}

// The pixel of a decoder's number, without its index position.
fn packed(px: Hashed) -> Packed
    ensures { result ≡ pixel_of_lanes px }
{
    let bytes = px.repeated::<4, 4>().to_array();
    Packed::new(bytes[0], bytes[1], bytes[2], bytes[3])
}

// The number of a pixel, with its index position.
fn hashed(px: Packed) -> Hashed
    ensures { pixel_of_lanes result ≡ px }
{
    Hashed::new(px.r(), px.g(), px.b(), px.a())
}

// The pixels that the index positions hold: each is what the chunk of its position gives.
fn pixels_of(table: &TermTable) -> [Packed; 64]
    ensures { (past : Past) → HoldsSeen table.now past → Holds result past }
{
    let mut pixels = [Packed::blank(); 64];
    for i in 0..64 {
        pixels[i] = packed(Hashed::start().after_short(table, i, 0));
    }
    pixels
}

// A table whose index positions hold these pixels.
fn table_of(pixels: &[Packed; 64]) -> TermTable
    ensures { (past : Past) → Holds pixels.now past → HoldsSeen result past }
{
    let mut table = TermTable::new();
    for i in 0..64 {
        table.set(i, hashed(pixels[i]));
    }
    table
}

/// How many raw bytes so many pixels have in these channels.
pub(super) fn size_in(channels: Channels, pixels: usize) -> usize
    requires { pixels ≤ pixels_max }
    ensures { result ≡ pixels * channels_number channels }
{
    match channels {
        Channels::Rgb => pixels * 3,
        Channels::Rgba => pixels * 4,
    }
}

// How many raw bytes of the image aren't stored: some, if more are left than a reader keeps.
fn unstored(unread: &Unread) -> usize
    requires { KeepsWithin unread.now }
    ensures same { result ≡ unread.now.unstored }
    ensures some { decoded_ahead < bytes_left unread.now → 0 < result }
    ensures few { kept_count unread.now ≤ decoded_ahead }
{
    unread.unstored
}

impl SeekPoint {
    /// The point behind what a reader of the file keeps, noted for this row. It isn't the end of
    /// the image, since more is left than a reader keeps.
    pub(super) fn of(file: &[u8], reader: &PixelReader<Bytes<'_>>, row: u32) -> SeekPoint
        requires going { reader.now.refused ≡ false }
        requires some { decoded_ahead < bytes_left reader.now.unread }
        ensures { IsPointOf file.now row reader.now result }
    {
        let channels = reader.decoder.channels.as_u8() as usize;
        let unstored = unstored(&reader.unread);
        SeekPoint {
            table: pixels_of(&reader.unread.table),
            last: packed(reader.unread.last),
            at: file.len().saturating_sub(reader.decoder.reader.0.len()),
            undecoded_pixels: unstored / channels,
            run_pixels: reader.unread.run / channels,
            row,
        }
    }

    /// How many pixels are to come.
    pub(super) fn undecoded_pixels(&self) -> usize
        ensures { result ≡ self.now.left }
    {
        self.undecoded_pixels
    }

    /// A reader that goes on there in a file, by a decoder of it.
    pub(super) fn resume<'a>(
        &self,
        file: &'a [u8],
        mut decoder: Decoder<Bytes<'a>>,
    ) -> Result<PixelReader<Bytes<'a>>>
        ensures goes { IfOk result (GoesOnAt decoder.entry.channels decoder.entry.header
            (drop self.now.at file.entry.now) self.now) }
        ensures accepts { self.now.at ≤ length file.entry.now
            → self.now.left ≤ pixel_count decoder.entry.header → IsOk result }
    {
        if file.len() < self.at || decoder.header.n_pixels() < self.undecoded_pixels {
            return Err(Error::UnexpectedBufferEnd);
        }
        let (_, rest) = file.split_at(self.at);
        decoder.reader = Bytes(rest);
        let channels = decoder.channels;
        Ok(PixelReader {
            decoder,
            unread: Unread::behind(
                table_of(&self.table),
                hashed(self.last),
                size_in(channels, self.run_pixels),
                size_in(channels, self.undecoded_pixels),
            ),
            refused: false,
        })
    }
}
