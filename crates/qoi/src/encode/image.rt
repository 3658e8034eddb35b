//! An image, through a piece to a writer: its whole file, or the chunks of some raw bytes (QOI
//! specification 1.0, "Data").
ghost use Rattle.std.specs.Prelude.{◌≡◌, ℕ, ◌-◌, ◌*◌, ◌%◌, ◌<◌, ◌≤◌, List, length};
ghost use Rattle.qoi.specs.Encoded.{max_file_len};
ghost use Rattle.qoi.specs.inner.Sending.{IsNew, EndsOpaque, pixel_size, StaysIn, Between, AreNextPixels, FillsPiece, IsReady, WritesWhole, WritesImage};
ghost use Rattle.qoi.specs.inner.Coder.{kept_bytes, pixels_in, CoderEnds, SPARE, LARGE_ROOM};
ghost use Rattle.qoi.specs.Raw.{pixels_of};

use crate::encode::Encoder;
use crate::encode::blocks::{begin_with_rgba, goes_by_blocks, write_blocks, write_one_group};
use crate::encode::coder::{Coder, LastPixel};
use crate::encode::piece::{
    LARGE_BATCH, LARGE_ROOM, LEAST_ROOM, OpenPiece, Piece, SMALL_ROOM, TINY_ROOM,
};
use crate::encode::pixels::{ALL_RGBA, AS_REFERENCE, AS_TOLD, Pixels};
use crate::encode::table::PixelTable;
use crate::error::Result;
use crate::types::Channels::{self, Rgb, Rgba};
use crate::types::Style::{self, Places, Reference, Tight};
use crate::writers::Writer;

/// The encoder's whole state between two calls of `fill_piece`: the table, channels and style, and
/// the last pixel, with the repeats of it that wait. A `Coder` has the style and the last pixel, a
/// `Carry` what lanes need of the last pixel. Channels and style stand between table and last
/// pixel: if these stood side by side, the zeros that both begin with would be cleared by a call.
#[derive(Drop)]
pub(super) struct ImageState {
    pub(super) table: PixelTable,
    pub(super) channels: Channels,
    pub(super) style: Style,
    pub(super) last: LastPixel,
}

impl ImageState {
    /// Before the first pixel of an image.
    #[inline(always)]
    pub(super) fn new(channels: Channels, style: Style) -> ImageState
        ensures { IsNew channels style result }
    {
        ImageState {
            channels,
            style,
            table: PixelTable::new(),
            last: LastPixel::start(),
        }
    }

    // How many raw bytes a block has.
    #[inline(always)]
    fn block_size(&self) -> usize
        ensures { result ≡ 16 * pixel_size self.now }
    {
        16 * usize::from(self.channels.as_u8())
    }
}

// `fill_piece` in `N` channels.
#[inline(always)]
fn fill_in_channels<'a, 'p, const N: usize, const ROOM: usize>(
    state: &mut ImageState,
    piece: OpenPiece<'p, ROOM>,
    raw: Pixels<'a, N>,
) -> (Piece<'p, ROOM>, &'a [u8])
    requires channels { pixel_size state.old ≡ N }
    requires opaque { EndsOpaque state.old }
    requires block { 16 ≤ length (pixels_in raw) }
    ensures { FillsPiece state.old piece.entry raw.entry.bytes.now state.new result }
{
    if !goes_by_blocks(state.style, state.last, raw) {
        return write_one_group(state, piece, raw);
    }
    match state.style {
        Reference => {}
        Places | Tight => return write_blocks::<N, AS_TOLD, ROOM>(state, piece, raw),
    }
    // A file in `TINY_ROOM` has too few pixels.
    if ROOM != TINY_ROOM && begin_with_rgba(&state.table, state.last.px, raw) {
        return write_blocks::<N, ALL_RGBA, ROOM>(state, piece, raw);
    }
    write_blocks::<N, AS_REFERENCE, ROOM>(state, piece, raw)
}

// Writes the front of whole pixels, which are a block or more, into the piece: by blocks, until it
// is full or no block is left (`write_blocks`); or only one group, the repeats at the front and the
// fresh pixel after them, if one comes (`write_one_group`), after which neither need be so. Returns
// the piece, and the rest. Which of the two ways it goes is asked mostly once a piece
// (`fill_in_channels`).
#[inline(always)]
fn fill_piece<'a, 'p, const ROOM: usize>(
    state: &mut ImageState,
    piece: OpenPiece<'p, ROOM>,
    data: &'a [u8],
) -> (Piece<'p, ROOM>, &'a [u8])
    requires whole { AreNextPixels state.old «data».now }
    requires block { 16 * pixel_size state.old ≤ length «data».now }
    ensures { FillsPiece state.old piece.entry «data».entry.now state.new result }
{
    match state.channels {
        Rgb => fill_in_channels::<3, ROOM>(state, piece, Pixels::new(data)),
        Rgba => fill_in_channels::<4, ROOM>(state, piece, Pixels::new(data)),
    }
}

/// Writes whole pixels into the piece, which sends to the writer each time it is full, and only
/// then. Fewer pixels than a block has are left at their end. Returns those, and the piece.
pub(super) fn write_pixels<'a, 'p, W: Writer, const ROOM: usize>(
    writer: &mut W,
    state: &mut ImageState,
    mut piece: OpenPiece<'p, ROOM>,
    data: &'a [u8],
) -> Result<(&'a [u8], OpenPiece<'p, ROOM>)>
    requires { IsReady (W.room writer.old) ROOM state.old (kept_bytes piece.piece) «data».now }
    ensures stays { StaysIn state.old state.new }
    ensures written { WritesWhole W.wrote W.room W.IsFault writer.old state.old piece.entry
        «data».entry.now writer.new state.new result }
{
    let block = state.block_size();
    let mut rest = data;
    while rest.len() >= block {
        let (mut next_piece, after) = fill_piece(state, piece, rest);
        // Asked again, as in `write_blocks`: behind one group the piece mostly isn't full.
        if next_piece.is_full() {
            next_piece.send(writer)?;
        }
        rest = after;
        piece = next_piece.open();
    }
    Ok((rest, piece))
}

// `write_last_pixels` in `N` channels.
#[tactic(auto, using(crate::proofs::encoding::piece::ImagePieces::few_pixels))]
#[inline(always)]
fn write_last_in_channels<const N: usize, const ROOM: usize>(
    mut coder: Coder<N>,
    table: &mut PixelTable,
    piece: &mut Piece<ROOM>,
    left: &[u8],
)
    requires whole { length left.now % N ≡ 0 }
    requires few { length left.now < 16 * N }
    requires not_full { piece.old.end < ROOM - SPARE }
    ensures { CoderEnds coder.entry table.old piece.old (pixels_of N left.now) piece.new }
{
    let rest = Pixels::<N>::new(left);
    if rest.is_empty() || ROOM == LEAST_ROOM {
        // As `Coder::write_last_groups_shared`, but inlined: it is little (no pixel is left), or
        // most of what is done (an image below `LEAST_BLOCK`).
        coder.write_last_groups(table, piece, rest);
    } else {
        coder.write_last_groups_shared(table, piece, rest);
    }
}

/// Writes the repeats that wait and an image's last pixels, fewer than a block has, into the piece.
#[inline(always)]
pub(super) fn write_last_pixels<const ROOM: usize>(
    state: &mut ImageState,
    piece: &mut Piece<ROOM>,
    left: &[u8],
)
    requires whole { AreNextPixels state.old left.now }
    requires few { length left.now < 16 * pixel_size state.old }
    requires not_full { piece.old.end < ROOM - SPARE }
    ensures { (unsent : List ℕ) → Between unsent state.old (kept_bytes piece.old) left.now
        → unsent ≡ kept_bytes piece.new }
{
    let (style, last) = (state.style, state.last);
    let table = &mut state.table;
    match state.channels {
        Rgb => write_last_in_channels::<3, ROOM>(Coder::new(style, last), table, piece, left),
        Rgba => write_last_in_channels::<4, ROOM>(Coder::new(style, last), table, piece, left),
    }
}

// Writes the file of an image, and returns how many bytes it has. These go through a piece in a
// room of `ROOM` bytes, which sends to the writer each time it is full, and at last.
fn encode_file<W: Writer, const ROOM: usize>(writer: &mut W, encoder: &Encoder) -> Result<usize>
    requires piece { (2 * SPARE ≤ ROOM) × (ROOM ≤ LARGE_ROOM) }
    requires room { max_file_len encoder.now.header ≤ W.room writer.old }
    ensures { WritesImage W.wrote W.IsFault encoder.now writer.old writer.new result }
{
    // `capacity` is what can still be written.
    let room = writer.capacity();
    let mut bytes = [0; ROOM];
    let piece = Piece::<ROOM>::with_header(&mut bytes, &encoder.header).open();
    let mut state = ImageState::new(encoder.header.channels, encoder.style);
    // A `?` would copy this result, since it has a piece; that of `finish` has nothing.
    match write_pixels(writer, &mut state, piece, encoder.data) {
        Ok((left, piece)) => {
            let mut piece = piece.piece;
            write_last_pixels(&mut state, &mut piece, left);
            piece.finish(writer)?;
            Ok(room - writer.capacity())
        }
        Err(e) => Err(e),
    }
}

/// The least block, sixteen pixels of three channels: an image of fewer raw bytes has none.
pub(super) const LEAST_BLOCK: usize = 48;

/// Writes the file of an image through one piece, which can hold all of it, and returns how many
/// bytes it has. In `LEAST_ROOM` images are below `LEAST_BLOCK`. It is kept out of `encode_file`,
/// which would else clear this room, too, and has no `Result` but the one that it returns: each
/// takes a dozen stores.
pub(super) fn encode_in_one_piece<W: Writer, const ROOM: usize>(
    writer: &mut W,
    encoder: &Encoder,
) -> Result<usize>
    requires piece { (LEAST_ROOM ≤ ROOM) × (ROOM ≤ LARGE_ROOM) }
    requires few { ROOM ≡ LEAST_ROOM → length encoder.now.raw < LEAST_BLOCK }
    requires fits { LEAST_ROOM < ROOM → max_file_len encoder.now.header ≤ ROOM - SPARE }
    requires room { max_file_len encoder.now.header ≤ W.room writer.old }
    ensures { WritesImage W.wrote W.IsFault encoder.now writer.old writer.new result }
{
    let mut bytes = [0; ROOM];
    let mut piece = Piece::<ROOM>::with_header(&mut bytes, &encoder.header);
    let mut state = ImageState::new(encoder.header.channels, encoder.style);
    let block = state.block_size();
    let mut left = encoder.data;
    // In `LEAST_ROOM` the compiler needn't see that there is no block.
    while ROOM != LEAST_ROOM && left.len() >= block {
        (piece, left) = fill_piece(&mut state, piece.open(), left);
    }
    // A copy, since this one is lent: so in the loop the piece stays in registers.
    let mut last_piece = piece;
    write_last_pixels(&mut state, &mut last_piece, left);
    let end = last_piece.store_marker();
    writer.write_many(last_piece.front(end))?;
    Ok(end)
}

/// Writes the file of an image, and returns how many bytes it has: through one piece if the image
/// is below `LEAST_BLOCK`, in `SMALL_ROOM` if it goes to memory and has fewer raw bytes than a
/// piece in `LARGE_ROOM` sends at once, else in that.
#[inline(always)]
pub(super) fn write_image<W: Writer, const IN_MEMORY: bool>(
    writer: &mut W,
    encoder: &Encoder,
) -> Result<usize>
    requires room { max_file_len encoder.now.header ≤ W.room writer.old }
    ensures { WritesImage W.wrote W.IsFault encoder.now writer.old writer.new result }
{
    let size = encoder.data.len();
    if size < LEAST_BLOCK {
        return encode_in_one_piece::<W, LEAST_ROOM>(writer, encoder);
    }
    if IN_MEMORY && size < LARGE_BATCH {
        return encode_file::<W, SMALL_ROOM>(writer, encoder);
    }
    encode_file::<W, LARGE_ROOM>(writer, encoder)
}
