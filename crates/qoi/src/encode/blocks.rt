//! Writes what is at the front of an image's pixels into a piece: blocks of sixteen, and between
//! two of them repeats are carried (QOI specification 1.0, "Data" and "Chunks").
ghost use Rattle.std.specs.Prelude.{◌≡◌, ℕ, ◌<◌, ◌≤◌, List, Some, length, slice_get, IsTrue};
ghost use Rattle.qoi.specs.Qoi.{RgbaPixel};
ghost use Rattle.qoi.specs.Styles.{Style, style_in};
ghost use Rattle.qoi.specs.inner.BlockLoop.{GoesByBlocks, WritesBlocks};
ghost use Rattle.qoi.specs.inner.block.Planes.{last_pixel};
ghost use Rattle.qoi.specs.inner.Coder.{pixels_in};
ghost use Rattle.qoi.specs.inner.Sending.{EndsOpaque, FillsPiece, pixel_size};

use crate::consts::QOI_RUN_MAX;
use crate::encode::block::{Block, write_in_lanes};
use crate::encode::carry::{Carry, FRONT_CARRIED};
use crate::encode::coder::{Coder, LastPixel};
use crate::encode::image::ImageState;
use crate::encode::piece::{OpenPiece, Piece, REPEATS_AT_ONCE};
use crate::encode::pixels::{LoopPixels, Pixels, style_in};
use crate::encode::repeats::repeats_of;
use crate::encode::sparse::{goes_by_marks, write_marked_pixels};
use crate::encode::table::PixelTable;
use crate::packed::Packed;
use crate::types::Style::{self, Places, Reference, Tight};

/// Whether the front goes by blocks, as it does in two cases:
/// - a fresh pixel came, and at most `FRONT_CARRIED` repeats wait;
/// - a fresh pixel came or, except in style `Tight`, no repeats wait; and the next pixel is fresh.
#[inline(always)]
pub(super) fn goes_by_blocks<const N: usize>(style: Style, last: LastPixel, raw: Pixels<N>) -> bool
    requires some { 16 ≤ length (pixels_in raw) }
    requires opaque { N ≡ 3 → last.px.a ≡ 255 }
    ensures { IsTrue result
        → GoesByBlocks style last (length (pixels_in raw.entry)) (pixels_in raw.entry) }
{
    // Not in `Tight`: there `write_front_block` may make a coder even for the first block, from
    // `Carry::last_pixel`, which claims that a fresh pixel came (`begun`).
    let may_open = match style {
        Reference | Places => last.repeats == 0,
        Tight => false,
    };
    if last.begun && last.repeats <= FRONT_CARRIED {
        return true;
    }
    (last.begun | may_open) && !raw.begin_with(last.px)
}

// Whether an RGBA chunk gives this pixel after the one before it: another alpha, and no index
// position.
#[inline(always)]
fn is_rgba(table: &PixelTable, before: Packed, px: Packed) -> bool {
    px.a() != before.a() && !table.at(px.hash_index()).is_same(px)
}

// With fewer raw bytes, to ask whether they go by a loop of their own takes longer than it brings.
const MANY_BYTES: usize = 1024;

/// Whether RGBA chunks seem to give the first three pixels (by the table as it stands before them),
/// and so may give most of those that follow, if these are many.
#[inline(always)]
pub(super) fn begin_with_rgba<const N: usize>(
    table: &PixelTable,
    before: Packed,
    raw: Pixels<N>,
) -> bool
    requires { 3 ≤ length (pixels_in raw) }
{
    if N == 3 || raw.bytes.len() < MANY_BYTES {
        return false;
    }
    let (second, third) = (raw.skip(1), raw.skip(2));
    let (one, two) = (raw.first().px, second.first().px);
    is_rgba(table, before, one) && is_rgba(table, one, two) && is_rgba(table, two, third.first().px)
}

// Writes the full runs of the carried repeats and those at the front; the others are carried.
// Returns the rest, what is carried on, and the piece. If repeats are carried on, the rest begins
// with a fresh pixel or is empty: of 992 repeats, where counting ends, none are.
#[inline(always)]
fn write_full_runs<'a, 'p, const N: usize, const ROOM: usize>(
    piece: OpenPiece<'p, ROOM>,
    raw: Pixels<'a, N>,
    carry: Carry<N>,
) -> (Pixels<'a, N>, Carry<N>, Piece<'p, ROOM>)
    requires { slice_get (pixels_in raw) 0 ≡ Some (last_pixel carry.before) }
    ensures { (style : Style) (least : ℕ) (table : List RgbaPixel) → WritesBlocks style least
        raw.entry table carry.entry piece.entry.piece result.0 table result.1 result.2 }
{
    let mut piece = piece.piece;
    let carried = usize::from(carry.count);
    let at_front = repeats_of::<N>(raw.at_most(REPEATS_AT_ONCE - carried), raw.first());
    let all = carried + at_front;
    piece.append_full_runs(all / QOI_RUN_MAX);
    let next_carry = Carry {
        before: carry.before,
        count: (all % QOI_RUN_MAX) as u8,
        named: carry.named & (all < QOI_RUN_MAX),
    };
    (raw.skip(at_front), next_carry, piece)
}

// Writes what is at the front, in one of four ways:
// - if each of the block's pixels repeats, the full runs of the repeats there, if any
//   (`write_full_runs`);
// - if few of its pixels are fresh, the block, from one to the next of them (`goes_by_marks`);
// - if in style `Tight` a pixel may be given by another index position than its own, repeats and
//   the fresh pixel after them;
// - else the block, in lanes.
//
// The repeats at the end of what it wrote are carried. Returns the rest, what is carried, and the
// piece.
#[inline(always)]
fn write_front_block<'a, 'p, const N: usize, const STYLE: u8, const ROOM: usize>(
    table: &mut PixelTable,
    piece: OpenPiece<'p, ROOM>,
    pixels: LoopPixels<'a, N>,
    carry: Carry<N>,
) -> (Pixels<'a, N>, Carry<N>, Piece<'p, ROOM>)
    ensures { WritesBlocks (style_in STYLE pixels.entry.style)
        (length (pixels_in pixels.entry.whole))
        pixels.entry.rest table.old carry.entry piece.entry.piece
        result.0 table.new result.1 result.2 }
{
    let style = style_in::<STYLE>(pixels.style);
    let block = Block::first::<N>(pixels, carry);
    let marks = block.marks();
    if marks == 0 {
        return write_full_runs(piece, pixels.rest, carry);
    }
    if goes_by_marks(marks, pixels, carry) {
        let mut piece = piece.piece;
        let mut coder = Coder::<N>::new(style, carry.last_pixel());
        let rest = write_marked_pixels(&mut coder, table, &mut piece, pixels, marks);
        return (rest, Carry::of(coder.last), piece);
    }
    if block.may_have_absent_blank(style, table) {
        let mut piece = piece.piece;
        let mut coder = Coder::<N>::new(style, carry.last_pixel());
        let rest = coder.write_next_group(table, &mut piece, pixels.rest);
        return (rest, Carry::of(coder.last), piece);
    }
    let (next_carry, piece) = write_in_lanes::<N, STYLE, ROOM>(table, piece, block, carry);
    (pixels.rest.skip(16), next_carry, piece)
}

/// Writes these pixels, which go by blocks in this style (`style_in`), until the piece is full or
/// fewer than a block has are left, whatever pixels come meanwhile: afterwards one of the two is
/// so. Returns the piece, and the rest.
///
/// `Reference` has a loop of its own, and another if `ALL_RGBA`: where an RGBA chunk is expected to
/// give each pixel (`begin_with_rgba`). The other styles share one, which is told the style. This
/// function isn't inlined: where the loops are one function, they are slower. Nor is it passed a
/// `LoopPixels`, which would be stored for the call: a small image takes longer for it. The piece
/// is a value, so that the compiler keeps its fields in registers.
#[inline(never)]
pub(super) fn write_blocks<'a, 'p, const N: usize, const STYLE: u8, const ROOM: usize>(
    state: &mut ImageState,
    piece: OpenPiece<'p, ROOM>,
    raw: Pixels<'a, N>,
) -> (Piece<'p, ROOM>, &'a [u8])
    requires channels { pixel_size state.old ≡ N }
    requires opaque { EndsOpaque state.old }
    requires style { state.old.style ≡ style_in STYLE state.old.style }
    requires block { 16 ≤ length (pixels_in raw) }
    requires goes { GoesByBlocks (style_in STYLE state.old.style) state.old.last
        (length (pixels_in raw)) (pixels_in raw) }
    ensures { FillsPiece state.old piece.entry raw.entry.bytes.now state.new result }
{
    let style = state.style;
    let mut carry = Carry::<N>::of(state.last);
    let mut piece = piece.piece;
    let mut rest = raw;
    while !piece.is_full() && rest.has_block() {
        (rest, carry, piece) = write_front_block::<N, STYLE, ROOM>(
            &mut state.table,
            piece.open(),
            rest.in_loop(raw, style),
            carry,
        );
    }
    state.last = carry.last_pixel();
    // With the rest first, as `write_front_block` has it, a register less is left for the loop.
    (piece, rest.bytes)
}

/// Writes the front of these pixels, a block or more that don't go by blocks (`goes_by_blocks`),
/// also in mid-image: the repeats that wait, those at the front and the fresh pixel after them; but
/// only full runs if over 992 repeat, or if no pixel is left behind the repeats: those behind the
/// full runs then wait. Returns the piece, and the rest. It isn't inlined: in one function with it
/// the loop over blocks would be slower.
#[inline(never)]
pub(super) fn write_one_group<'a, 'p, const N: usize, const ROOM: usize>(
    state: &mut ImageState,
    piece: OpenPiece<'p, ROOM>,
    raw: Pixels<'a, N>,
) -> (Piece<'p, ROOM>, &'a [u8])
    requires channels { pixel_size state.old ≡ N }
    requires opaque { EndsOpaque state.old }
    requires block { 16 ≤ length (pixels_in raw) }
    ensures { FillsPiece state.old piece.entry raw.entry.bytes.now state.new result }
{
    let mut piece = piece.piece;
    let mut coder = Coder::<N>::new(state.style, state.last);
    let rest = coder.write_next_group(&mut state.table, &mut piece, raw);
    state.last = coder.last;
    (piece, rest.bytes)
}
