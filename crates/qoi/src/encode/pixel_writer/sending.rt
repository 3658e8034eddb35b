//! The chunks of an image whose raw bytes come in several calls, through the encoder's `Piece`,
//! which keeps bytes of the file, to a writer (QOI specification 1.0, "Data").
ghost use Rattle.std.specs.Prelude.{◌≡◌, ◌⊎◌, ◌+◌, ◌*◌, ◌<◌, ◌≤◌, [], ◌++◌, length, IfOk, IfErr, OnOk};
ghost use Rattle.qoi.specs.Errors.{IsIoError};
ghost use Rattle.qoi.specs.Qoi.{pixels_max};
ghost use Rattle.qoi.specs.declared.encode.pixel_writer.workspace.TheConstants.{HELD_MOST};
ghost use Rattle.qoi.specs.Writers.{AppendsBeginning};
ghost use Rattle.std.specs.Io.KnownBytes.{Appends};
ghost use Rattle.qoi.specs.inner.Sending.{appended, EndsOpaque, StaysIn, AreNextPixels, IsReady, WritesWhole, GoesOnOrBreaks, EndsWith};
ghost use Rattle.qoi.specs.inner.Coder.{kept_bytes, LARGE_ROOM};

use crate::encode::image::{ImageState, write_last_pixels, write_pixels};
use crate::encode::piece::{LARGE_ROOM, OpenPiece, Piece};
use crate::encode::pixel_writer::workspace::{Held, Workspace};
use crate::error::Result;
use crate::utils::copy_after;
use crate::writers::{GenericWriter, Writer};
use std::io::Write;

/// Sends bytes to a writer of the standard library.
#[inline(never)]
pub(crate) fn send_bytes<W: Write>(writer: &mut W, bytes: &[u8]) -> Result<()>
    ensures written { OnOk result
        (Appends (W.contents writer.old) (W.contents writer.new) bytes.now) }
    ensures refused { IfErr result (λ e. IsIoError e × AppendsBeginning
        (W.contents writer.old) (W.contents writer.new) bytes.now) }
{
    let mut writer = GenericWriter::new(writer);
    writer.write_many(bytes)?;
    Ok(())
}

// If raw bytes are held, writes them and as many of `raw` as their last block needs, else whole
// pixels of `raw`. Holds the pixels that are left, fewer than a block has (some may be left of
// whole blocks, too, since `write_one_group` ends behind any pixel), and returns the rest. There
// always is `room`: a new `GenericWriter` has `usize::MAX`.
#[inline(always)]
fn write_held_or_raw<'a, 'p, W: Writer>(
    writer: &mut W,
    state: &mut ImageState,
    held: &mut Held,
    piece: OpenPiece<'p, LARGE_ROOM>,
    raw: &'a [u8],
) -> Result<(&'a [u8], OpenPiece<'p, LARGE_ROOM>)>
    requires opaque { EndsOpaque state.old }
    requires many { (HELD_MOST < 2 * length raw.now)
        ⊎ (HELD_MOST < length held.old + length raw.now) }
    requires room { LARGE_ROOM * (length held.old + length raw.now + 1) ≤ W.room writer.old }
    ensures stays { StaysIn state.old state.new }
    ensures less { IfOk result (λ r. length held.new + length r.0.now
        < length held.old + length raw.entry.now) }
    ensures written { GoesOnOrBreaks W.wrote
        writer.old state.old (kept_bytes piece.entry.piece) (held.old ++ raw.entry.now) W.IsFault
        writer.new state.new (λ r. kept_bytes r.1.piece) (λ r. held.new ++ r.0.now) result }
{
    let n = usize::from(state.channels.as_u8());
    let len = held.bytes().len();
    if len == 0 {
        let (pixels, part) = raw.split_at(raw.len() - raw.len() % n);
        let (left, piece) = write_pixels(writer, state, piece, pixels)?;
        held.push(left);
        return Ok((part, piece));
    }
    let (front, rest) = raw.split_at((16 * n - len % (16 * n)) % (16 * n));
    held.push(front);
    let (left, piece) = write_pixels(writer, state, piece, held.bytes())?;
    let mut few = [0; 64];
    let count = copy_after(&mut few, 0, left);
    held.replace(&few[..count]);
    Ok((rest, piece))
}

/// Encodes what was held, then raw bytes until `Held` takes the rest, and sends the piece.
#[inline(never)]
pub(super) fn take_raw<W: Write>(
    writer: &mut W,
    workspace: &mut Workspace,
    raw: &[u8],
) -> Result<()>
    requires opaque { EndsOpaque workspace.old.state }
    requires most { length workspace.old.held + length raw.now ≤ 5 * pixels_max }
    ensures stays { StaysIn workspace.old.state workspace.new.state }
    ensures written { GoesOnOrBreaks appended
        (W.contents writer.old) workspace.old.state [] (workspace.old.held ++ raw.now) IsIoError
        (W.contents writer.new) workspace.new.state (λ _. []) (λ _. workspace.new.held) result }
{
    let mut piece = Piece::<LARGE_ROOM>::new(&mut workspace.piece_bytes).open();
    let mut rest = raw;
    while !workspace.held.takes(rest.len()) {
        let mut stream = GenericWriter::new(writer);
        (rest, piece) = write_held_or_raw(
            &mut stream,
            &mut workspace.state,
            &mut workspace.held,
            piece,
            rest,
        )?;
    }
    workspace.held.push(rest);
    send_bytes(writer, piece.piece.front(piece.piece.end))?;
    Ok(())
}

/// Writes an image's last raw bytes, which were held, and the end marker.
pub(super) fn write_end<W: Write>(writer: &mut W, workspace: &mut Workspace) -> Result<()>
    requires { AreNextPixels workspace.old.state workspace.old.held }
    ensures { EndsWith appended IsIoError (W.contents writer.old) workspace.old.state []
        workspace.old.held (W.contents writer.new) result }
{
    let state = &mut workspace.state;
    let piece = Piece::<LARGE_ROOM>::new(&mut workspace.piece_bytes).open();
    let mut stream = GenericWriter::new(writer);
    let (left, piece) = write_pixels(&mut stream, state, piece, workspace.held.bytes())?;
    let mut last_piece = piece.piece;
    write_last_pixels(state, &mut last_piece, left);
    last_piece.finish(&mut stream)
}
