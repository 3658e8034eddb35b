//! Encoding of one image whose raw bytes come piece by piece.
ghost use Rattle.std.specs.Prelude.{◌≡◌, ℕ, ◌+◌, ◌-◌, ◌*◌, ◌%◌, ◌^◌, ◌<◌, ◌≤◌, List, [], ◌++◌, Option, length, ◌⊎◌, Err, IfOk, IfErr, IsErrAnd, IsTrue, OnErr, OnOk, false};
ghost use Rattle.std.specs.Io.KnownBytes.{Appends};
ghost use Rattle.qoi.specs.Qoi.{Error, Header, IsValid, pixels_max, tried_header};
ghost use Rattle.qoi.specs.Raw.{image_byte_count};
ghost use Rattle.qoi.specs.Encoded.{image_file};
ghost use Rattle.qoi.specs.Errors.{IsIoError};
ghost use Rattle.qoi.specs.Sent.{SendsFile, SendsPart, SendsSomeFile};
ghost use Rattle.qoi.specs.Styles.{Style};
ghost use Rattle.qoi.specs.EncoderState.{EncoderState};
ghost use Rattle.qoi.specs.inner.Sending.{pixel_size, EndsOpaque};
ghost use Rattle.qoi.specs.pieces.PixelWriter.{WriterState, HasTaken, IfTaken, HasFailed, RefusesRaw, SendsSome, and_raw, missing_bytes};

mod sending;
mod workspace;

use crate::consts::QOI_HEADER_SIZE;
use crate::encode::image::ImageState;
use crate::encode::piece::LARGE_ROOM;
pub(crate) use crate::encode::pixel_writer::sending::send_bytes;
use crate::encode::pixel_writer::sending::{take_raw, write_end};
use crate::encode::pixel_writer::workspace::{Held, Workspace};
use crate::error::{Error, Result};
use crate::header::Header;
use crate::types::Style;
use std::alloc::Global;
use std::io;
use std::io::{ErrorKind, Write};
use std::marker::Model;

/// Writes the file of one image, whose raw bytes come piece by piece: that of `Encoder` for all of
/// them, in memory that doesn't grow with the image.
///
/// A contract sees the writer, header and style of the file, how many raw bytes haven't come, how
/// many came with the last call that wasn't refused at once, whether the writer reported a fault,
/// the raw bytes that are held, and the encoder's state behind the bytes that are encoded.
///
/// ```
/// let header = Header::try_new(640, 480, Channels::Rgb, ColorSpace::Srgb)?;
/// let mut pixels = PixelWriter::new(alloc, header, Style::Reference, writer)?;
/// while pixels.left() > 0 {
///     pixels.write(&next_row())?;
/// }
/// let writer = pixels.finish()?;
/// ```
#[derive(Drop)]
pub struct PixelWriter<W> {
    writer: W,
    header: Header,
    left: usize,
    came: usize,
    failed: bool,
    workspace: Box<Workspace>,
}

impl<W> Model for PixelWriter<W> {
    ghost Value = { WriterState W };

    ghost view = { λ p. record {
      writer = p.writer;
      header = p.header;
      style = p.workspace.value.state.style;
      left = p.left;
      came = p.came;
      failed = p.failed;
      held = p.workspace.value.held;
      pending = p.workspace.value.state;
    } };

    ghost invariant = { λ p. IsValid p.header × (p.left ≤ image_byte_count p.header)
        × (p.failed ≡ false → EndsOpaque p.workspace.value.state
        × ((length p.workspace.value.held + p.left) % pixel_size p.workspace.value.state ≡ 0)) };
}

impl<W: Write + Drop> PixelWriter<W> {
    /// Sends the header of the image to the writer.
    ///
    /// `InvalidImageDimensions` if width times height is 0 or above 400,000,000; `OutOfMemory` if
    /// the only allocation fails, of some 13 KB; `IoError` as in `Encoder::encode_to_stream`. The
    /// writer is then dropped.
    pub fn new(alloc: Global, header: Header, style: Style, mut writer: W) -> Result<PixelWriter<W>>
        ensures made { IfOk result (HasTaken W.contents
            (record { raw = []; header = header; style = style }) (W.contents writer)) }
        ensures refused { IfErr result (λ e.
            (tried_header header.width header.height header.channels header.colorspace ≡ Err e)
            ⊎ (IsValid header × (IsIoError e ⊎ (e ≡ Error.OutOfMemory)))) }
    {
        let header = Header::try_new(
            header.width,
            header.height,
            header.channels,
            header.colorspace,
        )?;
        let workspace = Workspace {
            state: ImageState::new(header.channels, style),
            held: Held::new(),
            piece_bytes: [0; LARGE_ROOM],
        };
        let workspace = Box::new(alloc, workspace)?;
        send_bytes(&mut writer, &header.encode()[..QOI_HEADER_SIZE])?;
        Ok(PixelWriter {
            writer,
            header,
            left: header.n_bytes(),
            came: 0,
            failed: false,
            workspace,
        })
    }

    /// The header that was sent.
    #[tactic(auto, unfolding(crate::specs::pieces::PixelWriter::HasTaken))]
    pub fn header(&self) -> &Header
        ensures { (e : EncoderState) (before : Option (List ℕ))
            → HasTaken W.contents e before self.now ⊎ HasFailed W.contents e before self.now
            → result.now ≡ e.header }
    {
        &self.header
    }

    /// The style of the file.
    #[tactic(auto, unfolding(crate::specs::pieces::PixelWriter::HasTaken))]
    pub fn style(&self) -> Style
        ensures { (e : EncoderState) (before : Option (List ℕ))
            → HasTaken W.contents e before self.now ⊎ HasFailed W.contents e before self.now
            → result ≡ e.style }
    {
        self.workspace.state.style
    }

    /// How many raw bytes of the image haven't come yet; after a fault, those of the call that
    /// failed count, too.
    #[tactic(auto, unfolding(crate::specs::pieces::PixelWriter::HasTaken))]
    pub fn left(&self) -> usize
        ensures left { result ≡ missing_bytes self.now }
        ensures of_image { IfTaken W.contents self.now (λ e before.
            length e.raw + result ≡ image_byte_count e.header) }
    {
        self.left
    }

    /// Takes the next raw bytes, any number of them. Up to 8,256 are held, so that several short
    /// rows are encoded at once. If there is no room for a call's bytes, or they are more than
    /// 4,128, those that are held are encoded, with as many of the call's as fill their last block,
    /// and more of the call's until at most 4,128 of them are left. These are held, maybe behind a
    /// few pixels, fewer than a block has. What was encoded is sent, but for repeats whose run may
    /// go on. It doesn't flush.
    ///
    /// `InvalidImageLength`, with the number of all bytes that came, if there are more than the
    /// image has; then none of them is taken, and nothing is sent. `IoError` if the writer reports
    /// a fault or takes no byte; then a beginning of the file was sent, `left` is as before, and
    /// each further `write`, and `finish`, sends nothing and returns an `IoError` of kind
    /// `BrokenPipe`.
    #[tactic(auto, unfolding(crate::specs::pieces::PixelWriter::HasTaken))]
    pub fn write(&mut self, raw: &[u8]) -> Result<()>
        // A success: these raw bytes came, too.
        ensures taken { IfTaken W.contents self.old (λ e before.
            OnOk result (HasTaken W.contents (and_raw e raw.now) before self.new)) }
        ensures left { OnOk result
            (missing_bytes self.new + length raw.now ≡ missing_bytes self.old) }

        // The refusals: a fault, if the bytes fit, or too many bytes; and any call after a fault.
        ensures refused { IfTaken W.contents self.old (λ e before.
            IfErr result (RefusesRaw W.contents e raw.now before self.new)) }
        ensures spent { (e : EncoderState) (before : Option (List ℕ))
            → HasFailed W.contents e before self.old
            → IsErrAnd result IsIoError × (self.new ≡ self.old) }

        // What they leave: all as it was, but after a fault.
        ensures unchanged { IfErr result (λ e. IsIoError e ⊎ (self.new ≡ self.old)) }
        ensures left_stays { OnErr result (missing_bytes self.new ≡ missing_bytes self.old) }
    {
        if self.failed {
            return Err(failed_before());
        }
        if raw.len() > self.left {
            return Err(self.wrong_length(raw.len()));
        }
        // It stays set if a fault ends the call.
        self.failed = true;
        self.came = raw.len();
        let workspace = &mut *self.workspace;
        if workspace.held.takes(raw.len()) {
            workspace.held.push(raw);
        } else {
            take_raw(&mut self.writer, workspace, raw)?;
        }
        self.failed = false;
        self.left -= raw.len();
        Ok(())
    }

    /// The refusal of `write` for so many raw bytes, before it takes them: the writer failed
    /// before, or the image lacks fewer.
    #[tactic(auto, unfolding(crate::specs::pieces::PixelWriter::HasTaken))]
    pub(crate) fn check_count(&self, more: usize) -> Result<()>
        requires { more ≤ 4 * pixels_max }
        ensures room { OnOk result (more ≤ missing_bytes self.now) }
        ensures many { IfTaken W.contents self.now (λ e before. IfErr result (λ error. (error
            ≡ Error.InvalidImageLength (length e.raw + more) e.header.width e.header.height)
            × (missing_bytes self.now < more))) }
        ensures spent { (e : EncoderState) (before : Option (List ℕ))
            → HasFailed W.contents e before self.now → IsErrAnd result IsIoError }
    {
        if self.failed {
            return Err(failed_before());
        }
        if more > self.left {
            return Err(self.wrong_length(more));
        }
        Ok(())
    }

    // The refusal whose `size` is what came before and these bytes; `finish` passes 0.
    fn wrong_length(&self, more: usize) -> Error
        requires { image_byte_count self.now.header - self.now.left + more < 2 ^ 64 }
        ensures { result ≡ Error.InvalidImageLength
            (image_byte_count self.now.header - self.now.left + more)
            self.now.header.width self.now.header.height }
    {
        Error::InvalidImageLength {
            size: self.header.n_bytes() - self.left + more,
            width: self.header.width,
            height: self.header.height,
        }
    }

    /// Sends the rest of the file, and gives the writer back.
    ///
    /// `InvalidImageLength`, with the number of bytes that came, if some are missing, and then
    /// nothing is sent; `IoError` as in `write`. After a refusal the writer is dropped, so while
    /// `left` isn't 0 call `into_writer` to get it back.
    pub fn finish(self) -> Result<W>
        // A success: all raw bytes came, and the file was sent. `file` says so by raw bytes, header
        // and style, which the prover finds also where a call before this one copied.
        ensures sent { IfTaken W.contents self (λ e before.
            IfOk result (λ w. (n : ℕ) × SendsFile e before (W.contents w) n)) }
        ensures file { (raw : List ℕ) (h : Header) (style : Style) (before : Option (List ℕ))
            → HasTaken W.contents (record { raw = raw; header = h; style = style }) before self
            → IfOk result (λ w. Appends before (W.contents w) (image_file style h raw)) }
        ensures some { IfTaken W.contents self (λ e before. IfOk result (λ w.
            SendsSomeFile e.style e.header before (W.contents w))) }

        // The refusals: a fault, if all bytes came, or too few bytes; and after a fault any call.
        ensures refused { IfTaken W.contents self (λ e before. IfErr result (λ error.
            (IsIoError error × (length e.raw ≡ image_byte_count e.header))
            ⊎ ((error ≡ Error.InvalidImageLength (length e.raw) e.header.width e.header.height)
            × (length e.raw < image_byte_count e.header)))) }
        ensures spent { (e : EncoderState) (before : Option (List ℕ))
            → HasFailed W.contents e before self → IsErrAnd result IsIoError }
    {
        let mut pixels = self;
        pixels.send_rest()?;
        Ok(pixels.writer)
    }

    // Sends the rest of the file. It is apart from `finish`, whose contract can't say what became
    // of a writer that is dropped.
    #[tactic(auto, unfolding(crate::specs::pieces::PixelWriter::HasTaken))]
    fn send_rest(&mut self) -> Result<()>
        ensures sent { IfTaken W.contents self.old (λ e before.
            OnOk result ((n : ℕ) × SendsFile e before (W.contents self.new.writer) n)) }
        ensures all { OnOk result (self.old.left ≡ 0) }

        // The refusals: too few bytes, and then nothing is sent, or a fault.
        ensures missing { IfErr result (λ error. IsIoError error
            ⊎ ((error ≡ Error.InvalidImageLength
            (image_byte_count self.old.header - self.old.left)
            self.old.header.width self.old.header.height)
            × (0 < self.old.left) × (self.new ≡ self.old))) }
        ensures part { IfTaken W.contents self.old (λ e before. IfErr result (λ error.
            IsIoError error
            → (self.old.left ≡ 0) × SendsPart e before (W.contents self.new.writer))) }
        ensures spent { IsTrue self.old.failed
            → IsErrAnd result IsIoError × (self.new ≡ self.old) }
    {
        if self.failed {
            return Err(failed_before());
        }
        if self.left > 0 {
            return Err(self.wrong_length(0));
        }
        // It stays set: no call follows.
        self.failed = true;
        let workspace = &mut *self.workspace;
        write_end(&mut self.writer, workspace)
    }

    /// The writer as it stands: with a beginning of the file behind what it had.
    pub fn into_writer(self) -> W
        ensures same { result ≡ self.writer }
        ensures sends { (e : EncoderState) (before : Option (List ℕ))
            → HasTaken W.contents e before self ⊎ HasFailed W.contents e before self
            → SendsSome e before (W.contents result) }
    {
        self.writer
    }
}

// The refusal after a fault.
fn failed_before() -> Error
    ensures { IsIoError result }
{
    Error::IoError(io::Error::from(ErrorKind::BrokenPipe))
}
