//! Encoding, into buffers, vectors and writers.
ghost use Rattle.std.specs.Prelude.{◌≡◌, ◌*◌, ◌<◌, ◌≤◌, length, ◌⊎◌, Ok, Err, IsErrOf, IsOk, IsOkUnless, IfOk, IfErr};
ghost use Rattle.qoi.specs.Styles.{Style, Reference};
ghost use Rattle.qoi.specs.Qoi.{Header, Error, Channels, ColorSpace, IsValid, AreBytes, pixels_max};
ghost use Rattle.qoi.specs.Raw.{image_byte_count};
ghost use Rattle.qoi.specs.Encoded.{max_len, max_file_len, image_header, measured_channels};
ghost use Rattle.qoi.specs.Errors.{IsIoError};
ghost use Rattle.qoi.specs.Sent.{IsFileFor, MakesFile, PutsFile, SendsFile, SendsPart};
ghost use Rattle.qoi.specs.EncoderState.{EncoderState, free_encoder};

mod block;
mod blocks;
mod carry;
mod coder;
pub(crate) mod fresh;
mod image;
pub(crate) mod piece;
mod pixel_writer;
mod pixels;
pub(crate) mod repeats;
mod sparse;
mod table;

use crate::consts::{QOI_HEADER_SIZE, QOI_PADDING_SIZE};
use crate::encode::image::{LEAST_BLOCK, encode_in_one_piece, write_image};
use crate::encode::piece::{LEAST_ROOM, TINY_FILE, TINY_ROOM};
pub use crate::encode::pixel_writer::PixelWriter;
pub(crate) use crate::encode::pixel_writer::send_bytes;
use crate::error::{Error, Result};
use crate::header::Header;
use crate::types::{Channels, ColorSpace, Style};
use crate::writers::{BytesMut, GenericWriter, VecMut, Writer};
use std::alloc::Global;
use std::io::Write;
use std::marker::Model;

// The channels that an image of this size has in these raw bytes. Only a refusal takes a division.
fn channels_found(data: &[u8], header: &Header) -> Result<Channels>
    requires { IsValid header.now }
    ensures { result ≡ measured_channels «data».now header.now.width header.now.height }
{
    let size = data.len();
    let n_pixels = header.n_pixels();
    if size == 3 * n_pixels {
        return Ok(Channels::Rgb);
    }
    if size == 4 * n_pixels {
        return Ok(Channels::Rgba);
    }
    if size % n_pixels == 0 {
        let channels = (size / n_pixels).min(0xff) as u8;
        return Err(Error::InvalidChannels { channels });
    }
    Err(Error::InvalidImageLength {
        size,
        width: header.width,
        height: header.height,
    })
}

/// The most bytes that the file of an image can have, or the greatest `usize` if that is less:
/// header, end marker, and for each pixel a byte for each channel and one more.
///
/// `width` and `height` are in pixels. An image of one pixel that needs the longest chunk (RGB, or
/// RGBA in four channels) takes as many.
///
/// ```
/// let most = encode_max_len(2, 2, 3); // 14 + 2 * 2 * (3 + 1) + 8
/// ```
pub fn encode_max_len(width: u32, height: u32, channels: u8) -> usize
    ensures { result ≡ max_len width height channels }
{
    let n_pixels = width as usize * height as usize;
    n_pixels
        .saturating_mul(usize::from(channels) + 1)
        .saturating_add(QOI_HEADER_SIZE + QOI_PADDING_SIZE)
}

/// Encodes raw bytes into the front of the buffer, with color space `Srgb` and in style
/// `Reference`, and returns how many bytes the file has. `width` and `height` are in pixels.
///
/// The refusals are those of `Encoder::new` and then of its `encode_to_buf`.
///
/// ```
/// let mut buf = [0; 38]; // encode_max_len(2, 2, 3)
/// let size = encode_to_buf(&mut buf, &[7; 12], 2, 2)?;
/// let file = &buf[..size];
/// ```
pub fn encode_to_buf(buf: &mut [u8], data: &[u8], width: u32, height: u32) -> Result<usize>
    // A success: the file stands in the front of the buffer, and later bytes stay.
    ensures encoded { IfOk result (λ n. (h : Header) × (image_header «data».now width height ≡ Ok h)
        × PutsFile (free_encoder h «data».now) buf.old buf.new n) }
    ensures accepts { (h : Header) → image_header «data».now width height ≡ Ok h
        → max_file_len h ≤ length buf.old → IsOk result }

    // The refusals, which leave the buffer as it is.
    ensures refused { (e : Error) → image_header «data».now width height ≡ Err e → (result ≡ Err e)
        × (buf.new ≡ buf.old) }
    ensures short { (h : Header) → image_header «data».now width height ≡ Ok h
        → length buf.old < max_file_len h
        → (result ≡ Err (Error.OutputBufferTooSmall (length buf.old) (max_file_len h)))
        × (buf.new ≡ buf.old) }
{
    Encoder::new(data, width, height)?.encode_to_buf(buf)
}

/// Encodes raw bytes into a new vector, which holds only the file, with color space `Srgb` and in
/// style `Reference`. `width` and `height` are in pixels.
///
/// The refusals are those of `Encoder::new` and then of its `encode_to_vec`.
///
/// ```
/// let file = encode_to_vec(alloc, &[7; 12], 2, 2)?; // four pixels of three channels
/// ```
pub fn encode_to_vec(alloc: Global, data: &[u8], width: u32, height: u32) -> Result<Vec<u8>>
    // A success: the vector is the file.
    ensures encoded { IfOk result (λ v. IsFileFor «data».now width height v.items) }

    // The refusals.
    ensures refused { IfErr result (λ e. (image_header «data».now width height ≡ Err e)
        ⊎ ((e ≡ Error.OutOfMemory) × (h : Header)
        × (image_header «data».now width height ≡ Ok h))) }

    // Raw bytes of the right number for a valid size are refused only if memory runs out.
    ensures accepts { 1 ≤ width * height → width * height ≤ pixels_max
        → (length «data».now ≡ width * height * 3) ⊎ (length «data».now ≡ width * height * 4)
        → IsOkUnless result Error.OutOfMemory }
    ensures accepts_header { (h : Header) → IsValid h → h.width ≡ width → h.height ≡ height
        → length «data».now ≡ image_byte_count h → IsOkUnless result Error.OutOfMemory }
{
    Encoder::new(data, width, height)?.encode_to_vec(alloc)
}

/// Encodes an image into buffers, vectors and writers: the same file each time (QOI specification
/// 1.0, "File Format", "Data" and "Chunks").
///
/// A contract sees the raw bytes, the header that the file gets, and the style.
///
/// ```
/// let encoder = Encoder::new(&raw, 640, 480)?
///     .with_colorspace(ColorSpace::Linear)
///     .with_style(Style::Tight);
/// let size = encoder.encode_to_stream(&mut writer)?;
/// ```
#[derive(Drop)]
pub struct Encoder<'a> {
    data: &'a [u8],
    header: Header,
    style: Style,
}

impl<'a> Model for Encoder<'a> {
    ghost Value = { EncoderState };

    ghost view = { λ e. record { raw = e.«data».now; header = e.header; style = e.style } };

    ghost invariant = { λ e. IsValid e.header × (length e.«data».now ≡ image_byte_count e.header)
        × AreBytes e.«data».now };
}

impl<'a> Encoder<'a> {
    /// An encoder of raw bytes: of an image of `width` by `height` pixels that has as many channels
    /// as there are bytes for each pixel, three or four. The color space is `Srgb`, and the style
    /// `Reference`.
    ///
    /// Refusals, in this order: `InvalidImageDimensions` if width times height is 0 or above
    /// 400,000,000; `InvalidImageLength` if the number of bytes isn't a multiple of the number of
    /// pixels; `InvalidChannels` if there aren't 3 or 4 bytes for each pixel, with how many there
    /// are, or 255 if more.
    pub fn new(data: &'a [u8], width: u32, height: u32) -> Result<Encoder<'a>>
        // A success: the header that is found for the bytes, which has the given width and height.
        ensures accepted { IfOk result (λ e.
            (image_header «data».entry.now width height ≡ Ok e.header)
            × (e.raw ≡ «data».entry.now) × (e.style ≡ Reference)
            × (e.header ≡ record {
              width = width;
              height = height;
              channels = e.header.channels;
              colorspace = ColorSpace.Srgb;
            })) }

        // The refusals.
        ensures refused { IfErr result (λ e. image_header «data».entry.now width height ≡ Err e) }
    {
        let mut header = Header::try_new(width, height, Channels::Rgb, ColorSpace::Srgb)?;
        header.channels = channels_found(data, &header)?;
        Ok(Encoder {
            data,
            header,
            style: Style::Reference,
        })
    }

    /// This encoder with another color space, which changes the fourteenth byte of the file and no
    /// other.
    pub fn with_colorspace(mut self, colorspace: ColorSpace) -> Encoder<'a>
        ensures { result
            ≡ record self.entry { header = record self.entry.header { colorspace = colorspace } } }
    {
        self.header = self.header.with_colorspace(colorspace);
        self
    }

    /// This encoder with another style: other chunks may be written. In style `Places` the file is
    /// as long as in `Reference`. In style `Tight` no other chunks of the image make a shorter
    /// file, but the Rust crate may decode it to other pixels: choose `Tight` only if all decoders
    /// of the file are known to follow QOI 1.0.
    pub fn with_style(mut self, style: Style) -> Encoder<'a>
        ensures { result ≡ record self.entry { style = style } }
    {
        self.style = style;
        self
    }

    /// The style.
    pub fn style(&self) -> Style
        ensures { result ≡ self.now.style }
    {
        self.style
    }

    /// The number of channels, found from the raw bytes.
    pub fn channels(&self) -> Channels
        ensures { result ≡ self.now.header.channels }
    {
        self.header.channels
    }

    /// The header that the file gets.
    pub fn header(&self) -> &Header
        ensures { result.now ≡ self.now.header }
    {
        &self.header
    }

    /// How many bytes a buffer must have: the most that the file of such an image can have.
    pub fn required_buf_len(&self) -> usize
        ensures { result ≡ max_file_len self.now.header }
    {
        self.header.encode_max_len()
    }

    /// Encodes the image into the front of the buffer, and returns how many bytes the file has;
    /// later bytes stay as they are.
    ///
    /// `OutputBufferTooSmall` exactly if the buffer is shorter than `required_buf_len`, even if the
    /// file would fit; then the buffer is untouched.
    pub fn encode_to_buf(&self, buf: &mut [u8]) -> Result<usize>
        // A success: the file stands in the front of the buffer, and later bytes stay.
        ensures encoded { IfOk result (PutsFile self.now buf.old buf.new) }
        ensures accepts { max_file_len self.now.header ≤ length buf.old → IsOk result }

        // The refusal, which leaves the buffer as it is.
        ensures short { length buf.old < max_file_len self.now.header
            → IsErrOf result
            (Error.OutputBufferTooSmall (length buf.old) (max_file_len self.now.header))
            × (buf.new ≡ buf.old) }
    {
        let required = self.required_buf_len();
        if buf.len() < required {
            return Err(Error::OutputBufferTooSmall {
                size: buf.len(),
                required,
            });
        }
        let mut writer = BytesMut::new(buf);
        // Asked here, and not by `write_image` alone: for one pixel its result, passed on, takes 5
        // percent more instructions.
        if self.data.len() < LEAST_BLOCK {
            return encode_in_one_piece::<_, LEAST_ROOM>(&mut writer, self);
        }
        // For buffers only: when vectors went this way too, and files of up to 512 bytes, neither
        // `encode_in_one_piece` nor `fill_piece` was inlined, and 4 by 4 pixels took a quarter
        // longer.
        if required <= TINY_FILE {
            return encode_in_one_piece::<_, TINY_ROOM>(&mut writer, self);
        }
        write_image::<_, true>(&mut writer, self)
    }

    /// Encodes the image into a new vector, which holds only the file.
    ///
    /// `OutOfMemory` if the allocation of `required_buf_len` bytes fails. They cost address space
    /// alone until they are written, and those that the file leaves are given back.
    pub fn encode_to_vec(&self, alloc: Global) -> Result<Vec<u8>>
        // A success: the vector is the file.
        ensures encoded { IfOk result (λ v. MakesFile self.now v.items) }

        // The refusals.
        ensures refused { IsOkUnless result Error.OutOfMemory }
    {
        let mut file = Vec::with_capacity(alloc, self.required_buf_len())?;
        let mut writer = VecMut::new(&mut file);
        write_image::<_, true>(&mut writer, self)?;
        file.shrink_to_fit();
        Ok(file)
    }

    /// Encodes the image to a writer, and returns how many bytes the file has, all of which were
    /// written. The writer isn't flushed.
    ///
    /// `IoError` if the writer reports a fault (an interruption is one) or takes no byte (kind
    /// `WriteZero`); then a beginning of the file was written, behind which a further call writes it
    /// all. The file is written in pieces of 4096 bytes and a last one of the rest.
    pub fn encode_to_stream<W: Write>(&self, writer: &mut W) -> Result<usize>
        // A success: all of the file was sent.
        ensures sent { IfOk result
            (SendsFile self.now (W.contents writer.old) (W.contents writer.new)) }

        // The refusals: a beginning of the file was sent.
        ensures refused { IfErr result (λ e. IsIoError e
            × SendsPart self.now (W.contents writer.old) (W.contents writer.new)) }
    {
        let mut writer = GenericWriter::new(writer);
        write_image::<_, false>(&mut writer, self)
    }
}
