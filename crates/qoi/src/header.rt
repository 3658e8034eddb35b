//! The header of a file (QOI specification 1.0, "QOI Header").
ghost use Rattle.qoi.specs.Encoded.{max_file_len};
ghost use Rattle.qoi.specs.Qoi.{default_header, header_bytes, header_of, header_size, IsValid, number_at, pixel_count, tried_header};
ghost use Rattle.qoi.specs.Raw.{capped_byte_count};
ghost use Rattle.qoi.specs.Rectangles.{row_size};
ghost use Rattle.std.specs.Prelude.{◌≡◌, ◌+◌, ◌*◌, ◌≤◌, length, take, IfOk};
ghost use Rattle.qoi.specs.declared.header.Header.{Header};

use crate::consts::{QOI_HEADER_SIZE, QOI_MAGIC, QOI_PIXELS_MAX};
use crate::encode::encode_max_len;
use crate::error::{Error, Result};
use crate::types::{Channels, ColorSpace};
use std::simd::prelude::*;

/// The size of an image, its number of channels and its color space (QOI specification 1.0, "QOI
/// Header").
///
/// In a file's header, width times height is from 1 to 400,000,000; `try_new` checks that.
///
/// ```
/// let header = Header::try_new(640, 480, Channels::Rgba, ColorSpace::Srgb)?;
/// let (pixels, bytes) = (header.n_pixels(), header.n_bytes()); // 307200, 1228800
/// ```
#[derive(Clone, Copy, PartialEq, Eq, Hash, Debug)]
pub struct Header {
    /// Width in pixels.
    pub width: u32,
    /// Height in pixels.
    pub height: u32,
    /// Channels of a pixel, which are informative.
    pub channels: Channels,
    /// Color space, which is informative.
    pub colorspace: ColorSpace,
}

impl Default for Header {
    ghost is_default = { λ header. header ≡ default_header };

    /// The header of one pixel of three channels in sRGB.
    fn default() -> Header {
        Header {
            width: 1,
            height: 1,
            channels: Channels::default(),
            colorspace: ColorSpace::default(),
        }
    }
}

impl Header {
    /// A header of these fields; `InvalidImageDimensions` if width times height is 0 or above
    /// 400,000,000.
    pub fn try_new(
        width: u32,
        height: u32,
        channels: Channels,
        colorspace: ColorSpace,
    ) -> Result<Header>
        ensures { result ≡ tried_header width height channels colorspace }
    {
        let n_pixels = width as usize * height as usize;
        if n_pixels == 0 || n_pixels > QOI_PIXELS_MAX {
            return Err(Error::InvalidImageDimensions { width, height });
        }
        Ok(Header {
            width,
            height,
            channels,
            colorspace,
        })
    }

    // The fourteen bytes of the header, and two that mean nothing.
    pub(crate) fn encode(&self) -> [u8; 16]
        ensures { take header_size result ≡ header_bytes self.now }
    {
        let channels = u32::from(self.channels.as_u8());
        let colorspace = u32::from(self.colorspace.as_u8());
        // A file's numbers have the highest byte first.
        let numbers = [
            QOI_MAGIC,
            self.width,
            self.height,
            channels + 256 * colorspace,
        ];
        let bytes = u32x4::from_array(numbers).to_le_bytes();
        let ordered: u8x16 = bytes.shuffle(
            bytes,
            [3, 2, 1, 0, 7, 6, 5, 4, 11, 10, 9, 8, 12, 13, 14, 15],
        );
        ordered.to_array()
    }

    // The header at the front of the bytes, or the first refusal: the length, the channels, the
    // color space, the magic, the dimensions.
    pub(crate) fn decode(bytes: &[u8]) -> Result<Header>
        ensures read { result ≡ header_of bytes.now }
        ensures own { IfOk result (λ h. (take header_size bytes.now ≡ header_bytes h) × IsValid h) }
    {
        if bytes.len() < QOI_HEADER_SIZE {
            return Err(Error::UnexpectedBufferEnd);
        }
        let channels = Channels::try_from(bytes[12])?;
        let colorspace = ColorSpace::try_from(bytes[13])?;
        let magic = number_at(bytes, 0);
        if magic != QOI_MAGIC {
            return Err(Error::InvalidMagic { magic });
        }
        let width = number_at(bytes, 4);
        let height = number_at(bytes, 8);
        Header::try_new(width, height, channels, colorspace)
    }

    /// A copy with other channels.
    pub fn with_channels(self, channels: Channels) -> Header
        ensures { result ≡ record self { channels = channels } }
    {
        Header { channels, ..self }
    }

    /// A copy with another color space.
    pub fn with_colorspace(self, colorspace: ColorSpace) -> Header
        ensures { result ≡ record self { colorspace = colorspace } }
    {
        Header { colorspace, ..self }
    }

    /// Width times height, in pixels.
    pub fn n_pixels(&self) -> usize
        ensures { result ≡ pixel_count self.now }
    {
        self.width as usize * self.height as usize
    }

    /// How many raw bytes such an image has: width times height times channels, or the greatest
    /// `usize` if that is less.
    pub fn n_bytes(&self) -> usize
        ensures { result ≡ capped_byte_count self.now }
    {
        self.n_pixels()
            .saturating_mul(usize::from(self.channels.as_u8()))
    }

    /// How many raw bytes a row of such an image has: width times channels.
    pub fn bytes_per_row(&self) -> usize
        ensures { result ≡ row_size self.now.channels self.now }
    {
        self.width as usize * usize::from(self.channels.as_u8())
    }

    /// The most bytes that the file of such an image can have, or the greatest `usize` if less.
    pub fn encode_max_len(&self) -> usize
        ensures { result ≡ max_file_len self.now }
    {
        encode_max_len(self.width, self.height, self.channels.as_u8())
    }
}

// Four bytes from `i` on, as a number, the highest byte first.
#[inline(always)]
fn number_at(bytes: &[u8], i: usize) -> u32
    requires { i + 4 ≤ length bytes.now }
    ensures { result ≡ number_at bytes.now i }
{
    let four = &bytes[i..i + 4];
    u32::from_be_bytes([four[0], four[1], four[2], four[3]])
}
