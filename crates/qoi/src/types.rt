//! The number of channels and the color space of a header, and the style of an encoder.
ghost use Rattle.std.specs.Prelude.{◌≡◌, ◌↔◌, IsTrue};
ghost use Rattle.qoi.specs.Qoi.{channels_number, channels_of, colorspace_number, colorspace_of};

use crate::error::Error;

/// How the color channels are to be read (QOI specification 1.0, "QOI Header").
///
/// The color space is informative: it stands in the header and changes no chunk.
///
/// ```
/// let number = ColorSpace::Linear.as_u8(); // 1
/// ```
#[derive(Clone, Copy, PartialEq, Eq, PartialOrd, Ord, Default, Hash, Debug)]
pub enum ColorSpace {
    /// sRGB with linear alpha.
    #[default]
    Srgb = 0,
    /// All channels linear.
    Linear = 1,
}

impl ColorSpace {
    /// Whether the color space is sRGB with linear alpha.
    pub fn is_srgb(self) -> bool
        ensures { IsTrue result ↔ (self ≡ ColorSpace.Srgb) }
    {
        matches!(self, ColorSpace::Srgb)
    }

    /// Whether all channels are linear.
    pub fn is_linear(self) -> bool
        ensures { IsTrue result ↔ (self ≡ ColorSpace.Linear) }
    {
        matches!(self, ColorSpace::Linear)
    }

    /// The number that a header has for the color space: 0 for `Srgb`, 1 for `Linear`.
    pub fn as_u8(self) -> u8
        ensures { result ≡ colorspace_number self }
    {
        self as u8
    }
}

impl From<ColorSpace> for u8 {
    ghost from_gives = { λ colorspace n. n ≡ colorspace_number colorspace };

    /// The number that a header has for the color space: 0 for `Srgb`, 1 for `Linear`.
    fn from(colorspace: ColorSpace) -> u8 {
        colorspace.as_u8()
    }
}

impl TryFrom<u8> for ColorSpace {
    type Error = Error;

    ghost try_from_gives = { λ n r. r ≡ colorspace_of n };

    /// The color space of a header's number; every number but 0 and 1 is `InvalidColorSpace`.
    fn try_from(colorspace: u8) -> Result<Self, Error> {
        match colorspace {
            0 => Ok(ColorSpace::Srgb),
            1 => Ok(ColorSpace::Linear),
            _ => Err(Error::InvalidColorSpace { colorspace }),
        }
    }
}

/// How many channels of 8 bits a pixel has (QOI specification 1.0, "QOI Header").
///
/// The number of channels is informative: it stands in the header and changes no chunk.
///
/// ```
/// let channels = Channels::try_from(4)?; // Channels::Rgba
/// ```
#[derive(Clone, Copy, PartialEq, Eq, PartialOrd, Ord, Default, Hash, Debug)]
pub enum Channels {
    /// Three channels: red, green and blue.
    #[default]
    Rgb = 3,
    /// Four channels: red, green, blue and alpha.
    Rgba = 4,
}

impl Channels {
    /// Whether there are three channels.
    pub fn is_rgb(self) -> bool
        ensures { IsTrue result ↔ (self ≡ Channels.Rgb) }
    {
        matches!(self, Channels::Rgb)
    }

    /// Whether there are four channels.
    pub fn is_rgba(self) -> bool
        ensures { IsTrue result ↔ (self ≡ Channels.Rgba) }
    {
        matches!(self, Channels::Rgba)
    }

    /// The number of channels: 3 for `Rgb`, 4 for `Rgba`.
    pub fn as_u8(self) -> u8
        ensures { result ≡ channels_number self }
    {
        self as u8
    }
}

impl From<Channels> for u8 {
    ghost from_gives = { λ channels n. n ≡ channels_number channels };

    /// The number of channels: 3 for `Rgb`, 4 for `Rgba`.
    fn from(channels: Channels) -> u8 {
        channels.as_u8()
    }
}

impl TryFrom<u8> for Channels {
    type Error = Error;

    ghost try_from_gives = { λ n r. r ≡ channels_of n };

    /// The channels of a header's number; every number but 3 and 4 is `InvalidChannels`.
    fn try_from(channels: u8) -> Result<Self, Error> {
        match channels {
            3 => Ok(Channels::Rgb),
            4 => Ok(Channels::Rgba),
            _ => Err(Error::InvalidChannels { channels }),
        }
    }
}

/// Which chunks an encoder writes, of all that mean the image (QOI specification 1.0, "Chunks"). By
/// the specification, and by this crate's decoder, the pixels are the same in each style.
///
/// ```
/// let encoder = Encoder::new(&raw, width, height)?.with_style(Style::Places);
/// ```
#[derive(Clone, Copy, PartialEq, Eq, Debug)]
pub enum Style {
    /// Repeats by runs; each other pixel by its index position if that holds it, else by the first
    /// of a difference, a luma and a full chunk that gives it. Repeats aren't put at their
    /// position, and an empty position holds transparent black. The Rust crate with its feature
    /// `reference` writes the same.
    Reference,
    /// As `Reference`, but a run of 1 is replaced by the index position of its pixel, if
    ///
    /// - a pixel that isn't a repeat comes somewhere before it,
    /// - another such pixel follows directly, and
    /// - the chunk before it isn't that position.
    ///
    /// The file is as long as in `Reference`.
    Places,
    /// As `Reference`, but opaque black that opens the image is put at its index position, too, and
    /// transparent black that isn't at its position is given by the least position where no pixel
    /// was put, if there is one. No list of chunks for the image is shorter.
    ///
    /// It is for decoders that are known to follow QOI 1.0. The Rust crate gets other pixels from
    /// some such files, if they have four channels or are decoded into four, since it doesn't put
    /// the pixels of runs and of empty positions at their position.
    Tight,
}
