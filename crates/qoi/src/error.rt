//! The errors of encoding and decoding.
ghost use Rattle.std.specs.Prelude.{◌≡◌};
ghost use Rattle.qoi.specs.declared.error.Error.TheVariants.{IoError, OutOfMemory};
ghost use Rattle.qoi.specs.ErrorText.{printed};

use crate::consts::QOI_MAGIC;
use std::alloc::{AllocError, AllocFailed};
use std::{fmt, io};

/// Why a call refused.
///
/// ```
/// match decode_to_vec(alloc, bytes) {
///     Err(Error::OutOfMemory) => Ok(None), // the bytes may be a file
///     image => Ok(Some(image?)),           // other refusals: no whole file stands in front
/// }
/// ```
#[derive(Debug, Drop)]
pub enum Error {
    /// The first four bytes of a header aren't `qoif`; `magic` is their value, highest byte first.
    InvalidMagic {
        magic: u32,
    },
    /// A number of channels other than 3 and 4.
    InvalidChannels {
        channels: u8,
    },
    /// A color space number other than 0 and 1.
    InvalidColorSpace {
        colorspace: u8,
    },
    /// Width times height is 0 or above 400,000,000 pixels.
    InvalidImageDimensions {
        width: u32,
        height: u32,
    },
    /// The number of raw bytes, `size`, isn't a multiple of the number of pixels; of a
    /// `PixelWriter`, it isn't the image's.
    InvalidImageLength {
        size: usize,
        width: u32,
        height: u32,
    },
    /// The buffer has `size` bytes, and `required` are needed.
    OutputBufferTooSmall {
        size: usize,
        required: usize,
    },
    /// The input slice ends before header, chunks and end marker are whole, or a mark or a row
    /// isn't in it; or a `PixelReader` refused the image before, has fewer rows than a call asks
    /// for, or no row with such a part.
    UnexpectedBufferEnd,
    /// The eight bytes after the chunks aren't the end marker.
    InvalidPadding,
    /// The reader or the writer reported a fault, the reader ended early, or a write took no byte;
    /// of a `PixelWriter`, now or before.
    IoError(io::Error),
    /// An allocation failed.
    OutOfMemory,
}

/// What a call that can fail with an [`Error`] returns.
pub type Result<T> = std::result::Result<T, Error>;

impl fmt::Display for Error {
    ghost output = { printed };

    fn fmt<W: fmt::Write>(&self, f: &mut fmt::Formatter<W>) -> fmt::Result {
        match *self {
            Error::InvalidMagic { magic } => {
                let found = magic.to_be_bytes();
                write!(f, "invalid magic: expected {QOI_MAGIC}, got {found:?}")
            }
            Error::InvalidChannels { channels } => {
                write!(f, "invalid number of channels: {channels}")
            }
            Error::InvalidColorSpace { colorspace } => {
                write!(f, "invalid color space: {colorspace} (expected 0 or 1)")
            }
            Error::InvalidImageDimensions { width, height } => {
                write!(f, "invalid image dimensions: {width}x{height}")
            }
            Error::InvalidImageLength {
                size,
                width,
                height,
            } => { write!(f, "invalid image length: {size} bytes for {width}x{height}") }
            Error::OutputBufferTooSmall { size, required } => {
                write!(
                    f,
                    "output buffer size too small: {size} (required: {required})"
                )
            }
            Error::UnexpectedBufferEnd => write!(f, "unexpected input buffer end while decoding"),
            Error::InvalidPadding => write!(f, "invalid padding (stream end marker mismatch)"),
            Error::IoError(ref error) => write!(f, "i/o error: {error}"),
            Error::OutOfMemory => write!(f, "out of memory"),
        }
    }
}

impl std::error::Error for Error {}

impl From<io::Error> for Error {
    ghost from_gives = { λ error e. e ≡ IoError error };

    /// `IoError` with this error.
    fn from(error: io::Error) -> Error {
        Error::IoError(error)
    }
}

impl From<AllocError> for Error {
    ghost from_gives = { λ _ e. e ≡ OutOfMemory };

    /// `OutOfMemory`.
    fn from(_error: AllocError) -> Error {
        Error::OutOfMemory
    }
}

impl<T: Drop> From<AllocFailed<T>> for Error {
    ghost from_gives = { λ _ e. e ≡ OutOfMemory };

    /// `OutOfMemory`.
    fn from(_error: AllocFailed<T>) -> Error {
        Error::OutOfMemory
    }
}
