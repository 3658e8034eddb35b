//! Where a decoder takes its bytes from: bytes in memory, a stream, or a reader with a buffer.
#![tactic(auto, using(crate::proofs::decoding::GivenMore::steps_in_three))]

ghost use Rattle.std.specs.Io.KnownBytes.{Keeps};
ghost use Rattle.std.specs.Prelude.{◌≡◌, ℕ, ◌+◌, ◌-◌, ◌≤◌, ◌/◌, ◌%◌, List, length, Option, Some, IfOk, IfErr, OnOk, OnErr, IsSome, IsTrue, Bool, true, false, Err, refl};
ghost use Rattle.std.specs.Vec.{vec_len, vec_capacity};
ghost use Rattle.qoi.specs.Qoi.{Error, channels_number};
ghost use Rattle.qoi.specs.Raw.{AreChannels};
ghost use Rattle.qoi.specs.Decoding.{ReadsImage, ReadsHeader, RefusesImage};
ghost use Rattle.qoi.specs.inner.Chunks.{ReadsIn};
ghost use Rattle.qoi.specs.pieces.Unread.{kept_count, Asks, Steps};

use crate::consts::QOI_HEADER_SIZE;
use crate::decode::chunks::{image_to_buf, image_to_vec};
use crate::decode::pixel_reader::unread::{PieceResult, Unread};
use crate::decode::slice::slice_image;
use crate::decode::stream::read_exact;
use crate::error::{Error, Result};
use crate::header::Header;
use crate::types::Channels;
use std::io::{BufRead, Read};
use std::marker::Model;

// Calls a function of a kind of reader for the channels of output and file, `N` and `F`, which are
// constants of its loops. For output of three channels `F` is 3 even for an RGBA file: alpha is
// decoded, since index positions depend on it, but not written.
macro_rules! in_channels {
    ($conversion:expr, $($name:ident)::+[$($reader:ty)?]($($arg:expr),*)) => {
        match ($conversion.channels, $conversion.file_channels) {
            (Channels::Rgb, Channels::Rgb) => $($name)::+::<$($reader,)? 3, 3>($($arg),*),
            (Channels::Rgb, Channels::Rgba) => $($name)::+::<$($reader,)? 3, 3>($($arg),*),
            (Channels::Rgba, Channels::Rgb) => $($name)::+::<$($reader,)? 4, 3>($($arg),*),
            (Channels::Rgba, Channels::Rgba) => $($name)::+::<$($reader,)? 4, 4>($($arg),*),
        }
    };
}

/// The channels of an output, and those of the file's header.
#[derive(Clone, Copy)]
pub struct Conversion {
    pub(super) channels: Channels,
    pub(super) file_channels: Channels,
}

/// Where a decoder takes its bytes from: `Bytes`, any `R: Read`, or a `Buffered` reader. No other
/// type can be one.
///
/// ```
/// fn has_alpha<R: Reader>(decoder: &Decoder<R>) -> bool {
///     decoder.header().channels.is_rgba()
/// }
/// ```
pub trait Reader: Sized {
    /// The bytes that stand ahead, if the reader's contract states them.
    ghost ahead: { Self → Option (List ℕ) };

    /// Whether they stand in memory: then a refusal takes none of them, and is no i/o error.
    ghost in_memory: { Bool };

    /// Reads the fourteen bytes of a header (QOI specification 1.0, "QOI Header").
    ///
    /// Refusals, in this order: `UnexpectedBufferEnd` if there are fewer than fourteen bytes, or
    /// `IoError` from a stream; `InvalidChannels`, `InvalidColorSpace`, `InvalidMagic`,
    /// `InvalidImageDimensions`.
    fn decode_header(&mut self) -> Result<Header>
        ensures { ReadsHeader in_memory (ahead self.old) (ahead self.new) result };

    /// Reads chunks until `out` is full of pixels, and then the end marker (QOI specification 1.0,
    /// "File Format" and "Data").
    ///
    /// `channels` are those of the output, and `file_channels` those of the file's header. The
    /// caller sees to it that `out` has a multiple of `channels` bytes.
    ///
    /// Refusals, in this order: `InvalidChannels` with `channels` if either number isn't 3 or 4,
    /// and then nothing is read; `UnexpectedBufferEnd` if the bytes end before `out` is full or
    /// within the eight bytes after the chunks, or `IoError` from a stream; `InvalidPadding` if
    /// those eight bytes aren't the end marker.
    fn decode_image(&mut self, out: &mut [u8], channels: u8, file_channels: u8) -> Result<()>
        requires { AreChannels file_channels channels → length out.old % channels ≡ 0 }
        ensures read { OnOk result (AreChannels file_channels channels
            × ReadsImage file_channels channels (length out.old / channels)
            (ahead self.old) (ahead self.new) out.new) }
        ensures refused { AreChannels file_channels channels
            → IfErr result (RefusesImage in_memory (length out.old / channels)
            (ahead self.old) (ahead self.new)) }
        ensures channels { (AreChannels file_channels channels → ⊥)
            → (result ≡ Err (Error.InvalidChannels channels))
            × (self.new ≡ self.old) × (out.new ≡ out.old) }
    {
        let numbers = (
            Channels::try_from(channels),
            Channels::try_from(file_channels),
        );
        let (Ok(channels), Ok(file_channels)) = numbers else {
            return Err(Error::InvalidChannels { channels });
        };
        let conversion = Conversion {
            channels,
            file_channels,
        };
        self.decode_image_in(out, conversion)
    }

    /// `decode_image`, in channels that a header can have.
    #[doc(hidden)]
    fn decode_image_in(&mut self, out: &mut [u8], conversion: Conversion) -> Result<()>
        requires { length out.old % channels_number conversion.channels ≡ 0 }
        ensures read { OnOk result (ReadsIn conversion (length out.old)
            (ahead self.old) (ahead self.new) out.new) }
        ensures refused { IfErr result (RefusesImage in_memory
            (length out.old / channels_number conversion.channels)
            (ahead self.old) (ahead self.new)) };

    /// Decodes the image ahead into an empty vector, which then has `size` bytes.
    ///
    /// The caller sees to it that the vector has capacity for `size` bytes, and that they are a
    /// multiple of the channels. The vector grows by steps of 16384 pixels, each of which is
    /// decoded before the next.
    #[doc(hidden)]
    fn decode_image_to_vec(
        &mut self,
        out: &mut Vec<u8>,
        size: usize,
        conversion: Conversion,
    ) -> Result<()>
        requires whole { size % channels_number conversion.channels ≡ 0 }
        requires empty { vec_len out.old ≡ 0 }
        requires room { size ≤ vec_capacity out.old }
        ensures read { OnOk result (ReadsIn conversion size
            (ahead self.old) (ahead self.new) out.new.items) }
        ensures refused { IfErr result (RefusesImage in_memory
            (size / channels_number conversion.channels) (ahead self.old) (ahead self.new)) };

    /// `decode_more` of `unread`, from this reader and in these channels. After a refusal the error
    /// stands in `unread`, and of bytes in memory none are taken.
    ///
    /// Only the module `pixel_reader` can call it, and no other type can be a reader, since nobody
    /// else has an `Unread`.
    #[doc(hidden)]
    fn decode_piece(
        &mut self,
        unread: &mut Unread,
        out: &mut [u8],
        conversion: Conversion,
    ) -> PieceResult<usize>
        requires { Asks (channels_number conversion.channels) unread.old (length out.old) }
        ensures step { Steps (channels_number conversion.file_channels)
            (channels_number conversion.channels) in_memory (ahead self.old) (ahead self.new)
            unread.old unread.new out.new (λ size. size) result }
        ensures enough { IfOk result (λ size. length out.new ≤ size + kept_count unread.new) }
        ensures kept { IsTrue in_memory → OnErr result (Keeps (ahead self.old) (ahead self.new)) };

    /// The bytes of a reader in memory are stated.
    ghost stated: { (reader : Self) → in_memory ≡ true → IsSome (ahead reader) };
}

/// Bytes in memory, from which decoding takes at the front. A contract sees the bytes that are
/// left.
#[derive(Drop)]
pub struct Bytes<'a>(pub(super) &'a [u8]);

impl<'a> Model for Bytes<'a> {
    ghost Value = { List ℕ };

    ghost view = { λ b. b.0.now };
}

impl<'a> Bytes<'a> {
    /// A reader of these bytes.
    #[inline]
    pub fn new(data: &'a [u8]) -> Bytes<'a>
        ensures { result ≡ «data».entry.now }
    {
        Bytes(data)
    }

    /// The bytes that are left.
    #[inline]
    pub fn as_slice(&self) -> &[u8]
        ensures { result.now ≡ self.now }
    {
        self.0
    }
}

impl<'a> Reader for Bytes<'a> {
    ghost ahead = { Some };

    ghost in_memory = { true };

    ghost stated = { λ _ _. refl };

    fn decode_header(&mut self) -> Result<Header> {
        let header = Header::decode(self.0)?;
        self.0 = &self.0[QOI_HEADER_SIZE..];
        Ok(header)
    }

    fn decode_image_in(&mut self, out: &mut [u8], conversion: Conversion) -> Result<()> {
        self.0 = in_channels!(conversion, slice_image[](self.0, out))?;
        Ok(())
    }

    fn decode_image_to_vec(
        &mut self,
        out: &mut Vec<u8>,
        size: usize,
        conversion: Conversion,
    ) -> Result<()> {
        let mut bytes = Bytes(self.0);
        in_channels!(conversion, image_to_vec[Bytes](&mut bytes, out, size))?;
        self.0 = bytes.0;
        Ok(())
    }

    fn decode_piece(
        &mut self,
        unread: &mut Unread,
        out: &mut [u8],
        conversion: Conversion,
    ) -> PieceResult<usize> {
        let before = self.0;
        let piece = in_channels!(conversion, Unread::decode_more[Bytes](unread, self, out));
        if piece.is_err() {
            // Put back as a part of itself, so that `before` is read as address and length, one by
            // one, as the last piece stored them. A load of both at once waits for those stores and
            // all before them.
            let (_, all) = before.split_at(0);
            self.0 = all;
        }
        piece
    }
}

impl<R: Read> Reader for R {
    ghost ahead = { R.remaining };

    ghost in_memory = { false };

    ghost stated = { λ _ no. cc no };

    #[tactic(auto, using(crate::proofs::format::HeaderBytes::stream_header))]
    fn decode_header(&mut self) -> Result<Header> {
        let mut bytes = [0; QOI_HEADER_SIZE];
        read_exact(self, &mut bytes)?;
        Header::decode(&bytes)
    }

    fn decode_image_in(&mut self, out: &mut [u8], conversion: Conversion) -> Result<()> {
        in_channels!(conversion, image_to_buf[R](self, out))
    }

    fn decode_image_to_vec(
        &mut self,
        out: &mut Vec<u8>,
        size: usize,
        conversion: Conversion,
    ) -> Result<()> {
        in_channels!(conversion, image_to_vec[R](self, out, size))
    }

    fn decode_piece(
        &mut self,
        unread: &mut Unread,
        out: &mut [u8],
        conversion: Conversion,
    ) -> PieceResult<usize> {
        in_channels!(conversion, Unread::decode_more[R](unread, self, out))
    }
}

/// A reader with a buffer of its own, such as a `BufReader`, from which decoding takes the chunks
/// that the buffer shows. A contract sees the reader itself.
#[derive(Clone, Drop)]
pub struct Buffered<R>(pub(super) R);

impl<R> Model for Buffered<R> {
    ghost Value = { R };

    ghost view = { λ b. b.0 };
}

impl<R> Buffered<R> {
    /// Reads from this reader by its buffer.
    #[inline]
    pub fn new(reader: R) -> Buffered<R>
        ensures { result ≡ reader }
    {
        Buffered(reader)
    }

    /// The reader, as it stands.
    #[inline]
    pub fn as_inner(&self) -> &R
        ensures { result.now ≡ self.now }
    {
        &self.0
    }

    /// Gives back the reader, as it stands.
    #[inline]
    pub fn into_inner(self) -> R
        ensures { result ≡ self }
    {
        self.0
    }
}

impl<R: BufRead> Reader for Buffered<R> {
    ghost ahead = { R.remaining };

    ghost in_memory = { false };

    ghost stated = { λ _ no. cc no };

    fn decode_header(&mut self) -> Result<Header> {
        self.0.decode_header()
    }

    fn decode_image_in(&mut self, out: &mut [u8], conversion: Conversion) -> Result<()> {
        in_channels!(conversion, image_to_buf[Buffered<R>](self, out))
    }

    fn decode_image_to_vec(
        &mut self,
        out: &mut Vec<u8>,
        size: usize,
        conversion: Conversion,
    ) -> Result<()> {
        in_channels!(conversion, image_to_vec[Buffered<R>](self, out, size))
    }

    fn decode_piece(
        &mut self,
        unread: &mut Unread,
        out: &mut [u8],
        conversion: Conversion,
    ) -> PieceResult<usize> {
        in_channels!(
            conversion,
            Unread::decode_more[Buffered<R>](unread, self, out)
        )
    }
}
