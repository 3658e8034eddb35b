//! Decoding, from slices, from streams and from readers with a buffer.
ghost use Rattle.std.specs.Prelude.{◌≡◌, ℕ, ◌*◌, ◌<◌, ◌≤◌, List, length, take, drop, Some, ◌+◌, IfOk, IfErr, IsErrOf, IsTrue, ◌⊎◌, Ok, Err};
ghost use Rattle.qoi.specs.Qoi.{Header, Error, header_of, IsValid};
ghost use Rattle.qoi.specs.Decoding.{RefusesBuffer};
ghost use Rattle.qoi.specs.DecoderState.{DecoderState, output_byte_count};
ghost use Rattle.qoi.specs.Decoded.{HasHeader, HasRefusedHeader, HasDecoded, HasRefused, HasDecodedFile, HasRefusedFile};
ghost use Rattle.qoi.specs.Reading.{IsCutAhead, IsWrongAhead, SaysWhy};
ghost use Rattle.qoi.specs.Raw.{capped_byte_count, image_byte_count};
ghost use Rattle.qoi.specs.inner.Chunks.{conversion_of};

mod buffered;
mod chunks;
mod deltas;
mod fast;
mod full_series;
mod hashed;
mod in_place;
mod one_chunk;
mod output;
mod pixel_reader;
mod reached;
mod reader;
mod slice;
mod stream;
mod stretches;
mod table;

pub use crate::decode::pixel_reader::PixelReader;
pub use crate::decode::pixel_reader::mark::Mark;
pub use crate::decode::pixel_reader::row_index::RowIndex;
use crate::decode::reader::Conversion;
pub use crate::decode::reader::{Buffered, Bytes, Reader};
pub(crate) use crate::decode::stream::ended;
use crate::error::{Error, Result};
use crate::header::Header;
use crate::types::Channels;
use std::alloc::Global;
use std::io::{BufRead, Read};
use std::marker::Model;

/// The header at the front of the bytes; what follows its fourteen bytes doesn't matter.
///
/// Refusals, in this order: `UnexpectedBufferEnd` if there are fewer than fourteen bytes,
/// `InvalidChannels`, `InvalidColorSpace`, `InvalidMagic`, `InvalidImageDimensions` (QOI
/// specification 1.0, "QOI Header").
///
/// ```
/// let header = decode_header(file)?;
/// let memory = header.n_bytes();
/// ```
pub fn decode_header(data: &[u8]) -> Result<Header>
    ensures { result ≡ header_of «data».now }
{
    Header::decode(data)
}

/// Decodes a file into the front of the buffer, in the file's own channels, and returns its header.
///
/// The refusals are those of `Decoder::new` and then of its `decode_to_buf`. After a refusal of the
/// chunks or the end marker the first bytes of the buffer, as many as the image has, may be
/// overwritten; later bytes are as before.
///
/// ```
/// let mut buf = [0; 1024];
/// let header = decode_to_buf(&mut buf, file)?;
/// let raw = &buf[..header.n_bytes()];
/// ```
pub fn decode_to_buf(buf: &mut [u8], data: &[u8]) -> Result<Header>
    // A success: the image of the file at the front of the bytes stands in the front of the buffer,
    // which has at least the header's `n_bytes` (`capped_byte_count`; of a valid header that is
    // `image_byte_count`).
    ensures decoded { IfOk result (λ h. HasDecodedFile «data».now h
        (take (image_byte_count h) buf.new) × (capped_byte_count h ≤ length buf.old)) }

    // The refusals: the buffer is too short, or the bytes are refused.
    ensures short { (h : Header) → header_of «data».now ≡ Ok h → length buf.old < image_byte_count h
        → (result ≡ Err (Error.OutputBufferTooSmall (length buf.old) (image_byte_count h)))
        × (buf.new ≡ buf.old) }
    ensures refused { IfErr result (λ e. HasRefusedFile «data».now e
        ⊎ ((h : Header) × (header_of «data».now ≡ Ok h)
        × RefusesBuffer (length buf.old) (image_byte_count h) e)) }

    // What stays.
    ensures later { (h : Header) → header_of «data».now ≡ Ok h
        → drop (image_byte_count h) buf.new ≡ drop (image_byte_count h) buf.old }
    ensures untouched { (e : Error) → header_of «data».now ≡ Err e → buf.new ≡ buf.old }
{
    let mut image = Decoder::new(data)?;
    let header = *image.header();
    image.decode_to_buf(buf)?;
    Ok(header)
}

/// Decodes a file into a vector, in the file's own channels, and returns its header too.
///
/// The refusals are those of `Decoder::new` and then of its `decode_to_vec`: those of the header,
/// `OutOfMemory`, and those of the chunks and the end marker. The vector has the header's
/// `n_bytes`, which are at most 248 for each byte of the slice.
///
/// ```
/// let (header, raw) = decode_to_vec(alloc, file)?;
/// ```
pub fn decode_to_vec(alloc: Global, data: &[u8]) -> Result<(Header, Vec<u8>)>
    // A success: header and image of the file at the front of the bytes.
    ensures decoded { IfOk result (λ x. HasDecodedFile «data».now x.0 x.1.items) }

    // The refusals: memory runs out after a valid header, or the bytes are refused.
    ensures refused { IfErr result (λ e. HasRefusedFile «data».now e
        ⊎ ((e ≡ Error.OutOfMemory) × (h : Header) × (header_of «data».now ≡ Ok h))) }
{
    let mut image = Decoder::<Bytes>::new(data)?;
    let header = *image.header();
    let raw = image.decode_to_vec(alloc)?;
    Ok((header, raw))
}

/// Decodes the image of a file, from a slice or from a reader (QOI specification 1.0, "File
/// Format", "Data" and "Chunks").
///
/// A further call decodes the chunks and the end marker of a further image by the same header. For
/// the next file make another decoder, from `data` or from the reader.
///
/// A contract sees the reader, the header, and the channels of the output.
///
/// ```
/// let mut decoder = Decoder::new(bytes)?.with_channels(Channels::Rgba);
/// let raw = decoder.decode_to_vec(alloc)?;
/// let mut next = Decoder::new(decoder.into_data())?; // the file that follows
/// ```
#[derive(Drop)]
pub struct Decoder<R> {
    reader: R,
    header: Header,
    channels: Channels,
}

impl<R> Model for Decoder<R> {
    ghost Value = { DecoderState R };

    ghost view = { λ d. record { reader = d.reader; header = d.header; channels = d.channels } };

    ghost invariant = { λ d. IsValid d.header };
}

impl<'a> Decoder<Bytes<'a>> {
    /// A decoder of the file at the front of the bytes, whose header is decoded at once.
    ///
    /// The refusals are those of `decode_header`. After a success the method `data` gives what
    /// follows the header, and the channels are the header's.
    pub fn new(data: &'a [u8]) -> Result<Decoder<Bytes<'a>>>
        // A success: the header at the front of the bytes was read.
        ensures accepted { IfOk result (λ d. HasHeader d (Some «data».entry.now) (Some d.reader)) }

        // The refusals are those of the header.
        ensures refused { IfErr result (λ e. header_of «data».entry.now ≡ Err e) }
    {
        let mut reader = Bytes::new(data);
        let header = reader.decode_header()?;
        Ok(Decoder {
            reader,
            header,
            channels: header.channels,
        })
    }

    /// The undecoded tail of the bytes: after a success what follows the end marker, and after a
    /// refusal what it was before.
    pub fn data(&self) -> &[u8]
        ensures { result.now ≡ self.now.reader }
    {
        self.reader.as_slice()
    }

    /// Gives back the undecoded tail of the bytes, as `data` shows it, for as long as the bytes
    /// live: the next file may stand there.
    pub fn into_data(self) -> &'a [u8]
        ensures { result.now ≡ self.entry.reader }
    {
        self.reader.0
    }
}

impl<R: Read + Drop> Decoder<R> {
    /// A decoder of the file that the reader gives next, whose header is decoded at once: fourteen
    /// bytes are read and no more. The channels are the header's.
    ///
    /// Refusals, in this order: `IoError` if fourteen bytes can't be read, and then those of
    /// `decode_header` on them. After a refusal the reader is dropped, so no contract can say where
    /// it stood.
    ///
    /// If a later call refuses the image, don't decode it again: the reader stands after the bytes
    /// that were read, mostly within a chunk, and what is decoded there is other pixels, or another
    /// error. Start anew, with a reader that stands at the beginning of the file.
    ///
    /// A decoder asks its reader for a chunk's few bytes at a time, and never for a byte past the
    /// end marker. For a reader with a buffer `from_buf_read` is several times as fast.
    pub fn from_stream(mut reader: R) -> Result<Decoder<R>>
        // A success: the fourteen bytes of a valid header were taken. (`R.ahead`, of which the
        // methods speak, is `R.remaining` of a stream.)
        ensures accepted { IfOk result (λ d.
            HasHeader d (R.remaining reader) (R.remaining d.reader)) }

        // The refusals.
        ensures refused { IfErr result (HasRefusedHeader (R.remaining reader)) }
    {
        let header = reader.decode_header()?;
        let channels = header.channels;
        Ok(Decoder {
            reader,
            header,
            channels,
        })
    }

    /// The reader, as it stands: past the header at first, past the end marker after an image, and
    /// after a refusal past the bytes that were read.
    pub fn reader(&self) -> &R
        ensures { result.now ≡ self.now.reader }
    {
        &self.reader
    }

    /// Gives back the reader, as it stands.
    pub fn into_reader(self) -> R
        ensures { result ≡ self.reader }
    {
        self.reader
    }
}

impl<R: BufRead + Drop> Decoder<Buffered<R>> {
    /// A decoder of the file that the reader gives next, whose header is decoded at once: fourteen
    /// bytes are taken and no more. The channels are the header's.
    ///
    /// Refusals, in this order: `IoError` if fourteen bytes can't be read, and then those of
    /// `decode_header` on them. After a refusal the reader is dropped, as in `from_stream`. Nor can
    /// an image be decoded again that a later call refused.
    ///
    /// A decoder goes over the bytes that the reader's buffer shows, and takes those of whole
    /// chunks and never a byte past the end marker. With a buffer of some kilobytes, as in a
    /// `BufReader`, it is nearly as fast as from a slice.
    pub fn from_buf_read(reader: R) -> Result<Decoder<Buffered<R>>>
        // A success: the fourteen bytes of a valid header were taken. (`R.ahead`, of which the
        // methods speak, is `R.remaining` of the reader that is buffered.)
        ensures accepted { IfOk result (λ d.
            HasHeader d (R.remaining reader) (R.remaining d.reader)) }

        // The refusals.
        ensures refused { IfErr result (HasRefusedHeader (R.remaining reader)) }
    {
        let decoder = Decoder::from_stream(reader)?;
        Ok(Decoder {
            reader: Buffered::new(decoder.reader),
            header: decoder.header,
            channels: decoder.channels,
        })
    }

    /// The reader, as it stands: past the header at first, past the end marker after an image, and
    /// after a refusal past the bytes that were read.
    pub fn reader(&self) -> &R
        ensures { result.now ≡ self.now.reader }
    {
        self.reader.as_inner()
    }

    /// Gives back the reader, as it stands.
    pub fn into_reader(self) -> R
        ensures { result ≡ self.reader }
    {
        self.reader.into_inner()
    }
}

impl<R: Reader> Decoder<R> {
    /// Chooses the channels of the output. The file's own stay in the header.
    ///
    /// Into three channels the alpha is dropped; into four an alpha of 255 is added if the file has
    /// three.
    pub fn with_channels(mut self, channels: Channels) -> Decoder<R>
        ensures { result ≡ record self { channels = channels } }
    {
        self.channels = channels;
        self
    }

    // The channels of the output and of the file.
    #[inline(always)]
    fn conversion(&self) -> Conversion
        ensures { result ≡ conversion_of self.now }
    {
        let chosen = self.channels;
        Conversion {
            channels: chosen,
            file_channels: self.header.channels,
        }
    }

    /// A second decoder with the same header and channels, whose reader is a clone of this one's
    /// reader. If each clone of the reader equals it, as with a `&[u8]`, the decoders are equal.
    ///
    /// `OutOfMemory` if an allocation of the reader's clone fails.
    pub fn clone(&self) -> Result<Decoder<R>>
    where
        R: Clone,
        ensures cloned { IfOk result (λ d. (d ≡ record self.now { reader = d.reader })
            × R.is_clone self.now.reader d.reader) }
        ensures equal { ((reader : _) → R.is_clone self.now.reader reader
            → reader ≡ self.now.reader)
            → IfOk result (λ d. d ≡ self.now) }
        ensures refused { IfErr result (λ e. e ≡ Error.OutOfMemory) }
    {
        Ok(Decoder {
            reader: self.reader.clone()?,
            header: self.header,
            channels: self.channels,
        })
    }

    /// The channels of the output: the header's, until others are chosen.
    pub fn channels(&self) -> Channels
        ensures { result ≡ self.now.channels }
    {
        self.channels
    }

    /// The file's header.
    pub fn header(&self) -> &Header
        ensures { result.now ≡ self.now.header }
    {
        &self.header
    }

    /// How many bytes the decoded image has: pixels times channels of the output.
    pub fn required_buf_len(&self) -> usize
        ensures bytes { result ≡ output_byte_count self.now }
        ensures some { 3 ≤ result }
    {
        self.header.n_pixels() * self.channels.as_u8() as usize
    }

    /// Decodes an image into the front of the buffer, and returns how many bytes it has.
    ///
    /// Refusals, in this order: `OutputBufferTooSmall` if the buffer is shorter than
    /// `required_buf_len`, and then nothing was read or written; `UnexpectedBufferEnd` if the bytes
    /// end before the image does or within the eight bytes after the chunks; `InvalidPadding` if
    /// those eight bytes aren't the end marker (QOI specification 1.0, "File Format" and "Data").
    /// From a reader an early end is `IoError` instead of `UnexpectedBufferEnd`, and so is a fault
    /// of the reader. A run that gives more pixels than are left isn't refused: the surplus is
    /// dropped.
    ///
    /// After a refusal the header and the channels are as before. So are the bytes ahead in a
    /// slice; a reader stands after the bytes that were read, where no image can be decoded
    /// (`from_stream`). The first `required_buf_len` bytes of the buffer may then be overwritten;
    /// later bytes never are.
    pub fn decode_to_buf(&mut self, buf: &mut [u8]) -> Result<usize>
        // A success: the image at the front of the bytes ahead stands in the front of the buffer.
        ensures decoded { IfOk result (λ size. (size ≡ output_byte_count self.old)
            × HasDecoded self.old (R.ahead self.old.reader) (R.ahead self.new.reader)
            (take size buf.new)) }

        // The refusals: the buffer is too short, or the bytes ahead are refused.
        ensures short { length buf.old < output_byte_count self.old
            → IsErrOf result
            (Error.OutputBufferTooSmall (length buf.old) (output_byte_count self.old))
            × (self.new ≡ self.old) × (buf.new ≡ buf.old) }
        ensures refused { output_byte_count self.old ≤ length buf.old
            → IfErr result (HasRefused R.in_memory self.old
            (R.ahead self.old.reader) (R.ahead self.new.reader)) }
        // In memory: of bytes that are cut, and of those that are wrong, and of no others.
        ensures why { (start : List ℕ) → R.ahead self.old.reader ≡ Some start → IsTrue R.in_memory
            → output_byte_count self.old ≤ length buf.old
            → IfErr result (SaysWhy self.old.header start) }
        ensures cut { (start : List ℕ) → R.ahead self.old.reader ≡ Some start → IsTrue R.in_memory
            → output_byte_count self.old ≤ length buf.old → IsCutAhead self.old.header start
            → IsErrOf result Error.UnexpectedBufferEnd }
        ensures wrong { (start : List ℕ) → R.ahead self.old.reader ≡ Some start → IsTrue R.in_memory
            → output_byte_count self.old ≤ length buf.old → IsWrongAhead self.old.header start
            → IsErrOf result Error.InvalidPadding }

        // What stays: later bytes of the buffer, the header and the channels.
        ensures later { drop (output_byte_count self.old) buf.new
            ≡ drop (output_byte_count self.old) buf.old }
        ensures unchanged { self.new ≡ record self.old { reader = self.new.reader } }
    {
        let size = self.required_buf_len();
        if buf.len() < size {
            return Err(Error::OutputBufferTooSmall {
                size: buf.len(),
                required: size,
            });
        }
        let conversion = self.conversion();
        self.reader.decode_image_in(&mut buf[..size], conversion)?;
        Ok(size)
    }

    /// Decodes an image into a new vector of exactly `required_buf_len` bytes.
    ///
    /// Refusals, in this order: `OutOfMemory` if the vector's allocation fails, and then nothing
    /// was read and the decoder is unchanged; those of `decode_to_buf` but for
    /// `OutputBufferTooSmall`, and each leaves the decoder as it does there.
    ///
    /// Memory is reserved at once, but uses only address space until it is written. It is written
    /// by steps of 16384 pixels, each of which is decoded before the next: whatever the header
    /// says, at most 248 bytes for each byte ahead, a step, and 256 bytes.
    pub fn decode_to_vec(&mut self, alloc: Global) -> Result<Vec<u8>>
        // A success: the vector is the image at the front of the bytes ahead.
        ensures decoded { IfOk result (λ out. HasDecoded self.old
            (R.ahead self.old.reader) (R.ahead self.new.reader) out.items) }

        // The refusals: memory runs out, or the bytes ahead are refused.
        ensures refused { IfErr result (λ e. ((e ≡ Error.OutOfMemory) × (self.new ≡ self.old))
            ⊎ HasRefused R.in_memory self.old
            (R.ahead self.old.reader) (R.ahead self.new.reader) e) }

        // What stays: the header and the channels.
        ensures unchanged { self.new ≡ record self.old { reader = self.new.reader } }
    {
        let size = self.required_buf_len();
        let mut out = Vec::with_capacity(alloc, size)?;
        let conversion = self.conversion();
        self.reader.decode_image_to_vec(&mut out, size, conversion)?;
        Ok(out)
    }
}
