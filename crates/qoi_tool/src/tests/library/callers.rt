//! A caller for each way of using the library, proved by the contracts of its public calls alone.
ghost use Rattle.std.specs.Prelude.{◌≡◌, ℕ, ◌+◌, ◌<◌, ◌≤◌, ◌++◌, List, Option, Some, Ok, IfOk, IfErr, IsErrOf, length, map, drop};
ghost use Rattle.std.specs.Io.KnownBytes.{Consumes};
ghost use Rattle.qoi.specs.declared.header.Header.{Header};
ghost use Rattle.qoi.specs.declared.types.Style.TheVariants.{Tight};
ghost use Rattle.qoi.specs.declared.error.Error.{Error};
ghost use Rattle.qoi.specs.Qoi.{channels_number, header_bytes, header_of, pixel_count, IsValid, file};
ghost use Rattle.qoi.specs.Encoded.{IsFileOf, IsShortest, image_header};
ghost use Rattle.qoi.specs.Raw.{image_byte_count, without_fourth};
ghost use Rattle.qoi_tool.specs.Files.{AreFiles};
ghost use Rattle.qoi.specs.Writers.{AppendsBeginning};
ghost use Rattle.qoi.specs.Decoding.{DecodesFile, ReadsImage, TakesHeader};

use qoi::{
    Channels, Decoder, Encoder, Error, Header, Style, decode_to_buf, decode_to_vec, encode_to_buf,
    encode_to_vec,
};
use std::alloc::Global;
use std::io::{Read, Write};

/// Stream in. The raw bytes of the image that stands ahead of a reader, and the reader after it.
pub fn receive<R: Read + Drop>(alloc: Global, reader: R) -> Result<(Vec<u8>, R), Error>
    ensures { IfOk result (λ x. (h : Header) × (middle : Option (List ℕ))
        × TakesHeader (R.remaining reader) middle h
        × ReadsImage (channels_number h.channels) (channels_number h.channels) (pixel_count h)
        middle (R.remaining x.1) x.0.items) }
{
    let mut decoder = Decoder::from_stream(reader)?;
    let raw = decoder.decode_to_vec(alloc)?;
    Ok((raw, decoder.into_reader()))
}

/// Lengths of vectors. A decoded image has the bytes that its header says, and at least one pixel.
pub fn first_byte(alloc: Global, file: &[u8]) -> Result<u8, Error> {
    let (header, pixels) = decode_to_vec(alloc, file)?;
    let whole = pixels.len() == header.n_bytes();
    prove!(whole);
    Ok(pixels[0])
}

/// Lengths in buffers. The part of the buffer that an image was decoded into.
pub fn decoded_part<'a>(buf: &'a mut [u8], file: &[u8]) -> Result<&'a [u8], Error> {
    let header = decode_to_buf(buf, file)?;
    Ok(&buf[..header.n_bytes()])
}

/// A buffer and a vector, by the methods, in any style.
pub fn pack_and_keep_in(
    alloc: Global,
    buf: &mut [u8],
    raw: &[u8],
    width: u32,
    height: u32,
    style: Style,
) -> Result<Vec<u8>, Error>
    ensures { IfOk result (λ file. buf.new ≡ file.items ++ drop (length file.items) buf.old) }
{
    let encoder = Encoder::new(raw, width, height)?.with_style(style);
    encoder.encode_to_buf(buf)?;
    let file = encoder.encode_to_vec(alloc)?;
    Ok(file)
}

/// A writer that may refuse. The file goes to a vector, and then to the writer; if that refuses, a
/// beginning of the file went out.
pub fn keep_and_try<W: Write>(
    alloc: Global,
    raw: &[u8],
    width: u32,
    height: u32,
    out: &mut W,
) -> Result<(Vec<u8>, Result<usize, Error>), Error>
    ensures { IfOk result (λ x. IfErr x.1 (λ _. AppendsBeginning (W.contents out.old)
        (W.contents out.new) x.0.items)) }
{
    let encoder = Encoder::new(raw, width, height)?;
    let file = encoder.encode_to_vec(alloc)?;
    let sent = encoder.encode_to_stream(out);
    Ok((file, sent))
}

/// Styles. In `Tight` the file is no longer than in any other.
pub fn no_longer(
    alloc: Global,
    raw: &[u8],
    width: u32,
    height: u32,
    style: Style,
) -> Result<(Vec<u8>, Vec<u8>), Error> {
    let encoder = Encoder::new(raw, width, height)?.with_style(style);
    let other = encoder.encode_to_vec(alloc)?;
    let tight = encoder.with_style(Style::Tight).encode_to_vec(alloc)?;
    let no_longer = tight.len() <= other.len();
    prove!(no_longer);
    Ok((other, tight))
}

/// Styles, in a buffer and to a writer: the lengths of the files in `Reference`, `Places` and
/// `Tight`.
pub fn lengths<W: Write>(
    buf: &mut [u8],
    raw: &[u8],
    width: u32,
    height: u32,
    out: &mut W,
) -> Result<(usize, usize, usize), Error> {
    let reference = encode_to_buf(buf, raw, width, height)?;
    let encoder = Encoder::new(raw, width, height)?.with_style(Style::Places);
    let places = encoder.encode_to_stream(out)?;
    let tight = encoder.with_style(Style::Tight).encode_to_buf(buf)?;
    let same = places == reference;
    prove!(same);
    let no_longer = tight <= reference;
    prove!(no_longer);
    Ok((reference, places, tight))
}

/// The shortest file. In style `Tight` no list of chunks of the image, regular or not, makes a
/// shorter one.
pub fn shortest(alloc: Global, raw: &[u8], width: u32, height: u32) -> Result<Vec<u8>, Error>
    ensures encoded { IfOk result (λ v. (h : Header) × (image_header raw.now width height ≡ Ok h)
        × IsFileOf Tight h raw.now v.items) }
    ensures no_shorter { IfOk result (λ v. (h : Header)
        × (image_header raw.now width height ≡ Ok h)
        × IsShortest h raw.now (length v.items)) }
{
    let encoder = Encoder::new(raw, width, height)?.with_style(Style::Tight);
    encoder.encode_to_vec(alloc)
}

/// A stream's header. The bytes that were taken of a reader are those of a valid header.
pub fn header_ahead<R: Read + Drop>(reader: R) -> Result<(Header, R), Error>
    ensures { IfOk result (λ x. IsValid x.0
        × Consumes (R.remaining reader) (R.remaining x.1) (header_bytes x.0)) }
{
    let decoder = Decoder::from_stream(reader)?;
    Ok((*decoder.header(), decoder.into_reader()))
}

/// All files of a slice. The images of the files that stand one after the other, to the slice's
/// end.
pub fn all_images(alloc: Global, bytes: &[u8]) -> Result<Vec<Vec<u8>>, Error>
    ensures files { IfOk result (λ images.
        AreFiles bytes.now (map (λ image. image.items) images.items)) }
    // The bytes are files in one way at most.
    ensures only { (all : List (List ℕ)) → AreFiles bytes.now all
        → IfOk result (λ images. map (λ image. image.items) images.items ≡ all) }
{
    let mut images = Vec::new(alloc);
    let mut rest = bytes;
    while !rest.is_empty() {
        let mut decoder = Decoder::new(rest)?;
        images.push(decoder.decode_to_vec(alloc)?)?;
        rest = decoder.into_data();
    }
    Ok(images)
}

/// Two files of one slice, by two decoders: the second is made from what the first leaves.
pub fn both_images(alloc: Global, bytes: &[u8]) -> Result<(Vec<u8>, Vec<u8>), Error>
    ensures { IfOk result (λ x. (h : Header) × (k : Header) × (middle : List ℕ) × (rest : List ℕ)
        × DecodesFile bytes.now h middle x.0.items × DecodesFile middle k rest x.1.items) }
{
    let mut first = Decoder::new(bytes)?;
    let image = first.decode_to_vec(alloc)?;
    let mut second = Decoder::new(first.data())?;
    let other = second.decode_to_vec(alloc)?;
    Ok((image, other))
}

/// Two files of one reader, by two decoders. The images of the files that stand ahead come back.
pub fn two_frames<R: Read + Drop>(alloc: Global, reader: R) -> Result<(Vec<u8>, Vec<u8>), Error>
    ensures { (style other : Style) (h k : Header) (raw last one two : List ℕ)
        → IsFileOf style h raw one → IsFileOf other k last two
        → R.remaining reader ≡ Some (one ++ two)
        → IfOk result (λ x. (x.0.items ≡ raw) × (x.1.items ≡ last)) }
{
    let mut first = Decoder::from_stream(reader)?;
    let image = first.decode_to_vec(alloc)?;
    let mut second = Decoder::from_stream(first.into_reader())?;
    let other = second.decode_to_vec(alloc)?;
    Ok((image, other))
}

/// Memory that is bounded first. The raw bytes of a file whose image is small enough, as the free
/// call decodes them; `OutOfMemory` if it isn't.
pub fn at_most(alloc: Global, file: &[u8], most: usize) -> Result<Vec<u8>, Error>
    ensures decoded { IfOk result (λ raw. (h : Header) × (rest : List ℕ)
        × DecodesFile file.now h rest raw.items) }
    ensures small { IfOk result (λ raw. length raw.items ≤ most) }
    ensures large { (h : Header) → header_of file.now ≡ Ok h → most < image_byte_count h
        → IsErrOf result Error.OutOfMemory }
{
    let mut decoder = Decoder::new(file)?;
    if decoder.required_buf_len() > most {
        return Err(Error::OutOfMemory);
    }
    let raw = decoder.decode_to_vec(alloc)?;
    Ok(raw)
}

/// Channels. RGB output is RGBA output without fourth bytes.
pub fn both_channels(alloc: Global, file: &[u8]) -> Result<(Vec<u8>, Vec<u8>), Error>
    ensures { IfOk result (λ x. x.0.items ≡ without_fourth x.1.items) }
{
    let mut four = Decoder::new(file)?.with_channels(Channels::Rgba);
    let rgba = four.decode_to_vec(alloc)?;
    let mut three = Decoder::new(file)?.with_channels(Channels::Rgb);
    let rgb = three.decode_to_vec(alloc)?;
    Ok((rgb, rgba))
}
