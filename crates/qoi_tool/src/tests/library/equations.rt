//! Functions of one's own, each with a contract, that are put together: files and images are
//! functions of each other's bytes. None has a proof file.
ghost use Rattle.std.specs.Prelude.{◌≡◌, ◌*◌, ◌<◌, ℕ, List, length, Some, Ok, IfOk, IfErr, OnOk};
ghost use Rattle.std.specs.Io.KnownBytes.{Appends};
ghost use Rattle.qoi.specs.declared.error.Error.{Error};
ghost use Rattle.qoi.specs.declared.header.Header.{Header};
ghost use Rattle.qoi.specs.declared.types.Channels.{Channels};
ghost use Rattle.qoi.specs.declared.types.Style.TheVariants.{Reference};
ghost use Rattle.qoi.specs.Qoi.{IsValid};
ghost use Rattle.qoi.specs.Raw.{image_byte_count};
ghost use Rattle.qoi.specs.Images.{file_image, BeginsWithFile};
ghost use Rattle.qoi.specs.Encoded.{image_file, image_header};

use crate::tests::fakes::{ONE_RGB_PIXEL, PIXEL};
use crate::tests::library::support::{assert_both, assert_count, assert_given, assert_number};
use qoi::laws::reading::{files_are_read, image_files_are_read, sizes_are_accepted};
use qoi::{Channels, ColorSpace, Decoder, Encoder, Error, Header, decode_to_vec, encode_to_vec};
use std::alloc::Global;
use std::io::{Read, Write};

/// Saved. The file of an image, whose image comes back.
pub fn save(alloc: Global, raw: &[u8], width: u32, height: u32) -> Result<Vec<u8>, Error>
    ensures file { IfOk result (λ file. (h : Header) × (image_header raw.now width height ≡ Ok h)
        × (file.items ≡ image_file Reference h raw.now)) }
    ensures image { IfOk result (λ file. file_image file.items ≡ raw.now) }
{
    encode_to_vec(alloc, raw, width, height)
}

/// Loaded. The image of a file, which the bytes begin with.
pub fn load(alloc: Global, file: &[u8]) -> Result<Vec<u8>, Error>
    ensures begins { OnOk result (BeginsWithFile file.now) }
    ensures image { IfOk result (λ raw. raw.items ≡ file_image file.now) }
{
    files_are_read();
    let (_, raw) = decode_to_vec(alloc, file)?;
    Ok(raw)
}

/// Saved and loaded: the image comes back.
pub fn saved_and_loaded(
    alloc: Global,
    raw: &[u8],
    width: u32,
    height: u32,
) -> Result<Vec<u8>, Error>
    ensures { IfOk result (λ back. back.items ≡ raw.now) }
{
    let file = save(alloc, raw, width, height)?;
    load(alloc, &file)
}

/// Saved by a function that says which file it is.
pub fn save_as(alloc: Global, raw: &[u8], width: u32, height: u32) -> Result<Vec<u8>, Error>
    ensures { IfOk result (λ file. (h : Header) × (image_header raw.now width height ≡ Ok h)
        × (file.items ≡ image_file Reference h raw.now)) }
{
    let file = encode_to_vec(alloc, raw, width, height)?;
    Ok(file)
}

/// To a writer: what was appended, by an equation.
pub fn save_to<W: Write>(out: &mut W, raw: &[u8], width: u32, height: u32) -> Result<usize, Error>
    ensures { IfOk result (λ n. (h : Header) × (image_header raw.now width height ≡ Ok h)
        × Appends (W.contents out.old) (W.contents out.new) (image_file Reference h raw.now)) }
{
    let n = Encoder::new(raw, width, height)?.encode_to_stream(out)?;
    Ok(n)
}

/// From a reader: the image of what stands ahead.
pub fn load_from<R: Read + Drop>(alloc: Global, reader: R) -> Result<Vec<u8>, Error>
    ensures { (bytes : List ℕ) → R.remaining reader ≡ Some bytes
        → IfOk result (λ raw. raw.items ≡ file_image bytes) }
{
    let mut decoder = Decoder::from_stream(reader)?;
    let raw = decoder.decode_to_vec(alloc)?;
    Ok(raw)
}

/// Encoded again: a decoded file of one's own gives the same bytes.
pub fn again(
    alloc: Global,
    raw: &[u8],
    width: u32,
    height: u32,
) -> Result<(Vec<u8>, Vec<u8>), Error>
    ensures { IfOk result (λ x. x.0.items ≡ x.1.items) }
{
    let file = encode_to_vec(alloc, raw, width, height)?;
    let (header, back) = decode_to_vec(alloc, &file)?;
    let other = encode_to_vec(alloc, &back, header.width, header.height)?;
    Ok((file, other))
}

/// Saved by one function and loaded by another, each with an equation of its own.
pub fn saved_as_and_loaded(
    alloc: Global,
    raw: &[u8],
    width: u32,
    height: u32,
) -> Result<Vec<u8>, Error>
    ensures { IfOk result (λ back. back.items ≡ raw.now) }
{
    image_files_are_read();
    let file = save_as(alloc, raw, width, height)?;
    load(alloc, &file)
}

/// A file that lacks its last byte is refused.
pub fn without_last(alloc: Global, raw: &[u8], width: u32, height: u32) -> Result<Error, Error> {
    let file = Encoder::new(raw, width, height)?.encode_to_vec(alloc)?;
    match decode_to_vec(alloc, &file[..file.len() - 1]) {
        Ok(_) => unreachable!(),
        Err(refusal) => Ok(refusal),
    }
}

/// The alpha of the first pixel of a file with three channels, read as four, is 255.
pub fn first_alpha(alloc: Global, file: &[u8]) -> Result<(Header, u8), Error>
    ensures { IfOk result (λ x. x.0.channels ≡ Channels.Rgb → x.1 ≡ 255) }
{
    let mut decoder = Decoder::new(file)?.with_channels(Channels::Rgba);
    let rgba = decoder.decode_to_vec(alloc)?;
    Ok((*decoder.header(), rgba[3]))
}

/// Raw bytes of the length that a valid header says are accepted.
pub fn of_right_length(
    alloc: Global,
    raw: &[u8],
    width: u32,
    height: u32,
) -> Result<Vec<u8>, Error> {
    let header = Header::try_new(width, height, Channels::Rgba, ColorSpace::Srgb)?;
    if raw.len() != header.n_bytes() {
        return Ok(Vec::new(alloc));
    }
    sizes_are_accepted();
    match Encoder::new(raw, width, height) {
        Ok(encoder) => encoder.encode_to_vec(alloc),
        Err(_) => unreachable!(),
    }
}

/// They are refused only if memory runs out.
pub fn of_header(alloc: Global, raw: &[u8], header: &Header) -> Result<Vec<u8>, Error>
    ensures { IsValid header.now → length raw.now ≡ image_byte_count header.now
        → IfErr result (λ e. e ≡ Error.OutOfMemory) }
{
    encode_to_vec(alloc, raw, header.width, header.height)
}

#[test]
fn saved_and_loaded_again(rt: HostRuntime) {
    let alloc = rt.alloc();
    assert_given(&rt, saved_and_loaded(alloc, &PIXEL, 1, 1), &PIXEL);
    assert_given(&rt, saved_as_and_loaded(alloc, &PIXEL, 1, 1), &PIXEL);
    let twice = again(alloc, &PIXEL, 1, 1);
    assert_both(&rt, twice, &ONE_RGB_PIXEL, &ONE_RGB_PIXEL);
}

#[test]
fn cut_files_and_added_alpha(rt: HostRuntime) {
    let refusal = without_last(rt.alloc(), &PIXEL, 1, 1);
    assert!(rt; matches!(refusal, Ok(Error::UnexpectedBufferEnd)));
    let first = first_alpha(rt.alloc(), &ONE_RGB_PIXEL);
    assert!(rt; matches!(first, Ok((header, 255)) if header.n_pixels() == 1));
}

// The header of one pixel in four channels has four bytes.
#[test]
fn right_lengths_are_accepted(rt: HostRuntime) {
    let alloc = rt.alloc();
    assert_given(&rt, of_right_length(alloc, &PIXEL, 1, 1), &[]);
    let file = of_right_length(alloc, &[0, 0, 0, 255], 1, 1);
    assert_number(&rt, file.expect(&rt, "refused").len(), 23);
    let file = of_header(alloc, &PIXEL, &Header::default());
    assert_given(&rt, file, &ONE_RGB_PIXEL);
}

#[test]
fn to_a_writer_and_from_a_reader(rt: HostRuntime) {
    let mut out = Vec::new(rt.alloc());
    assert_count(&rt, save_to(&mut out, &PIXEL, 1, 1), 26);
    assert_given(&rt, load_from(rt.alloc(), out.as_slice()), &PIXEL);
}
