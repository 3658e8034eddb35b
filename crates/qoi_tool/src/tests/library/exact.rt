//! A file is decoded, whatever follows it: it is refused only if memory, the buffer or the reader
//! fails.
ghost use Rattle.std.specs.Prelude.{◌≡◌, ◌≤◌, ◌⊎◌, ◌++◌, ℕ, List, length, take, Some, Ok, IsOkUnless, MatchResult};
ghost use Rattle.qoi.specs.declared.header.Header.{Header};
ghost use Rattle.qoi.specs.declared.chunk.Chunk.{Chunk};
ghost use Rattle.qoi.specs.declared.types.Style.{Style};
ghost use Rattle.qoi.specs.Qoi.{IsFile, file};
ghost use Rattle.qoi.specs.Raw.{image_byte_count};
ghost use Rattle.qoi.specs.Encoded.{IsFileOf};
ghost use Rattle.qoi.specs.Errors.{IsIoError};

use crate::tests::fakes::{ONE_RGB_PIXEL, PIXEL};
use crate::tests::library::support::{assert_bytes, assert_header};
use qoi::laws::reading::files_are_read;
use qoi::{Decoder, Error, Header, decode_to_buf, decode_to_vec};
use std::alloc::Global;
use std::io::Read;

/// The free call into a vector.
pub fn vector_of_file(alloc: Global, data: &[u8]) -> Result<(Header, Vec<u8>), Error>
    ensures accepts { (h : Header) (cs : List Chunk) (rest : List ℕ) → IsFile h cs
        → «data».now ≡ file h cs ++ rest
        → IsOkUnless result Error.OutOfMemory }
    ensures followed { (style : Style) (h : Header) (raw bytes rest : List ℕ)
        → IsFileOf style h raw bytes → «data».now ≡ bytes ++ rest
        → MatchResult result (λ x. (x.0 ≡ h) × (x.1.items ≡ raw)) (λ e. e ≡ Error.OutOfMemory) }
{
    decode_to_vec(alloc, data)
}

/// The free call into a buffer.
pub fn buffer_of_file(buf: &mut [u8], data: &[u8]) -> Result<Header, Error>
    ensures accepts { (h : Header) (cs : List Chunk) (rest : List ℕ) → IsFile h cs
        → «data».now ≡ file h cs ++ rest
        → image_byte_count h ≤ length buf.old → result ≡ Ok h }
    ensures followed { (style : Style) (h : Header) (raw bytes rest : List ℕ)
        → IsFileOf style h raw bytes → «data».now ≡ bytes ++ rest
        → length raw ≤ length buf.old → (result ≡ Ok h) × (take (length raw) buf.new ≡ raw) }
{
    files_are_read();
    decode_to_buf(buf, data)
}

/// A stream's decoder, from its header on: a file is refused only if memory runs out or the reader
/// fails.
pub fn vector_of_stream<R: Read + Drop>(
    alloc: Global,
    reader: R,
) -> Result<(Header, Vec<u8>), Error>
    ensures { (h : Header) (cs : List Chunk) (rest : List ℕ) → IsFile h cs
        → R.remaining reader ≡ Some (file h cs ++ rest)
        → MatchResult result (λ x. x.0 ≡ h) (λ e. (e ≡ Error.OutOfMemory) ⊎ IsIoError e) }
{
    files_are_read();
    let mut decoder = Decoder::from_stream(reader)?;
    let header = *decoder.header();
    let raw = decoder.decode_to_vec(alloc)?;
    Ok((header, raw))
}

#[test]
fn by_each_call(rt: HostRuntime) {
    let alloc = rt.alloc();
    let (_, raw) = vector_of_file(alloc, &ONE_RGB_PIXEL).expect(&rt, "refused");
    assert_bytes(&rt, &raw, &PIXEL);
    let mut buf = [0xaa; 4];
    let header = buffer_of_file(&mut buf, &ONE_RGB_PIXEL);
    assert_header(&rt, &header.expect(&rt, "refused"), &Header::default());
    let (_, raw) = vector_of_stream(alloc, ONE_RGB_PIXEL.as_slice()).expect(&rt, "refused");
    assert_bytes(&rt, &raw, &PIXEL);
}
