//! Callers that keep several files in one slice (a pack): the image of the file at an offset comes
//! back with its header, whatever follows it. None has a proof file.
ghost use Rattle.std.specs.Prelude.{◌≡◌, ◌<◌, ℕ, List, length, Ok, IfOk, IfErr, IsErrOf, OnOk};
ghost use Rattle.qoi.specs.declared.error.Error.{Error};
ghost use Rattle.qoi.specs.declared.header.Header.{Header};
ghost use Rattle.qoi.specs.Encoded.{image_header};
ghost use Rattle.qoi.specs.Images.{file_image, BeginsWithFile};
ghost use Rattle.qoi.specs.Qoi.{header_of};
ghost use Rattle.qoi.specs.Tiles.{HasPicture};

use crate::tests::fakes::{ONE_RGB_PIXEL, PIXEL};
use crate::tests::library::support::{assert_bytes, assert_cut, assert_header, assert_number};
use qoi::laws::reading::pictures_stay;
use qoi::{Encoder, Error, Header, decode_to_vec};
use std::alloc::Global;
use std::process::Abort;

/// A tile is put at the end of an atlas, and its offset returned; the tiles before it stay.
pub fn put(atlas: &mut Vec<u8>, raw: &[u8], width: u32, height: u32) -> Result<usize, Error>
    ensures put { (h : Header) → image_header raw.now width height ≡ Ok h
        → IfOk result (λ offset. HasPicture atlas.new.items offset h raw.now) }
    ensures accepted { OnOk result ((h : Header) × (image_header raw.now width height ≡ Ok h)) }
    ensures kept { (offset : ℕ) (h : Header) (tile : List ℕ)
        → HasPicture atlas.old.items offset h tile
        → OnOk result (HasPicture atlas.new.items offset h tile) }
{
    let offset = atlas.len();
    Encoder::new(raw, width, height)?.encode_to_stream(atlas)?;
    Ok(offset)
}

/// A file of any origin is put at the end of an atlas, if it is one, and its offset returned; the
/// tiles before it stay.
pub fn put_file(alloc: Global, atlas: &mut Vec<u8>, file: &[u8]) -> Result<usize, Error>
    ensures put { (h : Header) → header_of file.now ≡ Ok h
        → IfOk result (λ offset. HasPicture atlas.new.items offset h (file_image file.now)) }
    ensures accepted { OnOk result (BeginsWithFile file.now) }
    ensures kept { (offset : ℕ) (h : Header) (tile : List ℕ)
        → HasPicture atlas.old.items offset h tile
        → OnOk result (HasPicture atlas.new.items offset h tile) }
{
    pictures_stay();
    let offset = atlas.len();
    decode_to_vec(alloc, file)?;
    atlas.extend_from_slice(file)?;
    Ok(offset)
}

/// A tile is read back from its offset, with its header. It is refused only if memory runs out.
pub fn get(alloc: Global, atlas: &[u8], offset: usize) -> Result<(Header, Vec<u8>), Error>
    ensures tile { (h : Header) (tile : List ℕ) → HasPicture atlas.now offset h tile
        → IfOk result (λ x. (x.0 ≡ h) × (x.1.items ≡ tile)) }
    ensures found { (h : Header) (tile : List ℕ) → HasPicture atlas.now offset h tile
        → IfErr result (λ e. e ≡ Error.OutOfMemory) }
    ensures past { length atlas.now < offset → IsErrOf result Error.UnexpectedBufferEnd }
{
    if offset > atlas.len() {
        return Err(Error::UnexpectedBufferEnd);
    }
    decode_to_vec(alloc, &atlas[offset..])
}

// A tile.
const OTHER: [u8; 3] = [1, 2, 3];

// The tile at an offset that a caller gives.
fn assert_tile(
    rt: &impl Abort,
    alloc: Global,
    atlas: &[u8],
    offset: Result<usize, Error>,
    tile: &[u8],
) {
    let found = get(alloc, atlas, offset.expect(rt, "refused"));
    let (header, raw) = found.expect(rt, "refused");
    assert_header(rt, &header, &Header::default());
    assert_bytes(rt, &raw, tile);
}

#[test]
fn at_the_end_of_an_atlas(rt: HostRuntime) {
    let alloc = rt.alloc();
    let mut atlas = Vec::from_slice(alloc, &ONE_RGB_PIXEL).expect(&rt, "refused");
    let at = put(&mut atlas, &OTHER, 1, 1);
    assert_tile(&rt, alloc, &atlas, at, &OTHER);
    // A file of one pixel has 22 bytes and a chunk: here an RGB of four bytes, and a luma of two.
    assert_number(&rt, atlas.len(), 26 + 24);
    let past = get(alloc, &atlas, 51);
    assert_cut(&rt, past);
}

#[test]
fn before_other_tiles(rt: HostRuntime) {
    let alloc = rt.alloc();
    let mut atlas = Vec::new(alloc);
    let first = put(&mut atlas, &OTHER, 1, 1);
    let other = put_file(alloc, &mut atlas, &ONE_RGB_PIXEL);
    assert_tile(&rt, alloc, &atlas, first, &OTHER);
    assert_tile(&rt, alloc, &atlas, other, &PIXEL);
}
