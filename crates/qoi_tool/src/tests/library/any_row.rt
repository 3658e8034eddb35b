//! Callers that go on from within a picture, by a clone or by a mark. None has a proof file.
ghost use Rattle.std.specs.Prelude.{◌≡◌, ◌*◌, ℕ, List, ◌++◌, take, drop, Some, IfOk};
ghost use Rattle.qoi.specs.Decoded.{HasHeader};
ghost use Rattle.qoi.specs.DecoderState.{DecoderState};
ghost use Rattle.qoi.specs.Images.{front_image};
ghost use Rattle.qoi.specs.pieces.Mark.{marked_left, MarksRows};
ghost use Rattle.qoi.specs.pieces.PixelReader.{unread_bytes, HasRows};

use crate::tests::library::support::{assert_both, assert_given, assert_number, made};
use qoi::{Bytes, Error, Mark, PixelReader, Reader};
use std::alloc::Global;
use std::process::Abort;

/// Reads what is left of an image, of which k rows were read.
#[tactic(auto, unfolding(qoi::specs::pieces::PixelReader::HasRows))]
fn rest<R: Reader>(alloc: Global, pixels: &mut PixelReader<R>) -> Result<Vec<u8>, Error>
    ensures { (d : DecoderState R) (bytes : List ℕ) (stride k : ℕ)
        → HasRows d (Some bytes) (R.ahead pixels.old.reader) stride k pixels.old
        → IfOk result (λ rest. rest.items ≡ take (unread_bytes pixels.old)
        (drop (stride * k) (front_image d.channels d.header bytes))) }
{
    let mut rest = vec![in alloc; 0u8; pixels.left()]?;
    let count = pixels.read(&mut rest)?;
    rest.truncate(count);
    Ok(rest)
}

/// A reader of which k rows were read is cloned, and both are read to the end. If each clone of the
/// source equals it, that gives the same bytes, which are those of the image from row k on.
pub fn by_clone<R: Reader + Clone + Drop>(
    alloc: Global,
    pixels: PixelReader<R>,
) -> Result<(Vec<u8>, Vec<u8>), Error>
    ensures { (d : DecoderState R) (bytes : List ℕ) (stride k : ℕ)
        → ((reader : R) → R.is_clone pixels.reader reader → reader ≡ pixels.reader)
        → HasRows d (Some bytes) (R.ahead pixels.reader) stride k pixels
        → IfOk result (λ both. (both.0.items ≡ both.1.items)
        × (both.0.items ≡ take (unread_bytes pixels)
        (drop (stride * k) (front_image d.channels d.header bytes)))) }
{
    let mut pixels = pixels;
    let mut clone = pixels.clone()?;
    let first = rest(alloc, &mut pixels)?;
    let second = rest(alloc, &mut clone)?;
    Ok((first, second))
}

// What is left of an image behind a mark.
fn rest_behind(alloc: Global, mark: &Mark, file: &[u8]) -> Result<Vec<u8>, Error>
    ensures { (d e : DecoderState (List ℕ)) (bytes : List ℕ) (stride k : ℕ)
        → HasHeader e (Some file.now) (Some bytes) → MarksRows d bytes stride k mark.now
        → IfOk result (λ rest. rest.items ≡ take (marked_left mark.now)
        (drop (stride * k) (front_image d.channels d.header bytes))) }
{
    let mut pixels = mark.resume(file)?;
    let rest = rest(alloc, &mut pixels)?;
    Ok(rest)
}

/// A slice's reader is doubled by a mark: both are read to the end.
pub fn twice(
    alloc: Global,
    pixels: PixelReader<Bytes<'_>>,
    file: &[u8],
) -> Result<(Vec<u8>, Vec<u8>), Error>
    ensures { (d e : DecoderState (List ℕ)) (bytes : List ℕ) (stride k : ℕ)
        → HasHeader e (Some file.now) (Some bytes)
        → HasRows d (Some bytes) (Some pixels.entry.reader) stride k pixels.entry
        → IfOk result (λ both. (both.0.items ≡ both.1.items)
        × (both.0.items ≡ take (unread_bytes pixels.entry)
        (drop (stride * k) (front_image d.channels d.header bytes)))) }
{
    let mut pixels = pixels;
    let mark = pixels.mark(file);
    let first = rest(alloc, &mut pixels)?;
    let second = rest_behind(alloc, &mark, file)?;
    Ok((first, second))
}

/// What is left of an image behind a mark, in a slice that begins with the one that was marked.
pub fn again(
    alloc: Global,
    pixels: &PixelReader<Bytes<'_>>,
    file: &[u8],
    longer: &[u8],
) -> Result<Vec<u8>, Error>
    ensures { (d e f : DecoderState (List ℕ)) (bytes more : List ℕ) (stride k : ℕ)
        → HasHeader e (Some file.now) (Some bytes)
        → HasHeader f (Some longer.now) (Some (bytes ++ more))
        → HasRows d (Some bytes) (Some pixels.now.reader) stride k pixels.now
        → IfOk result (λ rest. rest.items ≡ take (unread_bytes pixels.now)
        (drop (stride * k) (front_image d.channels d.header (bytes ++ more)))) }
{
    let mark = pixels.mark(file);
    let rest = rest_behind(alloc, &mark, longer)?;
    Ok(rest)
}

// Three rows of four bytes.
const PICTURE: [u8; 12] = [11, 12, 13, 14, 21, 22, 23, 24, 31, 32, 33, 34];

// The reader of a slice's picture behind its first row.
fn behind_a_row<'a>(rt: &impl Abort, file: &'a [u8]) -> PixelReader<Bytes<'a>> {
    let mut pixels = made::slice(rt, file).into_pixels();
    pixels.read(&mut [0; 4]).expect(rt, "refused");
    pixels
}

#[test]
fn the_third_row_by_a_clone(rt: HostRuntime) {
    let alloc = rt.alloc();
    let file = made::encoded(&rt, alloc, &PICTURE, 1, 3);
    let mut pixels = made::stream(&rt, &file[..]).into_pixels();
    pixels.read(&mut [0; 8]).expect(&rt, "refused");
    let both = by_clone(alloc, pixels);
    assert_both(&rt, both, &PICTURE[8..], &PICTURE[8..]);
}

#[test]
fn the_rows_behind_a_mark(rt: HostRuntime) {
    let alloc = rt.alloc();
    let file = made::encoded(&rt, alloc, &PICTURE, 1, 3);
    let pixels = behind_a_row(&rt, &file);
    assert_number(&rt, pixels.mark(&file).left(), 8);
    let both = twice(alloc, pixels, &file);
    assert_both(&rt, both, &PICTURE[4..], &PICTURE[4..]);
}

// Bytes are appended behind the file, which the mark was made in.
#[test]
fn a_mark_in_a_longer_slice(rt: HostRuntime) {
    let alloc = rt.alloc();
    let file = made::encoded(&rt, alloc, &PICTURE, 1, 3);
    let longer = made::joined(&rt, alloc, &file, &[7]);
    let pixels = behind_a_row(&rt, &file);
    assert_given(&rt, again(alloc, &pixels, &file, &longer), &PICTURE[4..]);
}
