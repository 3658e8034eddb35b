//! Two files are compared by their pixels, in the memory of two pieces. Only the loops have proof
//! files, with their invariants.
ghost use Rattle.std.specs.Prelude.{◌≡◌, ◌+◌, ◌^◌, ◌<◌, ◌≤◌, ℕ, List, ◌++◌, length, take, drop, None, Some, Ok, IsOk, IfOk, OnOk, IfSome, IsTrue};
ghost use Rattle.qoi.specs.declared.header.Header.{Header};
ghost use Rattle.qoi.specs.DecoderState.{DecoderState, output_byte_count};
ghost use Rattle.qoi.specs.Images.{file_image, front_image, HasFrontFile};
ghost use Rattle.qoi.specs.Qoi.{header_of};
ghost use Rattle.qoi.specs.Reading.{StandsAhead};
ghost use Rattle.qoi.specs.pieces.PixelReader.{HasGiven, unread_bytes};
ghost use Rattle.qoi_tool.specs.Pictures.{DiffersAt, HaveOneShape};

use crate::tests::library::support::made;
use qoi::laws::reading::{files_are_read, pieces_that_come};
use qoi::{Bytes, Decoder, Error, Header, PixelReader, Result};
use std::process::Abort;

/// The first byte in which two slices differ, if one does.
fn first_unequal(one: &[u8], other: &[u8]) -> Option<usize>
    requires { length one.now ≡ length other.now }
    ensures equal { result ≡ None → one.now ≡ other.now }
    ensures first { IfSome result (DiffersAt one.now other.now) }
    ensures within { IfSome result (λ k. k < length one.now) }
{
    for i in 0..one.len() {
        if one[i] != other[i] {
            return Some(i);
        }
    }
    None
}

// The first of the next `count` bytes in which two images differ, behind the bytes `given` that
// both begin with.
fn unequal_ahead(here: &[u8], there: &[u8], count: usize) -> Option<usize>
    requires here { count ≤ length here.now }
    requires there { count ≤ length there.now }
    ensures equal { result ≡ None → take count here.now ≡ take count there.now }
    ensures first { (one other given : List ℕ) → given ≡ take (length given) one
        → given ≡ take (length given) other
        → take count here.now ≡ take count (drop (length given) one)
        → take count there.now ≡ take count (drop (length given) other)
        → IfSome result (λ k. DiffersAt one other (length given + k)) }
    ensures within { IfSome result (λ k. k < count) }
{
    pieces_that_come();
    first_unequal(&here[..count], &there[..count])
}

// The same as a byte of the images, behind `at` bytes that both begin with.
fn unequal_behind(at: usize, here: &[u8], there: &[u8], count: usize) -> Option<usize>
    requires here { count ≤ length here.now }
    requires there { count ≤ length there.now }
    requires fits { at + count < 2 ^ 64 }
    ensures equal { result ≡ None → take count here.now ≡ take count there.now }
    ensures first { (one other given : List ℕ) → at ≡ length given
        → given ≡ take (length given) one → given ≡ take (length given) other
        → take count here.now ≡ take count (drop (length given) one)
        → take count there.now ≡ take count (drop (length given) other)
        → IfSome result (DiffersAt one other) }
{
    let k = unequal_ahead(here, there, count)?;
    Some(at + k)
}

/// The first byte in which two images of `size` bytes differ, if it stands in their next pieces.
fn next_difference(
    first: &mut PixelReader<Bytes<'_>>,
    second: &mut PixelReader<Bytes<'_>>,
    size: usize,
) -> Result<Option<usize>>
    ensures equal { (d e : DecoderState (List ℕ)) (bytes others given : List ℕ)
        → HasGiven d (Some bytes) (Some first.old.reader) given first.old
        → HasGiven e (Some others) (Some second.old.reader) given second.old
        → IfOk result (λ o. o ≡ None → (more : List ℕ)
        × HasGiven d (Some bytes) (Some first.new.reader) (given ++ more) first.new
        × HasGiven e (Some others) (Some second.new.reader) (given ++ more) second.new) }
    ensures first { (d e : DecoderState (List ℕ)) (bytes others given : List ℕ)
        → HasGiven d (Some bytes) (Some first.old.reader) given first.old
        → HasGiven e (Some others) (Some second.old.reader) given second.old
        → size ≡ output_byte_count d
        → IfOk result (λ o. IfSome o (DiffersAt (front_image d.channels d.header bytes)
        (front_image e.channels e.header others))) }
    ensures fewer { 0 < unread_bytes first.old
        → OnOk result (unread_bytes first.new < unread_bytes first.old) }
    ensures whole { (d e : DecoderState (List ℕ)) (bytes others given : List ℕ)
        → HasGiven d (Some bytes) (Some first.old.reader) given first.old
        → HasGiven e (Some others) (Some second.old.reader) given second.old
        → output_byte_count d ≡ output_byte_count e
        → StandsAhead d.header bytes → StandsAhead e.header others → IsOk result }
{
    let (mut here, mut there) = ([0; 4096], [0; 4096]);
    let at = size.saturating_sub(first.left());
    second.left();
    let count = first.read(&mut here)?;
    if second.read(&mut there)? != count {
        return Err(Error::UnexpectedBufferEnd);
    }
    Ok(unequal_behind(at, &here, &there, count))
}

/// The first byte in which two images of `size` bytes differ.
fn difference(
    one: Decoder<Bytes<'_>>,
    other: Decoder<Bytes<'_>>,
    size: usize,
) -> Result<Option<usize>>
    requires one { size ≡ output_byte_count one }
    requires other { size ≡ output_byte_count other }
    ensures equal { IfOk result (λ o. o ≡ None
        → front_image one.entry.channels one.entry.header one.entry.reader
        ≡ front_image other.entry.channels other.entry.header other.entry.reader) }
    ensures first { IfOk result (λ o. IfSome o (DiffersAt
        (front_image one.entry.channels one.entry.header one.entry.reader)
        (front_image other.entry.channels other.entry.header other.entry.reader))) }
    ensures whole { StandsAhead one.entry.header one.entry.reader
        → StandsAhead other.entry.header other.entry.reader → IsOk result }
{
    let (mut first, mut second) = (one.into_pixels(), other.into_pixels());
    while first.left() > 0 {
        let found = next_difference(&mut first, &mut second, size)?;
        if found.is_some() {
            return Ok(found);
        }
    }
    if second.left() > 0 {
        return Err(Error::UnexpectedBufferEnd);
    }
    Ok(None)
}

// Whether two images have one shape.
fn have_one_shape(one: &Header, other: &Header) -> bool
    ensures shape { IsTrue result → HaveOneShape one.now other.now }
    ensures all { HaveOneShape one.now other.now → IsTrue result }
{
    one.width == other.width && one.height == other.height && one.channels == other.channels
}

/// The first byte in which the images of two files differ; none if all are the same. Two files of
/// one shape are never refused, and two of others always are.
pub fn first_difference(one: &[u8], other: &[u8]) -> Result<Option<usize>>
    ensures equal { IfOk result (λ o. o ≡ None → file_image one.now ≡ file_image other.now) }
    ensures first { IfOk result (λ o. IfSome o
        (DiffersAt (file_image one.now) (file_image other.now))) }
    ensures whole { (h k : Header) (n m : ℕ) → HasFrontFile h n one.now
        → HasFrontFile k m other.now → HaveOneShape h k → IsOk result }
    ensures shape { (h k : Header) → header_of one.now ≡ Ok h → header_of other.now ≡ Ok k
        → OnOk result (HaveOneShape h k) }
{
    files_are_read();
    let first = Decoder::new(one)?;
    let second = Decoder::new(other)?;
    let (width, height) = (second.header().width, second.header().height);
    if !have_one_shape(first.header(), second.header()) {
        return Err(Error::InvalidImageDimensions { width, height });
    }
    let size = first.required_buf_len();
    difference(first, second, size)
}

// The first byte in which the images of two files differ is this one.
fn assert_differ(rt: &impl Abort, one: &[u8], other: &[u8], at: Option<usize>) {
    assert!(rt; first_difference(one, other).expect(rt, "refused") == at);
}

// Pictures of three rows of a pixel, of which byte 6 differs, and one of another shape.
#[test]
fn a_byte_differs(rt: HostRuntime) {
    let alloc = rt.alloc();
    let one = made::encoded(&rt, alloc, b"first row...", 1, 3);
    let other = made::encoded(&rt, alloc, b"first sow...", 1, 3);
    let wide = made::encoded(&rt, alloc, b"first row...", 3, 1);
    assert_differ(&rt, &one, &other, Some(6));
    assert_differ(&rt, &one, &one, None);
    assert!(rt; first_difference(&one, &wide).is_err());
}
