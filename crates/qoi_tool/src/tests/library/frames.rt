//! Frames, which are files one right behind the other, are found again from their bytes alone: all of
//! them, and no others. A store of frames stands in docs/RECIPES.md. Only `find` has a proof file: its
//! loop's invariant and measure.
ghost use Rattle.std.specs.Prelude.{◌≡◌, ℕ, ◌+◌, ◌<◌, ◌≤◌, List, [], ◌∷◌, ◌++◌, None, IfOk, IfSome, IsSome, length, take, drop};
ghost use Rattle.qoi.specs.declared.header.Header.{Header};
ghost use Rattle.qoi.specs.Images.{file_image, file_rest, BeginsWithFile};
ghost use Rattle.qoi.specs.Tiles.{AreFrames, ArePictures};

use crate::tests::fakes::ONE_RGB_PIXEL;
use crate::tests::library::support::decodings::front;
use crate::tests::library::support::{assert_bytes, made};
use qoi::laws::reading::{files_are_read, frames_are_found, frames_stay, stores_stay};
use qoi::{Decoder, Error};
use std::alloc::Global;
use std::process::Abort;

/// Frames as files in one vector, and the offset of each.
#[derive(Drop)]
pub struct Frames {
    pub bytes: Vec<u8>,
    pub offsets: Vec<usize>,
}

/// The whole frames that the bytes begin with, exactly; what follows is cut off.
pub fn recover(alloc: Global, bytes: Vec<u8>) -> Result<Frames, Error>
    ensures frames { IfOk result (λ s. (headers : List Header) × (images : List (List ℕ))
        × ArePictures s.bytes.items s.offsets.items headers images) }
    ensures front { IfOk result (λ s.
        s.bytes.items ≡ take (length s.bytes.items) bytes.items) }
    ensures same { (front rest offsets : List ℕ) (headers : List Header)
        (images : List (List ℕ)) → ArePictures front offsets headers images
        → bytes.items ≡ front ++ rest → (BeginsWithFile rest → ⊥)
        → IfOk result (λ s. (s.bytes.items ≡ front) × (s.offsets.items ≡ offsets)) }
{
    let (offsets, end) = find(alloc, &bytes)?;
    Ok(cut(bytes, end, offsets))
}

/// Cuts off what follows the frames.
fn cut(mut bytes: Vec<u8>, end: usize, offsets: Vec<usize>) -> Frames
    ensures frames { (images : List (List ℕ))
        → AreFrames (take end bytes.items) offsets.items images → (headers : List Header)
        × ArePictures result.bytes.items result.offsets.items headers images }
    ensures front { result.bytes.items ≡ take (length result.bytes.items) bytes.items }
    ensures same { (front rest others : List ℕ) (headers : List Header)
        (images found : List (List ℕ)) → AreFrames (take end bytes.items) offsets.items found
        → (BeginsWithFile (drop end bytes.items) → ⊥) → ArePictures front others headers images
        → bytes.items ≡ front ++ rest → (BeginsWithFile rest → ⊥)
        → (result.bytes.items ≡ front) × (result.offsets.items ≡ others) }
{
    frames_are_found();
    stores_stay();
    bytes.truncate(end);
    Frames { bytes, offsets }
}

/// The offsets of the whole frames that the bytes begin with, and where the last one ends.
fn find(alloc: Global, bytes: &[u8]) -> Result<(Vec<usize>, usize), Error>
    ensures frames { IfOk result (λ x. (images : List (List ℕ))
        × AreFrames (take x.1 bytes.now) x.0.items images) }
    ensures all { IfOk result (λ x. BeginsWithFile (drop x.1 bytes.now) → ⊥) }
{
    let (mut offsets, mut end) = (none(alloc), 0);
    while let Some(next) = note(bytes, end, &mut offsets)? {
        end = next;
    }
    Ok((offsets, end))
}

/// The offsets of no frames.
fn none(alloc: Global) -> Vec<usize>
    ensures { AreFrames [] result.items [] }
{
    frames_stay();
    Vec::new(alloc)
}

/// Notes the frame at `at`, and returns its end; none if no whole one stands there.
fn note(bytes: &[u8], at: usize, offsets: &mut Vec<usize>) -> Result<Option<usize>, Error>
    requires { at ≤ length bytes.now }
    ensures found { (images : List (List ℕ))
        → AreFrames (take at bytes.now) offsets.old.items images
        → IfOk result (λ o. IfSome o (λ end. AreFrames (take end bytes.now) offsets.new.items
        (images ++ file_image (drop at bytes.now) ∷ []))) }
    ensures within { IfOk result (λ o. IfSome o (λ end. (at < end) × (end ≤ length bytes.now))) }
    ensures none { IfOk result (λ o. o ≡ None → offsets.new.items ≡ offsets.old.items) }
    ensures last { IfOk result (λ o. o ≡ None → BeginsWithFile (drop at bytes.now) → ⊥) }
{
    frames_are_found();
    let Some(n) = file_length(&bytes[at..]) else {
        return Ok(None);
    };
    offsets.push(at)?;
    Ok(Some(at + n))
}

/// How many bytes the file at the front has; none if no file stands there.
fn file_length(bytes: &[u8]) -> Option<usize>
    ensures some { IfSome result (λ n. BeginsWithFile bytes.now
        × (n + length (file_rest bytes.now) ≡ length bytes.now)) }
    ensures more { IfSome result (λ n. 0 < n) }
    ensures none { BeginsWithFile bytes.now → IsSome result }
{
    files_are_read();
    let Ok(decoder) = Decoder::new(bytes) else {
        return None;
    };
    match decoder.into_pixels().finish() {
        Ok(decoder) => Some(bytes.len() - decoder.into_data().len()),
        Err(_) => None,
    }
}

// The frames that are recovered from bytes are these.
fn assert_recovered(rt: &impl Abort, alloc: Global, bytes: &[u8], held: &[u8], offsets: &[usize]) {
    let bytes = made::bytes(rt, alloc, bytes);
    let found = recover(alloc, bytes).expect(rt, "refused");
    assert_bytes(rt, &found.bytes, held);
    assert!(rt; found.offsets.as_slice() == offsets);
}

// Two frames, one and a part of another, none, and one and other bytes.
#[test]
fn recovered(rt: HostRuntime) {
    let alloc = rt.alloc();
    let one = ONE_RGB_PIXEL;
    let two = made::joined(&rt, alloc, &one, &one);
    assert_recovered(&rt, alloc, &two, &two, &[0, 26]);
    assert_recovered(&rt, alloc, front(&two, 51), &one, &[0]);
    assert_recovered(&rt, alloc, &[], &[], &[]);
    let longer = made::joined(&rt, alloc, &one, b"xy");
    assert_recovered(&rt, alloc, &longer, &one, &[0]);
}
