//! Counts the repeats of a pixel in raw bytes. Their runs are written by `block/spelling` within a
//! block, by `carry` before one, by `blocks` over whole ones, and else by `coder`.
ghost use lib.Lanes.{mask_l, zip2};
ghost use Rattle.std.specs.Prelude.{nat_eq, ◌≡◌, ◌+◌, ◌-◌, ◌*◌, ◌^◌, ◌≤◌, ◌<◌, ◌++◌, length, take, drop, replicate, IsTrue};
ghost use Rattle.qoi.specs.Qoi.{rgba};
ghost use Rattle.qoi.specs.Raw.{IsChannels, output, pixels_of};
ghost use Rattle.qoi.specs.Runs.{IsCount};
ghost use Rattle.qoi.specs.inner.Coder.{pixels_in};

use crate::encode::pixels::{PixelOf, Pixels};
use crate::packed::Packed;
use crate::pixel::Pixel;
use crate::utils::skip;
use std::simd::prelude::*;

/// How many whole pixels at the front of `data` equal `px`.
#[inline(always)]
pub fn repeats<const N: usize>(data: &[u8], px: Pixel<N>) -> usize
    requires { IsChannels N }
    ensures { IsCount (rgba px.entry) (pixels_of N «data».now) result }
{
    let (whole, _) = data.split_at(data.len() - data.len() % N);
    repeats_of::<N>(Pixels::new(whole), PixelOf { px: px.packed() })
}

/// How many pixels at the front equal this one: counted by blocks of sixteen pixels, and then pixel
/// by pixel.
#[inline(always)]
pub(super) fn repeats_of<const N: usize>(raw: Pixels<N>, pixel: PixelOf<N>) -> usize
    ensures within { result ≤ length raw.entry.bytes.now }
    ensures counted { IsCount pixel.entry.px (pixels_in raw.entry) result }
{
    let px = pixel.px;
    let mut count = 0;
    let mut rest = raw;
    while rest.has_block() {
        let more = repeats_in_block::<N>(rest, px);
        count += more;
        if more < 16 {
            return count;
        }
        rest = rest.skip(16);
    }
    count + count_pixels::<N>(rest, px)
}

// Counts pixel by pixel.
#[tactic(auto, using(crate::proofs::encoding::coder::PixelsIn::pixels_few))]
#[inline(always)]
fn count_pixels<const N: usize>(raw: Pixels<N>, px: Packed) -> usize
    ensures within { result ≤ length (pixels_in raw.entry) }
    ensures counted { IsCount px (pixels_in raw.entry) result }
{
    let mut count = 0;
    let mut rest = raw;
    while rest.begin_with(px) {
        rest = rest.skip(1);
        count += 1;
    }
    count
}

// How many of the first sixteen pixels are `px`, up to the first that isn't.
#[inline(always)]
fn repeats_in_block<const N: usize>(raw: Pixels<N>, px: Packed) -> usize
    requires long { N * 16 ≤ length raw.bytes.now }
    requires opaque { N ≡ 3 → px.a ≡ 255 }
    ensures within { result ≤ 16 }
    ensures all { result ≡ 16
        → pixels_in raw.entry ≡ replicate 16 px ++ drop 16 (pixels_in raw.entry) }
    ensures counted { result < 16 → IsCount px (pixels_in raw.entry) result }
{
    if all_same_in_block::<N>(raw, px) {
        return 16;
    }
    let same = same_in_block::<N>(raw, px);
    (!same).trailing_zeros() as usize / N
}

// Whether all bits of `same_in_block` are set. It is asked first, since of most blocks it is true,
// and to find it takes fewer instructions than to count.
#[inline(always)]
fn all_same_in_block<const N: usize>(raw: Pixels<N>, px: Packed) -> bool
    requires { N * 16 ≤ length raw.bytes.now }
    ensures { IsTrue result → mask_l (zip2 nat_eq raw.entry.bytes.now
        (output N N (replicate 16 px))) ≡ 2 ^ (N * 16) - 1 }
{
    let first = same_in_part::<N, 0>(raw, px);
    let second = same_in_part::<N, 1>(raw, px);
    let third = same_in_part::<N, 2>(raw, px);
    let three = first & second & third;
    if N == 3 {
        return three == 0xffff;
    }
    three & same_in_part::<N, 3>(raw, px) == 0xffff
}

// Which bytes are those of `px` written sixteen times: a bit for each, the lowest for the first.
#[inline(always)]
fn same_in_block<const N: usize>(raw: Pixels<N>, px: Packed) -> u64
    requires { N * 16 ≤ length raw.bytes.now }
    ensures bits { result ≡ mask_l (zip2 nat_eq raw.entry.bytes.now
        (output N N (replicate 16 px))) }
{
    let first = same_in_part::<N, 0>(raw, px);
    let second = same_in_part::<N, 1>(raw, px);
    let third = same_in_part::<N, 2>(raw, px);
    let three = first + (second << 16) + (third << 32);
    if N == 3 {
        return three;
    }
    three + (same_in_part::<N, 3>(raw, px) << 48)
}

// The bits of `same_in_block` for the `PART`th sixteen bytes, from 0.
#[inline(always)]
fn same_in_part<const N: usize, const PART: usize>(raw: Pixels<N>, px: Packed) -> u64
    requires part { PART < N }
    requires long { N * 16 ≤ length raw.bytes.now }
    ensures few { result < 2 ^ 16 }
    ensures bits { result
        ≡ mask_l (zip2 nat_eq (take 16 (drop (16 * PART) raw.entry.bytes.now))
        (take 16 (drop (16 * PART) (output N N (replicate 16 px))))) }
{
    let part = skip(raw.bytes, 16 * PART);
    u8x16::from_slice(part)
        .simd_eq(px.repeated::<N, PART>())
        .to_bitmask()
}
