//! The first sixteen pixels of raw bytes, packed.
ghost use Rattle.std.specs.Prelude.{◌≡◌, ◌*◌, ◌≤◌, length, take, drop, map};
ghost use Rattle.qoi.specs.Raw.{IsChannels, pixels_of, AreOpaque};
ghost use Rattle.qoi.specs.inner.Packed.{word};
ghost use Rattle.qoi.specs.inner.block.Planes.{block_pixels};

use crate::encode::block::planes::Words;
use crate::utils::skip;
use std::simd::prelude::*;

/// The first sixteen pixels, packed.
#[inline(always)]
pub(super) fn first_sixteen<const N: usize>(bytes: &[u8]) -> Words
    requires channels { IsChannels N }
    requires enough { 16 * N ≤ length bytes.now }
    ensures pixels { block_pixels result ≡ take 16 (pixels_of N bytes.now) }
    ensures opaque { N ≡ 3 → AreOpaque (block_pixels result) }
{
    Words {
        one: read_four::<N>(bytes),
        two: read_four::<N>(skip(bytes, 4 * N)),
        three: read_four::<N>(skip(bytes, 8 * N)),
        four: read_last_four::<N>(bytes),
    }
}

// The first four pixels. Sixteen bytes are read, in three channels too, where the pixels have only
// twelve.
#[tactic(auto, using(crate::proofs::format::LaneWords::four_of_4, crate::proofs::format::LaneWords::four_of_3))]
#[inline(always)]
fn read_four<const N: usize>(bytes: &[u8]) -> u32x4
    requires channels { IsChannels N }
    requires enough { 16 ≤ length bytes.now }
    ensures lanes { result ≡ map word (take 4 (pixels_of N bytes.now)) }
{
    let v = u8x16::from_slice(bytes);
    if N == 4 {
        return u32x4::from_le_bytes(v);
    }
    let opaque: u8x16 = v.shuffle(
        u8x16::splat(255),
        [0, 1, 2, 16, 3, 4, 5, 16, 6, 7, 8, 16, 9, 10, 11, 16],
    );
    u32x4::from_le_bytes(opaque)
}

// The last four of the first sixteen pixels. In three channels the sixteen bytes that are read
// begin four bytes before them, since none may come behind the pixels.
#[inline(always)]
fn read_last_four<const N: usize>(bytes: &[u8]) -> u32x4
    requires channels { IsChannels N }
    requires enough { 16 * N ≤ length bytes.now }
    ensures lanes { result ≡ map word (take 4 (pixels_of N (drop (12 * N) bytes.now))) }
{
    if N == 4 {
        return read_four::<N>(skip(bytes, 12 * N));
    }
    let late = skip(bytes, 32);
    let v = u8x16::from_slice(late);
    let opaque: u8x16 = v.shuffle(
        u8x16::splat(255),
        [4, 5, 6, 16, 7, 8, 9, 16, 10, 11, 12, 16, 13, 14, 15, 16],
    );
    u32x4::from_le_bytes(opaque)
}
