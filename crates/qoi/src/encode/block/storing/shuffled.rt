//! Chunks of at most four bytes, stored four at a time: one shuffle moves their bytes together.
ghost use lib.Lanes.{all_below, digits_l, number_l};
ghost use Rattle.std.specs.Prelude.{◌≡◌, ◌+◌, ◌≤◌, ◌<◌, ℕ, List, [], ◌∷◌, ◌++◌, length, take, drop, IsTrue};
ghost use Rattle.qoi.specs.inner.block.Storing.{HaveCodes, AreEight, total, order_of, close_bytes, sixteen_chunks};

use crate::encode::block::lanes::{halves, lesser};
use crate::encode::block::planes::Words;
use std::simd::prelude::*;

// The orders of four numbers' bytes, from those of the last three: no byte of the first one stands
// below these, or one, two or all four.
macro_rules! orders {
    ($($rest:literal)*) => {
        [$($rest, $rest << 8, 0x0100 | $rest << 16, 0x0302_0100 | $rest << 32),*]
    };
}

// How the bytes of four numbers are moved together, of each the lowest ones: as many as four codes
// of two bits say, which are 0, 1, 2 or 3 for 0, 1, 2 or 4 bytes. An order is a number of 128 bits.
// Its bytes, the lowest first, say where each byte stands; those past the last one are unused. Such
// numbers are aligned, so that a shuffle reads its order from memory itself.
#[rattlefmt::skip]
static ORDERS: [u128; 256] = orders! {
    0x0 0x04 0x0504 0x07060504
    0x08 0x0804 0x080504 0x0807060504
    0x0908 0x090804 0x09080504 0x090807060504
    0x0b0a0908 0x0b0a090804 0x0b0a09080504 0x0b0a090807060504
    0x0c 0x0c04 0x0c0504 0x0c07060504
    0x0c08 0x0c0804 0x0c080504 0x0c0807060504
    0x0c0908 0x0c090804 0x0c09080504 0x0c090807060504
    0x0c0b0a0908 0x0c0b0a090804 0x0c0b0a09080504 0x0c0b0a090807060504
    0x0d0c 0x0d0c04 0x0d0c0504 0x0d0c07060504
    0x0d0c08 0x0d0c0804 0x0d0c080504 0x0d0c0807060504
    0x0d0c0908 0x0d0c090804 0x0d0c09080504 0x0d0c090807060504
    0x0d0c0b0a0908 0x0d0c0b0a090804 0x0d0c0b0a09080504 0x0d0c0b0a090807060504
    0x0f0e0d0c 0x0f0e0d0c04 0x0f0e0d0c0504 0x0f0e0d0c07060504
    0x0f0e0d0c08 0x0f0e0d0c0804 0x0f0e0d0c080504 0x0f0e0d0c0807060504
    0x0f0e0d0c0908 0x0f0e0d0c090804 0x0f0e0d0c09080504 0x0f0e0d0c090807060504
    0x0f0e0d0c0b0a0908 0x0f0e0d0c0b0a090804 0x0f0e0d0c0b0a09080504 0x0f0e0d0c0b0a090807060504
};

// How many bytes four codes mean, from those that the last three mean.
macro_rules! totals {
    ($($rest:literal)*) => {
        [$($rest, $rest + 1, $rest + 2, $rest + 4),*]
    };
}

// How many bytes four codes mean.
#[rattlefmt::skip]
static TOTALS: [u8; 256] = totals! {
    0 1 2 4 1 2 3 5 2 3 4 6 4 5 6 8
    1 2 3 5 2 3 4 6 3 4 5 7 5 6 7 9
    2 3 4 6 3 4 5 7 4 5 6 8 6 7 8 10
    4 5 6 8 5 6 7 9 6 7 8 10 8 9 10 12
};

// The sixteen bytes of a number, the lowest first.
#[inline(always)]
fn bytes_of(number: u128) -> u8x16
    ensures { result ≡ digits_l 256 16 number }
{
    let low = number % 0x1_0000_0000_0000_0000;
    u64x2::from_array([low as u64, (number >> 64) as u64]).to_le_bytes()
}

// The order for four codes.
#[inline(always)]
fn order(codes: u8) -> u8x16
    ensures order { take (total codes) result ≡ order_of codes }
    ensures long { length result ≡ 16 }
    ensures below { IsTrue (all_below 16 result) }
{
    bytes_of(ORDERS[codes as usize])
}

// Stores the bytes of four numbers moved together, and returns where they end.
#[inline(always)]
fn store_four_shuffled(out: &mut [u8], at: usize, codes: u8, numbers: u32x4) -> usize
    requires { at + 16 ≤ length out.old }
    ensures same { length out.new ≡ length out.old }
    ensures near { (at ≤ result) × (result ≤ at + 16) }
    ensures written { take result out.new ≡ take at out.old ++ close_bytes codes numbers }
{
    numbers
        .to_le_bytes()
        .swizzle_dyn_within::<16>(order(codes))
        .copy_to_slice(&mut out[at..at + 16]);
    at + usize::from(TOTALS[codes as usize])
}

// Eight codes, each the low bits of a byte, as two numbers of four. The factor's bits move the first
// four side by side into the product's fourth byte, and the last four into its eighth.
#[tactic(auto, using(crate::proofs::encoding::stores::FourChunks::codes_joined))]
#[inline(always)]
fn join(codes: u64) -> [u8; 2]
    ensures { (cs : List ℕ) → AreEight 3 cs codes
        → result ≡ number_l 4 (take 4 cs) ∷ number_l 4 (drop 4 cs) ∷ [] }
{
    let sums = codes.wrapping_mul(0x0104_1040);
    [((sums >> 24) % 256) as u8, (sums >> 56) as u8]
}

/// Stores the chunks of sixteen pixels from `at` on, and returns where they end, if each has at
/// most four bytes. These stand in `chunks`, and `size` says how many each has: none has three.
#[inline(always)]
pub(in crate::encode) fn store_shuffled(
    out: &mut [u8],
    at: usize,
    size: u8x16,
    chunks: Words,
) -> usize
    requires room { at + 64 ≤ length out.old }
    ensures same { length out.new ≡ length out.old }
    ensures near { (at ≤ result) × (result ≤ at + 64) }
    ensures written { (alphas : List ℕ) → HaveCodes size
        → take result out.new ≡ take at out.old ++ sixteen_chunks size chunks alphas }
{
    // Code 3 stands for four bytes (`ORDERS`).
    let codes = halves(lesser(size, u8x16::splat(3)));
    let (first, second) = (join(codes[0]), join(codes[1]));
    let end = store_four_shuffled(out, at, first[0], chunks.one);
    let end = store_four_shuffled(out, end, first[1], chunks.two);
    let end = store_four_shuffled(out, end, second[0], chunks.three);
    store_four_shuffled(out, end, second[1], chunks.four)
}
