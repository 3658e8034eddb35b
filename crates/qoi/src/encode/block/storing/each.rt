//! Chunks of at most five bytes, each stored on its own: where the sizes of those before it say.
ghost use lib.Lanes.{digits_l, sum_l};
ghost use Rattle.std.specs.Prelude.{◌≡◌, ◌+◌, ◌*◌, ◌/◌, ◌%◌, ◌^◌, ◌≤◌, ◌<◌, ℕ, List, ◌++◌, length, take, slice_index};
ghost use Rattle.qoi.specs.inner.block.Storing.{HoldChunks, four_parts, AreEight, sixteen_chunks};

use crate::encode::block::lanes::{halves, lesser};
use crate::encode::block::planes::{Words, join_lanes};
use std::simd::prelude::*;

// Four numbers, each with an alpha above it.
#[tactic(auto, using(crate::proofs::encoding::stores::EachChunk::chunks_held))]
#[inline(always)]
fn with_alphas(numbers: u32x4, alphas: u32x4) -> [u64; 4]
    ensures { HoldChunks result numbers alphas }
{
    let (low, high) = numbers.interleave(alphas);
    let first = halves(low.to_le_bytes());
    let second = halves(high.to_le_bytes());
    [first[0], first[1], second[0], second[1]]
}

// Where each of eight chunks ends: a byte for each.
#[tactic(auto, using(crate::proofs::encoding::stores::PrefixSums::prefix_sums))]
#[inline(always)]
fn ends(sizes: u64) -> u64
    ensures { (ss : List ℕ) → AreEight 5 ss sizes → (k : ℕ) → k < 8
        → result / 2 ^ (8 * k) % 256 ≡ sum_l (take (k + 1) ss) }
{
    sizes.wrapping_mul(0x0101_0101_0101_0101)
}

// The end of one chunk.
#[inline(always)]
fn after(ends: u64, k: u32) -> usize
    requires { k < 8 }
    ensures { result ≡ ends / 2 ^ (8 * k) % 256 }
{
    ((ends >> (8 * k)) % 256) as usize
}

// Stores the eight bytes of a number: those of a chunk, whatever its size, and others after them.
#[inline(always)]
fn store_number(out: &mut [u8], at: usize, number: u64)
    requires room { at + 8 ≤ length out.old }
    ensures same { length out.new ≡ length out.old }
    ensures written { (size : ℕ) → size ≤ 8
        → take (at + size) out.new ≡ take at out.old ++ take size (digits_l 256 8 number) }
{
    Simd::<u64, 1>::from_array([number])
        .to_le_bytes()
        .copy_to_slice(&mut out[at..at + 8]);
}

// Stores four numbers, each from its start on, which is counted after `at`.
#[inline(always)]
fn store_four(out: &mut [u8], at: usize, starts: [usize; 4], numbers: [u64; 4])
    requires few { (k : ℕ) → k < 4 → slice_index starts k ≤ 35 }
    requires room { at + 43 ≤ length out.old }
    ensures same { length out.new ≡ length out.old }
    ensures written { (ss : List ℕ) (n : ℕ) → ((k : ℕ) → slice_index ss k ≤ 5)
        → ((k : ℕ) → k < 4 → slice_index starts k ≡ sum_l (take (n + k) ss))
        → take (at + sum_l (take (n + 4) ss)) out.new
        ≡ take (at + sum_l (take n ss)) out.old ++ four_parts ss n numbers }
{
    store_number(out, at + starts[0], numbers[0]);
    store_number(out, at + starts[1], numbers[1]);
    store_number(out, at + starts[2], numbers[2]);
    store_number(out, at + starts[3], numbers[3]);
}

// Stores eight chunks of these sizes from `at` on, and returns where they end.
#[inline(always)]
fn store_eight(out: &mut [u8], at: usize, sizes: u64, one: [u64; 4], two: [u64; 4]) -> usize
    requires sizes { (ss : List ℕ) × AreEight 5 ss sizes }
    requires room { at + 43 ≤ length out.old }
    ensures same { length out.new ≡ length out.old }
    ensures near { (at ≤ result) × (result ≤ at + 40) }
    ensures written { (ss : List ℕ) → AreEight 5 ss sizes
        → take result out.new ≡ take at out.old ++ (four_parts ss 0 one ++ four_parts ss 4 two) }
{
    let e = ends(sizes);
    store_four(out, at, [0, after(e, 0), after(e, 1), after(e, 2)], one);
    store_four(
        out,
        at,
        [after(e, 3), after(e, 4), after(e, 5), after(e, 6)],
        two,
    );
    at + after(e, 7)
}

/// Stores the chunks of sixteen pixels from `at` on, and returns where they end. Four bytes
/// of each stand in `chunks`, the fifth is `alpha`, and `size` says how many it has.
#[inline(always)]
pub(in crate::encode) fn store_each(
    out: &mut [u8],
    at: usize,
    size: u8x16,
    chunks: Words,
    alpha: u8x16,
) -> usize
    requires room { at + 83 ≤ length out.old }
    ensures same { length out.new ≡ length out.old }
    ensures near { (at ≤ result) × (result ≤ at + 80) }
    ensures written { ((k : ℕ) → slice_index size k ≤ 5)
        → take result out.new ≡ take at out.old ++ sixteen_chunks size chunks alpha }
{
    let none = u8x16::splat(0);
    let a = join_lanes(alpha, none, none, none);
    let one = with_alphas(chunks.one, a.one);
    let two = with_alphas(chunks.two, a.two);
    let three = with_alphas(chunks.three, a.three);
    let four = with_alphas(chunks.four, a.four);
    // A chunk has at most five bytes, so this changes no size; but it bounds them.
    let sizes = halves(lesser(size, u8x16::splat(5)));
    let end = store_eight(out, at, sizes[0], one, two);
    store_eight(out, end, sizes[1], three, four)
}
