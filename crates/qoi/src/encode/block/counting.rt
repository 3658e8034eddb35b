//! Repeats of sixteen pixels, counted lane by lane.
ghost use Rattle.std.specs.Prelude.{◌≡◌, ◌<◌, Bool, List, length, map, ℕ, slice_index};
ghost use Rattle.qoi.specs.Qoi.{run_max};
ghost use Rattle.qoi.specs.inner.block.Vectors.{counts, IsMost};
ghost use Rattle.qoi.specs.inner.block.Lanes.{mask};

use crate::encode::block::lanes::{greater, shift_in};
use std::simd::prelude::*;

// The lanes two, four and eight further on, after lanes of another vector.
const TWO_ON: [usize; 16] = [
    14, 15, 16, 17, 18, 19, 20, 21, 22, 23, 24, 25, 26, 27, 28, 29,
];

const FOUR_ON: [usize; 16] = [
    12, 13, 14, 15, 16, 17, 18, 19, 20, 21, 22, 23, 24, 25, 26, 27,
];

const EIGHT_ON: [usize; 16] = [8, 9, 10, 11, 12, 13, 14, 15, 16, 17, 18, 19, 20, 21, 22, 23];

// In each lane the greatest up to it.
#[inline(always)]
fn running_most(v: u8x16) -> u8x16
    ensures most { (k : ℕ) → k < 16 → IsMost v 16 k (slice_index result k) }
    ensures long { length result ≡ 16 }
{
    let zero = u8x16::splat(0);
    let two = greater(v, shift_in(zero, v));
    let four = greater(two, zero.shuffle(two, TWO_ON));
    let eight = greater(four, zero.shuffle(four, FOUR_ON));
    greater(eight, zero.shuffle(eight, EIGHT_ON))
}

/// How many repeats end with each lane, after `carried` repeats that came before: the lane's number
/// less that of the last one which doesn't repeat.
#[inline(always)]
pub(in crate::encode) fn count_repeats(rep: u8x16, carried: u8) -> u8x16
    requires { carried < run_max }
    ensures { (rs : List Bool) → length rs ≡ 16 → rep ≡ map mask rs → result ≡ counts carried rs }
{
    // 64 and the lane's number.
    let lanes = u8x16::from_array([
        64, 65, 66, 67, 68, 69, 70, 71, 72, 73, 74, 75, 76, 77, 78, 79,
    ]);
    // The same of the last lane so far that doesn't repeat (`lanes & !rep` is 0 in those that do),
    // or of the pixel before the block that `carried` repeats follow.
    let most = greater(running_most(lanes & !rep), u8x16::splat(63 - carried));
    lanes - most
}
