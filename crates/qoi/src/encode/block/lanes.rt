//! Vectors of sixteen bytes: a lane for each of sixteen pixels.
ghost use lib.Lanes.{number_l, mask_l, zip2};
ghost use Rattle.std.specs.Prelude.{◌≡◌, Bool, List, length, map, slice_index, ◌-◌, ◌==◌, [], ◌∷◌, min, max, take, drop, not};
ghost use Rattle.std.specs.List.{list_all};
ghost use Rattle.qoi.specs.inner.block.Lanes.{mask};

use std::simd::prelude::*;

/// 255 in each lane that is `n`, else 0.
#[inline(always)]
pub(in crate::encode) fn where_is(v: u8x16, n: u8) -> u8x16
    ensures { result ≡ map (λ x. mask (x == n)) v }
{
    v.simd_eq(u8x16::splat(n))
        .select(u8x16::splat(255), u8x16::splat(0))
}

/// The lesser of each two lanes.
#[inline(always)]
pub(in crate::encode) fn lesser(v: u8x16, w: u8x16) -> u8x16
    ensures { result ≡ zip2 min v w }
{
    v.simd_min(w)
}

/// The greater of each two lanes.
#[inline(always)]
pub(in crate::encode) fn greater(v: u8x16, w: u8x16) -> u8x16
    ensures { result ≡ zip2 max v w }
{
    v.simd_max(w)
}

/// Eight lanes each, as the bytes of a number.
#[tactic(auto, using(crate::proofs::encoding::stores::PrefixSums::as_halves))]
#[inline(always)]
pub(in crate::encode) fn halves(v: u8x16) -> [u64; 2]
    ensures { result ≡ number_l 256 (take 8 v) ∷ number_l 256 (drop 8 v) ∷ [] }
{
    u64x2::from_le_bytes(v).to_array()
}

/// The lanes, one further on; the first is the last one of `before`.
#[tactic(auto, using(crate::proofs::encoding::lanes::LaneTests::one_later))]
#[inline(always)]
pub(in crate::encode) fn shift_in(before: u8x16, v: u8x16) -> u8x16
    ensures { result ≡ slice_index before 15 ∷ take 15 v }
{
    before.shuffle(
        v,
        [
            15, 16, 17, 18, 19, 20, 21, 22, 23, 24, 25, 26, 27, 28, 29, 30,
        ],
    )
}

/// Whether all lanes of a mask are set.
#[inline(always)]
pub(in crate::encode) fn all_set(v: u8x16) -> bool
    ensures { (bs : List Bool) → length bs ≡ 16 → v ≡ map mask bs → result ≡ list_all (λ b. b) bs }
{
    v.simd_eq(u8x16::splat(255)).to_bitmask() == 0xffff
}

/// A bit for each lane of a mask that isn't set, the lowest for the first.
#[inline(always)]
pub(in crate::encode) fn unset_bits(v: u8x16) -> u64
    ensures { (bs : List Bool) → length bs ≡ 16 → v ≡ map mask bs
        → result ≡ mask_l (map not bs) }
{
    v.simd_eq(u8x16::splat(0)).to_bitmask()
}
