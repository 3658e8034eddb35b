//! Pixels as single numbers of 32 bits.
ghost use Rattle.std.specs.Prelude.{◌≡◌, ◌↔◌, ◌+◌, ◌*◌, ◌%◌, ◌<◌, ◌≤◌, length, take, drop, replicate, IsTrue};
ghost use Rattle.std.proofs.Common.{sym};
ghost use Rattle.qoi.specs.Qoi.{RgbaPixel, IsPixel, pixel, rgba, blank, hash};
ghost use Rattle.qoi.specs.Raw.{IsChannels, output};
ghost use Rattle.qoi.specs.inner.Packed.{word, pixel_of_word};

use std::marker::Model;
use std::simd::{Simd, u8x4, u8x16, u64x2};

// 4 * (3 * 2^56 + 7 * 2^40 + 5 * 2^16 + 11): the six highest bits of its product with a pixel that is
// spread over 64 bits (red, blue, green and alpha from bits 0, 16, 40 and 56 on) are
// 3 r + 5 g + 7 b + 11 a modulo 64. The decoder's LANES_FACTOR is for another order.
const SPREAD_FACTOR: u64 = 0x0c00_1c00_0014_002c;

/// A pixel in 32 bits: red in the lowest byte, then green, blue and alpha.
///
/// A contract sees the pixel.
#[derive(Clone, Copy)]
pub(crate) struct Packed(u32);

impl Model for Packed {
    ghost Value = { RgbaPixel };

    ghost view = { λ p. pixel_of_word p.0 };

    ghost invariant = { λ p. p.0 ≡ word (pixel_of_word p.0) };

    ghost inverse = { λ p. record { 0 = word p } };

    ghost inverse_ok = { λ p h i. record { 0 = sym h i } };
}

impl Packed {
    /// Transparent black.
    #[tactic(auto, unfolding(crate::specs::Qoi::blank))]
    pub(crate) fn blank() -> Packed
        ensures { result ≡ blank }
    {
        Packed(0)
    }

    /// A pixel of four channels.
    #[inline(always)]
    pub(crate) fn new(r: u8, g: u8, b: u8, a: u8) -> Packed
        ensures { result ≡ pixel r g b a }
    {
        Packed(u32::from_le_bytes([r, g, b, a]))
    }

    /// The pixel of a number.
    #[inline(always)]
    pub(crate) fn of_number(number: u32) -> Packed
        ensures { result ≡ pixel_of_word number }
    {
        Packed(number)
    }

    /// The pixel that the first `N` bytes mean; of three channels it is opaque.
    #[inline(always)]
    pub(crate) fn read<const N: usize>(bytes: &[u8]) -> Packed
        requires channels { IsChannels N }
        requires enough { N ≤ length bytes.now }
        ensures { result ≡ rgba (take N bytes.now) }
    {
        if bytes.len() < 4 {
            return Packed::new(bytes[0], bytes[1], bytes[2], 0xff);
        }
        // Four bytes are read at once.
        let four = Simd::<u32, 1>::from_le_bytes(u8x4::from_slice(bytes)).to_array()[0];
        if N == 4 {
            return Packed(four);
        }
        Packed(four % 0x100_0000 + 0xff00_0000)
    }

    /// Red.
    #[inline(always)]
    pub(crate) fn r(self) -> u8
        ensures { result ≡ self.r }
    {
        (self.0 % 256) as u8
    }

    /// Green.
    #[inline(always)]
    pub(crate) fn g(self) -> u8
        ensures { result ≡ self.g }
    {
        (self.0 / 256 % 256) as u8
    }

    /// Blue.
    #[inline(always)]
    pub(crate) fn b(self) -> u8
        ensures { result ≡ self.b }
    {
        (self.0 / 0x1_0000 % 256) as u8
    }

    /// Alpha.
    #[inline(always)]
    pub(crate) fn a(self) -> u8
        ensures { result ≡ self.a }
    {
        (self.0 / 0x100_0000) as u8
    }

    /// Its number.
    #[inline(always)]
    pub(crate) fn number(self) -> u32
        ensures number { result ≡ word self }
        ensures bytes { IsPixel self }
    {
        self.0
    }

    /// The `PART`th sixteen of the bytes that the pixel has when it is written sixteen times in `N`
    /// channels.
    #[inline(always)]
    pub(crate) fn repeated<const N: usize, const PART: usize>(self) -> u8x16
        requires channels { IsChannels N }
        requires part { PART < N }
        ensures bytes { result ≡ take 16 (drop (16 * PART) (output N N (replicate 16 self))) }
        ensures sixteen { length result ≡ 16 }
    {
        let word = u64::from(self.number());
        let four = u64x2::splat(word * 0x1_0000_0001).to_le_bytes();
        if N == 4 {
            return four;
        }
        if PART == 0 {
            return four.swizzle([0, 1, 2, 0, 1, 2, 0, 1, 2, 0, 1, 2, 0, 1, 2, 0]);
        }
        if PART == 1 {
            return four.swizzle([1, 2, 0, 1, 2, 0, 1, 2, 0, 1, 2, 0, 1, 2, 0, 1]);
        }
        four.swizzle([2, 0, 1, 2, 0, 1, 2, 0, 1, 2, 0, 1, 2, 0, 1, 2])
    }

    /// Whether both are the same pixel.
    #[inline(always)]
    pub(crate) fn is_same(self, other: Packed) -> bool
        ensures { IsTrue result ↔ (self ≡ other) }
    {
        self.0 == other.0
    }

    /// The index position of the pixel, 0 to 63 (QOI specification 1.0, "Chunks"): by one product.
    #[tactic(auto, using(crate::proofs::format::PackedPixels::word_spread, crate::proofs::format::PackedPixels::product_is_hash))]
    pub(crate) fn hash_index(self) -> u8
        ensures position { result ≡ hash self }
        ensures within { result < 64 }
    {
        let word = u64::from(self.number());
        let spread = ((word & 0xff00_ff00) << 32) | (word & 0x00ff_00ff);
        (spread.wrapping_mul(SPREAD_FACTOR) >> 58) as u8
    }
}
