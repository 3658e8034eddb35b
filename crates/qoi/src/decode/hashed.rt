//! Pixels as single numbers that hold their index positions too.
ghost use Rattle.std.specs.Prelude.{◌≡◌, ◌⊎◌, ℕ, ◌<◌, ◌≤◌, length, take, slice_index, replicate};
ghost use Rattle.qoi.specs.Qoi.{pixel, start, hash, positions, rgb_tag};
ghost use Rattle.qoi.specs.Raw.{IsChannels, output};
ghost use Rattle.qoi.specs.inner.Hashed.{pixel_of_lanes, IsPlain, IsHashed, IsAfterShort, IsAfterFull};

use crate::decode::deltas::{kept_by, read_by, second_added};
use crate::decode::table::SizedTerms;
use std::marker::Model;
use std::simd::{Simd, u8x4, u8x8, u8x16, u16x4, u16x8, u64x2};

// 4 * (3 * 2^56 + 5 * 2^40 + 7 * 2^24 + 11 * 2^8): the eight highest bits of its product with a
// pixel in lanes of 16 bits (red, green, blue and alpha from bits 0, 16, 32 and 48 on) are the eight
// lowest ones of 4 (3 r + 5 g + 7 b + 11 a). `Packed` has SPREAD_FACTOR, for another order.
const LANES_FACTOR: u64 = 0x0c00_1400_1c00_2c00;

// 1 + 4 * 11 * 2^8: its product with alpha alone is alpha and its share of the index position.
const ALPHA_FACTOR: u64 = 0x2c01;

// Whether the machine has vectors of bytes. In the page's copy `bindings/build` writes `false`: the
// compiler for WebAssembly, which has none here, would store their bytes one by one.
const HAS_VECTORS: bool = true;

/// A pixel and its index position in 64 bits: red, green, blue and alpha from bits 0, 16, 32 and 48
/// on, and four times the position in the eight highest ones. Above red, green and blue stand eight
/// bits each that count for nothing, so that sums need not be cut; what the position carries is
/// lost, and to alpha nothing is added.
///
/// A contract sees the number, whose pixel is `pixel_of_lanes`.
#[derive(Clone, Copy)]
pub(super) struct Hashed(u64);

impl Model for Hashed {
    ghost Value = { ℕ };

    ghost view = { λ p. p.0 };

    ghost invariant = { λ p. IsHashed p.0 };

    ghost inverse = { λ s. record { 0 = s } };

    ghost inverse_ok = { λ p h i. record { 0 = p.0 } };
}

impl Hashed {
    /// Opaque black, the pixel before the first one.
    pub(super) fn start() -> Hashed
        ensures { pixel_of_lanes result ≡ start }
    {
        Hashed(0xd4ff_0000_0000_0000)
    }

    /// The index position of the pixel, 0 to 63 (QOI specification 1.0, "Chunks").
    #[inline(always)]
    pub(super) fn position(self) -> usize
        ensures position { result ≡ hash (pixel_of_lanes self) }
        ensures within { result < positions }
    {
        (self.0 >> 58) as usize
    }

    /// The number.
    #[inline(always)]
    pub(super) fn number(self) -> u64
        ensures is { result ≡ self }
        ensures hashed { IsHashed result }
    {
        self.0
    }

    // The pixel of four lanes of 16 bits, above whose channels nothing stands.
    #[inline(always)]
    fn of_lanes(lanes: u64) -> Hashed
        requires { IsPlain lanes }
        ensures { pixel_of_lanes result ≡ pixel_of_lanes lanes }
    {
        let hash = lanes.wrapping_mul(LANES_FACTOR) >> 56;
        Hashed((hash << 56) + lanes)
    }

    /// A pixel of four channels.
    #[inline(always)]
    pub(super) fn new(r: u8, g: u8, b: u8, a: u8) -> Hashed
        ensures { pixel_of_lanes result ≡ pixel r g b a }
    {
        let (r, g, b, a) = (u64::from(r), u64::from(g), u64::from(b), u64::from(a));
        Hashed::of_lanes(r + (g << 16) + (b << 32) + (a << 48))
    }

    /// The pixel after an index position, a difference, a luma or a run of any length: `b1` is its
    /// first byte, `b2` the byte after that, which counts only for a luma (QOI specification 1.0,
    /// "Chunks"). One sum, without a jump. What the table holds is known last, so it is added last.
    #[inline(always)]
    pub(super) fn after_short<const SIZE: usize>(
        self,
        table: &SizedTerms<SIZE>,
        b1: usize,
        b2: u8,
    ) -> Hashed
        requires { b1 < rgb_tag }
        ensures { IsAfterShort b1 b2 table.now (pixel_of_lanes self) (pixel_of_lanes result) }
    {
        let own = self.0 & kept_by(b1);
        let more = second_added(b2 as usize) & read_by(b1);
        Hashed(own.wrapping_add(more).wrapping_add(table.at(b1)))
    }

    /// The pixel of the RGB or RGBA chunk that the bytes begin with, whose first byte is `b1`; after
    /// an RGB chunk alpha stays (QOI specification 1.0, "QOI_OP_RGB" and "QOI_OP_RGBA"). One sum for
    /// both, without a jump. `READS` bytes are read at once, four or eight.
    #[inline(always)]
    pub(super) fn after_full<const READS: usize>(self, b1: usize, bytes: &[u8]) -> Hashed
        requires full { (rgb_tag ≤ b1) × (b1 < 256) }
        requires reads { ((READS ≡ 4) ⊎ (READS ≡ 8)) × (READS < length bytes.now) }
        ensures { IsAfterFull b1 bytes.now (pixel_of_lanes self) (pixel_of_lanes result) }
    {
        let own = (self.0 & kept_by(b1)).wrapping_mul(ALPHA_FACTOR);
        let read = Hashed::of_lanes(four_lanes::<READS>(&bytes[1..]) & read_by(b1));
        Hashed(own.wrapping_add(read.0))
    }

    /// The first sixteen bytes of the pixel when it is written again and again in `N` channels, of
    /// a file of `F` channels.
    #[inline(always)]
    pub(super) fn repeated<const N: usize, const F: usize>(self) -> u8x16
        requires { IsChannels N }
        ensures { result ≡ take 16 (output F N (replicate 6 (pixel_of_lanes self))) }
    {
        let lanes = if N == 3 || F == 4 {
            self.0
        } else {
            self.0 % 0x1_0000_0000_0000 + 0xff_0000_0000_0000
        };
        if N == 4 && !HAS_VECTORS {
            return four_times(lanes);
        }
        let bytes = u64x2::from_array([lanes, 0]).to_le_bytes();
        if N == 4 {
            return bytes.swizzle([0, 2, 4, 6, 0, 2, 4, 6, 0, 2, 4, 6, 0, 2, 4, 6]);
        }
        bytes.swizzle([0, 2, 4, 0, 2, 4, 0, 2, 4, 0, 2, 4, 0, 2, 4, 0])
    }
}

// The four channels of lanes of 16 bits, four times, by a number.
#[inline(always)]
fn four_times(lanes: u64) -> u8x16
    ensures { result ≡ take 16 (output 4 4 (replicate 6 (pixel_of_lanes lanes))) }
{
    let (r, g) = (lanes % 256, (lanes >> 16) % 256);
    let (b, a) = ((lanes >> 32) % 256, (lanes >> 48) % 256);
    let pixel = r + g * 0x100 + b * 0x1_0000 + a * 0x100_0000;
    u64x2::splat(pixel * 0x1_0000_0001).to_le_bytes()
}

// The first four bytes in lanes of 16 bits. `READS` bytes are read at once: for eight one instruction
// reads and spreads them.
#[inline(always)]
fn four_lanes<const READS: usize>(bytes: &[u8]) -> u64
    requires { ((READS ≡ 4) ⊎ (READS ≡ 8)) × (READS ≤ length bytes.now) }
    ensures pixel { pixel_of_lanes result ≡ pixel (slice_index bytes.now 0)
        (slice_index bytes.now 1) (slice_index bytes.now 2) (slice_index bytes.now 3) }
    ensures plain { IsPlain result }
{
    if READS == 8 {
        let eight: u16x8 = u8x8::from_slice(bytes).cast();
        return u64x2::from_le_bytes(eight.to_le_bytes()).to_array()[0];
    }
    let four: u16x4 = u8x4::from_slice(bytes).cast();
    Simd::<u64, 1>::from_le_bytes(four.to_le_bytes()).to_array()[0]
}
