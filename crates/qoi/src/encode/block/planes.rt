//! Sixteen pixels in planes: a vector of bytes for each channel (QOI specification 1.0, "Chunks").
ghost use lib.Lanes.{digits_l, number_l};
ghost use Rattle.std.specs.Prelude.{◌≡◌, ◌^◌, List, ◌++◌, take, drop, replicate, slice_index};
ghost use Rattle.qoi.specs.Qoi.{RgbaPixel, pixel_eq, blank};
ghost use Rattle.qoi.specs.Raw.{AreOpaque};
ghost use Rattle.qoi.specs.inner.block.Vectors.{AreMasks, ArePlanesBy};
ghost use Rattle.qoi.specs.inner.block.Lanes.{Lane};
ghost use Rattle.qoi.specs.inner.block.Planes.{AreFour, ArePacked, AreSixteen, AreFourWords, AreBlockWords, channel_words, ArePlanes, last_pixel};

use crate::encode::block::lanes::where_is;
use crate::encode::pixels::PixelOf;
use crate::packed::Packed;
use std::simd::prelude::*;

/// Sixteen numbers, four in each vector: packed pixels or, at last, the bytes of their chunks.
#[derive(Clone, Copy)]
pub(in crate::encode) struct Words {
    pub(in crate::encode) one: u32x4,
    pub(in crate::encode) two: u32x4,
    pub(in crate::encode) three: u32x4,
    pub(in crate::encode) four: u32x4,
}

/// Red, green, blue and alpha of sixteen pixels: a lane for each pixel.
#[derive(Clone, Copy)]
pub(in crate::encode) struct Planes {
    pub(in crate::encode) r: u8x16,
    pub(in crate::encode) g: u8x16,
    pub(in crate::encode) b: u8x16,
    pub(in crate::encode) a: u8x16,
}

impl Planes {
    /// The planes of sixteen times this pixel.
    #[inline(always)]
    pub(in crate::encode) fn splat<const N: usize>(pixel: PixelOf<N>) -> Planes
        ensures { last_pixel result ≡ pixel.entry.px }
    {
        let px = pixel.px;
        Planes {
            r: u8x16::splat(px.r()),
            g: u8x16::splat(px.g()),
            b: u8x16::splat(px.b()),
            a: known_alpha::<N>(u8x16::splat(px.a())),
        }
    }

    /// The last pixel.
    #[inline(always)]
    pub(in crate::encode) fn last(self) -> Packed
        ensures { result ≡ last_pixel self }
    {
        Packed::new(
            self.r.to_array()[15],
            self.g.to_array()[15],
            self.b.to_array()[15],
            self.a.to_array()[15],
        )
    }
}

/// 255 in each lane whose channels are all 0, else 0.
#[inline(always)]
pub(in crate::encode) fn blanks(p: Planes) -> u8x16
    ensures { (ls : List Lane) (f : Lane → RgbaPixel) → ArePlanesBy ls f p
        → AreMasks ls (λ l. pixel_eq (f l) blank) result }
{
    where_is(p.r | p.g | p.b | p.a, 0)
}

// The channels of four pixels: four bytes of red, then green, blue and alpha, each four as a
// number, since numbers take fewer instructions to shuffle.
#[tactic(auto, using(crate::proofs::encoding::lanes::WordPlanes::channels_of))]
#[inline(always)]
fn by_channel(w: u32x4) -> u32x4
    ensures packed { AreFour w }
    ensures channels { (ps : List RgbaPixel) → AreFourWords ps w → result ≡ channel_words ps }
{
    u32x4::from_le_bytes(
        w.to_le_bytes()
            .swizzle([0, 4, 8, 12, 1, 5, 9, 13, 2, 6, 10, 14, 3, 7, 11, 15]),
    )
}

// The lower halves of two vectors, and the upper ones, as bytes.
#[inline(always)]
fn both_halves(v: u32x4, w: u32x4) -> (u8x16, u8x16)
    ensures { (result.0 ≡ digits_l 256 16 (number_l (2 ^ 32) (take 2 v ++ take 2 w)))
        × (result.1 ≡ digits_l 256 16 (number_l (2 ^ 32) (drop 2 v ++ drop 2 w))) }
{
    let low: u32x4 = v.shuffle(w, [0, 1, 4, 5]);
    let high: u32x4 = v.shuffle(w, [2, 3, 6, 7]);
    (low.to_le_bytes(), high.to_le_bytes())
}

/// The alpha of sixteen pixels, or of the last one alone. In three channels it is 255, and returned
/// as a constant, so that the compiler leaves out what depends on it.
#[inline(always)]
pub(in crate::encode) fn known_alpha<const N: usize>(a: u8x16) -> u8x16
    ensures all { (N ≡ 3 → a ≡ replicate 16 255) → result ≡ a }
    ensures last { (N ≡ 3 → slice_index a 15 ≡ 255) → slice_index result 15 ≡ slice_index a 15 }
{
    if N == 3 {
        return u8x16::splat(255);
    }
    a
}

/// The planes of packed pixels. In three channels all must be opaque.
#[inline(always)]
pub(in crate::encode) fn make_planes<const N: usize>(w: Words) -> Planes
    ensures packed { ArePacked w }
    ensures planes { (ps : List RgbaPixel) → AreSixteen ps → AreBlockWords ps w
        → (N ≡ 3 → AreOpaque ps) → ArePlanes ps result }
{
    let (rg, ba) = by_channel(w.one).interleave(by_channel(w.two));
    let (rg2, ba2) = by_channel(w.three).interleave(by_channel(w.four));
    let (r, g) = both_halves(rg, rg2);
    let (b, a) = both_halves(ba, ba2);
    Planes {
        r,
        g,
        b,
        a: known_alpha::<N>(a),
    }
}

/// Four vectors lane by lane: each lane's four bytes as a number, that of the first one lowest. Of
/// the planes of pixels it would make the packed pixels.
#[inline(always)]
pub(in crate::encode) fn join_lanes(
    first: u8x16,
    second: u8x16,
    third: u8x16,
    fourth: u8x16,
) -> Words
    ensures { (ps : List RgbaPixel) → AreSixteen ps
        → ArePlanes ps (record { r = first; g = second; b = third; a = fourth })
        → AreBlockWords ps result }
{
    let (x0, x1) = first.interleave(second);
    let (y0, y1) = third.interleave(fourth);
    let n0: u8x16 = x0.shuffle(y0, [0, 1, 16, 17, 2, 3, 18, 19, 4, 5, 20, 21, 6, 7, 22, 23]);
    let n1: u8x16 = x0.shuffle(
        y0,
        [8, 9, 24, 25, 10, 11, 26, 27, 12, 13, 28, 29, 14, 15, 30, 31],
    );
    let n2: u8x16 = x1.shuffle(y1, [0, 1, 16, 17, 2, 3, 18, 19, 4, 5, 20, 21, 6, 7, 22, 23]);
    let n3: u8x16 = x1.shuffle(
        y1,
        [8, 9, 24, 25, 10, 11, 26, 27, 12, 13, 28, 29, 14, 15, 30, 31],
    );
    Words {
        one: u32x4::from_le_bytes(n0),
        two: u32x4::from_le_bytes(n1),
        three: u32x4::from_le_bytes(n2),
        four: u32x4::from_le_bytes(n3),
    }
}
