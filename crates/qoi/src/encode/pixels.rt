//! Raw bytes of whole pixels.
ghost use Rattle.std.specs.Prelude.{◌≡◌, ◌≢◌, ◌↔◌, ◌+◌, ◌*◌, ◌%◌, ◌≤◌, ◌<◌, [], ◌∷◌, length, take, drop, IsTrue, slice_get, Some};
ghost use Rattle.qoi.specs.Raw.{IsChannels, IsChannels-prop, pixels_of};
ghost use Rattle.qoi.specs.Styles.{style_in};

use crate::encode::piece::REPEATS_AT_ONCE;
use crate::packed::Packed;
use crate::types::Style::{self, Reference};
use crate::utils::skip;

/// Raw bytes of whole pixels, which have `N` bytes each.
#[derive(Clone, Copy)]
pub(super) struct Pixels<'a, const N: usize> {
    pub(super) bytes: &'a [u8],
    ghost channels: { IsChannels N } by { IsChannels-prop N },
    ghost whole: { length bytes.now % N ≡ 0 },
}

/// A pixel of `N` channels: in three it is opaque.
#[derive(Clone, Copy)]
pub(super) struct PixelOf<const N: usize> {
    pub(super) px: Packed,
    ghost opaque: { N ≡ 3 → px.a ≡ 255 },
}

/// The pixels of a loop over blocks: `rest`, those that are left, sixteen or more; `whole`, all of
/// them, by which `goes_by_marks` knows the loop's first block; and the style that the loop is told.
#[derive(Clone, Copy)]
pub(super) struct LoopPixels<'a, const N: usize> {
    pub(super) rest: Pixels<'a, N>,
    pub(super) whole: Pixels<'a, N>,
    pub(super) style: Style,
    ghost enough: { 16 ≤ length (pixels_of N rest.bytes.now) },
    ghost long: { N * 16 ≤ length rest.bytes.now },
}

/// `STYLE` of a loop over blocks whose style is the constant `Reference`.
pub(super) const AS_REFERENCE: u8 = 0;

/// `STYLE` of a loop over blocks that is told its style.
pub(super) const AS_TOLD: u8 = 1;

/// `STYLE` of a loop as `AS_REFERENCE` where an RGBA chunk is expected to give each pixel.
pub(super) const ALL_RGBA: u8 = 2;

/// The style of a loop over blocks, which is the image's: a constant for the compiler, or the one
/// that the loop is told.
#[inline(always)]
pub(super) fn style_in<const STYLE: u8>(told: Style) -> Style
    ensures { result ≡ style_in STYLE told }
{
    if STYLE == AS_TOLD { told } else { Reference }
}

impl<'a, const N: usize> Pixels<'a, N> {
    ghost use Rattle.qoi.specs.inner.Coder.{pixels_in, REPEATS_AT_ONCE};

    /// The pixels of raw bytes.
    #[tactic(auto, using(crate::proofs::encoding::coder::PixelsIn::sizes))]
    #[inline(always)]
    pub(super) fn new(bytes: &'a [u8]) -> Pixels<'a, N>
        requires channels { IsChannels N }
        requires whole { length bytes.now % N ≡ 0 }
        ensures bytes { result.bytes.now ≡ bytes.entry.now }
        ensures block { 16 * N ≤ length bytes.entry.now → 16 ≤ length (pixels_in result) }
    {
        Pixels { bytes }
    }

    /// Whether there is none.
    #[inline(always)]
    pub(super) fn is_empty(self) -> bool
        ensures { IsTrue result ↔ (pixels_in self.entry ≡ []) }
    {
        self.bytes.is_empty()
    }

    /// Whether there are as many as a block has.
    #[tactic(auto, using(crate::proofs::encoding::coder::PixelsIn::sizes))]
    #[inline(always)]
    pub(super) fn has_block(self) -> bool
        ensures block { IsTrue result ↔ (16 ≤ length (pixels_in self.entry)) }
        ensures long { IsTrue result → N * 16 ≤ length self.entry.bytes.now }
    {
        self.bytes.len() >= 16 * N
    }

    /// These pixels, a block or more, as those left of a loop's `whole`, which is told this style.
    #[tactic(auto, using(crate::proofs::encoding::coder::PixelsIn::bytes_within))]
    #[inline(always)]
    pub(super) fn in_loop(self, whole: Pixels<'a, N>, style: Style) -> LoopPixels<'a, N>
        requires { 16 ≤ length (pixels_in self) }
        ensures rest { result.rest ≡ self.entry }
        ensures whole { result.whole ≡ whole.entry }
        ensures style { result.style ≡ style }
    {
        LoopPixels {
            rest: self,
            whole,
            style,
        }
    }

    /// The first one.
    #[inline(always)]
    pub(super) fn first(self) -> PixelOf<N>
        requires { pixels_in self ≢ [] }
        ensures { pixels_in self.entry ≡ result.px ∷ drop 1 (pixels_in self.entry) }
    {
        PixelOf {
            px: Packed::read::<N>(self.bytes),
        }
    }

    /// Whether this one stands at the front.
    #[inline(always)]
    pub(super) fn begin_with(self, px: Packed) -> bool
        ensures { IsTrue result ↔ (slice_get (pixels_in self.entry) 0 ≡ Some px) }
    {
        self.bytes.len() >= N && Packed::read::<N>(self.bytes).is_same(px)
    }

    /// The first `most` pixels, or all if there are fewer.
    #[tactic(auto, using(crate::proofs::encoding::coder::PixelsIn::pixels_near))]
    #[inline(always)]
    pub(super) fn at_most(self, most: usize) -> Pixels<'a, N>
        requires { most ≤ REPEATS_AT_ONCE }
        ensures { pixels_in result ≡ take most (pixels_in self.entry) }
    {
        let (front, _) = self.bytes.split_at(self.bytes.len().min(N * most));
        Pixels { bytes: front }
    }

    /// Those after the first `count`.
    #[tactic(auto, using(crate::proofs::encoding::coder::PixelsIn::bytes_within))]
    #[inline(always)]
    pub(super) fn skip(self, count: usize) -> Pixels<'a, N>
        requires { count ≤ length (pixels_in self) }
        ensures rest { pixels_in result ≡ drop count (pixels_in self.entry) }
        ensures size { length (pixels_in result) + count ≡ length (pixels_in self.entry) }
    {
        Pixels {
            bytes: skip(self.bytes, N * count),
        }
    }
}
