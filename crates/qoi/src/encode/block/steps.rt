//! To each of sixteen pixels from the one before it: the steps of all channels, and which pixels
//! repeat.
ghost use Rattle.std.specs.Prelude.{◌≡◌, ◌<◌, ◌+◌, ◌-◌, ◌%◌, ℕ, List, ◌∷◌, take, slice_index};
ghost use Rattle.qoi.specs.Qoi.{RgbaPixel};
ghost use Rattle.qoi.specs.inner.block.Vectors.{AreBy, ChangesFrom};
ghost use Rattle.qoi.specs.inner.block.Lanes.{Lane};
ghost use Rattle.qoi.specs.inner.block.Planes.{AreSixteen, ArePlanes};

use crate::encode::block::lanes::shift_in;
use crate::encode::block::planes::{Planes, blanks, known_alpha};
use std::simd::prelude::*;

/// The steps of one channel, where the last lane of `before` is the pixel before these.
#[inline(always)]
pub(in crate::encode) fn channel_steps(before: u8x16, v: u8x16) -> u8x16
    ensures byte { slice_index before 15 < 256 }
    ensures steps { (ls : List Lane) (f : RgbaPixel → ℕ) → AreBy ls (λ l. f l.px) v
        → AreBy ls (λ l. f l.before) (slice_index before 15 ∷ take 15 v)
        → AreBy ls (λ l. (f l.px + (256 - f l.before)) % 256) result }
{
    v - shift_in(before, v)
}

/// The steps to sixteen pixels: what is added to each channel of the pixel before, where it wraps at
/// 256. And which of the pixels repeat: 255 or 0.
#[derive(Clone, Copy)]
pub(in crate::encode) struct Changes {
    pub(in crate::encode) steps: Planes,
    pub(in crate::encode) rep: u8x16,
}

/// The steps to sixteen pixels, where the last lane of `before` is the pixel before them.
#[inline(always)]
pub(in crate::encode) fn find_changes<const N: usize>(before: Planes, p: Planes) -> Changes
    requires opaque { N ≡ 3 → slice_index before.a 15 ≡ 255 }
    ensures { (ps : List RgbaPixel) → AreSixteen ps → ArePlanes ps p
        → ChangesFrom before ps result }
{
    let steps = Planes {
        r: channel_steps(before.r, p.r),
        g: channel_steps(before.g, p.g),
        b: channel_steps(before.b, p.b),
        a: channel_steps(known_alpha::<N>(before.a), p.a),
    };
    Changes {
        steps,
        rep: blanks(steps),
    }
}
