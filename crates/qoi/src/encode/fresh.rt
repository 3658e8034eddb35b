//! One fresh pixel, spelled out after the one before it (QOI specification 1.0, "Chunks").
ghost use Rattle.std.specs.Prelude.{◌≡◌, ◌+◌, ◌≤◌};
ghost use Rattle.qoi.specs.Qoi.{Chunk, IsPixel};
ghost use Rattle.qoi.specs.Raw.{IsChannels};
ghost use Rattle.qoi.specs.inner.Coder.{SpellsOut};
ghost use Rattle.qoi.specs.WrittenList.{steps, diff_steps, luma_steps};

use crate::consts::{QOI_OP_DIFF, QOI_OP_LUMA, QOI_OP_RGB, QOI_OP_RGBA};
use crate::packed::Packed;

// The steps from a pixel to the next one, channel by channel, modulo 256.
#[inline(always)]
fn steps(last: Packed, px: Packed) -> Packed
    ensures { result ≡ steps last px }
{
    Packed::new(
        px.r().wrapping_sub(last.r()),
        px.g().wrapping_sub(last.g()),
        px.b().wrapping_sub(last.b()),
        px.a().wrapping_sub(last.a()),
    )
}

// Steps as a difference chunk has them: with 2 added to those of red, green and blue.
#[inline(always)]
fn diff_steps(steps: Packed) -> Packed
    ensures { result ≡ diff_steps steps }
{
    Packed::new(
        steps.r().wrapping_add(2),
        steps.g().wrapping_add(2),
        steps.b().wrapping_add(2),
        steps.a(),
    )
}

// Steps as a luma chunk has them: green's plus 32; red's and blue's minus green's, plus 8.
#[inline(always)]
fn luma_steps(steps: Packed) -> Packed
    ensures { result ≡ luma_steps steps }
{
    let g = steps.g().wrapping_sub(8);
    Packed::new(
        steps.r().wrapping_sub(g),
        steps.g().wrapping_add(32),
        steps.b().wrapping_sub(g),
        steps.a(),
    )
}

/// The chunk that spells out the pixel `px` after the pixel `last`: the first of difference, luma,
/// RGB and RGBA that gives it. It is a number whose lowest bytes are the chunk's, but for the alpha
/// of an RGBA, and how many bytes the chunk has.
#[inline(always)]
pub(crate) fn spell_pixel<const N: usize>(last: Packed, px: Packed) -> (u32, u32)
    requires channels { IsChannels N }
    requires same_alpha { N ≡ 3 → px.a ≡ last.a }
    ensures few { result.1 ≤ N + 1 }
    ensures spelled { IsPixel last → (c : Chunk) × SpellsOut last px result.0 result.1 c }
{
    let steps = steps(last, px);
    let rgb = px.number() % 0x100_0000 * 256;
    if (N == 4) & (px.a() != last.a()) {
        return (rgb + u32::from(QOI_OP_RGBA), 5);
    }
    let as_diff = diff_steps(steps);
    if (as_diff.r() < 4) & (as_diff.g() < 4) & (as_diff.b() < 4) {
        let low = u32::from(as_diff.g()) * 4 + u32::from(as_diff.b());
        return (
            u32::from(QOI_OP_DIFF) + u32::from(as_diff.r()) * 16 + low,
            1,
        );
    }
    let as_luma = luma_steps(steps);
    if (as_luma.r() < 16) & (as_luma.g() < 64) & (as_luma.b() < 16) {
        let second = u32::from(as_luma.r()) * 16 + u32::from(as_luma.b());
        return (
            u32::from(QOI_OP_LUMA) + u32::from(as_luma.g()) + second * 256,
            2,
        );
    }
    (rgb + u32::from(QOI_OP_RGB), 4)
}
