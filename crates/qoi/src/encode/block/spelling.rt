//! The chunks of sixteen pixels, a lane for each: first and second bytes, and sizes (QOI
//! specification 1.0, "Chunks"). A repeat has a run's byte, and size 0 unless a fresh lane follows.
ghost use Rattle.std.specs.Prelude.{◌≡◌, ◌<◌, ◌%◌, ℕ, slice_index, Bool, List, map, IsTrue};
ghost use Rattle.qoi.specs.Qoi.{RgbaPixel, IsPixel, run_max, hash, bytes_of};
ghost use Rattle.qoi.specs.WrittenList.{diff_of};
ghost use Rattle.qoi.specs.Styles.{Style, Reference};
ghost use Rattle.qoi.specs.inner.block.Vectors.{firsts_in, sizes, counts, AreAllRgba, AreBy, AreMasks, ArePlanesBy, AreFits, AreChanges, IsBlock, HasSpelled};
ghost use Rattle.qoi.specs.inner.block.Lanes.{Lane, mask, step_of, as_diff, as_luma, same_alpha, fits_luma, first_of, second_of, size_of, State, lanes_of, is_rep};
ghost use Rattle.qoi.specs.inner.block.Planes.{AreSixteen};

use crate::consts::{QOI_OP_DIFF, QOI_OP_LUMA, QOI_OP_RGBA, QOI_OP_RUN};
use crate::encode::block::counting::count_repeats;
use crate::encode::block::lanes::{all_set, greater, lesser, where_is};
use crate::encode::block::planes::Planes;
use crate::encode::block::steps::Changes;
use std::simd::prelude::*;

/// Which pixels fit a difference chunk, which fit a luma, and which keep alpha: 255 or 0.
#[derive(Clone, Copy)]
pub(in crate::encode) struct Fits {
    pub(in crate::encode) diff: u8x16,
    pub(in crate::encode) luma: u8x16,
    pub(in crate::encode) same_alpha: u8x16,
}

/// Of each of sixteen pixels: whether it repeats, 255 or 0 (`Changes::rep`); its chunk's first byte,
/// the second one, if it has one, and its size; and how many repeats end with it. `all_rgba`,
/// whether it is known that an RGBA chunk gives each.
#[derive(Clone, Copy)]
pub(in crate::encode) struct Spelled {
    pub(in crate::encode) rep: u8x16,
    pub(in crate::encode) first: u8x16,
    pub(in crate::encode) second: u8x16,
    pub(in crate::encode) size: u8x16,
    pub(in crate::encode) count: u8x16,
    pub(in crate::encode) all_rgba: bool,
}

// Steps as a difference chunk has them: with 2 added.
#[inline(always)]
fn diff_steps(d: Planes) -> Planes
    ensures { (ls : List Lane) → ArePlanesBy ls step_of d → ArePlanesBy ls as_diff result }
{
    let two = u8x16::splat(2);
    Planes {
        r: d.r + two,
        g: d.g + two,
        b: d.b + two,
        a: d.a,
    }
}

// Steps as a luma chunk has them: green's plus 32; red's and blue's minus green's, plus 8.
#[inline(always)]
fn luma_steps(d: Planes) -> Planes
    ensures { (ls : List Lane) → ArePlanesBy ls step_of d → ArePlanesBy ls as_luma result }
{
    let eight = u8x16::splat(8);
    Planes {
        r: d.r - d.g + eight,
        g: d.g + u8x16::splat(32),
        b: d.b - d.g + eight,
        a: d.a,
    }
}

// What the pixels fit, where `kept` says which keep alpha.
#[inline(always)]
fn find_fits(diff_steps: Planes, luma_steps: Planes, kept: u8x16) -> Fits
    ensures { (ls : List Lane) → ArePlanesBy ls as_diff diff_steps
        → ArePlanesBy ls as_luma luma_steps
        → AreMasks ls same_alpha kept → AreFits ls result }
{
    let red_or_blue = luma_steps.r | luma_steps.b;
    let above = (red_or_blue & u8x16::splat(0xf0)) | (luma_steps.g & u8x16::splat(0xc0));
    let any = diff_steps.r | diff_steps.g | diff_steps.b;
    Fits {
        diff: where_is(any & u8x16::splat(0xfc), 0) & kept,
        luma: where_is(above, 0) & kept,
        same_alpha: kept,
    }
}

// The difference chunks of `diff_steps` that fit.
#[inline(always)]
fn diffs(diff_steps: Planes) -> u8x16
    ensures { (ls : List Lane) → ArePlanesBy ls as_diff diff_steps
        → AreBy ls (λ l. slice_index (bytes_of (diff_of (as_diff l))) 0 % 256) result }
{
    let t = diff_steps.r + diff_steps.r;
    let t = t + t + diff_steps.g;
    let t = t + t;
    t + t + diff_steps.b + u8x16::splat(QOI_OP_DIFF)
}

// The first byte of each fresh pixel's chunk: as numbers, index position, difference, luma, RGB and
// RGBA stand in this order, so it is the least that applies. As a number a set mask is 255, or -1:
// RGBA's byte and `same_alpha` make RGB's, and what doesn't apply is 255, the greatest.
#[inline(always)]
fn first_bytes(
    diff_steps: Planes,
    luma_steps: Planes,
    fits: Fits,
    stands: u8x16,
    indices: u8x16,
) -> u8x16
    ensures { (ls : List Lane) → ArePlanesBy ls as_diff diff_steps
        → ArePlanesBy ls as_luma luma_steps
        → AreFits ls fits → AreMasks ls (λ l. l.stands) stands
        → AreBy ls (λ l. hash l.px) indices → AreBy ls first_of result }
{
    let rgb_or_rgba = u8x16::splat(QOI_OP_RGBA) + fits.same_alpha;
    let first = lesser(
        (luma_steps.g + u8x16::splat(QOI_OP_LUMA)) | !fits.luma,
        rgb_or_rgba,
    );
    let first = lesser(first, diffs(diff_steps) | !fits.diff);
    lesser(first, indices | !stands)
}

// The second byte: that of a luma (`is_luma`), or red.
#[inline(always)]
fn second_bytes(luma_steps: Planes, red: u8x16, is_luma: u8x16) -> u8x16
    ensures { (ls : List Lane) → ArePlanesBy ls as_luma luma_steps → AreBy ls (λ l. l.px.r) red
        → AreMasks ls fits_luma is_luma → AreBy ls second_of result }
{
    let second = (luma_steps.r << u8x16::splat(4)) + luma_steps.b;
    (is_luma & second) | (!is_luma & red)
}

// How many bytes each fresh pixel's chunk has. As a number a set mask is -1, so a luma has
// 4 - 1 - 1. Of an index position or a difference (`one`) the lesser is 1. RGBA has one more than
// RGB.
#[inline(always)]
fn sizes_of(fits: Fits, stands: u8x16) -> u8x16
    ensures { (ls : List Lane) → AreFits ls fits → AreMasks ls (λ l. l.stands) stands
        → AreBy ls size_of result }
{
    let one = stands | fits.diff;
    let size = lesser(
        u8x16::splat(4) + fits.luma + fits.luma,
        u8x16::splat(1) | !one,
    );
    size + (!fits.same_alpha & !one & u8x16::splat(1))
}

// The first bytes of fresh pixels' chunks, as they are passed, and of runs for repeats. The lesser
// of `rep` and a run's byte is that byte for a repeat, else 0; of `&` the compiler would make a
// blend, which takes longer. What was passed for a repeat, an index position (a contract allows a
// difference of no steps, too), is less than a run's byte.
#[inline(always)]
fn with_runs(first: u8x16, rep: u8x16, count: u8x16) -> u8x16
    ensures { (ls : List Lane) (c : ℕ) (q : Bool) → AreBy ls first_of first
        → AreMasks ls is_rep rep → count ≡ counts c (map is_rep ls)
        → result ≡ firsts_in Reference q c ls }
{
    greater(first, lesser(rep, count + u8x16::splat(QOI_OP_RUN - 1)))
}

// The sizes, with 0 for a repeat before another one, or in the last lane. As for `with_runs`, `&`
// would take longer.
#[inline(always)]
fn with_zeros(size: u8x16, rep: u8x16) -> u8x16
    ensures { (ls : List Lane) → AreBy ls size_of size → AreMasks ls is_rep rep
        → result ≡ sizes ls }
{
    // Whether the next lane repeats, or there is none.
    let next = rep.shuffle(
        u8x16::splat(255),
        [1, 2, 3, 4, 5, 6, 7, 8, 9, 10, 11, 12, 13, 14, 15, 16],
    );
    lesser(size, !lesser(rep, next))
}

/// The chunks of sixteen pixels, index positions and runs too, where `stands` says which stand at
/// their index positions, and `carried` repeats came before that aren't written yet.
#[inline(always)]
pub(in crate::encode) fn spell_block(
    changes: Changes,
    red: u8x16,
    stands: u8x16,
    indices: u8x16,
    carried: u8,
) -> Spelled
    requires { carried < run_max }
    ensures { (s : State) (ps : List RgbaPixel) → s.carry ≡ carried
        → AreChanges (lanes_of s.held s.last ps) changes → IsBlock s ps red stands indices
        → HasSpelled Reference s ps result }
{
    let rep = changes.rep;
    let same_alpha = where_is(changes.steps.a, 0);
    let diff_steps = diff_steps(changes.steps);
    let luma_steps = luma_steps(changes.steps);
    let fits = find_fits(diff_steps, luma_steps, same_alpha);
    let first = first_bytes(diff_steps, luma_steps, fits, stands, indices);
    let count = count_repeats(rep, carried);
    Spelled {
        rep,
        first: with_runs(first, rep, count),
        second: second_bytes(luma_steps, red, fits.luma),
        size: with_zeros(sizes_of(fits, stands), rep),
        count,
        all_rgba: false,
    }
}

/// Whether an RGBA chunk gives each pixel: its alpha changes, and it doesn't stand at its index
/// position.
#[inline(always)]
pub(in crate::encode) fn are_all_rgba(alpha: u8x16, stands: u8x16) -> bool
    ensures { (ls : List Lane) → AreBy ls (λ l. (step_of l).a) alpha
        → AreMasks ls (λ l. l.stands) stands → IsTrue result → AreAllRgba ls }
{
    all_set(!(where_is(alpha, 0) | stands))
}

/// The chunks of sixteen such pixels. They are constants but for the red that is passed, and for
/// `rep`, of which no lane is set.
#[inline(always)]
pub(in crate::encode) fn spell_rgba(rep: u8x16, red: u8x16) -> Spelled
    ensures { (style : Style) (s : State) (ps : List RgbaPixel) → AreSixteen ps → IsPixel s.last
        → rep ≡ map (λ l. mask (is_rep l)) (lanes_of s.held s.last ps)
        → red ≡ map (λ (p : RgbaPixel). p.r) ps → AreAllRgba (lanes_of s.held s.last ps)
        → HasSpelled style s ps result }
{
    Spelled {
        rep,
        first: u8x16::splat(QOI_OP_RGBA),
        second: red,
        size: u8x16::splat(5),
        count: u8x16::splat(0),
        all_rgba: true,
    }
}
