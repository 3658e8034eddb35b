//! What the decoders' loops store in the output: pixels, by vectors of sixteen bytes.
ghost use Rattle.std.specs.Prelude.{◌≡◌, ◌+◌, ◌*◌, ◌/◌, ◌%◌, ◌-◌, ◌<◌, ◌≤◌, ℕ, [], ◌∷◌, ◌++◌, length, replicate, take};
ghost use Rattle.qoi.specs.Qoi.{Past, run_max};
ghost use Rattle.qoi.specs.Raw.{output};
ghost use Rattle.qoi.specs.declared.decode.output.TheConstants.{VECTOR, RUN_ROOM};
ghost use Rattle.qoi.specs.inner.Filling.{CanStore, HasWritten, HasCopies, HasFilled, HasRoom};
ghost use Rattle.qoi.specs.inner.Hashed.{pixel_of_lanes};

use crate::decode::hashed::Hashed;
use crate::decode::reached::Reached;
use std::simd::u8x4;

/// How many bytes a vector has: those of a register.
pub(super) const VECTOR: usize = 16;

/// The bytes of room in which the vectors of any run may be stored: sixteen vectors of sixteen
/// bytes.
pub(super) const RUN_ROOM: usize = 256;

// Stores a pixel at `at` in `N` channels, of a file of `F` channels.
#[inline(always)]
fn store_pixel<const N: usize, const F: usize>(out: &mut [u8], at: usize, px: Hashed)
    requires { CanStore N (at + N) out.old }
    ensures { HasWritten F N out.old at out.new (at + N) (pixel_of_lanes px ∷ []) }
{
    let bytes = px.repeated::<N, F>();
    if N == 4 {
        let four = bytes.swizzle([0, 1, 2, 3]);
        four.copy_to_slice(&mut out[at..at + 4]);
        return;
    }
    // One by one: a copied array is stored on the stack, and loading it again from there stalls.
    let bytes = bytes.to_array();
    out[at] = bytes[0];
    out[at + 1] = bytes[1];
    out[at + 2] = bytes[2];
}

/// Stores a vector of sixteen bytes at `at`: the pixel as often as it fits and, in three channels,
/// a byte more. What goes past the pixels that the caller counts is written again later.
#[inline(always)]
pub(super) fn store_vector<const N: usize, const F: usize>(out: &mut [u8], at: usize, px: Hashed)
    requires { CanStore N (at + VECTOR) out.old }
    ensures { (count : ℕ) → count ≤ VECTOR / N → HasCopies F N at count px out.old out.new }
{
    px.repeated::<N, F>()
        .copy_to_slice(&mut out[at..at + VECTOR]);
}

/// Stores a pixel at `at` by four bytes that begin with its own. A vector stands across two lines
/// of the cache oftener, and then takes twice as long.
#[inline(always)]
pub(super) fn store_four<const N: usize, const F: usize>(
    out: &mut [u8],
    at: usize,
    px: Hashed,
    bytes: &[u8],
)
    requires space { CanStore N (at + 4) out.old }
    requires four { 4 ≤ length bytes.now }
    requires pixel { take N bytes.now ≡ output F N (pixel_of_lanes px ∷ []) }
    ensures { HasCopies F N at 1 px out.old out.new }
{
    u8x4::from_slice(bytes).copy_to_slice(&mut out[at..at + 4]);
}

// Stores two vectors, the second at the end of the whole pixels of the first.
#[inline(always)]
fn store_two_vectors<const N: usize, const F: usize>(out: &mut [u8], at: usize, px: Hashed)
    requires { CanStore N (at + N * (2 * (VECTOR / N)) + VECTOR % N) out.old }
    ensures { (count : ℕ) → count ≤ 2 * (VECTOR / N) → HasCopies F N at count px out.old out.new }
{
    store_vector::<N, F>(out, at, px);
    store_vector::<N, F>(out, at + N * (VECTOR / N), px);
}

// Stores four vectors of a pixel one behind the other.
#[inline(always)]
fn store_four_vectors<const N: usize, const F: usize>(out: &mut [u8], at: usize, px: Hashed)
    requires { CanStore N (at + N * (4 * (VECTOR / N)) + VECTOR % N) out.old }
    ensures { (count : ℕ) → count ≤ 4 * (VECTOR / N) → HasCopies F N at count px out.old out.new }
{
    store_two_vectors::<N, F>(out, at, px);
    store_two_vectors::<N, F>(out, at + N * (2 * (VECTOR / N)), px);
}

// Stores eight vectors of a pixel one behind the other.
#[inline(always)]
fn store_eight_vectors<const N: usize, const F: usize>(out: &mut [u8], at: usize, px: Hashed)
    requires { CanStore N (at + N * (8 * (VECTOR / N)) + VECTOR % N) out.old }
    ensures { (count : ℕ) → count ≤ 8 * (VECTOR / N) → HasCopies F N at count px out.old out.new }
{
    store_four_vectors::<N, F>(out, at, px);
    store_four_vectors::<N, F>(out, at + N * (4 * (VECTOR / N)), px);
}

/// Stores a pixel `count` times from `at` on: by eight vectors or, if those don't hold the run, by
/// sixteen, which hold any. What goes past its pixels is written again later.
#[inline(always)]
pub(super) fn store_run<const N: usize, const F: usize>(
    out: &mut [u8],
    at: usize,
    px: Hashed,
    count: usize,
)
    requires space { CanStore N (at + RUN_ROOM) out.old }
    requires short { count ≤ run_max }
    ensures { HasCopies F N at count px out.old out.new }
{
    let eight = 8 * (VECTOR / N);
    store_eight_vectors::<N, F>(out, at, px);
    if count > eight {
        store_eight_vectors::<N, F>(out, at + N * eight, px);
    }
}

// Stores a pixel `count` times from `at` on: by vectors while a whole one has room, and then one by
// one.
#[inline(always)]
fn store_pixels<const N: usize, const F: usize>(out: &mut [u8], at: usize, px: Hashed, count: usize)
    requires { CanStore N (at + N * count) out.old }
    ensures { HasCopies F N at count px out.old out.new }
{
    let mut done = 0;
    while done < count {
        let next = at + N * done;
        if VECTOR <= out.len() - next {
            store_vector::<N, F>(out, next, px);
            done += (count - done).min(VECTOR / N);
        } else {
            store_pixel::<N, F>(out, next, px);
            done += 1;
        }
    }
}

// Stores a pixel `count` times from `at` on, by vectors from the front and as many up to the end:
// they meet, or overlap. In three channels a byte goes past the end.
#[inline(always)]
fn store_from_both_ends<const N: usize, const F: usize>(
    out: &mut [u8],
    at: usize,
    px: Hashed,
    count: usize,
)
    requires space { CanStore N (at + N * count + VECTOR % N) out.old }
    requires some { VECTOR / N ≤ count }
    requires short { count ≤ run_max }
    ensures { HasCopies F N at count px out.old out.new }
{
    let one = VECTOR / N;
    if count <= 2 * one {
        store_vector::<N, F>(out, at, px);
        store_vector::<N, F>(out, at + N * (count - one), px);
    } else if count <= 4 * one {
        store_two_vectors::<N, F>(out, at, px);
        store_two_vectors::<N, F>(out, at + N * (count - 2 * one), px);
    } else if count <= 8 * one {
        store_four_vectors::<N, F>(out, at, px);
        store_four_vectors::<N, F>(out, at + N * (count - 4 * one), px);
    } else {
        store_eight_vectors::<N, F>(out, at, px);
        store_eight_vectors::<N, F>(out, at + N * (count - 8 * one), px);
    }
}

/// Stores a pixel `count` times from `at` on, even if the output ends with the last of them. A few
/// may be stored by a whole vector, if the output has room for it: what that changes behind them
/// means nothing.
#[inline(always)]
pub(super) fn store_within<const N: usize, const F: usize>(
    out: &mut [u8],
    at: usize,
    px: Hashed,
    count: usize,
)
    requires space { CanStore N (at + N * count) out.old }
    requires short { count ≤ run_max }
    ensures { HasCopies F N at count px out.old out.new }
{
    if count <= VECTOR / N {
        store_pixels::<N, F>(out, at, px, count);
    } else if N == 4 {
        store_from_both_ends::<N, F>(out, at, px, count);
    } else {
        store_from_both_ends::<N, F>(out, at, px, count - 1);
        store_pixel::<N, F>(out, at + N * (count - 1), px);
    }
}

/// `store_within` as a call: inlined into `fast_loop`, which seldom needs it, it slows each chunk.
#[inline(never)]
pub(super) fn store_late_run<const N: usize, const F: usize>(
    out: &mut [u8],
    at: usize,
    px: Hashed,
    count: usize,
)
    requires space { CanStore N (at + N * count) out.old }
    requires short { count ≤ run_max }
    ensures { HasCopies F N at count px out.old out.new }
{
    store_within::<N, F>(out, at, px, count);
}

/// Stores the last pixel `count` times, or as often as there is room, and returns where it stopped.
/// Together, the `count` pixels have `size` bytes. If `RUN_FITS`, there is room for the vectors of
/// any run, and how much there is isn't tested.
#[inline(always)]
pub(super) fn fill<const N: usize, const F: usize, const RUN_FITS: bool>(
    out: &mut [u8],
    from: Reached,
    count: usize,
    size: usize,
) -> usize
    requires room { HasRoom N RUN_FITS out.old from.at }
    requires size { size ≡ N * count }
    requires some { (0 < count) × (count ≤ run_max) }
    ensures filled { (n : ℕ) (past : Past) → HasFilled F N n out.old from.at past
        → HasFilled F N n out.new result
        (replicate count (pixel_of_lanes from.last) ++ past) }
    ensures whole { result % N ≡ 0 }
    ensures within { (from.at < result) × (result ≤ length out.new) }
    ensures below { from.at + RUN_ROOM ≤ length out.old → result < length out.new }
{
    let Reached { last, at } = from;
    let room = if RUN_FITS { RUN_ROOM } else { out.len() - at };
    // By the size, as in `size / N` below, so that `count` is computed for long runs alone.
    if size <= VECTOR {
        if VECTOR <= room {
            store_vector::<N, F>(out, at, last);
            return at + size;
        }
    } else if RUN_ROOM <= room {
        store_run::<N, F>(out, at, last, count);
        return at + size;
    }
    let all = (size / N).min(room / N);
    store_pixels::<N, F>(out, at, last, all);
    at + N * all
}
