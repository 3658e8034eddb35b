//! The chunks of sixteen pixels, stored one after the other.
ghost use Rattle.std.specs.Prelude.{◌≡◌, ◌≢◌, ◌+◌, ◌≤◌, ◌<◌, ℕ, ◌++◌, length, take, slice_index, IsTrue};
ghost use Rattle.qoi.specs.Qoi.{IsPixel, run_max};
ghost use Rattle.qoi.specs.Raw.{IsChannels};
ghost use Rattle.qoi.specs.declared.types.Style.{Style};
ghost use Rattle.qoi.specs.inner.block.Planes.{block_pixels};
ghost use Rattle.qoi.specs.inner.block.Vectors.{HasSpelled};
ghost use Rattle.qoi.specs.inner.block.Lanes.{State, block_bytes};

mod each;
mod rgba;
mod shuffled;

use crate::encode::block::Block;
use crate::encode::block::lanes::{all_set, where_is};
use crate::encode::block::planes::join_lanes;
use crate::encode::block::spelling::Spelled;
use crate::encode::block::storing::each::store_each;
use crate::encode::block::storing::rgba::store_rgba;
use crate::encode::block::storing::shuffled::store_shuffled;
use std::simd::prelude::*;

// Whether each chunk has at most four bytes. Only RGBA chunks have five.
#[inline(always)]
fn have_four_at_most<const N: usize>(size: u8x16) -> bool
    ensures { IsTrue result → ((k : ℕ) → slice_index size k ≤ N + 1)
        → (k : ℕ) → slice_index size k ≢ 5 }
{
    N == 3 || all_set(!where_is(size, 5))
}

/// Stores the chunks of sixteen pixels from `at` on, at most 80 bytes, and returns where they end.
/// What is stored behind them, up to `at` + 83, means nothing.
#[inline(always)]
pub(in crate::encode) fn store_sixteen<const N: usize>(
    out: &mut [u8],
    at: usize,
    x: Spelled,
    block: Block,
) -> usize
    requires channels { IsChannels N }
    requires room { at + 83 ≤ length out.old }
    ensures same { length out.new ≡ length out.old }
    ensures near { (at ≤ result) × (result ≤ at + 80) }
    ensures written { (style : Style) (s : State) → IsPixel s.last
        → HasSpelled style s (block_pixels block.words) x → s.carry + 16 < run_max
        → ((k : ℕ) → slice_index x.size k ≤ N + 1)
        → take result out.new ≡ take at out.old ++ block_bytes style s (block_pixels block.words) }
{
    if x.all_rgba {
        return store_rgba(out, at, block.words);
    }
    let p = block.planes;
    // A lane's four bytes: the first, the second (a luma's, or red), green and blue.
    let chunks = join_lanes(x.first, x.second, p.g, p.b);
    if have_four_at_most::<N>(x.size) {
        store_shuffled(out, at, x.size, chunks)
    } else {
        store_each(out, at, x.size, chunks, p.a)
    }
}
