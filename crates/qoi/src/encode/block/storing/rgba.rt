//! Sixteen RGBA chunks, stored one after the other (QOI specification 1.0, "Chunks").
ghost use Rattle.std.specs.Prelude.{◌≡◌, ◌+◌, ◌≤◌, ◌++◌, length, take, map};
ghost use Rattle.qoi.specs.inner.Packed.{pixel_of_word};
ghost use Rattle.qoi.specs.inner.block.Storing.{rgba_bytes};
ghost use Rattle.qoi.specs.inner.block.Planes.{AreFour, ArePacked, block_pixels};

use crate::encode::block::planes::Words;
use std::simd::prelude::*;

// Stores the RGBA chunks of four pixels from `at` on: three of them by one vector, and the fourth.
#[inline(always)]
fn store_four_rgba(out: &mut [u8], at: usize, four: u32x4)
    requires packed { AreFour four }
    requires room { at + 23 ≤ length out.old }
    ensures same { length out.new ≡ length out.old }
    ensures written { take (at + 20) out.new
        ≡ take at out.old ++ rgba_bytes (map pixel_of_word four) }
{
    let v = four.to_le_bytes();
    let tags = u8x16::splat(0xff);
    let three: u8x16 = v.shuffle(tags, [16, 0, 1, 2, 3, 16, 4, 5, 6, 7, 16, 8, 9, 10, 11, 16]);
    let last: u8x8 = v.shuffle(tags, [16, 12, 13, 14, 15, 16, 16, 16]);
    three.copy_to_slice(&mut out[at..at + 16]);
    let next = at + 15;
    last.copy_to_slice(&mut out[next..next + 8]);
}

/// Stores the RGBA chunks of sixteen pixels from `at` on, and returns where they end.
#[inline(always)]
pub(in crate::encode) fn store_rgba(out: &mut [u8], at: usize, pixels: Words) -> usize
    requires packed { ArePacked pixels }
    requires room { at + 83 ≤ length out.old }
    ensures same { length out.new ≡ length out.old }
    ensures end { result ≡ at + 80 }
    ensures written { take result out.new ≡ take at out.old ++ rgba_bytes (block_pixels pixels) }
{
    store_four_rgba(out, at, pixels.one);
    store_four_rgba(out, at + 20, pixels.two);
    store_four_rgba(out, at + 40, pixels.three);
    store_four_rgba(out, at + 60, pixels.four);
    at + 80
}
