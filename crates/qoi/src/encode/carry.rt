//! What is carried from one block of sixteen pixels to the next, and the byte of a run that ends
//! where a block begins. If it ends within the block, `block/spelling` gives the byte.
ghost use Rattle.std.specs.Prelude.{◌≡◌, ◌+◌, ◌<◌, true, ◌++◌, length, take, drop, slice_index};
ghost use Rattle.qoi.specs.Qoi.{run_max};
ghost use Rattle.qoi.specs.Raw.{IsChannels, IsChannels-prop};
ghost use Rattle.qoi.specs.inner.block.Lanes.{group_bytes};
ghost use Rattle.qoi.specs.inner.block.Planes.{last_pixel};

use crate::consts::QOI_OP_RUN;
use crate::encode::block::planes::Planes;
use crate::encode::coder::LastPixel;
use crate::encode::pixels::PixelOf;
use crate::types::Style::{self, Places, Reference, Tight};
use crate::utils::pick;

/// The most repeats that may be carried if the next pixel repeats, too, and the front goes by
/// blocks: with a block's repeats they are fewer than 62.
pub(super) const FRONT_CARRIED: usize = 45;

/// What is carried from block to block: a `LastPixel` as lanes need it. It has planes whose last
/// pixel came last; how many repeats of it wait; and, in style `Places`, whether the chunk before
/// them names its index position. It has no `begun`: a fresh pixel came, or the next block opens
/// with one (`goes_by_blocks`).
#[derive(Clone, Copy)]
pub(super) struct Carry<const N: usize> {
    pub(super) before: Planes,
    pub(super) count: u8,
    pub(super) named: bool,
    ghost channels: { IsChannels N } by { IsChannels-prop N },
    ghost few: { count < run_max },
    ghost opaque: { N ≡ 3 → slice_index before.a 15 ≡ 255 },
}

impl<const N: usize> Carry<N> {
    ghost use Rattle.qoi.specs.inner.BlockLoop.{IsCarried};

    /// What is carried after this last pixel.
    #[inline(always)]
    pub(super) fn of(last: LastPixel) -> Carry<N>
        requires channels { IsChannels N }
        requires opaque { N ≡ 3 → last.px.a ≡ 255 }
        ensures { IsCarried last result }
    {
        Carry {
            before: Planes::splat::<N>(PixelOf { px: last.px }),
            count: last.repeats as u8,
            named: last.named,
        }
    }

    /// The last pixel after which this is carried, once a fresh one came.
    #[inline(always)]
    pub(super) fn last_pixel(self) -> LastPixel
        ensures begun { result.begun ≡ true }
        ensures carried { IsCarried result self.entry }
        ensures opaque { N ≡ 3 → result.px.a ≡ 255 }
    {
        LastPixel {
            px: self.before.last(),
            begun: true,
            named: self.named,
            repeats: usize::from(self.count),
        }
    }

    /// Stores at `at` the byte of the run that ends where the block begins. In style `Places` a
    /// single repeat has the byte of its index position, if the chunk before it isn't that
    /// position. A byte is stored even if there is no such run; `write_in_lanes` keeps it or not.
    #[inline(always)]
    pub(super) fn store_run(self, style: Style, out: &mut [u8], at: usize)
        requires { at < length out.old }
        ensures same { length out.new ≡ length out.old }
        ensures run { 0 < self.entry.count → take (at + 1) out.new
            ≡ take at out.old
            ++ group_bytes style self.entry.named (last_pixel self.entry.before) self.entry.count }
        ensures front { take at out.new ≡ take at out.old }
        ensures later { drop (at + 1) out.new ≡ drop (at + 1) out.old }
    {
        let run = QOI_OP_RUN - 1 + self.count;
        out[at] = match style {
            Reference | Tight => run,
            Places => pick(
                (self.count == 1) & !self.named,
                self.before.last().hash_index(),
                run,
            ),
        };
    }
}
