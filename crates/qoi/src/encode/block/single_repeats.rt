//! Single repeats among sixteen pixels that are given by their index position, in style `Places`.
ghost use Rattle.std.specs.Prelude.{◌≡◌, List, map};
ghost use Rattle.qoi.specs.Qoi.{RgbaPixel, hash};
ghost use Rattle.qoi.specs.declared.types.Style.TheVariants.{Reference, Places};
ghost use Rattle.qoi.specs.inner.block.Lanes.{mask, State};
ghost use Rattle.qoi.specs.inner.block.Planes.{AreSixteen};
ghost use Rattle.qoi.specs.inner.block.Positions.{stand_tests};
ghost use Rattle.qoi.specs.inner.block.Vectors.{HasSpelled};

use crate::encode::block::lanes::{lesser, shift_in, where_is};
use crate::encode::block::spelling::Spelled;
use crate::utils::pick;
use std::simd::prelude::*;

/// Gives each single repeat before a fresh pixel by its index position, if the chunk before it
/// isn't that position. `named` says whether the chunk before the block names the position of the
/// pixel before the block.
#[inline(always)]
pub(in crate::encode) fn name_single(
    x: Spelled,
    stands: u8x16,
    indices: u8x16,
    named: bool,
) -> Spelled
    ensures { (s : State) (ps : List RgbaPixel) → AreSixteen ps → s.named ≡ named
        → stands ≡ map mask (stand_tests s.held ps) → indices ≡ map hash ps
        → HasSpelled Reference s ps x → HasSpelled Places s ps result }
{
    // Whether the pixel before each lane stood at its index position; before the first lane,
    // whether the chunk there names that position.
    let stood = shift_in(u8x16::splat(pick(named, 255, 0)), stands);
    let singles = x.rep & where_is(x.count, 1) & !stood;
    Spelled {
        first: lesser(x.first, indices | !singles),
        ..x
    }
}
