//! The coder's 64 index positions and the pixels that they hold (QOI specification 1.0, "Chunks":
//! the running array of previously seen pixels).
ghost use Rattle.std.specs.Prelude.{◌≡◌, ◌<◌, ◌≤◌, ◌+◌, ℕ, List, [], ◌∷◌, length, map, slice_index, IfSome, IsTrue, IsFalse};
ghost use Rattle.qoi.specs.Qoi.{RgbaPixel, IsPixel, Past, positions, hash, seen};
ghost use Rattle.qoi.specs.inner.Packed.{word};
ghost use Rattle.qoi.specs.inner.block.Planes.{AreFourWords};
ghost use Rattle.qoi.specs.inner.block.Positions.{HasPut, HasPutOne};
ghost use Rattle.qoi.specs.inner.Table.{Holds, first_blank};

use crate::packed::Packed;
use crate::utils::pick;
use std::marker::Model;

/// The pixels that the 64 index positions hold.
///
/// A contract sees the list of the pixels.
#[derive(Drop)]
pub(super) struct PixelTable {
    pixels: [Packed; 64],
}

impl Model for PixelTable {
    ghost Value = { List RgbaPixel };

    ghost view = { λ t. t.pixels };

    ghost invariant = { λ t. length t.pixels ≡ 64 };
}

impl PixelTable {
    /// Transparent black at each index position.
    pub(super) fn new() -> PixelTable
        ensures { Holds result [] }
    {
        PixelTable {
            pixels: [Packed::blank(); 64],
        }
    }

    /// The pixel at an index position.
    #[inline(always)]
    pub(super) fn at(&self, index: u8) -> Packed
        requires { index < 64 }
        ensures { (past : Past) → Holds self.now past → result ≡ seen past index }
    {
        self.pixels[index as usize]
    }

    /// Puts a pixel at its index position.
    #[tactic(auto, using(crate::proofs::format::TableHolds::puts))]
    #[inline(always)]
    pub(super) fn put(&mut self, index: u8, px: Packed)
        requires { index ≡ hash px }
        ensures { (past : Past) → Holds self.old past → Holds self.new (px ∷ past) }
    {
        self.pixels[index as usize] = px;
    }

    /// Puts a pixel at its index position, or nothing. No jump is needed.
    #[tactic(auto, using(crate::proofs::format::TableHolds::puts))]
    #[inline(always)]
    pub(super) fn put_if(&mut self, puts: bool, index: u8, px: Packed)
        requires { index ≡ hash px }
        ensures puts { IsTrue puts → (past : Past) → Holds self.old past
            → Holds self.new (px ∷ past) }
        ensures stays { IsFalse puts → self.new ≡ self.old }
    {
        let held = self.pixels[index as usize];
        self.pixels[index as usize] = pick(puts, px, held);
    }

    // Puts a packed pixel at its index position, and returns what the table held there.
    #[inline(always)]
    fn swap(&mut self, index: usize, px: u32) -> u32
        requires { index < 64 }
        ensures { (past : Past) (p : RgbaPixel) → Holds self.old past → IsPixel p → px ≡ word p
            → index ≡ hash p → HasPutOne past p result self.new }
    {
        let held = self.pixels[index];
        self.pixels[index] = Packed::of_number(px);
        held.number()
    }

    /// Puts four packed pixels at their index positions, those from the `k`th on, one after the
    /// other, and returns what the table held there each time. Each position is read only when it
    /// is used, so that it stays in a register.
    #[inline(always)]
    pub(crate) fn swap_four(&mut self, indices: &[u8], k: usize, pixels: [u32; 4]) -> [u32; 4]
        requires room { k + 4 ≤ length indices.now }
        requires below { (i : ℕ) → i < 4 → slice_index indices.now (k + i) < 64 }
        ensures { (held : Past) (ps : List RgbaPixel) → Holds self.old held
            → AreFourWords ps pixels
            → slice_index indices.now k ∷ slice_index indices.now (k + 1)
            ∷ slice_index indices.now (k + 2) ∷ slice_index indices.now (k + 3) ∷ [] ≡ map hash ps
            → HasPut held ps result self.new }
    {
        let a = self.swap(usize::from(indices[k]), pixels[0]);
        let b = self.swap(usize::from(indices[k + 1]), pixels[1]);
        let c = self.swap(usize::from(indices[k + 2]), pixels[2]);
        let d = self.swap(usize::from(indices[k + 3]), pixels[3]);
        [a, b, c, d]
    }

    /// The least index position that holds transparent black, if there is one.
    pub(super) fn first_blank(&self) -> Option<u8>
        ensures below { IfSome result (λ index. index < positions) }
        ensures first { (past : Past) → Holds self.now past → result ≡ first_blank past }
    {
        let mut index = 0;
        while index < 64 {
            if self.at(index).is_same(Packed::blank()) {
                return Some(index);
            }
            index += 1;
        }
        None
    }
}
