//! The pixels that the 64 index positions hold (QOI specification 1.0, "Chunks": the running array
//! of previously seen pixels), as numbers, and the numbers that other first bytes add.
ghost use Rattle.std.specs.Prelude.{◌≡◌, ◌≢◌, ◌<◌, ◌≤◌, ℕ, [], ◌∷◌, slice_index};
ghost use Rattle.qoi.specs.Qoi.{Past, positions, seen};
ghost use Rattle.qoi.specs.inner.Hashed.{pixel_of_lanes, IsHashed, IsAdded, HoldsSeen};

use crate::decode::deltas::{added, all_added};
use crate::decode::hashed::Hashed;
use std::marker::Model;

/// What the decoders' sum takes by the first byte of a chunk: the pixel at the index position that
/// it names, or what another first byte adds. For bytes from `SIZE` on, `added` knows the number.
/// The table is kept from piece to piece, and with it whether chunks were dense (`stretches`).
///
/// A contract sees the list of the numbers.
#[derive(Drop)]
pub(super) struct SizedTerms<const SIZE: usize> {
    numbers: [u64; SIZE],
    is_dense: bool,
}

/// A number for each first byte, so that no test is needed.
pub(super) type TermTable = SizedTerms<256>;

/// The index positions alone, for an output so small that setting more numbers would take a good
/// part of the time.
pub(super) type SmallTermTable = SizedTerms<64>;

impl<const SIZE: usize> Model for SizedTerms<SIZE> {
    ghost use Rattle.std.specs.Prelude.{◌≡◌, ◌≤◌, ℕ, List, length};
    ghost use Rattle.qoi.specs.Qoi.{positions};
    ghost use Rattle.qoi.specs.inner.Hashed.{AreTerms};

    ghost Value = { List ℕ };

    ghost view = { λ t. t.numbers };

    ghost invariant = { λ t. (length t.numbers ≡ SIZE) × (positions ≤ SIZE) × AreTerms t.numbers };
}

impl SizedTerms<256> {
    /// Transparent black at each index position.
    pub(super) fn new() -> SizedTerms<256>
        ensures { HoldsSeen result [] }
    {
        let mut numbers = [0; 256];
        numbers.copy_from_slice(all_added());
        SizedTerms {
            numbers,
            is_dense: false,
        }
    }
}

impl SizedTerms<64> {
    /// Transparent black at each index position.
    pub(super) fn new_small() -> SizedTerms<64>
        ensures { HoldsSeen result [] }
    {
        SizedTerms {
            numbers: [0; 64],
            is_dense: false,
        }
    }
}

impl<const SIZE: usize> SizedTerms<SIZE> {
    /// A copy.
    pub(super) fn copied(&self) -> SizedTerms<SIZE>
        ensures { result ≡ self.now }
    {
        SizedTerms {
            numbers: self.numbers,
            is_dense: self.is_dense,
        }
    }

    /// Whether the chunks that were judged last were dense (`stretches`).
    #[inline(always)]
    pub(super) fn is_dense(&self) -> bool {
        self.is_dense
    }

    /// Notes whether the chunks that are judged were dense.
    #[inline(always)]
    pub(super) fn note_dense(&mut self, is_dense: bool)
        ensures { self.new ≡ self.old }
    {
        self.is_dense = is_dense;
    }

    /// What is held at the index position that a chunk's first byte names, or what another first
    /// byte adds.
    #[inline(always)]
    pub(super) fn at(&self, b1: usize) -> u64
        requires { b1 < 256 }
        ensures hashed { b1 < positions → IsHashed result }
        ensures place { b1 < positions → (past : Past) → HoldsSeen self.now past
            → pixel_of_lanes result ≡ seen past b1 }
        ensures other { positions ≤ b1 → IsAdded b1 result }
    {
        if SIZE == 256 {
            return self.numbers[b1];
        }
        if b1 < SIZE {
            self.numbers[b1]
        } else {
            added(b1)
        }
    }

    /// Puts a pixel at an index position, which needn't be its own.
    #[inline(always)]
    pub(super) fn set(&mut self, at: usize, px: Hashed)
        requires { at < positions }
        ensures here { slice_index self.new at ≡ px }
        ensures others { (i : ℕ) → i ≢ at → slice_index self.new i ≡ slice_index self.old i }
    {
        self.numbers[at] = px.number();
    }

    /// Puts a pixel at its index position.
    #[inline(always)]
    pub(super) fn put(&mut self, px: Hashed)
        ensures { (past : Past) → HoldsSeen self.old past
            → HoldsSeen self.new (pixel_of_lanes px ∷ past) }
    {
        self.set(px.position(), px);
    }
}
