//! Laws on the values that callers hold: numbers of channels and of color spaces, equality, order,
//! and hashing.
ghost use Rattle.std.specs.Prelude.{◌≡◌, ◌≢◌, ◌↔◌, ℕ, IsTrue, Result, Ok, Err};
ghost use Rattle.std.specs.Ordering.{nat_cmp, is_eq};
ghost use Rattle.qoi.specs.Qoi.{Error, Header, Channels, ColorSpace, channels_number, colorspace_number};

use crate::header::Header;
use crate::types::{Channels, ColorSpace};
use std::hash::Hash;

/// Channels come back from their number; the error for any other number holds it.
pub fn channels_there_and_back()
    ensures back { (c : Channels) (r : Result Channels Error)
        → ⟦<Channels as TryFrom<u8>>⟧.try_from_gives (channels_number c) r → r ≡ Ok c }
    ensures refused { (n : ℕ) (r : Result Channels Error) → n ≢ 3 → n ≢ 4
        → ⟦<Channels as TryFrom<u8>>⟧.try_from_gives n r → r ≡ Err (Error.InvalidChannels n) }
{}

/// A color space comes back from its number; the error for any other number holds it.
pub fn colorspace_there_and_back()
    ensures back { (c : ColorSpace) (r : Result ColorSpace Error)
        → ⟦<ColorSpace as TryFrom<u8>>⟧.try_from_gives (colorspace_number c) r → r ≡ Ok c }
    ensures refused { (n : ℕ) (r : Result ColorSpace Error) → n ≢ 0 → n ≢ 1
        → ⟦<ColorSpace as TryFrom<u8>>⟧.try_from_gives n r → r ≡ Err (Error.InvalidColorSpace n) }
{}

/// Equality, order and hashing of channels agree: equal channels are the same, the order is that of
/// the numbers, and a hasher is fed the same for equal channels alone.
pub fn channels_compare()
    ensures equality { (c d : Channels) → IsTrue (⟦<Channels as PartialEq>⟧.eq c d) ↔ (c ≡ d) }
    ensures order { (c d : Channels)
        → ⟦<Channels as Ord>⟧.cmp c d ≡ nat_cmp (channels_number c) (channels_number d) }
    ensures ties { (c d : Channels)
        → ⟦<Channels as PartialEq>⟧.eq c d ≡ is_eq (⟦<Channels as Ord>⟧.cmp c d) }
    ensures hash { (c d : Channels) → IsTrue (⟦<Channels as PartialEq>⟧.eq c d)
        → ⟦<Channels as Hash>⟧.hash_input c ≡ ⟦<Channels as Hash>⟧.hash_input d }
    ensures apart { (c d : Channels)
        → ⟦<Channels as Hash>⟧.hash_input c ≡ ⟦<Channels as Hash>⟧.hash_input d → c ≡ d }
{}

/// Equality, order and hashing of color spaces agree: equal color spaces are the same, the order is
/// that of the numbers, and a hasher is fed the same for equal color spaces alone.
pub fn colorspace_compare()
    ensures equality { (c d : ColorSpace) → IsTrue (⟦<ColorSpace as PartialEq>⟧.eq c d) ↔ (c ≡ d) }
    ensures order { (c d : ColorSpace)
        → ⟦<ColorSpace as Ord>⟧.cmp c d ≡ nat_cmp (colorspace_number c) (colorspace_number d) }
    ensures ties { (c d : ColorSpace)
        → ⟦<ColorSpace as PartialEq>⟧.eq c d ≡ is_eq (⟦<ColorSpace as Ord>⟧.cmp c d) }
    ensures hash { (c d : ColorSpace) → IsTrue (⟦<ColorSpace as PartialEq>⟧.eq c d)
        → ⟦<ColorSpace as Hash>⟧.hash_input c ≡ ⟦<ColorSpace as Hash>⟧.hash_input d }
    ensures apart { (c d : ColorSpace)
        → ⟦<ColorSpace as Hash>⟧.hash_input c ≡ ⟦<ColorSpace as Hash>⟧.hash_input d → c ≡ d }
{}

/// Equal headers are the same, and hash alike.
pub fn headers_compare()
    ensures equality { (h k : Header) → IsTrue (⟦<Header as PartialEq>⟧.eq h k) ↔ (h ≡ k) }
    ensures hash { (h k : Header) → IsTrue (⟦<Header as PartialEq>⟧.eq h k)
        → ⟦<Header as Hash>⟧.hash_input h ≡ ⟦<Header as Hash>⟧.hash_input k }
{}
