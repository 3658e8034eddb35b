//! What a pixel writer has of an image between two calls that take raw bytes of it.
ghost use Rattle.std.specs.Prelude.{◌≡◌, ◌⊎◌, ℕ, ◌+◌, ◌*◌, ◌<◌, ◌≤◌, List, [], ◌++◌, length, take, IsTrue, IsFalse};
ghost use Rattle.qoi.specs.declared.encode.pixel_writer.workspace.TheConstants.{HELD_MOST};

use crate::encode::image::ImageState;
use crate::encode::piece::LARGE_ROOM;
use crate::utils::copy_after;
use std::marker::Model;

/// How many raw bytes are held at most: whole blocks of three channels, and of four.
pub(super) const HELD_MOST: usize = 8256;

/// What is there between two calls: the encoder's state after the raw bytes that are encoded, the
/// raw bytes that came after those and are held, and the bytes of a piece, which mean nothing then.
#[derive(Drop)]
pub(super) struct Workspace {
    pub(super) state: ImageState,
    pub(super) held: Held,
    pub(super) piece_bytes: [u8; LARGE_ROOM],
}

/// Raw bytes that came and aren't encoded yet.
///
/// A contract sees their list.
#[derive(Drop)]
pub(super) struct Held {
    bytes: [u8; HELD_MOST],
    len: usize,
}

impl Model for Held {
    ghost Value = { List ℕ };

    ghost view = { λ s. take s.len s.bytes };

    ghost invariant = { λ s. s.len ≤ HELD_MOST };
}

impl Held {
    /// None.
    pub(super) fn new() -> Held
        ensures { result ≡ [] }
    {
        Held {
            bytes: [0; HELD_MOST],
            len: 0,
        }
    }

    /// Whether so many more are to be held: there is room for them, and they take at most half of
    /// all the room, since it takes time to copy them.
    #[inline(always)]
    pub(super) fn takes(&self, count: usize) -> bool
        ensures most { length self.now ≤ HELD_MOST }
        ensures room { IsTrue result → length self.now + count ≤ HELD_MOST }
        ensures many { IsFalse result
            → (HELD_MOST < 2 * count) ⊎ (HELD_MOST < length self.now + count) }
    {
        count <= HELD_MOST / 2 && count <= HELD_MOST - self.len
    }

    /// Holds these, too.
    #[inline(always)]
    pub(super) fn push(&mut self, raw: &[u8])
        requires { length self.old + length raw.now ≤ HELD_MOST }
        ensures { self.new ≡ self.old ++ raw.now }
    {
        self.len = copy_after(&mut self.bytes, self.len, raw);
    }

    /// Holds these in place of the others.
    #[inline(always)]
    pub(super) fn replace(&mut self, raw: &[u8])
        requires { length raw.now ≤ HELD_MOST }
        ensures { self.new ≡ raw.now }
    {
        self.len = copy_after(&mut self.bytes, 0, raw);
    }

    /// The bytes that are held.
    #[inline(always)]
    pub(super) fn bytes(&self) -> &[u8]
        ensures are { result.now ≡ self.now }
        ensures most { length self.now ≤ HELD_MOST }
    {
        &self.bytes[..self.len]
    }
}
