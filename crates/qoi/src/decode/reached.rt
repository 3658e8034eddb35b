//! What chunks leave.
use crate::decode::hashed::Hashed;

/// What stands between two chunks, beside the table and the output: the last pixel, and how many
/// bytes of the output are written.
#[derive(Clone, Copy)]
pub(super) struct Reached {
    pub(super) last: Hashed,
    pub(super) at: usize,
}

/// What chunks of a slice or a buffer reached, and how many bytes they have.
#[derive(Clone, Copy)]
pub(super) struct Decoded {
    pub(super) taken: usize,
    pub(super) reached: Reached,
}
