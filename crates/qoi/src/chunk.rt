//! The chunks of the format (QOI specification 1.0, "Chunks"). No decoder takes its chunks by
//! `read_chunk`, which would cost a jump for each: it is for callers that look at a file's chunks
//! (by `parts`) and for tests. Contracts speak of `Chunk`.
ghost use Rattle.std.specs.Prelude.{◌≡◌, ℕ, List, ◌++◌, IfSome, IfNone, IsNone, IsSomeAnd};
ghost use Rattle.qoi.specs.declared.chunk.Chunk.{Chunk};
ghost use Rattle.qoi.specs.Qoi.{IsChunk, bytes_of};
ghost use Rattle.qoi.specs.Verdicts.{IsPartOfChunk};

use crate::consts::{QOI_OP_DIFF, QOI_OP_INDEX, QOI_OP_LUMA, QOI_OP_RGB, QOI_OP_RGBA, QOI_OP_RUN};

/// A chunk (QOI specification 1.0, "Chunks").
#[derive(Clone, Copy, PartialEq, Eq, Debug)]
pub enum Chunk {
    /// The pixel at an index position, 0 to 63.
    Place(u8),
    /// Differences of red, green and blue from the previous pixel, -2 to 1 each: the chunk's byte.
    Diff(u8),
    /// A difference of green, -32 to 31, and those of red and blue less green's, -8 to 7: both
    /// bytes of the chunk.
    Luma(u8, u8),
    /// The previous pixel again, 1 to 62 times.
    Run(u8),
    /// Red, green and blue; alpha stays.
    Rgb(u8, u8, u8),
    /// Red, green, blue and alpha.
    Rgba(u8, u8, u8, u8),
}

/// The first chunk of the bytes, and the rest of the same slice (QOI specification 1.0, "Chunks").
///
/// `None` exactly if the slice is empty or shorter than the length of the chunk that its first byte
/// begins: 4 for fe, 5 for ff, 2 for 80 to bf, and else 1.
#[inline(always)]
#[tactic(auto, using(crate::proofs::format::PartOfChunk::parts))]
pub fn read_chunk(data: &[u8]) -> Option<(Chunk, &[u8])>
    ensures some { IfSome result (λ x. IsChunk x.0 × («data».now ≡ bytes_of x.0 ++ x.1.now)) }
    ensures none { IfNone result (IsPartOfChunk «data».now) }
    ensures only { (c : Chunk) (rest : List ℕ) → IsChunk c → «data».now ≡ bytes_of c ++ rest
        → IsSomeAnd result (λ x. (x.0 ≡ c) × (x.1.now ≡ rest)) }
    ensures part { IsPartOfChunk «data».now → IsNone result }
{
    // Each kind's bytes end where the next one's begin: those of runs of 63 and 64 are RGB's and
    // RGBA's.
    match data {
        [b @ QOI_OP_INDEX..QOI_OP_DIFF, rest @ ..] => Some((Chunk::Place(*b), rest)),
        [b @ QOI_OP_DIFF..QOI_OP_LUMA, rest @ ..] => Some((Chunk::Diff(*b), rest)),
        [b @ QOI_OP_LUMA..QOI_OP_RUN, second, rest @ ..] => Some((Chunk::Luma(*b, *second), rest)),
        [b @ QOI_OP_RUN..QOI_OP_RGB, rest @ ..] => Some((Chunk::Run(*b - (QOI_OP_RUN - 1)), rest)),
        [QOI_OP_RGB, r, g, b, rest @ ..] => Some((Chunk::Rgb(*r, *g, *b), rest)),
        [QOI_OP_RGBA, r, g, b, a, rest @ ..] => Some((Chunk::Rgba(*r, *g, *b, *a), rest)),
        _ => None,
    }
}
