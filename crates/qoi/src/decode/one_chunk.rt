//! How one chunk is decoded. What its bytes do to the last pixel stands in `hashed` and `deltas`.
ghost use Rattle.std.specs.Prelude.{◌≡◌, ◌+◌, ◌-◌, ◌<◌, ◌≤◌, length, take};
ghost use Rattle.qoi.specs.inner.Filling.{HasRoom, FillsMore, DecodesChunk, filling};

use crate::consts::{QOI_OP_RGB, QOI_OP_RGBA, QOI_OP_RUN};
use crate::decode::deltas::{advance, is_luma};
use crate::decode::output::fill;
use crate::decode::reached::{Decoded, Reached};
use crate::decode::table::SizedTerms;

/// Decodes the first chunk of the bytes. If `RUN_FITS`, the output has room for the vectors of any
/// run; else how much it has is tested. The second byte is read even if the chunk has only one.
#[inline(always)]
pub(super) fn decode_chunk<const N: usize, const F: usize, const RUN_FITS: bool, const SIZE: usize>(
    table: &mut SizedTerms<SIZE>,
    from: Reached,
    bytes: &[u8],
    out: &mut [u8],
) -> Decoded
    requires room { HasRoom N RUN_FITS out.old from.at }
    requires long { 8 ≤ length bytes.now }
    ensures taken { result.taken ≤ length bytes.now }
    ensures decodes { DecodesChunk F N (take result.taken bytes.now)
        (filling table.old from out.old) (filling table.new result.reached out.new) }
    ensures more { FillsMore N out.old from.at out.new result.reached.at }
{
    let Reached { last, at } = from;
    let b1 = bytes[0];
    let (last, taken) = if b1 < QOI_OP_RGB {
        let size = 1 + usize::from(is_luma(b1));
        (last.after_short(table, b1 as usize, bytes[1]), size)
    } else {
        (
            last.after_full::<4>(b1 as usize, bytes),
            4 + usize::from(b1 == QOI_OP_RGBA),
        )
    };
    table.put(last);
    let size = advance::<N>(b1 as usize);
    let count = match b1 {
        QOI_OP_RUN..QOI_OP_RGB => (b1 - (QOI_OP_RUN - 1)) as usize,
        _ => 1,
    };
    let at = fill::<N, F, RUN_FITS>(out, Reached { last, at }, count, size);
    Decoded {
        taken,
        reached: Reached { last, at },
    }
}
