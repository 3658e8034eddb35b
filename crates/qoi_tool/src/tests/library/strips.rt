//! Callers that read rows in strips, the last one shorter. Only the loop has a proof file, with its
//! invariant.
ghost use Rattle.std.specs.Prelude.{◌≡◌, ◌<◌, ◌+◌, ◌*◌, ℕ, List, length, Some, Ok, IfOk, OnOk};
ghost use Rattle.qoi.specs.declared.header.Header.{Header};
ghost use Rattle.qoi.specs.DecoderState.{DecoderState};
ghost use Rattle.qoi.specs.Images.{front_image, file_image};
ghost use Rattle.qoi.specs.pieces.PixelReader.{HasRows};
ghost use Rattle.qoi.specs.pieces.RowIndex.{row_size};
ghost use Rattle.qoi.specs.Qoi.{header_of};
ghost use Rattle.qoi.specs.Rectangles.{rectangle};

use crate::tests::library::support::{assert_given, made};
use qoi::laws::rectangles::rectangles_are_parts;
use qoi::{Bytes, Decoder, Error, PixelReader, Result};
use std::alloc::Global;

/// Reads the next rows, as many as the strip has, and keeps them.
pub fn keep_strip(
    pixels: &mut PixelReader<Bytes<'_>>,
    strip: &mut [u8],
    size: (usize, usize),
    out: &mut Vec<u8>,
) -> Result<()>
    requires { length strip.old ≡ size.0 * size.1 }
    ensures { (d : DecoderState (List ℕ)) (bytes : List ℕ) (k : ℕ)
        → HasRows d (Some bytes) (Some pixels.old.reader) size.0 k pixels.old
        → out.old.items ≡ rectangle size.0 0 0 k size.0 (front_image d.channels d.header bytes)
        → OnOk result (HasRows d (Some bytes) (Some pixels.new.reader) size.0 (k + size.1)
        pixels.new × (out.new.items ≡ rectangle size.0 0 0 (k + size.1) size.0
        (front_image d.channels d.header bytes))) }
{
    rectangles_are_parts();
    if pixels.read(strip)? < strip.len() {
        return Err(Error::UnexpectedBufferEnd);
    }
    out.extend_from_slice(strip)?;
    Ok(())
}

/// The first rows of a picture, in strips of so many rows and a shorter last one.
pub fn in_strips(
    alloc: Global,
    file: &[u8],
    rows: usize,
    strip: &mut [u8],
    height: usize,
) -> Result<Vec<u8>>
    requires { 0 < rows }
    ensures { (h : Header) → header_of file.now ≡ Ok h → IfOk result (λ out.
        out.items ≡ rectangle (row_size h.channels h) 0 0 height (row_size h.channels h)
        (file_image file.now)) }
{
    let mut pixels = Decoder::new(file)?.into_pixels();
    let stride = pixels.bytes_per_row();
    let mut out = Vec::new(alloc);
    let mut done = 0;
    while done < height {
        let count = rows.min(height - done);
        let Some(size) = stride.checked_mul(count) else {
            return Err(Error::UnexpectedBufferEnd);
        };
        let Some(part) = strip.get_mut(..size) else {
            return Err(Error::UnexpectedBufferEnd);
        };
        keep_strip(&mut pixels, part, (stride, count), &mut out)?;
        done += count;
    }
    Ok(out)
}

// Five rows of two pixels in strips of two rows: all of them, the first three, and none.
#[test]
fn five_rows(rt: HostRuntime) {
    let alloc = rt.alloc();
    let raw = b"first.secondthird.fourthfifth.";
    let file = made::encoded(&rt, alloc, raw, 2, 5);
    let mut strip = [0; 12];
    assert_given(&rt, in_strips(alloc, &file, 2, &mut strip, 5), raw);
    assert_given(&rt, in_strips(alloc, &file, 2, &mut strip, 3), &raw[..18]);
    assert_given(&rt, in_strips(alloc, &file, 2, &mut strip, 0), &[]);
}
