//! Callers that decode into chosen channels, and say so by the file alone.
ghost use Rattle.std.specs.Prelude.{◌≡◌, Ok, IfOk, OnOk};
ghost use Rattle.qoi.specs.declared.header.Header.{Header};
ghost use Rattle.qoi.specs.declared.types.Channels.TheVariants.{Rgba};
ghost use Rattle.qoi.specs.Images.{file_image_in, BeginsWithFile};
ghost use Rattle.qoi.specs.Qoi.{header_of};
ghost use Rattle.qoi.specs.Raw.{without_fourth};

use crate::tests::fakes::{ONE_RGB_PIXEL, PIXEL};
use crate::tests::library::support::assert_given;
use qoi::laws::reading::{files_are_read, images_are_functions};
use qoi::{Channels, Decoder, Result};
use std::alloc::Global;

/// The image of a file in these channels.
pub fn decode_in(alloc: Global, file: &[u8], channels: Channels) -> Result<Vec<u8>>
    ensures begins { OnOk result (BeginsWithFile file.now) }
    ensures image { IfOk result (λ raw. raw.items ≡ file_image_in channels file.now) }
{
    files_are_read();
    let mut decoder = Decoder::new(file)?.with_channels(channels);
    let raw = decoder.decode_to_vec(alloc)?;
    Ok(raw)
}

/// In three channels the image is the one in four without each fourth byte.
pub fn in_three(alloc: Global, file: &[u8]) -> Result<Vec<u8>>
    ensures { (h : Header) → header_of file.now ≡ Ok h
        → IfOk result (λ raw. raw.items ≡ without_fourth (file_image_in Rgba file.now)) }
{
    images_are_functions();
    let raw = decode_in(alloc, file, Channels::Rgb)?;
    Ok(raw)
}

// A pixel of three channels, in three and in four.
#[test]
fn a_pixel_in_both(rt: HostRuntime) {
    let alloc = rt.alloc();
    assert_given(&rt, in_three(alloc, &ONE_RGB_PIXEL), &PIXEL);
    let four = decode_in(alloc, &ONE_RGB_PIXEL, Channels::Rgba);
    assert_given(&rt, four, &[PIXEL[0], PIXEL[1], PIXEL[2], 255]);
}
