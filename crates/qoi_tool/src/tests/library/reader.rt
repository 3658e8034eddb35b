//! The trait of readers, alone.
ghost use Rattle.std.specs.Prelude.{◌≡◌, ◌%◌, length};
ghost use Rattle.qoi.specs.Raw.{IsChannels};

use crate::tests::fakes::{ONE_RGB_PIXEL, PIXEL};
use crate::tests::library::support::{assert_bytes, assert_header};
use qoi::{Buffered, Bytes, Header, Reader, Result};
use std::process::Abort;

// Reads an image, by the trait alone.
fn image_of<R: Reader>(
    reader: &mut R,
    out: &mut [u8],
    channels: u8,
    file_channels: u8,
) -> Result<()>
    requires { IsChannels channels → IsChannels file_channels → length out.old % channels ≡ 0 }
{
    reader.decode_image(out, channels, file_channels)
}

// Reads the header and the image of one pixel, and an end marker after no pixels.
fn assert_reads<R: Reader>(rt: &impl Abort, reader: &mut R) {
    assert_header(
        rt,
        &reader.decode_header().expect(rt, "refused"),
        &Header::default(),
    );
    let mut out = [0xaa; 3];
    image_of(reader, &mut out, 3, 3).expect(rt, "refused");
    assert_bytes(rt, &out, &PIXEL);
    image_of(reader, &mut [], 3, 3).expect(rt, "refused");
}

#[test]
fn readers_read(rt: HostRuntime) {
    let mut bytes = [0; 35];
    bytes[..26].copy_from_slice(&ONE_RGB_PIXEL);
    bytes[33] = 1;
    let mut reader = Bytes::new(&bytes);
    assert_bytes(&rt, reader.as_slice(), &bytes);
    assert_reads(&rt, &mut reader);
    assert_bytes(&rt, reader.as_slice(), &[0]);
    let mut stream = bytes.as_slice();
    assert_reads(&rt, &mut stream);
    assert_bytes(&rt, stream, &[0]);
    let mut buffered = Buffered::new(bytes.as_slice());
    assert_reads(&rt, &mut buffered);
    assert_bytes(&rt, buffered.as_inner(), &[0]);
    assert_bytes(&rt, buffered.into_inner(), &[0]);
}
