//! Pixels of three and of four channels.
ghost use Rattle.qoi.specs.Raw.{IsChannels};

use crate::tests::library::support::{assert_bytes, assert_number};
use qoi::parts::{BytesMut, Pixel, SupportedChannels, Writer};
use std::process::Abort;

// The pixel of the first `N` bytes.
fn pixel<const N: usize>(four: [u8; 4]) -> Pixel<N>
    requires { IsChannels N }
{
    let mut px = Pixel::<N>::new();
    px.read(&four[..N]);
    px
}

// Compares a pixel's bytes with the first `N` given.
fn assert_pixel<const N: usize>(rt: &impl Abort, px: Pixel<N>, four: [u8; 4])
    requires { IsChannels N }
{
    assert_bytes(rt, &<[u8; N]>::from(px), &four[..N]);
}

// Each call that changes a pixel. The difference is -2, 0, 1, and the luma -1, 0, 1.
fn assert_changes<const N: usize>(rt: &impl Abort)
    requires { IsChannels N }
{
    let mut px = pixel::<N>([1, 2, 3, 4]);
    px.update_rgb(5, 6, 7);
    assert_pixel::<N>(rt, px, [5, 6, 7, 4]);
    px.update_rgba(250, 251, 252, 8);
    assert_pixel::<N>(rt, px, [250, 251, 252, 8]);
    px.rgb_add(5, 5, 5);
    px.update_diff(0x4b);
    assert_pixel::<N>(rt, px, [253, 0, 2, 8]);
    px.update_luma(0xa0, 0x79);
    assert_pixel::<N>(rt, px, [252, 0, 3, 8]);
    px.update(pixel::<3>([5, 6, 7, 0]));
    assert_pixel::<N>(rt, px.with_a(9), [5, 6, 7, 9]);
    assert_bytes(rt, &[px.r(), px.g(), px.b()], &[5, 6, 7]);
}

// A pixel of a supported number of channels stays as it is.
fn supported<P: SupportedChannels>(px: P) -> P {
    px
}

#[test]
fn pixels_change(rt: HostRuntime) {
    assert_changes::<3>(&rt);
    assert_changes::<4>(&rt);
    let (three, four) = (pixel::<3>([1, 2, 3, 0]), pixel::<4>([1, 2, 3, 4]));
    assert_bytes(&rt, &[three.a_or(9), four.a_or(9)], &[9, 4]);
    assert_bytes(&rt, &[three.hash_index(), four.hash_index()], &[23, 14]);
    assert!(rt; supported(three).as_rgba(4) == supported(four));
}

// The index position of a pixel, in three channels too if it is opaque.
fn assert_hash(rt: &impl Abort, r: u8, g: u8, b: u8, a: u8, place: u8) {
    let px = [r, g, b, a];
    let three = if a == 255 {
        pixel::<3>(px).hash_index()
    } else {
        place
    };
    assert_bytes(rt, &[pixel::<4>(px).hash_index(), three], &[place, place]);
}

// (3 r + 5 g + 7 b + 11 a) modulo 64, worked out by hand.
#[test]
fn hashes(rt: HostRuntime) {
    assert_hash(&rt, 0, 0, 0, 255, 53);
    assert_hash(&rt, 0, 0, 0, 0, 0);
    assert_hash(&rt, 64, 0, 0, 0, 0);
    assert_hash(&rt, 101, 102, 103, 255, 51);
    assert_hash(&rt, 101, 102, 103, 104, 54);
    assert_hash(&rt, 1, 2, 3, 255, 23);
    assert_hash(&rt, 1, 2, 3, 4, 14);
    assert_hash(&rt, 1, 99, 2, 255, 53);
    assert_hash(&rt, 1, 99, 2, 3, 33);
    assert_hash(&rt, 11, 33, 55, 77, 22);
    assert_hash(&rt, 251, 252, 253, 255, 61);
    assert_hash(&rt, 249, 250, 251, 255, 31);
}

// A pixel is spelled out after black.
#[test]
fn pixels_are_spelled(rt: HostRuntime) {
    let mut buf = [0xaa; 5];
    let mut writer = BytesMut::new(&mut buf);
    pixel::<4>([32, 32, 32, 8])
        .encode_into(pixel::<4>([0, 0, 0, 7]), &mut writer)
        .expect(&rt, "refused");
    assert_number(&rt, writer.capacity(), 0);
    assert_bytes(&rt, &buf, &[0xff, 32, 32, 32, 8]);
}
