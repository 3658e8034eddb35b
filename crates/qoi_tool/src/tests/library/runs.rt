//! Repeats of a pixel that are counted: by example, and one by one.
ghost use Rattle.qoi.specs.Raw.{IsChannels};

use crate::tests::library::support::assert_number;
use qoi::parts::{Pixel, repeats};
use std::process::Abort;

// How many pixels at the front of the bytes are this one.
fn count<const N: usize>(data: &[u8], bytes: [u8; N]) -> usize
    requires { IsChannels N }
{
    let mut px = Pixel::<N>::new();
    px.read(&bytes);
    repeats::<N>(data, px)
}

// Fills the bytes with these again and again.
fn fill<const N: usize>(data: &mut [u8], bytes: [u8; N])
    requires { IsChannels N }
{
    for (at, byte) in data.iter_mut().enumerate() {
        *byte = bytes[at % N];
    }
}

// How many pixels at the front of so many bytes of repeats are this one.
fn assert_filled<const N: usize>(
    rt: &impl Abort,
    size: usize,
    of: [u8; N],
    px: [u8; N],
    counted: usize,
)
    requires { IsChannels N }
{
    let mut data = [0; 132];
    fill(&mut data, of);
    assert_number(rt, count(&data[..size.min(132)], px), counted);
}

#[test]
fn repeats_examples(rt: HostRuntime) {
    assert_filled(&rt, 0, [7; 3], [7; 3], 0);
    assert_filled(&rt, 2, [7; 3], [7; 3], 0);
    assert_filled(&rt, 50, [7; 3], [7; 3], 16);
    assert_filled(&rt, 53, [1, 2, 3], [1, 2, 3], 17);
    assert_filled(&rt, 132, [1, 2, 3, 4], [1, 2, 3, 4], 33);
    assert_filled(&rt, 80, [2, 3, 4, 1], [1, 2, 3, 4], 0);
    let mut data = [0; 48];
    fill(&mut data, [1, 2, 3]);
    data[47] = 4;
    assert_number(&rt, count(&data, [1, 2, 3]), 15);
}

// Compares the count with that of the pixels one by one, up to the first that differs.
fn assert_counted<const N: usize>(rt: &impl Abort, data: &[u8], px: [u8; N])
    requires { IsChannels N }
{
    let mut counted = 0usize;
    for bytes in data.chunks_exact(N) {
        if bytes != px.as_slice() {
            break;
        }
        counted = counted.saturating_add(1);
    }
    assert_number(rt, count(data, px), counted);
}

// Compares at so many bytes of repeats, and with a bit of each byte turned over.
fn assert_turned<const N: usize>(rt: &impl Abort, length: usize, px: [u8; N])
    requires { IsChannels N }
{
    let mut data = [0; 200];
    fill(&mut data, px);
    let data = &mut data[..length.min(200)];
    assert_counted(rt, data, px);
    for at in 0..data.len() {
        data[at] ^= 1 << (at % 8);
        assert_counted(rt, data, px);
        data[at] ^= 1 << (at % 8);
    }
}

// At each length up to 200 bytes.
#[test]
fn repeats_are_counted(rt: HostRuntime) {
    for length in 0..=200usize {
        assert_turned(&rt, length, [0x1b, 0xd2, 0x87]);
        assert_turned(&rt, length, [0x1b, 0xd2, 0x87, 0x4e]);
    }
}
