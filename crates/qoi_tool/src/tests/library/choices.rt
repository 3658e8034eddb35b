//! The kinds of chunk, over many values.
use crate::tests::library::support::decodings::after;
use crate::tests::library::support::images::{Image, row};
use crate::tests::library::support::made;
use qoi::{Channels, Header, Style};
use std::alloc::Global;
use std::process::Abort;

// Encodes the raw bytes of a row to these chunks by each of the calls, and decodes them back.
fn assert_chunks(rt: &impl Abort, alloc: Global, header: Header, raw: Vec<u8>, chunks: &[u8]) {
    let image = Image {
        header,
        style: Style::Reference,
        raw,
        file: made::file(rt, alloc, header, chunks),
    };
    image.check(rt, alloc);
}

// Opaque black `n` times, and then a pixel that is spelled out.
fn assert_run(
    rt: &impl Abort,
    alloc: Global,
    n: u8,
    channels: Channels,
    (black, last): (&[u8], &[u8]),
) {
    let (mut raw, mut chunks) = (Vec::new(alloc), Vec::new(alloc));
    for _ in 0..n {
        made::append(rt, &mut raw, black);
    }
    made::append(rt, &mut raw, after(last, 1));
    if n > 62 {
        made::append(rt, &mut chunks, &[0xfd]);
    }
    made::append(rt, &mut chunks, &[0xc0 + n.saturating_sub(1) % 62]);
    made::append(rt, &mut chunks, last);
    assert_chunks(rt, alloc, row(u32::from(n) + 1, channels), raw, &chunks);
}

#[test]
fn runs_at_the_start(rt: HostRuntime) {
    let alloc = rt.alloc();
    for n in 1..=124u8 {
        assert_run(&rt, alloc, n, Channels::Rgb, (&[0; 3], b"\xfe\x0b\x16\x21"));
        assert_run(
            &rt,
            alloc,
            n,
            Channels::Rgba,
            (b"\0\0\0\xff", b"\xff\x0b\x16\x21\x2c"),
        );
    }
}

// The pixel (1, 99, 2), a pixel that is far from it, and one that is a step from that: in three
// channels, and in four with alpha 9 from the second on. The last chunk gives the step.
fn assert_last_chunk(
    rt: &impl Abort,
    alloc: Global,
    [r, g, b]: [u8; 3],
    [vr, vg, vb]: [u8; 3],
    last: &[u8],
) {
    let (x, y, z) = (r.wrapping_add(vr), g.wrapping_add(vg), b.wrapping_add(vb));
    let raw = made::bytes(rt, alloc, &[1, 99, 2, r, g, b, x, y, z]);
    let chunks = made::joined(rt, alloc, &[0xfe, 1, 99, 2, 0xfe, r, g, b], last);
    assert_chunks(rt, alloc, row(3, Channels::Rgb), raw, &chunks);
    let raw = made::bytes(rt, alloc, &[1, 99, 2, 255, r, g, b, 9, x, y, z, 9]);
    let chunks = made::joined(rt, alloc, &[0xfe, 1, 99, 2, 0xff, r, g, b, 9], last);
    assert_chunks(rt, alloc, row(3, Channels::Rgba), raw, &chunks);
}

// Each difference but that of an equal pixel, -2 to 0 in each color.
#[test]
fn differences(rt: HostRuntime) {
    for x in 0..8u8 {
        let px = [x.wrapping_sub(5), x.wrapping_sub(4), x.wrapping_sub(3)];
        for step in 0..26u8 {
            let (dr, dg, db) = (step / 9, step / 3 % 3, step % 3);
            let step = [dr.wrapping_sub(2), dg.wrapping_sub(2), db.wrapping_sub(2)];
            let chunk = [0x40 + 16 * dr + 4 * dg + db];
            assert_last_chunk(&rt, rt.alloc(), px, step, &chunk);
        }
    }
}

// Lumas but that of an equal pixel: differences of green from -32 to 24 by eights, and of red and
// blue less green's from -8 to 4 by fours.
#[test]
fn lumas(rt: HostRuntime) {
    for k in 0..50u8 {
        let x = 4 * k;
        let px = [x.wrapping_mul(3), x.wrapping_sub(5), x.wrapping_sub(7)];
        for number in 0..128u8 {
            let (d, u, v) = (number / 16 * 8, number / 4 % 4 * 4, number % 4 * 4);
            let step = [
                (u + d).wrapping_sub(40),
                d.wrapping_sub(32),
                (v + d).wrapping_sub(40),
            ];
            if step != [0, 0, 0] {
                let chunk = [0x80 + d, 16 * u + v];
                assert_last_chunk(&rt, rt.alloc(), px, step, &chunk);
            }
        }
    }
}
