//! Generated images of pixels of six kinds: there and back by each call in each style, and the
//! number of bytes of their chunks, against lower bounds counted pixel by pixel.
ghost use Rattle.std.specs.Prelude.{◌<◌};

use crate::tests::library::support::generator::{Numbers, Rgba, START, drawn, place};
use crate::tests::library::support::images::{Image, raw_of, row};
use qoi::{Channels, Header, Style};
use std::alloc::Global;
use std::process::Abort;

// The difference of two bytes plus `by`, modulo 256: below `2 * by` for differences `-by..by`.
fn moved(from: u8, to: u8, by: u8) -> u8 {
    to.wrapping_sub(from).wrapping_add(by)
}

// The fewest bytes of a chunk that leads from one pixel to another by its colors.
fn step([r, g, b, a]: Rgba, [r_2, g_2, b_2, a_2]: Rgba) -> usize {
    let red = moved(r.wrapping_sub(g), r_2.wrapping_sub(g_2), 8);
    let blue = moved(b.wrapping_sub(g), b_2.wrapping_sub(g_2), 8);
    if a != a_2 {
        5
    } else if moved(r, r_2, 2) < 4 && moved(g, g_2, 2) < 4 && moved(b, b_2, 2) < 4 {
        1
    } else if moved(g, g_2, 32) < 64 && red < 16 && blue < 16 {
        2
    } else {
        4
    }
}

// What is known of an image after some of its pixels.
#[derive(Drop)]
struct Counted {
    // The last pixel at each index position, if there is one.
    seen: [Option<Rgba>; 64],
    last: Rgba,
    // How many repeats stand at the end.
    repeats: usize,
    // The fewest bytes of earlier pixels, in a regular list and in any list.
    floor: usize,
    floor0: usize,
    // The first fresh pixel at the position of opaque black.
    black: Option<Rgba>,
}

impl Counted {
    // After all pixels.
    fn of(pixels: &[Rgba]) -> Counted {
        let mut counted = Counted {
            seen: [None; 64],
            last: START,
            repeats: 0,
            floor: 0,
            floor0: 0,
            black: None,
        };
        for px in pixels {
            counted.add(*px);
        }
        counted.close();
        counted
    }

    // Counts the repeats at the end: a run has 62 at most.
    fn close(&mut self) {
        let runs = self.repeats.div_ceil(62);
        self.floor = self.floor.saturating_add(runs);
        self.floor0 = self.floor0.saturating_add(runs);
        self.repeats = 0;
    }

    // Counts a fresh pixel. In an irregular list any empty position gives transparent black.
    fn add_fresh(&mut self, px: Rgba, held: Option<Rgba>) {
        self.close();
        let is_held = held.unwrap_or([0; 4]) == px;
        let least = if is_held { 1 } else { step(self.last, px) };
        let empty = px == [0; 4] && self.seen.contains(&None);
        self.floor = self.floor.saturating_add(least);
        self.floor0 = self.floor0.saturating_add(if empty { 1 } else { least });
        if place(px) == 53 && self.black.is_none() {
            self.black = Some(px);
        }
    }

    // Counts the next pixel.
    fn add(&mut self, px: Rgba) {
        let position = place(px);
        if px == self.last {
            self.repeats = self.repeats.saturating_add(1);
        } else {
            self.add_fresh(px, self.seen[position]);
        }
        self.seen[position] = Some(px);
        self.last = px;
    }
}

// By how much a file may be longer than the floor: a black that opens the image stands in no index
// position until it comes again.
fn slack(channels: Channels, pixels: &[Rgba], black: Option<Rgba>) -> usize {
    if pixels.first() == Some(&START) && black == Some(START) {
        return usize::from(channels.as_u8());
    }
    0
}

// Encodes an image by each call and decodes it back, and returns how many bytes its chunks have.
fn size_of(rt: &impl Abort, alloc: Global, header: Header, style: Style, pixels: &[Rgba]) -> usize {
    let raw = raw_of(rt, alloc, header.channels, pixels);
    let image = Image::of(rt, alloc, header, style, raw);
    image.check(rt, alloc);
    image.file.len().saturating_sub(22)
}

// An image in each style. Returns by how much its chunks in `Reference` exceed the floor.
fn assert_image(rt: &impl Abort, alloc: Global, header: Header, pixels: &[Rgba]) -> usize {
    let counted = Counted::of(pixels);
    let slack = slack(header.channels, pixels, counted.black);
    let size = size_of(rt, alloc, header, Style::Reference, pixels);
    assert!(rt; counted.floor <= size && size <= counted.floor.saturating_add(slack));
    assert!(rt; size_of(rt, alloc, header, Style::Places, pixels) == size);
    assert!(rt; size_of(rt, alloc, header, Style::Tight, pixels) == counted.floor0);
    size.saturating_sub(counted.floor)
}

// Makes each black transparent.
fn make_transparent(pixels: &mut [Rgba]) {
    for px in pixels {
        if *px == START {
            *px = [0; 4];
        }
    }
}

// Draws images of sizes up to `most` by `most` until they have 500,000 pixels. If there are four
// channels, every third has transparent black for each black. Some exceed the floor.
fn assert_drawn(rt: &impl Abort, alloc: Global, channels: Channels, most: u32)
    requires { 0 < most }
{
    let mut numbers = Numbers::new(0x5eed5);
    let (mut all, mut used) = (0usize, 0usize);
    for k in 0..500_000u32 {
        if all >= 500_000 {
            break;
        }
        let header = Header {
            height: 1 + numbers.below(most),
            ..row(1 + numbers.below(most), channels)
        };
        let n = header.width as usize * header.height as usize;
        let mut pixels = drawn(rt, alloc, &mut numbers, channels, n);
        if k % 3 == 0 && channels.is_rgba() {
            make_transparent(&mut pixels);
        }
        used = used.saturating_add(assert_image(rt, alloc, header, &pixels));
        all = all.saturating_add(n);
    }
    assert!(rt; all >= 500_000 && (used > 0 || most > 40));
}

// Two million pixels in all.
#[test]
fn generated_images(rt: HostRuntime) {
    for channels in [Channels::Rgb, Channels::Rgba] {
        assert_drawn(&rt, rt.alloc(), channels, 400);
        assert_drawn(&rt, rt.alloc(), channels, 40);
    }
}
