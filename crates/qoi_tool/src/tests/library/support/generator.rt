//! Images of pixels of six kinds that are drawn at random, the same at each run.
ghost use Rattle.std.specs.Prelude.{◌<◌};

use qoi::Channels;
use std::alloc::Global;
use std::process::Abort;

/// A source of numbers: the state is shifted and combined with itself three times for each.
#[derive(Drop)]
pub struct Numbers(u64);

impl Numbers {
    /// The source that begins with this state, which isn't 0.
    pub fn new(state: u64) -> Numbers {
        Numbers(state)
    }

    /// The next number from 0 to `n` - 1.
    pub fn below(&mut self, n: u32) -> u32
        requires { 0 < n }
        ensures { result < n }
    {
        let mut x = self.0;
        x ^= x << 13;
        x ^= x >> 7;
        x ^= x << 17;
        self.0 = x;
        ((x >> 11) % u64::from(n)) as u32
    }

    /// The next byte.
    pub fn byte(&mut self) -> u8 {
        self.below(256) as u8
    }
}

/// A pixel: red, green, blue and alpha.
pub type Rgba = [u8; 4];

/// Opaque black, which stands before the first pixel.
pub const START: Rgba = [0, 0, 0, 255];

/// The index position of a pixel.
pub fn place(px: Rgba) -> usize
    ensures { result < 64 }
{
    let [r, g, b, a] = px;
    let sum = 3 * usize::from(r) + 5 * usize::from(g) + 7 * usize::from(b) + 11 * usize::from(a);
    sum % 64
}

/// The next pixel of a kind, after the pixels so far, of which `last` is the last: a new one, one
/// that stood before, a repeat, a difference, a luma, or opaque black.
pub fn pixel(numbers: &mut Numbers, kind: usize, seen: &[Rgba], last: Rgba) -> Rgba {
    let [r, g, b, a] = last;
    let step = numbers.byte();
    match kind {
        0 => {
            let alpha = if step % 2 == 0 { a } else { numbers.byte() };
            [numbers.byte(), numbers.byte(), numbers.byte(), alpha]
        }
        1 => {
            let back = numbers.below(100) as usize + 1;
            match seen.get(seen.len().saturating_sub(back)) {
                Some(px) => *px,
                None => last,
            }
        }
        2 => last,
        3 => [
            r.wrapping_add(step / 16 % 4).wrapping_sub(2),
            g.wrapping_add(step / 4 % 4).wrapping_sub(2),
            b.wrapping_add(step % 4).wrapping_sub(2),
            a,
        ],
        4 => {
            let vg = (numbers.below(64) as u8).wrapping_sub(32);
            [
                r.wrapping_add(vg).wrapping_add(step / 16).wrapping_sub(8),
                g.wrapping_add(vg),
                b.wrapping_add(vg).wrapping_add(step % 16).wrapping_sub(8),
                a,
            ]
        }
        _ => START,
    }
}

// Draws one of the six kinds eight times: how often a kind comes is its share of an image.
fn shares(numbers: &mut Numbers) -> [usize; 8] {
    let mut kinds = [0; 8];
    for kind in &mut kinds {
        *kind = numbers.below(6) as usize;
    }
    kinds
}

/// The pixels of an image. The shares of the six kinds are drawn for it. One of four repeats stands
/// for up to 200 of them.
pub fn drawn(
    rt: &impl Abort,
    alloc: Global,
    numbers: &mut Numbers,
    channels: Channels,
    n: usize,
) -> Vec<Rgba> {
    let shares = shares(numbers);
    let mut pixels: Vec<Rgba> = Vec::new(alloc);
    let mut last = START;
    let mut again = 0u32;
    for _ in 0..n {
        if again > 0 {
            again -= 1;
        } else {
            let kind = shares[numbers.below(8) as usize];
            if kind == 2 && numbers.below(4) == 0 {
                again = numbers.below(200);
            }
            last = pixel(numbers, kind, &pixels, last);
        }
        if channels.is_rgb() {
            last[3] = 255;
        }
        pixels.push(last).expect(rt, "refused");
    }
    pixels
}
