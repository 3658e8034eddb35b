//! The worked examples: files that the encoder writes, and files that are only decoded.
//!
//! An example is a line of words: its name; the styles in which its chunks are written (`r`, `p` and
//! `t`), or `-`; its number of channels; its chunks; its raw bytes, before which may stand how often
//! the first of them come, or else its image in three channels and the one in four. It is of one row.
//! Bytes are hexadecimal.
use crate::tests::fakes::{ONE_RGB_PIXEL, PIXEL};
use crate::tests::library::support::images::{Image, file_of, row};
use crate::tests::library::support::made;
use qoi::{Channels, Header, Style};
use std::alloc::Global;
use std::process::Abort;

/// Three pixels of four channels, of which the last is an index position.
pub const PLACE_RGBA: &str = "place_rgba r 4 ff65666768ff0102030436 656667680102030465666768";

/// A chunk of each kind: RGB, RGBA, a difference, a luma, an index position (53) and a run of two.
pub const EACH_KIND: &str = "each_kind r 4 fe016302ff0b21374d40bfff35c1 \
    016302ff0b21374d091f354d2f3e5b4d016302ff016302ff016302ff";

/// A repeat in style `Reference`.
pub const REPEAT: &str = "styles r 3 fe656667c0fe010203 656667656667010203";

/// The same in style `Places`.
pub const REPEAT_AS_PLACE: &str = "styles p 3 fe65666733fe010203 656667656667010203";

/// Opaque black that comes back, in style `Tight`.
pub const BLACK_AS_PLACE: &str = "styles t 3 c0fe65666735 000000656667000000";

// Files that the encoder writes.
#[rattlefmt::skip]
static WRITTEN: [&str; 47] = [
    // Repeats of the start pixel, and one pixel.
    "one_rgba_pixel r 4 ff0b79e737 0b79e737",
    "one_rgba_pixel r 4 fe0b79e7 0b79e7ff",
    "one_black_pixel r 3 c0 000000",
    "black_runs r 3 fd 62x 000000",
    "black_runs r 3 fdc0 63x 000000",
    "black_runs r 3 fdc0fe0b1621 63x 000000 0b1621",
    "one_small_step r 3 55 ffffff",
    "one_small_step r 3 7f 010101",
    "one_small_step r 3 40 fefefe",
    "one_small_step r 3 9f00 f7fff7",
    "one_small_step r 3 8088 e0e0e0",
    "one_small_step r 3 bfff 261f26",
    "one_small_step r 3 fe202020 202020",
    // Index positions, and black that comes back.
    "place_rgb r 3 fe656667fe01020333 656667010203656667",
    PLACE_RGBA,
    "blank_first r 4 00 00000000",
    "black_returns_rgb r 3 c0fe656667fe000000 000000656667000000",
    "black_returns_rgba r 4 c0ff65666768ff000000ff 000000ff65666768000000ff",
    "black_overwritten r 3 c0fe016302fe000000 000000016302000000",
    // Index position 0 holds transparent black, and not the opaque black that is encoded.
    "black_and_blank r 3 fe656667fe000000 656667000000",
    "blank_without_place r 4 ff40000000fe000000fe400000fe000000 40000000000000004000000000000000",
    // Runs, and black after other pixels and before them.
    "plain_runs r 3 fe016302fefbfcfd40 016302fbfcfdf9fafb",
    // Runs of two, at the end and within.
    "plain_runs r 3 fe016302fe0b2137c1 0163020b21370b21370b2137",
    "plain_runs r 3 fe016302fe0b2137c1fe010203 0163020b21370b21370b2137010203",
    "plain_runs r 4 ff01630203ff0b21374dc1 016302030b21374d0b21374d0b21374d",
    "plain_runs r 4 ff01630203ff0b21374dc1ff01020304 016302030b21374d0b21374d0b21374d01020304",
    "black_returns_twice r 3 c0fe656667fe0000003335 000000656667000000656667000000",
    "black_returns_after_63 r 4 fdc0ff65666768ff000000ff 63x 000000ff 65666768000000ff",
    "black_twice r 3 c1 000000000000",
    "black_twice r 4 c1 000000ff000000ff",
    "blank_after_a_pixel r 4 ff6566676800 6566676800000000",
    "black_after_a_pixel r 4 ff65666768ff000000ff 65666768000000ff",
    // Repeats in the styles `Reference` and `Places`.
    REPEAT,
    REPEAT_AS_PLACE,
    "styles rp 3 fe656667fe01020333c017 656667010203656667656667010203",
    "one_after_runs_of_62 r 3 fe656667fdc0fe010203 64x 656667 010203",
    "one_after_runs_of_62 p 3 fe656667fd33fe010203 64x 656667 010203",
    "two_stay_a_run rp 3 fe656667c1fe010203 656667656667656667010203",
    "one_at_the_end rp 3 fe656667c0 656667656667",
    "one_at_the_start rp 3 c0fe656667 000000656667",
    "one_after_its_own_place rp 4 00c0ff01020304 000000000000000001020304",
    // Style `Tight`.
    BLACK_AS_PLACE,
    "black_returns_rgba t 4 c0ff6566676835 000000ff65666768000000ff",
    "blank_without_place t 4 ff4000000001fe40000001 40000000000000004000000000000000",
    "black_overwritten t 3 c0fe016302fe000000 000000016302000000",
    "black_and_blank t 3 fe656667fe000000 656667000000",
    "a_run_stays t 3 c0fe656667c0fe010203 000000656667656667010203",
];

// Files that are only decoded.
#[rattlefmt::skip]
static GIVEN: [&str; 13] = [
    "black_returns_rgb - 3 c0fe65666735 000000656667000000 000000ff656667ff000000ff",
    // Pixels of runs are seen.
    "black_returns_rgba - 4 c0ff6566676835 000000656667000000 000000ff65666768000000ff",
    // Position 17 was never written.
    "blank_without_place - 4 ff4000000011fe40000011 400000000000400000000000 \
     40000000000000004000000000000000",
    // The pixel from an empty position is seen.
    "empty_place - 4 ff400000001100 400000000000000000 400000000000000000000000",
    "chunks_under_rgb_header - 3 11 000000 000000ff",
    "chunks_under_rgb_header - 3 ff01020304 010203 010203ff",
    "last_run - 3 fd 000000000000000000000000 000000ff000000ff000000ff000000ff",
    "place_rgba - 4 ff65666768ff0102030436 656667010203656667 656667680102030465666768",
    "black_and_blank - 3 fe65666700 656667000000 656667ff000000ff",
    // Under a header of four channels the second pixel comes out transparent.
    "black_and_blank - 4 fe65666700 656667000000 656667ff00000000",
    "alpha_stays_inside - 3 ff01020304fe0506070e 010203050607010203 010203ff050607ff010203ff",
    "transparent_black_is_seen - 3 116b07 000000000001000001 000000ff000001ff000001ff",
    // Two differences give two black pixels.
    "black_twice - 3 6a6a 000000000000 000000ff000000ff",
];

/// The examples that the encoder writes.
pub fn written() -> &'static [&'static str] {
    &WRITTEN
}

/// The examples that are only decoded.
pub fn given() -> &'static [&'static str] {
    &GIVEN
}

/// A word of an example, counted from 0.
pub fn word(example: &str, i: usize) -> &str {
    for (k, word) in example.split(' ').enumerate() {
        if k == i {
            return word;
        }
    }
    ""
}

// The number of a hexadecimal digit.
fn digit(letter: u8) -> u8 {
    letter.wrapping_sub(if letter < b'a' { b'0' } else { b'a' - 10 })
}

/// The bytes of a word of an example.
pub fn bytes(rt: &impl Abort, alloc: Global, example: &str, i: usize) -> Vec<u8> {
    let mut bytes = Vec::new(alloc);
    for pair in word(example, i).as_bytes().chunks_exact(2) {
        if let [high, low] = pair {
            let byte = digit(*high).wrapping_mul(16).wrapping_add(digit(*low));
            bytes.push(byte).expect(rt, "refused");
        }
    }
    bytes
}

// The raw bytes of an example that the encoder writes.
fn raw(rt: &impl Abort, alloc: Global, example: &str) -> Vec<u8> {
    let Some(times) = word(example, 4).strip_suffix("x") else {
        return bytes(rt, alloc, example, 4);
    };
    let mut raw = Vec::new(alloc);
    for _ in 0..times.parse::<u32>().unwrap_or(0) {
        made::append(rt, &mut raw, &bytes(rt, alloc, example, 5));
    }
    made::append(rt, &mut raw, &bytes(rt, alloc, example, 6));
    raw
}

// The header of a row of these raw bytes.
fn row_of(example: &str, raw: &[u8]) -> Header {
    let (channels, size) = if word(example, 2) == "3" {
        (Channels::Rgb, 3)
    } else {
        (Channels::Rgba, 4)
    };
    row((raw.len() / size).min(1000) as u32, channels)
}

// The image of an example with these raw bytes.
fn of(rt: &impl Abort, alloc: Global, example: &str, style: Style, raw: Vec<u8>) -> Image {
    let header = row_of(example, &raw);
    Image {
        header,
        style,
        raw,
        file: file_of(rt, alloc, header, &bytes(rt, alloc, example, 3)),
    }
}

/// The image of an example that the encoder writes, in a style.
pub fn image(rt: &impl Abort, alloc: Global, example: &str, style: Style) -> Image {
    of(rt, alloc, example, style, raw(rt, alloc, example))
}

/// The image, in its own channels, of an example that is only decoded.
pub fn given_image(rt: &impl Abort, alloc: Global, example: &str) -> Image {
    let i = if word(example, 2) == "3" { 4 } else { 5 };
    of(
        rt,
        alloc,
        example,
        Style::Reference,
        bytes(rt, alloc, example, i),
    )
}

/// The example `one_rgb_pixel`.
pub fn one_rgb_pixel(rt: &impl Abort, alloc: Global) -> Image {
    Image {
        header: Header::default(),
        style: Style::Reference,
        raw: made::bytes(rt, alloc, &PIXEL),
        file: made::bytes(rt, alloc, &ONE_RGB_PIXEL),
    }
}

// Adds the files that the encoder writes.
fn add_written(rt: &impl Abort, alloc: Global, images: &mut Vec<Image>) {
    for example in written() {
        let image = image(rt, alloc, example, Style::Reference);
        images.push(image).expect(rt, "refused");
    }
}

/// All the examples that have a file.
pub fn files(rt: &impl Abort, alloc: Global) -> Vec<Image> {
    let mut images = Vec::new(alloc);
    images.push(one_rgb_pixel(rt, alloc)).expect(rt, "refused");
    add_written(rt, alloc, &mut images);
    for example in given() {
        let image = given_image(rt, alloc, example);
        images.push(image).expect(rt, "refused");
    }
    images
}
