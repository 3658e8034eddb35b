//! The program over readers and writers in memory, with faults and with no memory; and the library
//! as the program sees it.

mod fakes;
mod library;
mod refusals;

use crate::tests::fakes::{Bad, ENDS, End, NONE, ONE_RGB_PIXEL, PIXEL, Sink, Source, take_memory};
use crate::tests::library::support::examples::{
    BLACK_AS_PLACE, PLACE_RGBA, REPEAT, REPEAT_AS_PLACE, files, image,
};
use crate::tests::library::support::{assert_bytes, assert_number, made};
use crate::{report, run};
use qoi::Style;
use std::alloc::Global;
use std::io::Read;
use std::process::Abort;

const USAGE: &[u8] = b"usage: qoi_tool dec [rgb|rgba] | enc W H [linear] [places|tight] | info\n";

const CUT: &[u8] = b"qoi_tool: unexpected input buffer end while decoding\n";

// The line of the header of `ONE_RGB_PIXEL`.
const LINE: &[u8] = b"1x1 channels 3 colorspace srgb\n";

// The words of a call, between which stand spaces.
fn words_of(rt: &impl Abort, alloc: Global, words: &str) -> Vec<String> {
    let mut all = Vec::new(alloc);
    if words.is_empty() {
        return all;
    }
    for word in words.split(' ') {
        let word = String::from_str(alloc, word).expect(rt, "refused");
        all.push(word).expect(rt, "refused");
    }
    all
}

// Runs the program, perhaps while all memory is taken. Returns the line of its fault, or nothing;
// its status is as it must be then.
fn line_of<R: Read>(
    rt: &impl Abort,
    alloc: Global,
    words: &str,
    starved: bool,
    input: &mut R,
    output: &mut Sink,
) -> Vec<u8> {
    let words = words_of(rt, alloc, words);
    let mut err = made::sink(rt, alloc, usize::MAX, NONE);
    let held = take_memory(alloc, if starved { 2 } else { usize::MAX });
    let status = match run(alloc, &words, input, output) {
        Ok(()) => 0,
        Err(fault) => report(&fault, &mut err),
    };
    drop(held);
    let is_usage = err.got.as_slice() == USAGE;
    let wanted = 2 * u8::from(is_usage) + u8::from(!is_usage && !err.got.is_empty());
    assert_bytes(rt, &[status], &[wanted]);
    err.got
}

// Compares what the program writes for the bytes of its input, and its line.
fn assert_ends(
    rt: &impl Abort,
    alloc: Global,
    words: &str,
    bytes: &[u8],
    (out, line): (&[u8], &[u8]),
) {
    let mut input = Source::new(bytes, usize::MAX, NONE);
    let mut output = made::sink(rt, alloc, usize::MAX, NONE);
    let found = line_of(rt, alloc, words, false, &mut input, &mut output);
    assert_bytes(rt, &found, line);
    assert_bytes(rt, &output.got, out);
    assert!(rt; line != USAGE || input.calls == 0);
}

// The program writes these bytes.
fn assert_writes(rt: &impl Abort, alloc: Global, words: &str, bytes: &[u8], out: &[u8]) {
    assert_ends(rt, alloc, words, bytes, (out, &[]));
}

// The program refuses the input with this line, and writes nothing.
fn assert_refuses(rt: &impl Abort, alloc: Global, words: &str, bytes: &[u8], line: &[u8]) {
    assert_ends(rt, alloc, words, bytes, (&[], line));
}

#[test]
fn the_program(rt: HostRuntime) {
    let alloc = rt.alloc();
    let file = ONE_RGB_PIXEL;
    assert_writes(&rt, alloc, "info", &file, LINE);
    assert_writes(&rt, alloc, "dec", &file, &PIXEL);
    assert_writes(&rt, alloc, "dec rgba", &file, b"\x0b\x79\xe7\xff");
    let place = image(&rt, alloc, PLACE_RGBA, Style::Reference);
    assert_writes(&rt, alloc, "dec rgb", &place.file, b"efg\x01\x02\x03efg");
    let mut linear = file;
    linear[13] = 1;
    assert_writes(&rt, alloc, "enc 1 1 linear", &PIXEL, &linear);
    assert_writes(&rt, alloc, "enc 1 1", &PIXEL, &file);
    assert_writes(&rt, alloc, "enc 01 1", &PIXEL, &file);
    let line = b"20000x20000 channels 4 colorspace linear\n";
    let header = b"qoif\0\0\x4e\x20\0\0\x4e\x20\x04\x01";
    assert_writes(&rt, alloc, "info", header, line);
}

// Calls that the program refuses.
#[test]
fn the_program_refuses(rt: HostRuntime) {
    let alloc = rt.alloc();
    let line = b"qoi_tool: invalid number of channels: 5\n";
    assert_refuses(&rt, alloc, "enc 1 1", &[0; 5], line);
    let line = b"qoi_tool: invalid image dimensions: 4294967295x1\n";
    assert_refuses(&rt, alloc, "enc 4294967295 1", &[], line);
    assert_refuses(&rt, alloc, "dec", &ONE_RGB_PIXEL[..25], CUT);
}

// The words are those of no command.
fn assert_usage(rt: &impl Abort, alloc: Global, words: &str) {
    assert_refuses(rt, alloc, words, &ONE_RGB_PIXEL, USAGE);
}

#[test]
fn other_words(rt: HostRuntime) {
    let alloc = rt.alloc();
    assert_usage(&rt, alloc, "");
    assert_usage(&rt, alloc, "de");
    assert_usage(&rt, alloc, "decode");
    assert_usage(&rt, alloc, "dec rgbx");
    assert_usage(&rt, alloc, "dec ");
    assert_usage(&rt, alloc, "info rgb");
    assert_usage(&rt, alloc, "enc 1");
    assert_usage(&rt, alloc, "enc +1 1");
    assert_usage(&rt, alloc, "enc 1 4294967296");
    assert_usage(&rt, alloc, "enc 4294967296 1");
    assert_usage(&rt, alloc, "enc  1");
    assert_usage(&rt, alloc, "enc 1 1 srgb");
    assert_usage(&rt, alloc, "enc 3 1 linear linear");
    assert_usage(&rt, alloc, "enc 3 1 places linear");
    assert_usage(&rt, alloc, "enc 3 1 places tight");
    assert_usage(&rt, alloc, "enc 3 1 tight linear");
    assert_usage(&rt, alloc, "enc 3 1 tight places");
    assert_usage(&rt, alloc, "enc 3 1 Places");
    assert_usage(&rt, alloc, "enc 3 1 linear places x");
}

// Words that encode the image of an example, of three pixels, the fourteenth byte of its file, and
// the way back.
fn assert_styled(rt: &impl Abort, alloc: Global, words: &str, example: &str, space: u8) {
    let mut image = image(rt, alloc, example, Style::Reference);
    if let Some(byte) = image.file.get_mut(13) {
        *byte = space;
    }
    assert_writes(rt, alloc, words, &image.raw, &image.file);
    assert_writes(rt, alloc, "dec", &image.file, &image.raw);
}

// The file of each style, with its color space.
#[test]
fn styles(rt: HostRuntime) {
    let alloc = rt.alloc();
    assert_styled(&rt, alloc, "enc 3 1", REPEAT, 0);
    assert_styled(&rt, alloc, "enc 3 1 places", REPEAT_AS_PLACE, 0);
    assert_styled(&rt, alloc, "enc 3 1 linear places", REPEAT_AS_PLACE, 1);
    assert_styled(&rt, alloc, "enc 3 1 tight", BLACK_AS_PLACE, 0);
    assert_styled(&rt, alloc, "enc 3 1 linear tight", BLACK_AS_PLACE, 1);
}

// `dec` accepts each example's file. It refuses each beginning, and writes nothing.
#[test]
fn beginnings(rt: HostRuntime) {
    for image in &files(&rt, rt.alloc()) {
        assert_writes(&rt, rt.alloc(), "dec", &image.file, &image.raw);
        for size in 0..image.file.len() {
            assert_refuses(&rt, rt.alloc(), "dec", &image.file[..size], CUT);
        }
    }
}

// The program decodes or tells of this file, from a reader and to a writer that take at most so many
// bytes a call. The line is that of an i/o error, perhaps with words of its own, or there is none.
fn assert_io(
    rt: &impl Abort,
    alloc: Global,
    words: &str,
    (input, output): (&mut Source<'_>, &mut Sink),
    words_of_fault: Option<&[u8]>,
) {
    let line = line_of(rt, alloc, words, false, input, output);
    match (line.strip_prefix(b"qoi_tool: i/o error: "), words_of_fault) {
        (Some(found), Some(wanted)) => {
            assert!(rt; found.ends_with(b"\n") && found.starts_with(wanted));
        }
        (_, wanted) => assert!(rt; line.is_empty() && wanted.is_none()),
    }
}

// The words of a fault, if this is what a bad call ends with and it came.
fn words_of_end(end: End, came: bool) -> Option<&'static [u8]> {
    match end {
        _ if !came => None,
        End::Named => Some(b"x\n"),
        _ => Some(b""),
    }
}

// The program reads a byte a call, and this call fails. Call 27 finds the end, so a later one never
// comes.
fn assert_reads(rt: &impl Abort, alloc: Global, bad: Bad) {
    let mut input = Source::new(&ONE_RGB_PIXEL, 1, bad);
    let mut output = made::sink(rt, alloc, usize::MAX, NONE);
    let fault = words_of_end(bad.end, bad.call <= 27);
    assert_io(rt, alloc, "dec", (&mut input, &mut output), fault);
    assert_number(rt, input.calls, bad.call.min(27));
    let written: &[u8] = if bad.call <= 27 { &[] } else { &PIXEL };
    assert_bytes(rt, &output.got, written);
}

// The program decodes to a writer that takes a byte a call, and fails at this one. Three calls take
// all, so a later one never comes.
fn assert_sends(rt: &impl Abort, alloc: Global, bad: Bad) {
    let mut input = Source::new(&ONE_RGB_PIXEL, usize::MAX, NONE);
    let mut output = made::sink(rt, alloc, 1, bad);
    let fault = words_of_end(bad.end, bad.call <= 3);
    assert_io(rt, alloc, "dec", (&mut input, &mut output), fault);
    assert_bytes(rt, &output.got, &PIXEL[..bad.call.saturating_sub(1).min(3)]);
}

// A read that gives no byte is the end of the input, and no fault.
#[test]
fn failing_reader_and_writer(rt: HostRuntime) {
    for end in ENDS {
        for call in 1..29usize {
            if !matches!(end, End::NoByte) {
                assert_reads(&rt, rt.alloc(), Bad { call, end });
            }
            assert_sends(&rt, rt.alloc(), Bad { call, end });
        }
    }
}

// Runs the program while all memory is taken, and compares what it writes, and its line.
fn assert_starved(rt: &impl Abort, alloc: Global, words: &str, wanted: &[u8], line: &[u8]) {
    let mut input = Source::new(&ONE_RGB_PIXEL, usize::MAX, NONE);
    let mut output = made::sink(rt, alloc, usize::MAX, NONE);
    let found = line_of(rt, alloc, words, true, &mut input, &mut output);
    assert_bytes(rt, &found, line);
    assert_bytes(rt, &output.got, wanted);
}

// `info` takes no memory.
#[test]
fn no_memory(rt: HostRuntime) {
    let alloc = rt.alloc();
    let line = b"qoi_tool: out of memory\n";
    assert_starved(&rt, alloc, "dec", &[], line);
    assert_starved(&rt, alloc, "dec rgb", &[], line);
    assert_starved(&rt, alloc, "enc 1 1", &[], line);
    assert_starved(&rt, alloc, "info", LINE, &[]);
}
