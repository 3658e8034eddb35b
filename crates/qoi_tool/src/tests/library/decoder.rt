//! Files that are decoded, by example; further images by the same decoder, which starts anew each
//! time; clones, and headers that are refused.
use crate::tests::fakes::{ONE_RGB_PIXEL, PIXEL, TWO_FILES};
use crate::tests::library::support::decodings::{
    CALLS, CUT, Call, Decoding, Ends, after, assert_ends,
};
use crate::tests::library::support::examples::{bytes, given, given_image};
use crate::tests::library::support::images::row;
use crate::tests::library::support::{
    assert_bytes, assert_named, assert_number, assert_refused, made,
};
use qoi::{Channels, Decoder, Header, Reader};
use std::alloc::Global;
use std::io::{Cursor, ErrorKind};
use std::process::Abort;

// Each call decodes an example's file into these channels, and gives the bytes of this word.
fn assert_given_in(rt: &impl Abort, alloc: Global, example: &str, channels: Channels, i: usize) {
    let raw = bytes(rt, alloc, example, i);
    let image = given_image(rt, alloc, example);
    let mut decoder = made::slice(rt, &image.file).with_channels(channels);
    let found = decoder.decode_to_vec(alloc).expect(rt, "refused");
    assert_named(rt, example, &found, &raw);
    let decoding = Decoding {
        channels,
        ..image.decoding()
    };
    decoding.check(rt, alloc, &raw, &[]);
}

// Each call decodes them, in three channels and in four.
#[test]
fn given_examples(rt: HostRuntime) {
    for example in given() {
        assert_given_in(&rt, rt.alloc(), example, Channels::Rgb, 4);
        assert_given_in(&rt, rt.alloc(), example, Channels::Rgba, 5);
    }
}

// A file of one pixel.
fn one_pixel(bytes: &[u8]) -> Decoding<'_> {
    Decoding {
        bytes,
        header: Header::default(),
        channels: Channels::Rgb,
    }
}

#[test]
fn cut_and_followed(rt: HostRuntime) {
    let file = made::joined(&rt, rt.alloc(), &ONE_RGB_PIXEL, &[0x78, 0x79]);
    let mut decoder = made::slice(&rt, &file);
    let mut buf = [0xaa; 5];
    assert_number(&rt, made::decoded(&rt, &mut decoder, &mut buf), 3);
    assert_bytes(&rt, &buf, &[0x0b, 0x79, 0xe7, 0xaa, 0xaa]);
    assert_bytes(&rt, decoder.data(), &[0x78, 0x79]);
    one_pixel(&ONE_RGB_PIXEL[..25]).check_cut(&rt, rt.alloc());
}

// One index chunk for each pixel.
#[test]
fn two_megapixels(rt: HostRuntime) {
    let header = Header {
        height: 1000,
        ..row(2000, Channels::Rgba)
    };
    let chunks = made::filled(&rt, rt.alloc(), 0x11, 2_000_000);
    let blank = made::filled(&rt, rt.alloc(), 0, 8_000_000);
    let file = made::file(&rt, rt.alloc(), header, &chunks);
    let decoding = Decoding {
        bytes: &file,
        header,
        channels: Channels::Rgba,
    };
    decoding.check_free(&rt, rt.alloc(), &blank);
    decoding.check(&rt, rt.alloc(), &blank, &[]);
}

// How the next call ends for the example `two_files_in_one_slice`.
fn assert_next<R: Reader>(
    rt: &impl Abort,
    alloc: Global,
    decoder: &mut Decoder<R>,
    call: Call,
    ends: Ends<'_>,
) {
    let found = one_pixel(&TWO_FILES).of(rt, alloc, decoder, call);
    assert_ends(rt, alloc, found, ends);
}

// The slice is what follows each image, and after a refusal as before.
#[test]
fn two_files_in_one_slice(rt: HostRuntime) {
    let alloc = rt.alloc();
    for call in CALLS {
        let mut decoder = made::slice(&rt, &TWO_FILES);
        assert_next(&rt, alloc, &mut decoder, call, Ends::Image(&PIXEL));
        assert_bytes(&rt, decoder.data(), after(&TWO_FILES, 26));
        assert_next(&rt, alloc, &mut decoder, call, Ends::Image(&[0xff; 3]));
        assert_bytes(&rt, decoder.data(), &[]);
        assert_next(&rt, alloc, &mut decoder, call, Ends::Text(CUT));
        assert_bytes(&rt, decoder.data(), &[]);
    }
}

// Two images, and nothing behind them.
fn assert_two<R: Reader>(rt: &impl Abort, alloc: Global, decoder: &mut Decoder<R>, call: Call) {
    assert_next(rt, alloc, decoder, call, Ends::Image(&PIXEL));
    assert_next(rt, alloc, decoder, call, Ends::Image(&[0xff; 3]));
    let ends = Ends::Kind(ErrorKind::UnexpectedEof);
    assert_next(rt, alloc, decoder, call, ends);
}

#[test]
fn two_files_from_one_reader(rt: HostRuntime) {
    let alloc = rt.alloc();
    for call in CALLS {
        let cursor = Cursor::new(&TWO_FILES[..]);
        assert_two(&rt, alloc, &mut made::stream(&rt, cursor), call);
        let reader = made::buffer(&rt, alloc, 8, &TWO_FILES[..]);
        assert_two(&rt, alloc, &mut made::buffered(&rt, reader), call);
    }
}

// Decodes the pixel. What follows the end marker is left.
fn assert_decodes(rt: &impl Abort, mut decoder: Decoder<&[u8]>) {
    let mut buf = [0xaa; 3];
    assert_number(rt, made::decoded(rt, &mut decoder, &mut buf), 3);
    assert_bytes(rt, &buf, &PIXEL);
    assert_bytes(rt, decoder.reader(), &TWO_FILES[26..]);
}

// A decoder and its clone decode the same image, each by itself.
#[test]
fn clones(rt: HostRuntime) {
    let decoder = made::stream(&rt, TWO_FILES.as_slice());
    let cloned = decoder.clone().expect(&rt, "refused");
    assert_decodes(&rt, decoder);
    assert_decodes(&rt, cloned);
}

// A header that is refused is taken of a reader that is lent, and no more.
fn assert_takes_header(rt: &impl Abort, alloc: Global, file: &[u8; 26], text: &str) {
    let mut reader = &file[..];
    assert_refused(rt, alloc, Decoder::from_stream(&mut reader).err(), text);
    assert_bytes(rt, reader, &ONE_RGB_PIXEL[14..]);
    let mut reader = &file[..];
    assert_refused(rt, alloc, Decoder::from_buf_read(&mut reader).err(), text);
    assert_bytes(rt, reader, &ONE_RGB_PIXEL[14..]);
}

// Each further invalid header byte is refused first.
#[test]
fn refused_headers(rt: HostRuntime) {
    let mut bytes = ONE_RGB_PIXEL;
    bytes[7] = 0;
    assert_takes_header(&rt, rt.alloc(), &bytes, "invalid image dimensions: 0x1");
    bytes[3] = 0x67;
    let magic = "invalid magic: expected 1903126886, got [113, 111, 105, 103]";
    assert_takes_header(&rt, rt.alloc(), &bytes, magic);
    bytes[13] = 2;
    let colorspace = "invalid color space: 2 (expected 0 or 1)";
    assert_takes_header(&rt, rt.alloc(), &bytes, colorspace);
    bytes[12] = 5;
    assert_takes_header(&rt, rt.alloc(), &bytes, "invalid number of channels: 5");
}
