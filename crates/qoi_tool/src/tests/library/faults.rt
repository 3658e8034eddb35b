//! A pixel, and an image with each kind of chunk, from readers and to writers of which each call in
//! turn ends badly. It is the last one.
use crate::tests::fakes::{Bad, ENDS, End, Source};
use crate::tests::library::support::decodings::{Call, after};
use crate::tests::library::support::examples::{EACH_KIND, image, one_rgb_pixel};
use crate::tests::library::support::images::Image;
use crate::tests::library::support::{
    assert_bytes, assert_fails, assert_number, assert_refused, made,
};
use qoi::{Decoder, Error, Reader, Result, Style};
use std::alloc::Global;
use std::io::ErrorKind;
use std::process::Abort;

// The two images.
fn images(rt: &impl Abort, alloc: Global) -> [Image; 2] {
    let each_kind = image(rt, alloc, EACH_KIND, Style::Reference);
    [one_rgb_pixel(rt, alloc), each_kind]
}

// The refusal is that of a bad call, if it came: an i/o error of its kind, or with its own words.
fn assert_bad(
    rt: &impl Abort,
    alloc: Global,
    refusal: Option<Error>,
    (bad, came): (Bad, bool),
    no_byte: ErrorKind,
) {
    match bad.end {
        _ if !came => assert_refused(rt, alloc, refusal, "accepted"),
        End::Named => assert_refused(rt, alloc, refusal, "i/o error: x"),
        end => assert_fails(rt, refusal, end.kind(no_byte)),
    }
}

// The refusal of making a decoder, or of decoding the image with it.
fn refusal_of<R: Reader + Drop>(
    rt: &impl Abort,
    alloc: Global,
    image: &Image,
    made: Result<Decoder<R>>,
    call: Call,
) -> Option<Error> {
    let mut decoder = match made {
        Ok(decoder) => decoder,
        Err(error) => return Some(error),
    };
    match image.decoding().of(rt, alloc, &mut decoder, call) {
        Ok(raw) => assert_bytes(rt, &raw, &image.raw),
        Err(error) => return Some(error),
    }
    None
}

// A reader that gives a byte a call: 14 calls for the header, and the others for the image.
fn assert_stream(rt: &impl Abort, alloc: Global, image: &Image, bad: Bad, call: Call) {
    let size = image.file.len();
    let mut reader = Source::new(&image.file, 1, bad);
    let refusal = refusal_of(rt, alloc, image, Decoder::from_stream(&mut reader), call);
    let came = (bad, bad.call <= size);
    assert_bad(rt, alloc, refusal, came, ErrorKind::UnexpectedEof);
    assert_number(rt, reader.calls, bad.call.min(size));
    assert_bytes(
        rt,
        reader.left,
        after(&image.file, bad.call.saturating_sub(1)),
    );
}

// A buffer that is filled by at most so many bytes a call.
fn assert_buffered(rt: &impl Abort, alloc: Global, image: &Image, bad: Bad, most: usize) {
    let source = Source::new(&image.file, most, bad);
    let mut reader = made::buffer(rt, alloc, most, source);
    let made = Decoder::from_buf_read(&mut reader);
    let refusal = refusal_of(rt, alloc, image, made, Call::ToVec);
    let calls = reader.get_ref().calls;
    let came = (bad, bad.call <= calls);
    assert_bad(rt, alloc, refusal, came, ErrorKind::UnexpectedEof);
    assert!(rt; calls <= bad.call);
}

// A writer that takes a byte a call. A beginning of the file has gone out.
fn assert_writer(rt: &impl Abort, alloc: Global, image: &Image, bad: Bad) {
    let size = image.file.len();
    let mut writer = made::sink(rt, alloc, 1, bad);
    let refusal = image.encoder(rt).encode_to_stream(&mut writer).err();
    let came = (bad, bad.call <= size);
    assert_bad(rt, alloc, refusal, came, ErrorKind::WriteZero);
    assert_number(rt, writer.calls, bad.call.min(size));
    let taken = bad.call.saturating_sub(1).min(size);
    assert_bytes(rt, &writer.got, &image.file[..taken]);
}

// A bad call of each kind, of readers, of buffers of 1 to 20 bytes, and of a writer.
fn assert_call(rt: &impl Abort, alloc: Global, image: &Image, bad: Bad) {
    assert_stream(rt, alloc, image, bad, Call::ToBuf);
    assert_stream(rt, alloc, image, bad, Call::ToVec);
    for most in 1..21usize {
        assert_buffered(rt, alloc, image, bad, most);
    }
    assert_writer(rt, alloc, image, bad);
}

// Each call for the file of an image, and one more, which never comes.
#[test]
fn failing_calls(rt: HostRuntime) {
    for image in &images(&rt, rt.alloc()) {
        for end in ENDS {
            for call in 1..image.file.len().saturating_add(2) {
                assert_call(&rt, rt.alloc(), image, Bad { call, end });
            }
        }
    }
}
