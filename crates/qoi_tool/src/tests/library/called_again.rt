//! Readers and writers that fail once and then go on: what the call does that is made again, and
//! whose the fault was.
use crate::tests::fakes::{Bad, ENDS, End, NONE, Sink, Source};
use crate::tests::library::support::decodings::{after, front};
use crate::tests::library::support::images::{Image, row};
use crate::tests::library::support::{
    assert_bytes, assert_cut, assert_decoded, assert_fails, assert_given, assert_number, made,
};
use qoi::{Bytes, Channels, Header, PixelReader, PixelWriter, Reader, Style};
use std::alloc::Global;
use std::io::{ErrorKind, Write};
use std::process::Abort;

// An image of 100 by 100 pixels, of 30,000 raw bytes.
fn square(rt: &impl Abort, alloc: Global) -> Image {
    let header = Header {
        height: 100,
        ..row(100, Channels::Rgb)
    };
    Image::drawn(rt, alloc, 0xa6a1, header, Style::Reference)
}

// A writer of the image's raw bytes.
fn writer<W: Write + Drop>(
    rt: &impl Abort,
    alloc: Global,
    image: &Image,
    out: W,
) -> PixelWriter<W> {
    PixelWriter::new(alloc, image.header, image.style, out).expect(rt, "refused")
}

// The same to a writer whose second call is late: the one behind the header.
fn late(rt: &impl Abort, alloc: Global, image: &Image) -> PixelWriter<Sink> {
    let (call, end) = (2, End::Late);
    let sink = made::sink(rt, alloc, usize::MAX, Bad { call, end });
    writer(rt, alloc, image, sink)
}

// A fault of `write`, if the writer failed before.
fn is_spent<W: Write + Drop>(pixels: &mut PixelWriter<W>) -> bool {
    pixels.write(&[]).is_err()
}

// A reader of a thousand bytes a call fails at its third. No byte is lost: the writer took two
// thousand, and the same call takes the others.
#[test]
fn raw_bytes_from_a_reader_go_on(rt: HostRuntime) {
    let alloc = rt.alloc();
    let image = square(&rt, alloc);
    for end in ENDS {
        let mut copy = writer(&rt, alloc, &image, Vec::new(alloc));
        let mut source = Source::new(&image.raw, 1000, Bad { call: 3, end });
        let fault = copy.copy_raw_from(&mut source).err();
        assert_fails(&rt, fault, end.kind(ErrorKind::UnexpectedEof));
        assert_number(&rt, source.calls, 3);
        assert_number(&rt, copy.left(), 28_000);
        assert!(rt; !is_spent(&mut copy));
        copy.copy_raw_from(&mut source).expect(&rt, "refused");
        assert_given(&rt, copy.finish(), &image.file);
    }
}

// A writer fails with the third piece, which is too much to be held. What the reader gave is lost,
// and nothing is read again.
#[test]
fn raw_bytes_to_a_spent_writer(rt: HostRuntime) {
    let alloc = rt.alloc();
    let image = square(&rt, alloc);
    let mut copy = late(&rt, alloc, &image);
    let mut source = Source::new(&image.raw, usize::MAX, NONE);
    for kind in [ErrorKind::TimedOut, ErrorKind::BrokenPipe] {
        assert_fails(&rt, copy.copy_raw_from(&mut source).err(), kind);
        assert_number(&rt, source.calls, 3);
        assert_number(&rt, copy.left(), 21_808);
        assert!(rt; is_spent(&mut copy));
    }
}

// No more of the image can be read.
fn assert_refuses<R: Reader + Drop>(
    rt: &impl Abort,
    alloc: Global,
    mut pixels: PixelReader<R>,
    copy: &mut PixelWriter<Vec<u8>>,
) {
    let mut out = Vec::new(alloc);
    assert_cut(rt, pixels.read(&mut [0; 9]));
    assert_cut(rt, pixels.copy_raw_to(&mut out));
    assert_cut(rt, pixels.copy_to(copy));
    assert_cut(rt, pixels.copy_rows_to(copy, 1));
    assert_number(rt, out.len(), 0);
    assert_cut(rt, pixels.finish());
}

// Raw bytes go to a writer of a thousand bytes a call, of which this call takes none: so many bytes
// come before, and so many are left with those of the piece. The rest is refused for good.
fn assert_stops(
    rt: &impl Abort,
    alloc: Global,
    image: &Image,
    call: usize,
    (came, left): (usize, usize),
) {
    let end = End::NoByte;
    let mut sink = made::sink(rt, alloc, 1000, Bad { call, end });
    let mut pixels = made::slice(rt, &image.file).into_pixels();
    let fault = pixels.copy_raw_to(&mut sink).err();
    assert_fails(rt, fault, ErrorKind::WriteZero);
    assert_cut(rt, pixels.copy_raw_to(&mut sink));
    assert_number(rt, sink.calls, call);
    assert_number(rt, sink.got.len(), came);
    assert!(rt; image.raw.starts_with(&sink.got));
    assert_number(rt, pixels.left(), left);
    let mut copy = writer(rt, alloc, image, Vec::new(alloc));
    assert_refuses(rt, alloc, pixels, &mut copy);
    assert_number(rt, copy.left(), 30_000);
}

// A writer fails within the first piece, behind it, and within the last one.
#[test]
fn raw_bytes_to_a_writer_stop(rt: HostRuntime) {
    let alloc = rt.alloc();
    let image = square(&rt, alloc);
    assert_stops(&rt, alloc, &image, 3, (2000, 30_000));
    assert_stops(&rt, alloc, &image, 6, (4096, 25_904));
    assert_stops(&rt, alloc, &image, 37, (29_672, 1328));
}

// A reader is interrupted within the image: no more of it can be read, and the writer of pieces
// takes what follows.
#[test]
fn copies_from_a_refused_image(rt: HostRuntime) {
    let alloc = rt.alloc();
    let image = square(&rt, alloc);
    let (call, end) = (4, End::Interruption);
    let source = Source::new(&image.file, 1000, Bad { call, end });
    let reader = made::buffer(&rt, alloc, 1000, source);
    let mut pixels = made::buffered(&rt, reader).into_pixels();
    let mut copy = writer(&rt, alloc, &image, Vec::new(alloc));
    let fault = pixels.copy_rows_to(&mut copy, 90).err();
    assert_fails(&rt, fault, ErrorKind::Interrupted);
    assert!(rt; !is_spent(&mut copy));
    assert_number(&rt, pixels.left(), copy.left());
    let came = 30_000usize.saturating_sub(copy.left());
    assert!(rt; 4096 <= came && came % 4096 == 0);
    assert_refuses(&rt, alloc, pixels, &mut copy);
    copy.write(after(&image.raw, came)).expect(&rt, "refused");
    assert_given(&rt, copy.finish(), &image.file);
}

// The writer of pieces fails with the third one, within a row: the reader goes on behind it.
fn after_fault<'a>(
    rt: &impl Abort,
    alloc: Global,
    image: &'a Image,
    rows: u32,
) -> PixelReader<Bytes<'a>> {
    let mut pixels = made::slice(rt, &image.file).into_pixels();
    let mut copy = late(rt, alloc, image);
    let fault = pixels.copy_rows_to(&mut copy, rows).err();
    assert_fails(rt, fault, ErrorKind::TimedOut);
    assert!(rt; is_spent(&mut copy));
    assert_fails(rt, pixels.copy_to(&mut copy).err(), ErrorKind::BrokenPipe);
    assert_number(rt, copy.left(), 21_808);
    pixels
}

#[test]
fn copies_go_on_to_another_writer(rt: HostRuntime) {
    let alloc = rt.alloc();
    let image = square(&rt, alloc);
    for rows in [60, 100] {
        let mut pixels = after_fault(&rt, alloc, &image, rows);
        assert_number(&rt, pixels.left(), 17_712);
        let mut rest = Vec::new(alloc);
        pixels.copy_raw_to(&mut rest).expect(&rt, "refused");
        assert_bytes(&rt, &rest, after(&image.raw, 12_288));
    }
}

// A file that is written again stands whole behind its beginning.
#[test]
fn files_are_sent_again(rt: HostRuntime) {
    let alloc = rt.alloc();
    let image = square(&rt, alloc);
    let (call, end) = (2, End::Late);
    let mut sink = made::sink(&rt, alloc, usize::MAX, Bad { call, end });
    let encoder = image.encoder(&rt);
    let fault = encoder.encode_to_stream(&mut sink).err();
    assert_fails(&rt, fault, ErrorKind::TimedOut);
    encoder.encode_to_stream(&mut sink).expect(&rt, "refused");
    assert_bytes(&rt, front(&sink.got, 4096), front(&image.file, 4096));
    assert_bytes(&rt, after(&sink.got, 4096), &image.file);
}

// A luma chunk, of two bytes, the last of which is late: a decoder that goes on takes it for a
// difference of its own, and decodes another pixel.
#[test]
fn streams_are_within_a_chunk(rt: HostRuntime) {
    let (alloc, call, end) = (rt.alloc(), 3, End::Late);
    let file = made::file(&rt, alloc, row(1, Channels::Rgb), &[0xa5, 0x78]);
    let mut pixel = [0; 3];
    let source = Source::new(&file, usize::MAX, Bad { call, end });
    let mut decoder = made::stream(&rt, source);
    let fault = decoder.decode_to_buf(&mut pixel).err();
    assert_fails(&rt, fault, ErrorKind::TimedOut);
    assert_decoded(&rt, alloc, &mut decoder, &[1, 0, 254]);
    let source = Source::new(&file, usize::MAX, Bad { call, end });
    let mut pixels = made::stream(&rt, source).into_pixels();
    let fault = pixels.read(&mut pixel).err();
    assert_fails(&rt, fault, ErrorKind::TimedOut);
    assert_decoded(&rt, alloc, &mut pixels.into_decoder(), &[1, 0, 254]);
    assert_decoded(&rt, alloc, &mut made::slice(&rt, &file), &[4, 5, 5]);
}

// A buffer shows no byte once, within the image: the piece that is decoded then, or ahead of which it
// is, is refused, and no call is made of the reader behind it.
#[test]
fn no_call_follows_an_end(rt: HostRuntime) {
    let alloc = rt.alloc();
    let image = square(&rt, alloc);
    let (call, end) = (3, End::NoByte);
    let source = Source::new(&image.file, 1000, Bad { call, end });
    let reader = made::buffer(&rt, alloc, 1000, source);
    let mut pixels = made::buffered(&rt, reader).into_pixels();
    let mut piece = [0; 500];
    let mut fault = None;
    for _ in 0..60 {
        if let Err(e) = pixels.read(&mut piece) {
            fault = Some(e);
            break;
        }
    }
    assert_fails(&rt, fault, ErrorKind::UnexpectedEof);
    assert_cut(&rt, pixels.read(&mut piece));
    assert_number(&rt, pixels.into_decoder().reader().get_ref().calls, 3);
}
