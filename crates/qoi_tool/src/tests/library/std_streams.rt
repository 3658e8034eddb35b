//! The calls of readers and writers over the standard library's own.
use crate::tests::fakes::{NONE, Source};
use crate::tests::library::support::examples::{EACH_KIND, image};
use crate::tests::library::support::images::Image;
use crate::tests::library::support::{
    assert_bytes, assert_count, assert_decoded, assert_number, made,
};
use qoi::{Decoder, Reader, Style};
use std::alloc::Global;
use std::io::{BufRead, BufWriter, Cursor, Read, Write};
use std::process::Abort;

// Decodes the image.
fn decoded<R: Reader>(
    rt: &impl Abort,
    alloc: Global,
    raw: &[u8],
    mut decoder: Decoder<R>,
) -> Decoder<R> {
    assert_decoded(rt, alloc, &mut decoder, raw);
    decoder
}

// Decodes the image from a stream, and reads the bytes after its file.
fn assert_reads<R: Read + Drop>(rt: &impl Abort, alloc: Global, raw: &[u8], reader: R) {
    let decoder = decoded(rt, alloc, raw, made::stream(rt, reader));
    assert_bytes(
        rt,
        &made::rest(rt, alloc, decoder.into_reader()),
        &[0x78, 0x79],
    );
}

// The same from a reader with a buffer.
fn assert_reads_buffer<R: BufRead + Drop>(rt: &impl Abort, alloc: Global, raw: &[u8], reader: R) {
    let decoder = decoded(rt, alloc, raw, made::buffered(rt, reader));
    assert_bytes(
        rt,
        &made::rest(rt, alloc, decoder.into_reader()),
        &[0x78, 0x79],
    );
}

// The file of an image with each kind of chunk, which two bytes follow, and its raw bytes.
fn followed(rt: &impl Abort, alloc: Global) -> (Vec<u8>, Vec<u8>) {
    let Image { raw, file, .. } = image(rt, alloc, EACH_KIND, Style::Reference);
    (made::joined(rt, alloc, &file, &[0x78, 0x79]), raw)
}

// A buffer of so many bytes before a reader that gives a byte a call, as a stream and by its buffer.
fn assert_buffer(rt: &impl Abort, alloc: Global, bytes: &[u8], raw: &[u8], capacity: usize) {
    let reader = made::buffer(rt, alloc, capacity, Source::new(bytes, 1, NONE));
    assert_reads(rt, alloc, raw, reader);
    let reader = made::buffer(rt, alloc, capacity, Source::new(bytes, 1, NONE));
    assert_reads_buffer(rt, alloc, raw, reader);
}

// Slices, cursors of them and of vectors, and buffering readers, one without a buffer.
#[test]
fn readers_are_read(rt: HostRuntime) {
    let alloc = rt.alloc();
    let (bytes, raw) = followed(&rt, alloc);
    assert_reads(&rt, alloc, &raw, bytes.as_slice());
    assert_reads_buffer(&rt, alloc, &raw, bytes.as_slice());
    assert_reads(&rt, alloc, &raw, Cursor::new(bytes.as_slice()));
    assert_buffer(&rt, alloc, &bytes, &raw, 0);
    assert_buffer(&rt, alloc, &bytes, &raw, 7);
    assert_reads_buffer(&rt, alloc, &raw, Cursor::new(bytes));
}

// What a buffer holds after the file is still there, and nothing more was read into it.
#[test]
fn rest_of_the_buffer(rt: HostRuntime) {
    let alloc = rt.alloc();
    let (bytes, raw) = followed(&rt, alloc);
    let reader = made::buffer(&rt, alloc, 100, Source::new(&bytes, 100, NONE));
    let decoder = decoded(&rt, alloc, &raw, made::buffered(&rt, reader));
    assert_bytes(&rt, decoder.reader().buffer(), &[0x78, 0x79]);
    assert_number(&rt, decoder.reader().get_ref().calls, 1);
}

// Encodes the image to a writer, and flushes it.
fn send<W: Write>(rt: &impl Abort, image: &Image, writer: &mut W) {
    let sent = image.encoder(rt).encode_to_stream(writer);
    assert_count(rt, sent, image.file.len());
    writer.flush().expect(rt, "refused");
}

// Vectors, cursors of them, and buffering writers over them.
#[test]
fn writers_take_the_file(rt: HostRuntime) {
    let alloc = rt.alloc();
    let image = image(&rt, alloc, EACH_KIND, Style::Reference);
    let mut vector: Vec<u8> = Vec::new(alloc);
    send(&rt, &image, &mut vector);
    assert_bytes(&rt, &vector, &image.file);
    let mut cursor: Cursor<Vec<u8>> = Cursor::new(Vec::new(alloc));
    send(&rt, &image, &mut cursor);
    assert_bytes(&rt, cursor.get_ref(), &image.file);
    let vector: Vec<u8> = Vec::new(alloc);
    let mut writer = BufWriter::with_capacity(alloc, 7, vector).expect(&rt, "refused");
    send(&rt, &image, &mut writer);
    assert_bytes(&rt, writer.get_ref(), &image.file);
}
