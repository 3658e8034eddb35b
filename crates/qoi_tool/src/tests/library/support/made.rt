//! What the tests make, with ample memory and of what isn't refused. Nothing is promised of it: the
//! fewer facts a test sees, the faster it is proved.
use crate::tests::fakes::{Bad, Sink};
pub use crate::tests::library::support::images::file_of as file;
use qoi::{Buffered, Bytes, Decoder, Encoder, Reader, encode_to_vec};
use std::alloc::Global;
use std::io::{BufRead, BufReader, Read};
use std::process::Abort;

/// A vector of these bytes.
pub fn bytes(rt: &impl Abort, alloc: Global, bytes: &[u8]) -> Vec<u8> {
    Vec::from_slice(alloc, bytes).expect(rt, "refused")
}

/// A vector of these bytes and others behind them.
pub fn joined(rt: &impl Abort, alloc: Global, first: &[u8], second: &[u8]) -> Vec<u8> {
    let mut both = bytes(rt, alloc, first);
    append(rt, &mut both, second);
    both
}

/// A vector of so many equal bytes.
pub fn filled(rt: &impl Abort, alloc: Global, byte: u8, size: usize) -> Vec<u8> {
    vec![in alloc; byte; size].expect(rt, "refused")
}

/// Adds bytes to a vector.
pub fn append(rt: &impl Abort, vector: &mut Vec<u8>, bytes: &[u8]) {
    vector.extend_from_slice(bytes).expect(rt, "refused");
}

/// What a reader still gives.
pub fn rest<R: Read + Drop>(rt: &impl Abort, alloc: Global, mut reader: R) -> Vec<u8> {
    let mut rest = Vec::new(alloc);
    reader.read_to_end(&mut rest).expect(rt, "refused");
    rest
}

/// A buffer of so many bytes before a reader.
pub fn buffer<R: Read + Drop>(
    rt: &impl Abort,
    alloc: Global,
    capacity: usize,
    reader: R,
) -> BufReader<R> {
    BufReader::with_capacity(alloc, capacity, reader).expect(rt, "refused")
}

/// A writer in memory.
pub fn sink(rt: &impl Abort, alloc: Global, most: usize, bad: Bad) -> Sink {
    Sink::new(alloc, most, bad).expect(rt, "refused")
}

/// An encoder of these raw bytes.
pub fn encoder<'a>(rt: &impl Abort, raw: &'a [u8], width: u32, height: u32) -> Encoder<'a> {
    Encoder::new(raw, width, height).expect(rt, "refused")
}

/// The file of an image, in style `Reference`.
pub fn encoded(rt: &impl Abort, alloc: Global, raw: &[u8], width: u32, height: u32) -> Vec<u8> {
    encode_to_vec(alloc, raw, width, height).expect(rt, "refused")
}

/// A decoder of a slice.
pub fn slice<'a>(rt: &impl Abort, file: &'a [u8]) -> Decoder<Bytes<'a>> {
    Decoder::new(file).expect(rt, "refused")
}

/// A decoder of a stream.
pub fn stream<R: Read + Drop>(rt: &impl Abort, reader: R) -> Decoder<R> {
    Decoder::from_stream(reader).expect(rt, "refused")
}

/// A decoder of a reader with a buffer.
pub fn buffered<R: BufRead + Drop>(rt: &impl Abort, reader: R) -> Decoder<Buffered<R>> {
    Decoder::from_buf_read(reader).expect(rt, "refused")
}

/// Decodes an image into a buffer, and returns how many bytes it has.
pub fn decoded<R: Reader>(rt: &impl Abort, decoder: &mut Decoder<R>, buf: &mut [u8]) -> usize {
    decoder.decode_to_buf(buf).expect(rt, "refused")
}
