//! What the tests of the library share.

pub mod decodings;
pub mod examples;
pub mod generator;
pub mod images;
pub mod made;

use qoi::{Decoder, Error, Header, Reader, Result};
use std::alloc::Global;
use std::io::ErrorKind;
use std::process::Abort;

/// Compares bytes.
pub fn assert_bytes(rt: &impl Abort, found: &[u8], bytes: &[u8]) {
    assert_eq!(rt; found, bytes);
}

/// Compares bytes of the example of this name.
pub fn assert_named(rt: &impl Abort, name: &str, found: &[u8], bytes: &[u8]) {
    assert!(rt; found == bytes, "{name}");
}

/// Compares bytes that a call gives.
pub fn assert_given(rt: &impl Abort, given: Result<Vec<u8>>, bytes: &[u8]) {
    assert_bytes(rt, &given.expect(rt, "refused"), bytes);
}

/// Compares a part of a buffer that a call gives.
pub fn assert_part(rt: &impl Abort, given: Result<&[u8]>, bytes: &[u8]) {
    assert_bytes(rt, given.expect(rt, "refused"), bytes);
}

/// Compares the image that a decoder decodes into a vector.
pub fn assert_decoded<R: Reader>(
    rt: &impl Abort,
    alloc: Global,
    decoder: &mut Decoder<R>,
    image: &[u8],
) {
    assert_given(rt, decoder.decode_to_vec(alloc), image);
}

/// Compares two vectors that a call gives.
pub fn assert_both(
    rt: &impl Abort,
    given: Result<(Vec<u8>, Vec<u8>)>,
    first: &[u8],
    second: &[u8],
) {
    let (one, other) = given.expect(rt, "refused");
    assert_bytes(rt, &one, first);
    assert_bytes(rt, &other, second);
}

/// Compares numbers.
pub fn assert_number(rt: &impl Abort, found: usize, number: usize) {
    assert_eq!(rt; found, number);
}

/// Compares a number that a call gives.
pub fn assert_count(rt: &impl Abort, given: Result<usize>, number: usize) {
    assert_number(rt, given.expect(rt, "refused"), number);
}

/// Tests that a call refuses bytes as cut.
pub fn assert_cut<T: Drop>(rt: &impl Abort, given: Result<T>) {
    assert!(rt; matches!(given, Err(Error::UnexpectedBufferEnd)));
}

/// Tests that a call finds no memory.
pub fn assert_no_memory<T: Drop>(rt: &impl Abort, given: Result<T>) {
    assert!(rt; matches!(given, Err(Error::OutOfMemory)));
}

/// Compares headers.
pub fn assert_header(rt: &impl Abort, found: &Header, header: &Header) {
    assert_eq!(rt; *found, *header);
}

/// Compares texts.
pub fn assert_text(rt: &impl Abort, found: &str, text: &str) {
    assert_eq!(rt; found, text);
}

/// Compares the printed text of a refusal.
pub fn assert_refused(rt: &impl Abort, alloc: Global, refusal: Option<Error>, text: &str) {
    match refusal {
        Some(error) => assert_text(
            rt,
            format!(in alloc; "{error}").expect(rt, "refused").as_str(),
            text,
        ),
        None => assert_text(rt, "accepted", text),
    }
}

/// Tests that the refusal is an i/o error of this kind.
pub fn assert_fails(rt: &impl Abort, refusal: Option<Error>, kind: ErrorKind) {
    match &refusal {
        Some(Error::IoError(error)) => assert_eq!(rt; error.kind(), kind),
        _ => assert!(rt; false, "no i/o error, not: {kind:?}"),
    }
}
