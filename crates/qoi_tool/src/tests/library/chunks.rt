//! The first chunk of some bytes.
use crate::tests::library::support::assert_bytes;
use qoi::consts::QOI_MASK_2;
use qoi::parts::{Chunk, read_chunk};
use std::process::Abort;

// The bytes begin with this chunk.
fn assert_begins(rt: &impl Abort, bytes: &[u8], chunk: Chunk, left: &[u8]) {
    match read_chunk(bytes) {
        Some((found, rest)) => {
            assert!(rt; found == chunk);
            assert_bytes(rt, rest, left);
        }
        None => assert!(rt; false, "no {chunk:?}"),
    }
}

#[test]
fn first_chunks(rt: HostRuntime) {
    assert_begins(&rt, &[0x3f, 0x3f], Chunk::Place(63), &[0x3f]);
    assert_begins(&rt, &[0x7f, 1], Chunk::Diff(0x7f), &[1]);
    assert_begins(&rt, &[0xbf, 0xff, 2], Chunk::Luma(0xbf, 0xff), &[2]);
    assert_begins(&rt, &[0xfd, 0x00], Chunk::Run(62), &[0x00]);
    assert_begins(&rt, &[0xfe, 1, 2, 3, 0xfd], Chunk::Rgb(1, 2, 3), &[0xfd]);
    assert_begins(&rt, &[0xff, 4, 3, 2, 1], Chunk::Rgba(4, 3, 2, 1), &[]);
}

// Too few bytes begin no chunk; one byte is a chunk unless its two high bits are those of a luma,
// or it begins an RGB or RGBA chunk.
#[test]
fn too_few_bytes(rt: HostRuntime) {
    assert!(rt; read_chunk(&[]).is_none());
    assert!(rt; read_chunk(&[0xfe, 1, 2]).is_none());
    for byte in 0..=255u8 {
        let is_longer = byte & QOI_MASK_2 == 0x80 || byte >= 0xfe;
        assert!(rt; read_chunk(&[byte]).is_none() == is_longer, "{byte}");
    }
}
