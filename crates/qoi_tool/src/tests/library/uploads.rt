//! An upload that is decoded into a buffer, and its refusal: each answer comes exactly if its clause
//! holds. No proof file.
ghost use Rattle.std.specs.Prelude.{◌≡◌, ◌↔◌, ◌<◌, ◌≤◌, ◌⊎◌, ℕ, take, drop, length, None, Ok, IsErr, IfSome};
ghost use Rattle.qoi.specs.declared.header.Header.{Header};
ghost use Rattle.qoi.specs.Images.{file_image, BeginsWithFile, HasFrontFile};
ghost use Rattle.qoi.specs.Decoding.{IsNoFile};
ghost use Rattle.qoi.specs.Qoi.{header_of, header_size};
ghost use Rattle.qoi.specs.Raw.{image_byte_count};
ghost use Rattle.qoi.specs.Reading.{IsCutAhead, IsWrongAhead};
ghost use Rattle.qoi_tool.specs.declared.tests.library.uploads.Verdict.{Verdict};

use crate::tests::fakes::ONE_RGB_PIXEL;
use qoi::laws::reading::{files_are_read, refusals_say_why};
use qoi::{Decoder, Error};
use std::process::Abort;

/// What an upload is.
#[derive(Clone, Copy, Debug, PartialEq, Eq)]
pub enum Verdict {
    /// No valid header stands at the front. It may begin with `qoif`, and name no pixels or more than
    /// 400,000,000.
    NotQoi,
    /// The image has more raw bytes than the buffer.
    TooLarge,
    /// Something else stands where the end marker should.
    Broken,
    /// The bytes end too early.
    Cut,
    /// One file, and nothing else.
    Fine,
    /// A file, and so many bytes behind it.
    FineWith(usize),
}

/// What the bytes are. If they are fine, their image is decoded into the front of a buffer, whose
/// later bytes stay.
pub fn decode_upload(buf: &mut [u8], bytes: &[u8]) -> Verdict
    ensures not_qoi { (result ≡ Verdict.NotQoi) ↔ IsErr (header_of bytes.now) }
    ensures too_large { (result ≡ Verdict.TooLarge) ↔ ((h : Header)
        × (header_of bytes.now ≡ Ok h) × (length buf.old < image_byte_count h)) }
    ensures broken { (result ≡ Verdict.Broken) ↔ ((h : Header) × (header_of bytes.now ≡ Ok h)
        × (image_byte_count h ≤ length buf.old) × IsWrongAhead h (drop header_size bytes.now)) }
    ensures cut { (result ≡ Verdict.Cut) ↔ ((h : Header) × (header_of bytes.now ≡ Ok h)
        × (image_byte_count h ≤ length buf.old) × IsCutAhead h (drop header_size bytes.now)) }
    ensures fine { (result ≡ Verdict.Fine) ↔ ((h : Header) × HasFrontFile h 0 bytes.now
        × (image_byte_count h ≤ length buf.old)) }
    ensures fine_with { (n : ℕ) → ((result ≡ Verdict.FineWith n) ↔ ((h : Header)
        × HasFrontFile h n bytes.now × (0 < n) × (image_byte_count h ≤ length buf.old))) }
    ensures image { (result ≡ Verdict.Fine) ⊎ ((n : ℕ) × (result ≡ Verdict.FineWith n))
        → take (length (file_image bytes.now)) buf.new ≡ file_image bytes.now }
    ensures later { (h : Header) → header_of bytes.now ≡ Ok h
        → drop (image_byte_count h) buf.new ≡ drop (image_byte_count h) buf.old }
    ensures untouched { (result ≡ Verdict.NotQoi) ⊎ (result ≡ Verdict.TooLarge)
        → buf.new ≡ buf.old }
{
    files_are_read();
    let Ok(mut decoder) = Decoder::new(bytes) else {
        return Verdict::NotQoi;
    };
    if decoder.required_buf_len() > buf.len() {
        return Verdict::TooLarge;
    }
    match decoder.decode_to_buf(buf) {
        Ok(_) => match decoder.into_data().len() {
            0 => Verdict::Fine,
            behind => Verdict::FineWith(behind),
        },
        Err(e) => match e {
            Error::UnexpectedBufferEnd => Verdict::Cut,
            _ => Verdict::Broken,
        },
    }
}

/// Why the bytes don't begin with a file; none if they do.
pub fn refusal(bytes: &[u8]) -> Option<Error>
    ensures some { IfSome result (IsNoFile bytes.now) }
    ensures none { result ≡ None → BeginsWithFile bytes.now }
{
    files_are_read();
    refusals_say_why();
    let decoder = match Decoder::new(bytes) {
        Ok(decoder) => decoder,
        Err(e) => return Some(e),
    };
    match decoder.into_pixels().finish() {
        Ok(_) => None,
        Err(e) => Some(e),
    }
}

// Compares what is said of the bytes, if so many raw bytes have room.
fn assert_verdict(rt: &impl Abort, bytes: &[u8], most: usize, verdict: Verdict) {
    let mut buf = [0; 12];
    assert!(rt; decode_upload(&mut buf[..most.min(12)], bytes) == verdict);
}

// The file of a pixel, whole, cut at each byte, and followed by two bytes, or by nine.
#[test]
fn one_pixel(rt: HostRuntime) {
    assert_verdict(&rt, &ONE_RGB_PIXEL, 3, Verdict::Fine);
    assert_verdict(&rt, &ONE_RGB_PIXEL, 2, Verdict::TooLarge);
    for end in 0..26usize {
        let verdict = if end < 14 {
            Verdict::NotQoi
        } else {
            Verdict::Cut
        };
        assert_verdict(&rt, &ONE_RGB_PIXEL[..end], 3, verdict);
    }
    let rest = [0x55, 0, 0, 0, 0, 0, 0, 0, 1];
    let mut followed = [0x78; 35];
    followed[..26].copy_from_slice(&ONE_RGB_PIXEL);
    assert_verdict(&rt, &followed[..28], 3, Verdict::FineWith(2));
    followed[26..].copy_from_slice(&rest);
    assert_verdict(&rt, &followed, 3, Verdict::FineWith(9));
}

// Another magic, another number of channels, a wider image, and another end marker.
#[test]
fn changed_bytes(rt: HostRuntime) {
    for (place, byte, verdict) in [
        (3, 0x67, Verdict::NotQoi),
        (12, 5, Verdict::NotQoi),
        (7, 2, Verdict::TooLarge),
        (25, 2, Verdict::Broken),
    ] {
        let mut changed = ONE_RGB_PIXEL;
        changed[place] = byte;
        assert_verdict(&rt, &changed, 3, verdict);
    }
}

// A run that is too long is fine, and a chunk behind it stands where the marker should.
#[test]
fn last_runs(rt: HostRuntime) {
    let fine = b"qoif\x00\x00\x00\x04\x00\x00\x00\x01\x03\x00\xfd\x00\x00\x00\x00\x00\x00\x00\x01";
    assert_verdict(&rt, fine, 12, Verdict::Fine);
    let broken =
        b"qoif\x00\x00\x00\x01\x00\x00\x00\x01\x03\x00\xc0\xc0\x00\x00\x00\x00\x00\x00\x00\x01";
    assert_verdict(&rt, broken, 3, Verdict::Broken);
    assert!(&rt; matches!(refusal(broken), Some(Error::InvalidPadding)));
    assert!(&rt; refusal(fine).is_none());
}
