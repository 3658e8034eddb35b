//! The callers, run on small images. Each test calls few of them and takes few results apart, since
//! a test is proved in more than twice the time if it has twice the facts.
use crate::tests::fakes::{Bad, End, ONE_RGB_PIXEL, PIXEL};
use crate::tests::library::callers::{
    all_images, at_most, both_channels, both_images, decoded_part, first_byte, header_ahead,
    keep_and_try, lengths, no_longer, pack_and_keep_in, receive, shortest, two_frames,
};
use crate::tests::library::support::decodings::front;
use crate::tests::library::support::images::row;
use crate::tests::library::support::{
    assert_both, assert_bytes, assert_cut, assert_fails, assert_given, assert_header,
    assert_no_memory, assert_part, made,
};
use qoi::{Channels, Header, Style};
use std::alloc::Global;
use std::io::ErrorKind;

#[test]
fn vectors(rt: HostRuntime) {
    let alloc = rt.alloc();
    assert!(rt; matches!(first_byte(alloc, &ONE_RGB_PIXEL), Ok(0x0b)));
    assert_given(&rt, shortest(alloc, &PIXEL, 1, 1), &ONE_RGB_PIXEL);
}

#[test]
fn parts_of_buffers(rt: HostRuntime) {
    let mut buf = [0xaa; 27];
    assert_part(&rt, decoded_part(&mut buf, &ONE_RGB_PIXEL), &PIXEL);
}

#[test]
fn buffers_and_vectors(rt: HostRuntime) {
    let mut buf = [0xaa; 27];
    let file = pack_and_keep_in(rt.alloc(), &mut buf, &PIXEL, 1, 1, Style::Tight);
    assert_given(&rt, file, &ONE_RGB_PIXEL);
    assert!(rt; buf.starts_with(&ONE_RGB_PIXEL));
}

#[test]
fn writers_that_refuse(rt: HostRuntime) {
    let end = End::Fault;
    let mut writer = made::sink(&rt, rt.alloc(), 4, Bad { call: 3, end });
    let tried = keep_and_try(rt.alloc(), &PIXEL, 1, 1, &mut writer);
    let (file, sent) = tried.expect(&rt, "refused");
    assert_bytes(&rt, &file, &ONE_RGB_PIXEL);
    assert_fails(&rt, sent.err(), ErrorKind::BrokenPipe);
    assert_bytes(&rt, &writer.got, &ONE_RGB_PIXEL[..8]);
}

#[test]
fn readers(rt: HostRuntime) {
    let (header, left) = header_ahead(ONE_RGB_PIXEL.as_slice()).expect(&rt, "refused");
    assert_header(&rt, &header, &Header::default());
    assert_bytes(&rt, left, &ONE_RGB_PIXEL[14..]);
    let received = receive(rt.alloc(), ONE_RGB_PIXEL.as_slice());
    let (raw, left) = received.expect(&rt, "refused");
    assert_bytes(&rt, &raw, &PIXEL);
    assert_bytes(&rt, left, &[]);
}

// Opaque black that comes back is spelled out by three more bytes than an index position, which
// style `Tight` names.
const BLACK: [u8; 9] = [0, 0, 0, 101, 102, 103, 0, 0, 0];

#[test]
fn styles(rt: HostRuntime) {
    let alloc = rt.alloc();
    let spelled = [0xc0, 0xfe, 0x65, 0x66, 0x67, 0xfe, 0, 0, 0];
    let named = [0xc0, 0xfe, 0x65, 0x66, 0x67, 0x35];
    let spelled = made::file(&rt, alloc, row(3, Channels::Rgb), &spelled);
    let named = made::file(&rt, alloc, row(3, Channels::Rgb), &named);
    let other = no_longer(alloc, &BLACK, 3, 1, Style::Places);
    assert_both(&rt, other, &spelled, &named);
}

#[test]
fn lengths_in_all_styles(rt: HostRuntime) {
    let mut sent = Vec::new(rt.alloc());
    let found = lengths(&mut [0; 34], &BLACK, 3, 1, &mut sent);
    assert!(rt; matches!(found, Ok((31, 31, 28))));
}

#[test]
fn many_files(rt: HostRuntime) {
    let alloc = rt.alloc();
    let files = made::joined(&rt, alloc, &ONE_RGB_PIXEL, &ONE_RGB_PIXEL);
    assert_both(&rt, both_images(alloc, &files), &PIXEL, &PIXEL);
    assert_both(&rt, two_frames(alloc, files.as_slice()), &PIXEL, &PIXEL);
    assert_cut(&rt, all_images(alloc, front(&files, 51)));
    for raw in &all_images(alloc, &files).expect(&rt, "refused") {
        assert_bytes(&rt, raw, &PIXEL);
    }
}

#[test]
fn channels_and_bounds(rt: HostRuntime) {
    let alloc = rt.alloc();
    assert_given(&rt, at_most(alloc, &ONE_RGB_PIXEL, 3), &PIXEL);
    assert_no_memory(&rt, at_most(alloc, &ONE_RGB_PIXEL, 2));
    let both = both_channels(alloc, &ONE_RGB_PIXEL);
    assert_both(&rt, both, &PIXEL, &[0x0b, 0x79, 0xe7, 255]);
}
