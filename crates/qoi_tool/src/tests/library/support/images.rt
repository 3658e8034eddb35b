//! Images that are encoded by each of the calls, and decoded back.
use crate::tests::fakes::{NONE, Sink};
use crate::tests::library::support::decodings::Decoding;
use crate::tests::library::support::generator::{Numbers, Rgba, drawn};
use crate::tests::library::support::{
    assert_bytes, assert_count, assert_given, assert_header, made,
};
use qoi::{Channels, Encoder, Header, Result, Style, encode_to_buf, encode_to_vec};
use std::alloc::Global;
use std::process::Abort;

/// The header of one row of `width` pixels, in sRGB.
pub fn row(width: u32, channels: Channels) -> Header {
    Header {
        width,
        channels,
        ..Header::default()
    }
}

/// A file: the fourteen bytes of a header, the chunks as they are given, and the end marker.
pub fn file_of(rt: &impl Abort, alloc: Global, header: Header, chunks: &[u8]) -> Vec<u8> {
    let mut file = made::bytes(rt, alloc, b"qoif");
    made::append(rt, &mut file, &header.width.to_be_bytes());
    made::append(rt, &mut file, &header.height.to_be_bytes());
    let last = [header.channels.as_u8(), header.colorspace.as_u8()];
    made::append(rt, &mut file, &last);
    made::append(rt, &mut file, chunks);
    made::append(rt, &mut file, &[0, 0, 0, 0, 0, 0, 0, 1]);
    file
}

/// The raw bytes of pixels. In three channels their alpha is dropped.
pub fn raw_of(rt: &impl Abort, alloc: Global, channels: Channels, pixels: &[Rgba]) -> Vec<u8> {
    let mut raw = Vec::new(alloc);
    let size = usize::from(channels.as_u8()).min(4);
    for px in pixels {
        made::append(rt, &mut raw, &px[..size]);
    }
    raw
}

/// An image: the header of its file, a style, its raw bytes, and its file in that style.
#[derive(Drop)]
pub struct Image {
    pub header: Header,
    pub style: Style,
    pub raw: Vec<u8>,
    pub file: Vec<u8>,
}

impl Image {
    /// The image of these raw bytes, with the file that the encoder makes of it.
    pub fn of(rt: &impl Abort, alloc: Global, header: Header, style: Style, raw: Vec<u8>) -> Image {
        let file = Vec::new(alloc);
        let mut image = Image {
            header,
            style,
            raw,
            file,
        };
        image.file = image.encoder(rt).encode_to_vec(alloc).expect(rt, "refused");
        image
    }

    /// An image of drawn pixels, the same for the same seed.
    pub fn drawn(rt: &impl Abort, alloc: Global, seed: u64, header: Header, style: Style) -> Image {
        let n = header.width as usize * header.height as usize;
        let pixels = drawn(rt, alloc, &mut Numbers::new(seed), header.channels, n);
        let raw = raw_of(rt, alloc, header.channels, &pixels);
        Image::of(rt, alloc, header, style, raw)
    }

    /// Its encoder.
    pub fn encoder(&self, rt: &impl Abort) -> Encoder<'_> {
        made::encoder(rt, &self.raw, self.header.width, self.header.height).with_style(self.style)
    }

    /// Its file, which is decoded in its own channels.
    pub fn decoding(&self) -> Decoding<'_> {
        Decoding {
            bytes: &self.file,
            header: self.header,
            channels: self.header.channels,
        }
    }

    /// Encodes the image by each of the calls, compares with its file, and decodes it back.
    pub fn check(&self, rt: &impl Abort, alloc: Global) {
        self.check_encoder(rt, alloc);
        self.check_free(rt, alloc);
        self.sent(rt, alloc, usize::MAX);
        self.decoding().check_free(rt, alloc, &self.raw);
        self.decoding().check(rt, alloc, &self.raw, &[]);
    }

    // Encodes the image by the encoder's calls that don't need a writer.
    fn check_encoder(&self, rt: &impl Abort, alloc: Global) {
        let encoder = self.encoder(rt);
        assert_header(rt, encoder.header(), &self.header);
        assert!(rt; encoder.style() == self.style);
        assert!(rt; encoder.channels() == self.header.channels);
        assert_given(rt, encoder.encode_to_vec(alloc), &self.file);
        let most = encoder.required_buf_len().saturating_add(3);
        let mut buf = made::filled(rt, alloc, 0xaa, most);
        let size = encoder.encode_to_buf(&mut buf);
        self.assert_in(rt, alloc, size, &buf);
    }

    // Encodes the image by the two free calls, if it has their style.
    fn check_free(&self, rt: &impl Abort, alloc: Global) {
        if self.style != Style::Reference {
            return;
        }
        let Header { width, height, .. } = self.header;
        let file = encode_to_vec(alloc, &self.raw, width, height);
        assert_given(rt, file, &self.file);
        let mut buf = made::filled(rt, alloc, 0xaa, self.header.encode_max_len());
        let size = encode_to_buf(&mut buf, &self.raw, width, height);
        self.assert_in(rt, alloc, size, &buf);
    }

    // A call wrote the file at the front of a buffer, each byte of which was 0xaa.
    fn assert_in(&self, rt: &impl Abort, alloc: Global, size: Result<usize>, buf: &[u8]) {
        assert_count(rt, size, self.file.len());
        let mut wanted = made::bytes(rt, alloc, &self.file);
        wanted.resize(buf.len(), 0xaa).expect(rt, "refused");
        assert_bytes(rt, buf, &wanted);
    }

    /// Encodes the image to a writer that takes at most `most` bytes a call, and all of the file.
    pub fn sent(&self, rt: &impl Abort, alloc: Global, most: usize) -> Sink {
        let mut writer = made::sink(rt, alloc, most, NONE);
        let size = self.encoder(rt).encode_to_stream(&mut writer);
        assert_count(rt, size, self.file.len());
        assert_bytes(rt, &writer.got, &self.file);
        writer
    }
}
