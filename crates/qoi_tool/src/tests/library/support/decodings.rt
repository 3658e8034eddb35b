//! Decoding by each call from a slice, from a stream and from a reader with a buffer, and the
//! decoder's state after it.
use crate::tests::library::support::{
    assert_bytes, assert_fails, assert_given, assert_header, assert_number, assert_refused, made,
};
use qoi::{Channels, Decoder, Header, Reader, Result, decode_to_buf, decode_to_vec};
use std::alloc::Global;
use std::io::ErrorKind;
use std::process::Abort;

/// What is printed for bytes that end too early.
pub const CUT: &str = "unexpected input buffer end while decoding";

/// What is printed for eight bytes that aren't the end marker.
pub const WRONG: &str = "invalid padding (stream end marker mismatch)";

/// The call that decodes: `decode_to_buf` into a buffer that has seven bytes more than it needs, or
/// so many; or `decode_to_vec`.
#[derive(Clone, Copy)]
pub enum Call {
    ToBuf,
    ToBufOf(usize),
    ToVec,
}

/// Both calls that succeed.
pub const CALLS: [Call; 2] = [Call::ToBuf, Call::ToVec];

/// How a call ends: with an image, with a refusal of this text, or with an i/o error of this kind.
#[derive(Clone, Copy)]
pub enum Ends<'a> {
    Image(&'a [u8]),
    Text(&'a str),
    Kind(ErrorKind),
}

/// Compares what a call returns.
pub fn assert_ends(rt: &impl Abort, alloc: Global, found: Result<Vec<u8>>, ends: Ends<'_>) {
    match ends {
        Ends::Image(image) => assert_given(rt, found, image),
        Ends::Text(text) => assert_refused(rt, alloc, found.err(), text),
        Ends::Kind(kind) => assert_fails(rt, found.err(), kind),
    }
}

/// Bytes that begin with a file, or with a part of one that has its header; that header, and the
/// channels that the file is decoded into.
#[derive(Clone, Copy)]
pub struct Decoding<'a> {
    pub bytes: &'a [u8],
    pub header: Header,
    pub channels: Channels,
}

/// The first `n` bytes.
pub fn front(bytes: &[u8], n: usize) -> &[u8] {
    &bytes[..n.min(bytes.len())]
}

/// What follows the first `n` bytes.
pub fn after(bytes: &[u8], n: usize) -> &[u8] {
    match bytes.split_at_checked(n) {
        Some((_, rest)) => rest,
        None => &[],
    }
}

// Decodes into a buffer of so many bytes. Later ones than those of the image stay, and all if they
// are too few, whatever is returned.
fn to_buf<R: Reader>(
    rt: &impl Abort,
    alloc: Global,
    decoder: &mut Decoder<R>,
    size: usize,
) -> Result<Vec<u8>> {
    let required = decoder.required_buf_len();
    let before = made::filled(rt, alloc, 0xaa, size);
    let mut buf = made::bytes(rt, alloc, &before);
    let decoded = decoder.decode_to_buf(&mut buf);
    let image = if size < required { 0 } else { required };
    assert_bytes(rt, after(&buf, image), after(&before, image));
    buf.truncate(required);
    match decoded {
        Ok(found) => assert_number(rt, found, required),
        Err(error) => return Err(error),
    }
    Ok(buf)
}

impl<'a> Decoding<'a> {
    /// What the decoder returns. Whatever it is, header and channels are those of the decoding.
    pub fn of<R: Reader>(
        self,
        rt: &impl Abort,
        alloc: Global,
        decoder: &mut Decoder<R>,
        call: Call,
    ) -> Result<Vec<u8>> {
        let longer = decoder.required_buf_len().saturating_add(7);
        let decoded = match call {
            Call::ToBuf => to_buf(rt, alloc, decoder, longer),
            Call::ToBufOf(size) => to_buf(rt, alloc, decoder, size),
            Call::ToVec => decoder.decode_to_vec(alloc),
        };
        assert_header(rt, decoder.header(), &self.header);
        assert!(rt; decoder.channels() == self.channels);
        decoded
    }

    // How a slice is decoded, of which these bytes are left then.
    fn check_slice(self, rt: &impl Abort, alloc: Global, call: Call, ends: Ends<'_>, left: &[u8]) {
        let mut decoder = made::slice(rt, self.bytes).with_channels(self.channels);
        assert_ends(rt, alloc, self.of(rt, alloc, &mut decoder, call), ends);
        assert_bytes(rt, decoder.data(), left);
    }

    // How a stream is decoded, of which these bytes are left then.
    fn check_stream(self, rt: &impl Abort, alloc: Global, call: Call, ends: Ends<'_>, left: &[u8]) {
        let mut decoder = made::stream(rt, self.bytes).with_channels(self.channels);
        assert_ends(rt, alloc, self.of(rt, alloc, &mut decoder, call), ends);
        assert_bytes(rt, decoder.into_reader(), left);
    }

    // How a reader with a buffer is decoded, of which these bytes are left then. The buffer has 20
    // to 69 bytes, so that it ends at all places of a chunk.
    fn check_buffer(self, rt: &impl Abort, alloc: Global, call: Call, ends: Ends<'_>, left: &[u8]) {
        let capacity = 20 + self.bytes.len() % 50;
        let reader = made::buffer(rt, alloc, capacity, self.bytes);
        let mut decoder = made::buffered(rt, reader).with_channels(self.channels);
        assert_ends(rt, alloc, self.of(rt, alloc, &mut decoder, call), ends);
        assert_bytes(rt, &made::rest(rt, alloc, decoder.into_reader()), left);
    }

    // How a call ends, with a slice and with both kinds of reader, and what is left of them.
    fn check_call(
        self,
        rt: &impl Abort,
        alloc: Global,
        call: Call,
        (in_memory, of_slice): (Ends<'_>, &[u8]),
        (read, of_reader): (Ends<'_>, &[u8]),
    ) {
        self.check_slice(rt, alloc, call, in_memory, of_slice);
        self.check_stream(rt, alloc, call, read, of_reader);
        self.check_buffer(rt, alloc, call, read, of_reader);
    }

    /// A buffer of so many bytes is refused with this text, by the free call, too. Nothing was read.
    pub fn check_short(self, rt: &impl Abort, alloc: Global, size: usize, text: &str) {
        let kept = (Ends::Text(text), after(self.bytes, 14));
        self.check_call(rt, alloc, Call::ToBufOf(size), kept, kept);
        let mut buf = made::filled(rt, alloc, 0xaa, size);
        assert_refused(rt, alloc, decode_to_buf(&mut buf, self.bytes).err(), text);
        assert_bytes(rt, &buf, &made::filled(rt, alloc, 0xaa, size));
    }

    /// The image that each call gives, from a slice and from both kinds of reader. What is after
    /// the file is left.
    pub fn check(self, rt: &impl Abort, alloc: Global, image: &[u8], rest: &[u8]) {
        let ends = (Ends::Image(image), rest);
        self.check_call(rt, alloc, Call::ToBuf, ends, ends);
        self.check_call(rt, alloc, Call::ToVec, ends, ends);
    }

    /// The free calls give this image, in the file's own channels.
    pub fn check_free(self, rt: &impl Abort, alloc: Global, image: &[u8]) {
        let (header, raw) = decode_to_vec(alloc, self.bytes).expect(rt, "refused");
        assert_header(rt, &header, &self.header);
        assert_bytes(rt, &raw, image);
        self.check_free_buffer(rt, &mut made::filled(rt, alloc, 0xaa, image.len()), image);
    }

    // The same of the call into a buffer of the image's length.
    fn check_free_buffer(self, rt: &impl Abort, buf: &mut [u8], image: &[u8]) {
        let header = decode_to_buf(buf, self.bytes).expect(rt, "refused");
        assert_header(rt, &header, &self.header);
        assert_bytes(rt, buf, image);
    }

    // Each call refuses a file with these ends; a slice is as before, of a stream this is left.
    fn check_refused(self, rt: &impl Abort, alloc: Global, text: &str, read: (Ends<'_>, &[u8])) {
        let kept = (Ends::Text(text), after(self.bytes, 14));
        self.check_call(rt, alloc, Call::ToBuf, kept, read);
        self.check_call(rt, alloc, Call::ToVec, kept, read);
    }

    /// Each call refuses a part of a file; a slice is as before, of a stream nothing is left.
    pub fn check_cut(self, rt: &impl Abort, alloc: Global) {
        let ends = Ends::Kind(ErrorKind::UnexpectedEof);
        self.check_refused(rt, alloc, CUT, (ends, &[]));
    }

    /// Each call refuses other bytes than the end marker; a slice is as before, of a stream what is
    /// after them is left.
    pub fn check_wrong(self, rt: &impl Abort, alloc: Global, rest: &[u8]) {
        self.check_refused(rt, alloc, WRONG, (Ends::Text(WRONG), rest));
    }
}
