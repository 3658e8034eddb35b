//! Readers and a writer in memory that end one of their calls badly, memory that is taken, and a
//! file to try them on.
ghost use Rattle.std.specs.Prelude.{◌≡◌, IfOk};

use std::alloc::{AllocError, Global};
use std::io;
use std::io::{ErrorKind, Read, Write};

/// The raw bytes of one pixel of three channels.
pub const PIXEL: [u8; 3] = [0x0b, 0x79, 0xe7];

/// The example `one_rgb_pixel`: the file of that pixel, written out.
pub const ONE_RGB_PIXEL: [u8; 26] = [
    0x71, 0x6f, 0x69, 0x66, 0, 0, 0, 1, 0, 0, 0, 1, 3, 0, 0xfe, 0x0b, 0x79, 0xe7, 0, 0, 0, 0, 0, 0,
    0, 1,
];

/// The example `two_files_in_one_slice`: the same file, then the chunk 0x55, a difference from the
/// start pixel, and an end marker.
pub const TWO_FILES: [u8; 35] = [
    0x71, 0x6f, 0x69, 0x66, 0, 0, 0, 1, 0, 0, 0, 1, 3, 0, 0xfe, 0x0b, 0x79, 0xe7, 0, 0, 0, 0, 0, 0,
    0, 1, 0x55, 0, 0, 0, 0, 0, 0, 0, 1,
];

/// How a bad call ends.
#[derive(Clone, Copy)]
pub enum End {
    /// A fault of the device.
    Fault,
    /// An interruption.
    Interruption,
    /// Nothing came in time.
    Late,
    /// A fault whose own text is `x`.
    Named,
    /// No byte, and no error.
    NoByte,
}

/// Each of the ways.
pub const ENDS: [End; 5] = [
    End::Fault,
    End::Interruption,
    End::Late,
    End::Named,
    End::NoByte,
];

impl End {
    /// The kind of the error that a call of the library returns, if it has this one for no byte.
    pub fn kind(self, no_byte: ErrorKind) -> ErrorKind {
        match self {
            End::Fault => ErrorKind::BrokenPipe,
            End::Interruption => ErrorKind::Interrupted,
            End::Late => ErrorKind::TimedOut,
            End::Named => ErrorKind::Other,
            End::NoByte => no_byte,
        }
    }
}

/// Which call is the bad one, counted from 1 (0: none), and how it ends.
#[derive(Clone, Copy)]
pub struct Bad {
    pub call: usize,
    pub end: End,
}

/// No bad call.
pub const NONE: Bad = Bad {
    call: 0,
    end: End::Fault,
};

// What a bad call returns.
fn ended(end: End) -> io::Result<usize>
    ensures { IfOk result (λ n. n ≡ 0) }
{
    match end {
        End::NoByte => Ok(0),
        End::Named => Err(io::Error::new(ErrorKind::Other, "x")),
        _ => Err(io::Error::from(end.kind(ErrorKind::Other))),
    }
}

/// Gives its bytes, at most `most` a call.
#[derive(Clone, Drop)]
pub struct Source<'a> {
    /// The bytes that are left.
    pub left: &'a [u8],
    most: usize,
    bad: Bad,
    /// How many calls there were.
    pub calls: usize,
}

impl<'a> Source<'a> {
    /// A reader of these bytes.
    pub fn new(left: &'a [u8], most: usize, bad: Bad) -> Source<'a> {
        Source {
            left,
            most,
            bad,
            calls: 0,
        }
    }
}

impl<'a> Read for Source<'a> {
    fn read(&mut self, buf: &mut [u8]) -> io::Result<usize> {
        self.calls = self.calls.saturating_add(1);
        if self.calls == self.bad.call {
            return ended(self.bad.end);
        }
        let n = buf.len().min(self.left.len()).min(self.most);
        buf[..n].copy_from_slice(&self.left[..n]);
        self.left = &self.left[n..];
        Ok(n)
    }
}

/// Keeps the bytes that it takes, at most `most` a call.
#[derive(Drop)]
pub struct Sink {
    /// The bytes that were taken.
    pub got: Vec<u8>,
    most: usize,
    bad: Bad,
    /// How many calls there were, of `flush` too.
    pub calls: usize,
}

impl Sink {
    /// A writer with room for a hundred bytes before it takes more memory.
    pub fn new(alloc: Global, most: usize, bad: Bad) -> Result<Sink, AllocError> {
        Ok(Sink {
            got: Vec::with_capacity(alloc, 100)?,
            most,
            bad,
            calls: 0,
        })
    }
}

impl Write for Sink {
    fn write(&mut self, buf: &[u8]) -> io::Result<usize> {
        self.calls = self.calls.saturating_add(1);
        if self.calls == self.bad.call {
            return ended(self.bad.end);
        }
        let n = buf.len().min(self.most);
        match self.got.extend_from_slice(&buf[..n]) {
            Ok(()) => Ok(n),
            Err(_) => Err(io::Error::from(ErrorKind::OutOfMemory)),
        }
    }

    fn flush(&mut self) -> io::Result<()> {
        self.calls = self.calls.saturating_add(1);
        Ok(())
    }
}

/// Takes all memory but for one block of `spare` bytes, or for none if that is 0.
pub fn take_but(alloc: Global, spare: usize) -> Result<Vec<Vec<u8>>, AllocError> {
    let block: Vec<u8> = Vec::with_capacity(alloc, spare)?;
    let held = take_memory(alloc, 2)?;
    drop(block);
    Ok(held)
}

/// Takes memory in blocks of 2 to the power of 39 bytes until one is refused, then in blocks of
/// half the size, and so on down to `least` bytes. It takes 600,000 blocks at most.
pub fn take_memory(alloc: Global, least: usize) -> Result<Vec<Vec<u8>>, AllocError> {
    let most = 600_000;
    let mut held = Vec::with_capacity(alloc, most)?;
    for k in 0..39u32 {
        let size = (1usize << 39) >> k;
        if size < least {
            break;
        }
        for _ in held.len()..most {
            match Vec::with_capacity(alloc, size) {
                Ok(block) => held.push(block)?,
                Err(_) => break,
            }
        }
    }
    Ok(held)
}
