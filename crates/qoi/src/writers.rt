//! Where the encoder writes.
ghost use Rattle.std.specs.Prelude.{◌≡◌, ℕ, ◌+◌, ◌-◌, ◌<◌, ◌≤◌, List, [], ◌∷◌, length, OnOk, IfErr};
ghost use Rattle.std.specs.Vec.{vec_len, vec_capacity};
ghost use Rattle.qoi.specs.Errors.{IsIoError};

use crate::error::{Error, Result};
use crate::utils::{copy_after, skip};
use std::io;
use std::io::{ErrorKind, Write};

/// Something that bytes are written to, one after the other.
///
/// A caller sees to it that the capacity suffices.
pub trait Writer: Sized {
    ghost use Rattle.qoi.specs.Writers.{WriterLaws, WroteBeginning};
    ghost use Rattle.qoi.specs.declared.error.Error.{Error};

    /// `wrote a bytes b`: the writer `a` became `b` by writing the bytes.
    ghost wrote: { Self → List ℕ → Self → Type 0 };

    /// How many bytes can still be written.
    ghost room: { Self → ℕ };

    /// What a refusal can be.
    ghost IsFault: { Error → Type 0 };

    /// Writes one byte; a refusal leaves it unwritten.
    fn write_one(&mut self, v: u8) -> Result<()>
        requires { 0 < room self.old }
        ensures written { OnOk result (wrote self.old (v ∷ []) self.new) }
        ensures refused { IfErr result (λ e. IsFault e × wrote self.old [] self.new) };

    /// Writes all the bytes; after a refusal a beginning of them is written.
    fn write_many(&mut self, v: &[u8]) -> Result<()>
        requires { length v.now ≤ room self.old }
        ensures written { OnOk result (wrote self.old v.now self.new) }
        ensures refused { IfErr result (λ e. IsFault e
            × WroteBeginning wrote self.old v.now self.new) };

    /// How many bytes can still be written.
    fn capacity(&self) -> usize
        ensures { result ≡ room self.now };

    /// Writing nothing relates a writer to itself, two writings compose, and the room falls by the
    /// number of bytes.
    ghost laws: { WriterLaws wrote room };
}

/// A lent buffer that is written from the front. It keeps the whole buffer and how many bytes are
/// written, and never refuses.
#[derive(Drop)]
pub struct BytesMut<'a> {
    buf: &'a mut [u8],
    written: usize,
    ghost within: { written ≤ length buf.now },
}

impl<'a> BytesMut<'a> {
    ghost use Rattle.qoi.specs.Writers.{BufferWrote, buffer_name, written_bytes, bytes_left};

    /// A writer over the whole buffer, in which nothing is written yet.
    #[inline]
    pub fn new(buf: &'a mut [u8]) -> BytesMut<'a>
        ensures same_buffer { buffer_name result ≡ buf.entry.ghost_name }
        ensures written { written_bytes result ≡ [] }
        ensures left { bytes_left result ≡ buf.old }
    {
        BytesMut { buf, written: 0 }
    }

    /// Writes one byte.
    #[inline]
    pub fn write_one(&mut self, v: u8)
        requires { 0 < length (bytes_left self.old) }
        ensures { BufferWrote self.old (v ∷ []) self.new }
    {
        self.write_many(&[v]);
    }

    /// Writes all the bytes.
    #[inline]
    pub fn write_many(&mut self, v: &[u8])
        requires { length v.now ≤ length (bytes_left self.old) }
        ensures { BufferWrote self.old v.now self.new }
    {
        self.written = copy_after(self.buf, self.written, v);
    }
}

impl<'a> Writer for BytesMut<'a> {
    ghost use Rattle.qoi.specs.Writers.{BufferWrote, bytes_left, wrote_laws};

    ghost wrote = { BufferWrote };

    ghost room = { λ s. length (bytes_left s) };

    ghost IsFault = { λ _. ⊥ };

    ghost laws = { wrote_laws _ _ _ _ };

    #[inline]
    fn write_one(&mut self, v: u8) -> Result<()> {
        BytesMut::write_one(self, v);
        Ok(())
    }

    #[inline]
    fn write_many(&mut self, v: &[u8]) -> Result<()> {
        BytesMut::write_many(self, v);
        Ok(())
    }

    #[inline]
    fn capacity(&self) -> usize {
        self.buf.len() - self.written
    }
}

/// A vector that bytes are appended to, as many as its capacity leaves room for. It never refuses,
/// and never asks for memory.
#[derive(Drop)]
pub struct VecMut<'a> {
    vec: &'a mut Vec<u8>,
    room: usize,
    ghost within: { vec_len vec.now + room ≤ vec_capacity vec.now },
}

impl<'a> VecMut<'a> {
    /// A writer that appends to the vector, within its capacity.
    #[inline]
    pub fn new(vec: &'a mut Vec<u8>) -> VecMut<'a>
        ensures same_vec { result.vec.ghost_name ≡ vec.entry.ghost_name }
        ensures bytes { result.vec.now.items ≡ vec.old.items }
        ensures room { result.room ≡ vec_capacity vec.old - vec_len vec.old }
    {
        // A vector's capacity counts the bytes that it has, a `Writer`'s doesn't.
        let room = vec.capacity() - vec.len();
        VecMut { vec, room }
    }
}

impl<'a> Writer for VecMut<'a> {
    ghost use Rattle.qoi.specs.Writers.{VecWrote, wrote_laws};

    ghost wrote = { VecWrote };

    ghost room = { λ s. s.room };

    ghost IsFault = { λ _. ⊥ };

    ghost laws = { wrote_laws _ _ _ _ };

    #[inline]
    fn write_one(&mut self, v: u8) -> Result<()> {
        self.write_many(&[v])
    }

    #[inline]
    fn write_many(&mut self, v: &[u8]) -> Result<()> {
        self.vec.extend_from_slice(v)?;
        self.room -= v.len();
        Ok(())
    }

    #[inline]
    fn capacity(&self) -> usize {
        self.room
    }
}

/// A writer of the standard library, which is given the bytes of each call at once.
#[derive(Drop)]
pub struct GenericWriter<'a, W> {
    writer: &'a mut W,
    room: usize,
}

impl<'a, W: Write> GenericWriter<'a, W> {
    ghost use Rattle.qoi.specs.Writers.{stream_name, stream_writer, stream_room};

    /// A writer that can still take the greatest `usize` of bytes.
    pub fn new(writer: &'a mut W) -> GenericWriter<'a, W>
        ensures same_writer { stream_name result ≡ writer.entry.ghost_name }
        ensures value { stream_writer result ≡ writer.old }
        ensures room { stream_room result ≡ usize.MAX }
    {
        GenericWriter {
            writer,
            room: usize::MAX,
        }
    }
}

impl<'a, W: Write> Writer for GenericWriter<'a, W> {
    ghost use Rattle.qoi.specs.Writers.{StreamWrote, stream_room, wrote_laws};

    ghost wrote = { StreamWrote W.contents };

    ghost room = { stream_room };

    ghost IsFault = { IsIoError };

    ghost laws = { wrote_laws _ _ _ _ };

    /// Writes by one call of `write`. A write that takes no byte is a fault, whose kind is then
    /// `WriteZero`.
    fn write_one(&mut self, v: u8) -> Result<()> {
        if self.writer.write(&[v])? == 0 {
            return Err(no_byte_taken());
        }
        self.room -= 1;
        Ok(())
    }

    /// Writes by `write`, again after each short write. A write that takes no byte is a fault of
    /// kind `WriteZero`.
    fn write_many(&mut self, v: &[u8]) -> Result<()> {
        let mut rest = v;
        while !rest.is_empty() {
            let count = self.writer.write(rest)?;
            if count == 0 {
                return Err(no_byte_taken());
            }
            self.room -= count;
            rest = skip(rest, count);
        }
        Ok(())
    }

    fn capacity(&self) -> usize {
        self.room
    }
}

// The fault of a write that took no byte.
fn no_byte_taken() -> Error
    ensures { IsIoError result }
{
    Error::IoError(io::Error::new(ErrorKind::WriteZero, "the writer took no byte"))
}
