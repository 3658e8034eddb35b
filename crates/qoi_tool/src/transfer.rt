//! Reading an input to its end or into a buffer, and writing all of an output. Unlike in the standard
//! library's calls, an interruption is a fault.
ghost use Rattle.std.specs.Prelude.{◌≡◌, ℕ, ◌+◌, ◌<◌, ◌≤◌, List, length, Option, Ok, OnOk, OnErr, IfOk, IfErr, take};
ghost use Rattle.std.specs.Io.KnownBytes.{Appends, Consumes, IsAtEnd, Keeps};
ghost use Rattle.qoi_tool.specs.Transfers.{TakesAll, TakesFewer, IsIoOrMemory};
ghost use Rattle.qoi.specs.Errors.{IsIoError};
ghost use Rattle.qoi.specs.Writers.{AppendsBeginning};

use qoi::Error;
use std::alloc::Global;
use std::io;
use std::io::{ErrorKind, Read, Write};

// The least that the vector of an input grows by.
const LEAST: usize = 65_536;

// The most that it grows by at a time, since all of that is filled with zeros before it is read
// into.
const MOST: usize = 1_048_576;

/// All the bytes that the reader gives until a read gives none.
pub fn read_to_end<R: Read>(alloc: Global, input: &mut R) -> Result<Vec<u8>, Error>
    ensures read { IfOk result (λ v. TakesAll (R.remaining input.old)
        (R.remaining input.new) v.items) }
    ensures failed { IfErr result IsIoOrMemory }
{
    let mut bytes = Vec::new(alloc);
    let mut filled = 0;
    loop {
        if filled == bytes.len() {
            bytes.resize(filled.saturating_add(filled.clamp(LEAST, MOST)), 0)?;
        }
        let count = read_after(input, &mut bytes, filled)?;
        if count == 0 {
            bytes.truncate(filled);
            return Ok(bytes);
        }
        filled += count;
    }
}

/// Fills the buffer, and reads no byte past it; an early end is an `IoError` of kind
/// `UnexpectedEof`.
pub fn read_exact<R: Read>(input: &mut R, buf: &mut [u8]) -> Result<(), Error>
    ensures read { OnOk result (Consumes (R.remaining input.old) (R.remaining input.new) buf.new) }
    ensures failed { IfErr result (λ e. IsIoError e
        × TakesFewer (length buf.old) (R.remaining input.old) (R.remaining input.new)) }
    ensures size { length buf.new ≡ length buf.old }
{
    let mut filled = 0;
    while filled < buf.len() {
        let count = read_after(input, buf, filled)?;
        if count == 0 {
            return Err(Error::IoError(io::Error::new(
                ErrorKind::UnexpectedEof,
                "the input ended within a header",
            )));
        }
        filled += count;
    }
    Ok(())
}

// Reads once into the buffer after the bytes that are filled, and returns how many bytes came.
fn read_after<R: Read>(input: &mut R, buf: &mut [u8], filled: usize) -> io::Result<usize>
    requires { filled ≤ length buf.old }
    ensures read { IfOk result (λ n. (filled + n ≤ length buf.new)
        × ((start : Option (List ℕ)) → Consumes start (R.remaining input.old) (take filled buf.old)
        → Consumes start (R.remaining input.new) (take (filled + n) buf.new))) }
    ensures size { length buf.new ≡ length buf.old }
    ensures failed { OnErr result (Keeps (R.remaining input.old) (R.remaining input.new)) }
    ensures ended { result ≡ Ok 0 → filled < length buf.old → IsAtEnd (R.remaining input.new) }
{
    let count = input.read(&mut buf[filled..])?;
    Ok(count)
}

/// Writes all the bytes; after a fault a beginning of them was written.
pub fn write_all<W: Write>(output: &mut W, bytes: &[u8]) -> Result<(), Error>
    ensures written { OnOk result (Appends (W.contents output.old)
        (W.contents output.new) bytes.now) }
    ensures failed { IfErr result (λ e. IsIoError e
        × AppendsBeginning (W.contents output.old) (W.contents output.new) bytes.now) }
{
    let mut rest = bytes;
    while !rest.is_empty() {
        let count = output.write(rest)?;
        if count == 0 {
            return Err(Error::IoError(io::Error::new(
                ErrorKind::WriteZero,
                "the output took no byte",
            )));
        }
        rest = &rest[count..];
    }
    Ok(())
}
