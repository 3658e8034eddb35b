//! The line that tells of a fault.
ghost use Rattle.std.specs.Prelude.{◌≡◌, ◌≤◌, length, take, Some, OnOk, OnErr, IfOk, IfSome};
ghost use Rattle.std.specs.Io.KnownBytes.{Appends};
ghost use Rattle.qoi.specs.Writers.{AppendsBeginning};
ghost use Rattle.qoi_tool.specs.Faults.{error_line, fault_line};

use crate::Fault;
use crate::transfer::write_all;
use qoi::Error;
use std::io;
use std::io::Write;

// Room for a line without an i/o error's own words: it has at most 100 bytes.
const ROOM: usize = 128;

const USAGE: &[u8] = b"usage: qoi_tool dec [rgb|rgba] | enc W H [linear] [places|tight] | info\n";

// A line that is being made, in a buffer of fixed length.
#[derive(Drop)]
struct FaultLine {
    bytes: [u8; ROOM],
    filled: usize,
    ghost within: { filled ≤ length bytes },
}

impl Write for FaultLine {
    ghost contents = { λ line. Some (take line.filled line.bytes) };

    fn write(&mut self, buf: &[u8]) -> io::Result<usize> {
        let count = buf.len().min(self.bytes.len() - self.filled);
        let end = self.filled + count;
        self.bytes[self.filled..end].copy_from_slice(&buf[..count]);
        self.filled = end;
        Ok(count)
    }

    fn flush(&mut self) -> io::Result<()> {
        Ok(())
    }
}

// The line of an error, but for an i/o error.
fn error_line(error: &Error) -> io::Result<FaultLine>
    ensures { IfOk result (λ line. IfSome (error_line error.now)
        (λ bytes. take line.filled line.bytes ≡ bytes)) }
{
    let mut line = FaultLine {
        bytes: [0; ROOM],
        filled: 0,
    };
    writeln!(line, "qoi_tool: {error}")?;
    Ok(line)
}

/// Writes the line of a fault; after a refusal a beginning of it was written. If the fault is an
/// i/o error, nothing is promised of its own words.
pub fn write_fault<W: Write>(output: &mut W, fault: &Fault) -> Result<(), Error>
    ensures written { OnOk result (IfSome (fault_line fault.now)
        (Appends (W.contents output.old) (W.contents output.new))) }
    ensures failed { OnErr result (IfSome (fault_line fault.now)
        (AppendsBeginning (W.contents output.old) (W.contents output.new))) }
{
    match fault {
        Fault::Usage => write_all(output, USAGE),
        Fault::Image(Error::IoError(error)) => {
            writeln!(output, "qoi_tool: i/o error: {error}")?;
            Ok(())
        }
        Fault::Image(error) => {
            let line = error_line(error)?;
            write_all(output, &line.bytes[..line.filled])
        }
    }
}
