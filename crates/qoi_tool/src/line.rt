//! The line that tells what a header says.
ghost use Rattle.std.specs.Prelude.{◌≡◌, ◌+◌, ◌≤◌, ◌++◌, List, length, drop, Some, OnOk, IfErr};
ghost use Rattle.std.specs.Fmt.{decimal};
ghost use Rattle.std.specs.Io.KnownBytes.{Appends};
ghost use Rattle.qoi_tool.specs.Lines.{header_line};
ghost use Rattle.qoi.specs.Writers.{AppendsBeginning};
ghost use Rattle.qoi.specs.Errors.{IsIoError};

use crate::transfer::write_all;
use qoi::{Error, Header};
use std::io::Write;

// Room for a line: it has at most 51 bytes.
const ROOM: usize = 64;

// A line that is made from its end: the bytes from `start` on.
#[derive(Drop)]
struct Line {
    bytes: [u8; ROOM],
    start: usize,
    ghost within: { start ≤ length bytes },
}

impl Line {
    // The bytes of the line.
    fn as_slice(&self) -> &[u8]
        ensures { result.now ≡ drop self.now.start self.now.bytes }
    {
        &self.bytes[self.start..]
    }

    // Puts a text before the line.
    fn put(&mut self, text: &[u8])
        requires { length text.now ≤ self.old.start }
        ensures text { drop self.new.start self.new.bytes
            ≡ text.now ++ drop self.old.start self.old.bytes }
        ensures start { self.new.start + length text.now ≡ self.old.start }
        ensures size { length self.new.bytes ≡ length self.old.bytes }
    {
        let start = self.start - text.len();
        self.bytes[start..self.start].copy_from_slice(text);
        self.start = start;
    }

    // Puts a number before the line, in decimal digits, of which there are ten at most.
    fn put_number(&mut self, n: u32)
        requires { 10 ≤ self.old.start }
        ensures text { drop self.new.start self.new.bytes
            ≡ decimal n ++ drop self.old.start self.old.bytes }
        ensures start { self.old.start ≤ self.new.start + 10 }
    {
        let mut rest = n;
        loop {
            self.put(&[b'0' + (rest % 10) as u8]);
            rest /= 10;
            if rest == 0 {
                return;
            }
        }
    }
}

/// Writes the line of a header; after a fault a beginning of it was written.
pub fn write_line<W: Write>(output: &mut W, header: &Header) -> Result<(), Error>
    ensures written { OnOk result (Appends (W.contents output.old) (W.contents output.new)
        (header_line header.now)) }
    ensures failed { IfErr result (λ e. IsIoError e
        × AppendsBeginning (W.contents output.old) (W.contents output.new)
        (header_line header.now)) }
{
    let line = line_of(header);
    write_all(output, line.as_slice())
}

// The line of a header.
fn line_of(header: &Header) -> Line
    ensures { drop result.start result.bytes ≡ header_line header.now }
{
    let mut line = Line {
        bytes: [b'\n'; ROOM],
        start: ROOM - 1,
    };
    line.put(if header.colorspace.is_linear() {
        b"linear"
    } else {
        b"srgb"
    });
    line.put(b" colorspace ");
    line.put_number(u32::from(header.channels.as_u8()));
    line.put(b" channels ");
    line.put_number(header.height);
    line.put(b"x");
    line.put_number(header.width);
    line
}
