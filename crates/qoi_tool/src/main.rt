//! Decodes QOI files into raw bytes, encodes raw bytes into QOI files, and tells what the header of
//! a file says: from standard input to standard output.
#![tactic(auto)]

mod command;
mod fault_line;
mod laws;
mod line;
mod transfer;

ghost use Rattle.std.specs.Prelude.{◌≡◌, ℕ, List, OnOk, IfErr, IfSome, Err, map};
ghost use Rattle.std.specs.String.{string_bytes};
ghost use Rattle.qoi_tool.specs.declared.Fault.{Fault};
ghost use Rattle.qoi_tool.specs.declared.command.Command.TheVariants.{Decode, DecodeInto, Encode, Info};
ghost use Rattle.qoi_tool.specs.Words.{IsUsage};
ghost use Rattle.qoi_tool.specs.Faults.{status_of, fault_line};
ghost use Rattle.qoi.specs.Writers.{AppendsBeginning};
ghost use Rattle.qoi_tool.specs.Transfers.{IsIoOrMemory};
ghost use Rattle.qoi_tool.specs.Answers.{Finishes, StopsAt, Stops, Does};

use crate::command::{Command, command_of};
use crate::fault_line::write_fault;
use crate::line::write_line;
use crate::transfer::{read_exact, read_to_end, write_all};
use qoi::consts::QOI_HEADER_SIZE;
use qoi::{Channels, ColorSpace, Decoder, Encoder, Error, Style, decode_header, decode_to_vec};
use std::alloc::Global;
use std::io::{ErrorKind, Read, Write};
use std::process::ExitCode;
use std::{env, io};

/// Why the program ends without having done its work.
#[derive(Drop)]
pub enum Fault {
    /// The words aren't those of a command.
    Usage,
    /// Reading, the library or writing refused.
    Image(Error),
}

impl From<Error> for Fault {
    ghost use Rattle.std.specs.Prelude.{◌≡◌};
    ghost use Rattle.qoi_tool.specs.declared.Fault.TheVariants.{Image};

    ghost from_gives = { λ error fault. fault ≡ Image error };

    fn from(error: Error) -> Fault {
        Fault::Image(error)
    }
}

/// Does what the words ask for, from the input to the output; `words` has no program name.
///
/// Refusals come in this order: `Usage` if the words aren't those of a command; a fault of the
/// input, or lack of memory for it; a refusal of the library, or lack of memory for the image; a
/// fault of the output. Nothing is written before the input was taken and accepted; a fault of
/// the output leaves a beginning of the answer.
pub fn run<R: Read, W: Write>(
    alloc: Global,
    words: &[String],
    input: &mut R,
    output: &mut W,
) -> Result<(), Fault>
    ensures done { OnOk result (Finishes (map string_bytes words.now)
        (R.remaining input.old) (R.remaining input.new) (W.contents output.old)
        (W.contents output.new)) }
    ensures refused { IfErr result (StopsAt (map string_bytes words.now)
        (R.remaining input.old) (R.remaining input.new) (W.contents output.old)
        (W.contents output.new)) }
    ensures usage { IsUsage (map string_bytes words.now) → result ≡ Err Fault.Usage }
{
    let Some(command) = command_of(words) else {
        return Err(Fault::Usage);
    };
    match command {
        Command::Decode => decode(alloc, input, output)?,
        Command::DecodeInto(channels) => decode_into(alloc, channels, input, output)?,
        Command::Encode(width, height, colorspace, style) => {
            encode(alloc, width, height, colorspace, style, input, output)?;
        }
        Command::Info => info(input, output)?,
    }
    Ok(())
}

// Reads a file, and writes its raw bytes in the file's own channels.
fn decode<R: Read, W: Write>(alloc: Global, input: &mut R, output: &mut W) -> Result<(), Error>
    ensures done { OnOk result (Does Decode
        (R.remaining input.old) (R.remaining input.new) (W.contents output.old)
        (W.contents output.new)) }
    ensures refused { IfErr result (Stops Decode
        (R.remaining input.old) (R.remaining input.new) (W.contents output.old)
        (W.contents output.new)) }
{
    let file = read_to_end(alloc, input)?;
    let (_, pixels) = decode_to_vec(alloc, &file)?;
    write_all(output, &pixels)
}

// Reads a file, and writes its raw bytes in these channels.
fn decode_into<R: Read, W: Write>(
    alloc: Global,
    channels: Channels,
    input: &mut R,
    output: &mut W,
) -> Result<(), Error>
    ensures done { OnOk result (Does (DecodeInto channels)
        (R.remaining input.old) (R.remaining input.new) (W.contents output.old)
        (W.contents output.new)) }
    ensures refused { IfErr result (Stops (DecodeInto channels)
        (R.remaining input.old) (R.remaining input.new) (W.contents output.old)
        (W.contents output.new)) }
{
    let file = read_to_end(alloc, input)?;
    let mut decoder = Decoder::new(&file)?.with_channels(channels);
    let pixels = decoder.decode_to_vec(alloc)?;
    write_all(output, &pixels)?;
    Ok(())
}

// Reads the raw bytes of an image, and writes its file.
fn encode<R: Read, W: Write>(
    alloc: Global,
    width: u32,
    height: u32,
    colorspace: ColorSpace,
    style: Style,
    input: &mut R,
    output: &mut W,
) -> Result<(), Error>
    ensures done { OnOk result (Does (Encode width height colorspace style)
        (R.remaining input.old) (R.remaining input.new) (W.contents output.old)
        (W.contents output.new)) }
    ensures refused { IfErr result (Stops (Encode width height colorspace style)
        (R.remaining input.old) (R.remaining input.new) (W.contents output.old)
        (W.contents output.new)) }
{
    let pixels = read_to_end(alloc, input)?;
    let encoder = Encoder::new(&pixels, width, height)?
        .with_colorspace(colorspace)
        .with_style(style);
    encoder.encode_to_stream(output)?;
    Ok(())
}

// Reads a header and no byte past it, and writes a line of what it says. It takes no memory.
fn info<R: Read, W: Write>(input: &mut R, output: &mut W) -> Result<(), Error>
    ensures done { OnOk result (Does Info
        (R.remaining input.old) (R.remaining input.new) (W.contents output.old)
        (W.contents output.new)) }
    ensures refused { IfErr result (Stops Info
        (R.remaining input.old) (R.remaining input.new) (W.contents output.old)
        (W.contents output.new)) }
{
    let mut bytes = [0; QOI_HEADER_SIZE];
    read_exact(input, &mut bytes)?;
    let header = decode_header(&bytes)?;
    write_line(output, &header)
}

/// Writes the line of a fault, and returns the status of the program: 1 for `Image`, 2 for `Usage`.
/// What its writes return is ignored; so if they fail, a beginning of the line was written. Nothing
/// is promised of an i/o error's own words.
pub fn report<W: Write>(fault: &Fault, err: &mut W) -> u8
    ensures status { result ≡ status_of fault.now }
    ensures line { IfSome (fault_line fault.now)
        (AppendsBeginning (W.contents err.old) (W.contents err.new)) }
{
    let _ = write_fault(err, fault);
    match fault {
        Fault::Usage => 2,
        Fault::Image(_) => 1,
    }
}

// The arguments after the program's name.
fn words_of(rt: &HostRuntime) -> Result<Vec<String>, Error>
    ensures { IfErr result IsIoOrMemory }
{
    match env::args(rt) {
        Ok(args) => Ok(args.skip(1).collect(rt.alloc())?),
        Err(error) if error.kind() == ErrorKind::OutOfMemory => Err(Error::OutOfMemory),
        Err(error) => Err(Error::IoError(error)),
    }
}

// Does what the program was called for, with its arguments, standard input and standard output, and
// flushes the output. It has no clause: the contracts of the real streams state no bytes.
fn run_here(rt: &HostRuntime) -> Result<(), Fault> {
    let words = words_of(rt)?;
    let mut output = rt.stdout();
    run(rt.alloc(), &words, &mut rt.stdin(), &mut output)?;
    output.flush().map_err(Error::IoError)?;
    Ok(())
}

fn main(rt: HostRuntime) -> ExitCode {
    match run_here(&rt) {
        Ok(()) => ExitCode::SUCCESS,
        Err(fault) => ExitCode::from(report(&fault, &mut rt.stderr())),
    }
}

#[cfg(test)]
mod tests;
