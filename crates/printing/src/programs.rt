// What the programs share: a text is read, and what is printed for it is written.
ghost use Rattle.std.specs.Prelude.{◌++◌, ◌∷◌, [], OnOk, IfOk};
ghost use Rattle.std.specs.Io.KnownBytes.{Appends, Consumes};
ghost use Rattle.sheet.specs.Text.{Bytes};
ghost use Rattle.printing.specs.Programs.{Whole, Fits, Leaves, Answers};

use input::read_input;
use std::error::Error;
use std::fs::File;
use std::io::{Read, Write};
use std::rt::Files;
use std::{fmt, io};

// What a program could not do with its input or its output.
#[derive(Debug, Drop)]
pub enum PrintError {
    Input(io::Error),
    Output(io::Error),
}

impl fmt::Display for PrintError {
    fn fmt<W: fmt::Write>(&self, f: &mut fmt::Formatter<W>) -> fmt::Result {
        match self {
            PrintError::Input(e) => write!(f, "standard input: {e}"),
            PrintError::Output(e) => write!(f, "standard output: {e}"),
        }
    }
}

impl Error for PrintError {}

// Reads a text, and puts what is printed for it at the front of the output.
fn answer_input<R: Read, F: Fn(&[u8], &mut [u8; memory::PROGRAM_OUTPUT]) -> usize>(
    input: &mut R,
    out: &mut [u8; memory::PROGRAM_OUTPUT],
    printed: F,
) -> io::Result<usize>
    requires { F.IsAlwaysCallable printed }
    ensures { IfOk result (λ n. (text : Bytes) × Consumes (R.remaining input.old) (R.remaining input.new) text × Whole (R.remaining input.new) text × Answers F.Fn printed text n out.new) }
{
    let mut text: [u8; memory::PROGRAM_TEXT] = [0; memory::PROGRAM_TEXT];
    let n = read_input(input, &mut text)?;
    Ok(printed(&text[..n], out))
}

// Writes what is printed for all that a reader gives.
pub fn print_input<R: Read, W: Write, F: Fn(&[u8], &mut [u8; memory::PROGRAM_OUTPUT]) -> usize>(
    input: &mut R,
    output: &mut W,
    printed: F,
) -> Result<(), PrintError>
    requires callable { F.IsAlwaysCallable printed }
    requires fits { Fits F.Fn printed }
    ensures { OnOk result ((text left : Bytes) × Consumes (R.remaining input.old) (R.remaining input.new) text × Whole (R.remaining input.new) text × Leaves F.Fn printed text left × Appends (W.contents output.old) (W.contents output.new) left) }
{
    let mut out: [u8; memory::PROGRAM_OUTPUT] = [0; memory::PROGRAM_OUTPUT];
    let end = answer_input(input, &mut out, printed).map_err(PrintError::Input)?;
    output.write_all(&out[..end]).map_err(PrintError::Output)
}

// How many bytes of a line are written at once.
const PIECE: usize = 1024;

// Writes a line, with its line feed: in one piece where it is short, so that a name is there whole or not at all.
fn write_line<W: Write>(output: &mut W, line: &str) -> io::Result<()>
    ensures { OnOk result (Appends (W.contents output.old) (W.contents output.new) (line.now ++ 10 ∷ [])) }
{
    let mut rest = line.as_bytes();
    while PIECE <= rest.len() {
        output.write_all(&rest[..PIECE])?;
        rest = &rest[PIECE..];
    }
    let n = rest.len();
    let mut last: [u8; PIECE] = [0; PIECE];
    last[..n].copy_from_slice(rest);
    last[n] = b'\n';
    output.write_all(&last[..n + 1])
}

// Writes a file's name, and what is printed for all that it holds, which no contract can name.
pub fn print_file<W: Write, F: Fn(&[u8], &mut [u8; memory::PROGRAM_OUTPUT]) -> usize>(
    files: &impl Files,
    name: &str,
    output: &mut W,
    printed: F,
) -> io::Result<()>
    requires callable { F.IsAlwaysCallable printed }
    requires fits { Fits F.Fn printed }
    ensures { OnOk result ((text left : Bytes) × Leaves F.Fn printed text left × Appends (W.contents output.old) (W.contents output.new) (name.now ++ 10 ∷ left)) }
{
    let mut out: [u8; memory::PROGRAM_OUTPUT] = [0; memory::PROGRAM_OUTPUT];
    let mut file = File::open(files, name)?;
    let end = answer_input(&mut file, &mut out, printed)?;
    write_line(output, name)?;
    output.write_all(&out[..end])
}
