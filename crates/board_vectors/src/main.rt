// A program for the gate: for each file that its arguments name it prints the name, makes a board of the sheet in it, edits the
// board and prints after each call the answer's four numbers and the verdicts. In a file the sheet and then the edits each end in a
// tilde and a line feed. It depends on `checker` for the calls, on `opening` for what they return, on `text` for cutting and for
// writing numbers, and on `input` for reading.
#![tactic(auto)]

ghost use Rattle.std.specs.Prelude.{◌<◌, length};

use checker::edit_board_call::ocl_edit_board;
use checker::make_board_call::ocl_make_board;
use input::read_input;
use opening::Answer;
use std::fs::File;
use std::io::Read;
use std::rt::Files;
use std::{env, io};
use text::parts::find;
use text::printed::put_pair;

// Prints bytes; what could not be printed is told on standard error.
fn print_bytes(rt: &(impl Print + Eprint), bytes: &[u8]) {
    if let Err(e) = rt.write_all(bytes) {
        let _ = eprintln!(rt; "standard output: {e}");
    }
}

// Prints two numbers with a space between them, and what comes behind.
fn print_pair(rt: &(impl Print + Eprint), a: u64, b: u64, behind: &[u8]) {
    let mut out: [u8; 42] = [0; 42];
    let end = put_pair(&mut out, 0, a, b);
    // the line feed is left out
    if 0 < end {
        print_bytes(rt, &out[..end - 1]);
    }
    print_bytes(rt, behind);
}

// Prints an answer and its verdicts, which are no longer than what was lent.
fn print_answer(rt: &(impl Print + Eprint), answer: Answer, verdicts: &[u8]) {
    print_pair(rt, answer.number, answer.steps, b" ");
    print_pair(rt, answer.place, answer.length, b"\n");
    let n = answer.length as usize;
    if n <= verdicts.len() {
        print_bytes(rt, &verdicts[..n]);
    }
}

// Makes the edit that begins at this place, up to the next tilde, and prints its answer; gives where the next one begins.
fn print_edit(
    rt: &(impl Print + Eprint),
    pieces: &[u8],
    at: usize,
    sheet: &[u8],
    w0: &mut [u64],
    w1: &mut [u64],
    w2: &mut [u64],
    board: &mut [u64],
    verdicts: &mut [u8],
) -> usize
    requires { at < length pieces.now }
    ensures { at < result }
{
    let rest = &pieces[at..];
    let n = find(rest, b'~');
    let answer = ocl_edit_board(sheet, &rest[..n], w0, w1, w2, board, verdicts);
    print_answer(rt, answer, verdicts);
    at + n + 2
}

// Makes the sheet's board and then each edit of it, and prints all answers.
fn print_board(rt: &(impl Print + Eprint), pieces: &[u8]) {
    let mut w0: [u64; memory::LEAST_WORDS] = [0; memory::LEAST_WORDS];
    let mut w1: [u64; memory::LEAST_WORDS] = [0; memory::LEAST_WORDS];
    let mut w2: [u64; memory::LEAST_WORDS] = [0; memory::LEAST_WORDS];
    let mut board: [u64; memory::LEAST_BOARD] = [0; memory::LEAST_BOARD];
    let mut verdicts: [u8; memory::LEAST_OUTPUT] = [0; memory::LEAST_OUTPUT];
    let end = find(pieces, b'~');
    let sheet = &pieces[..end];
    let made = ocl_make_board(sheet, &mut w0, &mut w1, &mut w2, &mut board, &mut verdicts);
    print_answer(rt, made, &verdicts);
    let mut at = end + 2;
    while at < pieces.len() {
        at = print_edit(
            rt,
            pieces,
            at,
            sheet,
            &mut w0,
            &mut w1,
            &mut w2,
            &mut board,
            &mut verdicts,
        );
    }
}

fn print_input<R: Read>(rt: &(impl Print + Eprint), input: &mut R, name: &str) -> io::Result<()> {
    let mut pieces: [u8; 65536] = [0; 65536];
    let n = read_input(input, &mut pieces)?;
    println!(rt; "{name}")?;
    print_board(rt, &pieces[..n]);
    Ok(())
}

fn print_file(rt: &(impl Files + Print + Eprint), name: &str) -> io::Result<()> {
    let mut file = File::open(rt, name)?;
    print_input(rt, &mut file, name)
}

// A file that could not be read or printed is named on standard error, and the next one follows.
fn main(rt: HostRuntime) -> io::Result<()> {
    for name in env::args(&rt)?.skip(1) {
        if let Err(e) = print_file(&rt, name.as_str()) {
            eprintln!(rt; "{name}: {e}")?;
        }
    }
    Ok(())
}
