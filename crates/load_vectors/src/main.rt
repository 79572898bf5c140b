// A program for the gate: it prints the name of each file that its arguments name, and then what `thread_load` prints for it. The
// pieces are of seven bytes, so that lines lie across them. It depends on `load`.
#![tactic(auto)]

use load::reader::{Reader, feed, put_answer, start};
use load::refusal::Refused;
use std::fs::File;
use std::io::Read;
use std::rt::Files;
use std::{env, io};

fn print_answer(rt: &impl Print, s: Result<Reader, Refused>, name: &str) -> io::Result<()> {
    let mut out: [u8; 64] = [0; 64];
    let end = put_answer(s, &mut out);
    println!(rt; "{name}")?;
    rt.write_all(&out[..end])
}

// A proved loop has to end, so that its turns are counted; no run uses them up.
fn print_input<R: Read>(rt: &impl Print, input: &mut R, name: &str) -> io::Result<()> {
    let mut piece: [u8; 7] = [0; 7];
    let mut s = Ok(start());
    for _ in 0..u64::MAX {
        let n = input.read(&mut piece)?;
        if n == 0 {
            return print_answer(rt, s, name);
        }
        s = feed(s, &piece[..n]);
    }
    Ok(())
}

fn print_file(rt: &(impl Files + Print), name: &str) -> io::Result<()> {
    let mut file = File::open(rt, name)?;
    print_input(rt, &mut file, name)
}

// A file that could not be read or printed is named on standard error, and the next one follows.
fn main(rt: HostRuntime) -> io::Result<()> {
    for name in env::args(&rt)?.skip(1) {
        if let Err(e) = print_file(&rt, name.as_str()) {
            eprintln!(rt; "{name}: {e}")?;
        }
    }
    Ok(())
}
