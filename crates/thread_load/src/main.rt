// The program of document 02, F-14: it reads stitch lengths from standard input, piece by piece, and prints one line. It depends on `load`.
#![tactic(auto)]

use load::reader::{Reader, feed, put_answer, start};
use load::refusal::Refused;
use std::io;
use std::io::Read;

fn print_answer(rt: &(impl Print + Eprint), s: Result<Reader, Refused>) -> io::Result<()> {
    let mut out: [u8; 64] = [0; 64];
    let end = put_answer(s, &mut out);
    if let Err(e) = rt.write_all(&out[..end]) {
        return eprintln!(rt; "standard output: {e}");
    }
    Ok(())
}

// A proved loop has to end, so that its turns are counted; no run uses them up. A refused text is read no further. What could not be
// read or written is named on standard error.
fn main(rt: HostRuntime) -> io::Result<()> {
    let mut piece: [u8; 8192] = [0; 8192];
    let mut input = rt.stdin();
    let mut s = Ok(start());
    for _ in 0..u64::MAX {
        match input.read(&mut piece) {
            Ok(n) => {
                s = feed(s, &piece[..n]);
                if n == 0 || s.is_err() {
                    return print_answer(&rt, s);
                }
            }
            Err(e) => return eprintln!(rt; "standard input: {e}"),
        }
    }
    Ok(())
}
