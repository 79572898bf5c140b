// The program of document 02, F-9: it reads a sheet from standard input and prints the rows that each rule sees. It depends on
// `printing`.
#![tactic(auto)]

use printing::printed_rows;
use printing::programs::print_input;
use std::io;
use std::io::writer;

// What could not be read or written is named on standard error.
fn main(rt: HostRuntime) -> io::Result<()> {
    let printed = print_input(
        &mut rt.stdin(),
        &mut writer(&rt),
        |text, out| printed_rows(text, out),
    );
    if let Err(e) = printed {
        return eprintln!(rt; "{e}");
    }
    Ok(())
}
