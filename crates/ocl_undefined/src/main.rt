// The program of document 02, F-11: it reads a sheet from standard input and prints where each undefined verdict came from. It
// depends on `printing`.
#![tactic(auto)]

use printing::printed_origins;
use printing::programs::print_input;
use std::io;
use std::io::writer;

// What could not be read or written is named on standard error.
fn main(rt: HostRuntime) -> io::Result<()> {
    let printed = print_input(
        &mut rt.stdin(),
        &mut writer(&rt),
        |text, out| printed_origins(text, out),
    );
    if let Err(e) = printed {
        return eprintln!(rt; "{e}");
    }
    Ok(())
}
