// The program of document 01, Calls: it reads a sheet from standard input and prints its report, or its refusal. It depends on
// `printing`.
#![tactic(auto)]

use printing::printed_text;
use printing::programs::print_input;
use std::io;
use std::io::writer;

// What could not be read or written is named on standard error.
fn main(rt: HostRuntime) -> io::Result<()> {
    let printed = print_input(
        &mut rt.stdin(),
        &mut writer(&rt),
        |text, out| printed_text(text, out),
    );
    if let Err(e) = printed {
        return eprintln!(rt; "{e}");
    }
    Ok(())
}
