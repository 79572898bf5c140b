// A program for the gate: it prints the name of each file that its arguments name, and then what `ocl_undefined` prints for it. It
// depends on `printing`.
#![tactic(auto)]

use printing::printed_origins;
use printing::programs::print_file;
use std::io::writer;
use std::{env, io};

// A file that could not be read or printed is named on standard error, and the next one follows.
fn main(rt: HostRuntime) -> io::Result<()> {
    for name in env::args(&rt)?.skip(1) {
        let printed = print_file(
            &rt,
            name.as_str(),
            &mut writer(&rt),
            |text, out| printed_origins(text, out),
        );
        if let Err(e) = printed {
            eprintln!(rt; "{name}: {e}")?;
        }
    }
    Ok(())
}
