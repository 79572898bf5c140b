// What C calls of `load`: a crate is a library or a static library, so that the two exports stand here. Each calls the function of its
// name and states its clauses again.
#![tactic(auto)]

ghost use Rattle.text.specs.Written.{Puts};
ghost use Rattle.load.specs.Reading.{program};
ghost use Rattle.load.specs.Record.{Pushes};

use load::window::Window;

// What the program prints for a text that lies there whole.
#[unsafe(no_mangle)]
pub extern "C" fn load_text(text: &[u8], out: &mut [u8; 64]) -> usize
    ensures { Puts 0 (program text.now) out.old out.new result }
{
    load::reader::load_text(text, out)
}

// The lent record takes one length; whether it did is answered.
#[unsafe(no_mangle)]
pub extern "C" fn load_push(w: &mut Window, length: u16) -> bool
    ensures { Pushes w.old length result w.new }
{
    load::window::load_push(w, length)
}
