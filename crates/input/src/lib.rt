// What a program reads: all of its input, at the front of a buffer. No contract can say what the system gives; of a reader whose bytes
// are known it says that they are read, to the last. It depends on no other crate of this repository.
#![tactic(auto)]

ghost use Rattle.input.specs.Input.{Within, Reads};

use std::io;
use std::io::Read;

// Reads until the input ends or the buffer is full, and answers how many bytes stand at the front of the buffer.
pub fn read_input<R: Read>(input: &mut R, text: &mut [u8]) -> io::Result<usize>
    ensures within { Within text.new result }
    ensures bytes { Reads (R.remaining input.old) (R.remaining input.new) text.new result }
{
    let mut n = 0;
    while n < text.len() {
        let Ok(more) = input.read(&mut text[n..]) else {
            return Err(io::Error::other("it could not be read"));
        };
        if more == 0 {
            break;
        }
        n += more;
    }
    Ok(n)
}
