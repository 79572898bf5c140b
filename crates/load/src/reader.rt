// A text of lengths, read in pieces: what is kept between two pieces is of one size, however long the text is.
ghost use Rattle.std.specs.Prelude.{◌≡◌, List, [], ℕ, Ok};
ghost use Rattle.std.proofs.Math.Option.{Option};
ghost use Rattle.text.specs.Written.{Puts};
ghost use Rattle.load.specs.Reading.{Run, program};
ghost use Rattle.load.specs.Tally.{with_ring};
ghost use Rattle.load.specs.Reader.{empty_ring, line_at, window_for, reader_of, ringed, reader_with, Fits, FirstLine, LengthLine, LineRead, Ended, ByteRead, Feeds, Prints};

use crate::line::{Line, is_empty, value, with_byte};
use crate::refusal::{Refusal, Refused, number};
use crate::window::{
    LONGEST, MOST_LENGTHS, Tally, WIDEST, Window, empty_window, slide, tally_of, with_ring,
};
use memory::words::at_most;
use text::printed::{put_pair, put_refusal};

// What a text's lines hold, and the line that has begun. The window's width is 0 until the first line has ended.
#[derive(Clone, Copy)]
pub struct Reader {
    pub line: Line,
    pub window: Window,
}

// What a reader keeps between two bytes, but for the ring.
#[derive(Clone, Copy)]
pub struct State {
    pub line: Line,
    pub tally: Tally,
}

// Before the first byte.
pub fn start() -> Reader
    ensures { Ok result ≡ reader_of [] }
{
    Reader {
        line: Ok(None),
        window: empty_window(0),
    }
}

// The number of the line that has begun.
fn line_number(t: Tally) -> u64
    ensures { (ring : List ℕ) (run : Option Run) → Fits run → with_ring t ring ≡ window_for run → result ≡ line_at run }
{
    if t.width == 0 {
        return 1;
    }
    at_most(t.count, MOST_LENGTHS) + 2
}

// What is held after the first line, which gives the window, 1 to 64.
fn first_line(n: u64) -> Result<Tally, Refusal>
    ensures { FirstLine n (ringed result empty_ring) }
{
    if n == 0 || WIDEST < n {
        return Err(Refusal::OutOfRange);
    }
    Ok(Tally {
        width: n,
        count: 0,
        sum: 0,
        largest: 0,
        first: 0,
    })
}

// The longest length, as a line's number.
const MOST: u64 = LONGEST as u64;

// What is held after a length, 0 to 1,000, and no more than 1,000,000 of them.
fn length_line(t: Tally, recent: &mut [u16; 64], n: u64) -> Result<Tally, Refusal>
    ensures { LengthLine (with_ring t recent.old) n (ringed result recent.new) }
{
    if MOST < n {
        return Err(Refusal::OutOfRange);
    }
    slide(t, recent, n as u16).ok_or(Refusal::OutOfRange)
}

// What is held after a line.
fn line_read(t: Tally, recent: &mut [u16; 64], line: Line) -> Result<Tally, Refusal>
    ensures { LineRead (with_ring t recent.old) line (ringed result recent.new) }
{
    let n = value(line)?;
    if t.width == 0 {
        first_line(n)
    } else {
        length_line(t, recent, n)
    }
}

// The state once the line has ended.
fn ended(s: State, recent: &mut [u16; 64]) -> Result<State, Refused>
    ensures { Ended (with_ring s.tally recent.old) s.line (reader_with result recent.new) }
{
    match line_read(s.tally, recent, s.line) {
        Ok(tally) => Ok(State {
            line: Ok(None),
            tally,
        }),
        Err(why) => {
            let place = line_number(s.tally);
            Err(Refused { why, place })
        }
    }
}

// The state after one byte more.
fn byte_read(s: State, recent: &mut [u16; 64], b: u8) -> Result<State, Refused>
    ensures { ByteRead (with_ring s.tally recent.old) s.line b (reader_with result recent.new) }
{
    if b == b'\n' {
        return ended(s, recent);
    }
    let line = with_byte(s.line, b);
    Ok(State { line, ..s })
}

// The state after a piece more of the text, or where and why that is refused. What was refused stays as it is.
pub fn feed(s: Result<Reader, Refused>, piece: &[u8]) -> Result<Reader, Refused>
    ensures { Feeds s piece.now result }
{
    let s = s?;
    let mut recent = s.window.recent;
    let mut state = State {
        line: s.line,
        tally: tally_of(s.window),
    };
    for b in piece {
        state = byte_read(state, &mut recent, *b)?;
    }
    Ok(Reader {
        line: state.line,
        window: with_ring(state.tally, recent),
    })
}

// What is printed where the text ends, at the front of the output; its length is answered.
pub fn put_answer(s: Result<Reader, Refused>, out: &mut [u8; 64]) -> usize
    ensures { Prints s out.old out.new result }
{
    let s = match s {
        Ok(s) => s,
        Err(r) => return put_refusal(number(r.why), r.place, out),
    };
    let w = s.window;
    if !is_empty(s.line) {
        return put_refusal(number(Refusal::Misspelt), line_number(tally_of(w)), out);
    }
    if w.width == 0 {
        return put_refusal(number(Refusal::Misspelt), 1, out);
    }
    if w.first == 0 {
        return put_refusal(number(Refusal::TooShort), 0, out);
    }
    put_pair(out, 0, w.largest, w.first)
}

// What the program prints for a text that lies there whole.
pub fn load_text(text: &[u8], out: &mut [u8; 64]) -> usize
    ensures { Puts 0 (program text.now) out.old out.new result }
{
    put_answer(feed(Ok(start()), text), out)
}
