// How every call begins and ends: the lengths of what is lent, a text read and all its definitions and rules typed, what a call returns,
// and the words set to zero. Document 01, Calls. It depends on `reader` for the sheet, on `rules` for typing and on `report` for how
// putting lines ends.
#![tactic(auto)]

ghost use Rattle.std.specs.Prelude.{◌||◌, ◌≡◌, ◌≤◌, length};
ghost use Rattle.memory.specs.Refusals.{number};
ghost use Rattle.sheet.specs.Sizes.{least_words};
ghost use Rattle.sheet.specs.Calls.{Verdict, refusal_at, short_words, short_output};
ghost use Rattle.rules.specs.Accepted.{Known};
ghost use Rattle.report.specs.Reports.{SaysReport};
ghost use Rattle.opening.specs.Answers.{answer_of};
ghost use Rattle.opening.specs.Parts.{ReadsText, AcceptsSheet, OpensText, Wipes, written_to};

use memory::refusals::{Refusal, Refused};
use reader::read;
use rules::all::accept;
use tables::Counts;

// What a call returns: 0 or a refusal's number, the steps of an evaluation, a line number, and the bytes written.
#[repr(C)]
#[derive(Clone, Copy)]
pub struct Answer {
    pub number: u64,
    pub steps: u64,
    pub place: u64,
    pub length: u64,
}

// A refusal: it writes nothing and took no steps.
pub fn no_output(number: u64, place: u64) -> Answer
    ensures { result ≡ answer_of (refusal_at number place) }
{
    Answer {
        number,
        steps: 0,
        place,
        length: 0,
    }
}

impl From<Refused> for Answer {
    ghost from_gives = { λ r a. a ≡ answer_of (refusal_at (number r.refusal) r.place) };

    fn from(refused: Refused) -> Answer {
        no_output(u64::from(refused.refusal), refused.place)
    }
}

// An answer with what was written to the output, up to `end`.
pub fn written(end: usize, steps: u64) -> Answer
    ensures { result ≡ written_to end steps }
{
    Answer {
        number: 0,
        steps,
        place: 0,
        length: end as u64,
    }
}

// The answer for lines that are put into the output: their length; or 18 where they are longer than it.
pub fn lines_answer(r: Option<usize>) -> Answer
    ensures { (v : Verdict) → SaysReport r v → result ≡ answer_of v }
{
    match r {
        Some(end) => written(end, 0),
        None => Answer::from(Refusal::SlipTooLong.at(0)),
    }
}

// Whether a word slice has fewer than 8,192 words.
pub fn short(w0: &[u64], w1: &[u64], w2: &[u64]) -> bool
    ensures { result ≡ short_words w0.now w1.now w2.now }
{
    w0.len() < memory::LEAST_WORDS
        || w1.len() < memory::LEAST_WORDS
        || w2.len() < memory::LEAST_WORDS
}

// Whether a word slice has fewer than 8,192 words, or the output fewer than 2,560 bytes.
pub fn short_lent(w0: &[u64], w1: &[u64], w2: &[u64], out: &[u8]) -> bool
    ensures { result ≡ (short_words w0.now w1.now w2.now || short_output out.now) }
{
    short(w0, w1, w2) || out.len() < memory::LEAST_OUTPUT
}

// Reads a text of any length: its sheet in the words, or a refusal.
pub fn read_text(
    text: &[u8],
    w0: &mut [u64],
    w1: &mut [u64],
    w2: &mut [u64],
) -> Result<Counts, Refused>
    requires { (least_words ≤ length w0.old) × (least_words ≤ length w1.old) × (least_words ≤ length w2.old) }
    ensures { ReadsText text.now result w0.old w1.old w2.old w0.new w1.new w2.new }
{
    if memory::MOST_BYTES < text.len() {
        return Err(Refusal::LongSheet.at(0));
    }
    read(text, w0, w1, w2)
}

// Types all definitions and rules of the sheet that lies in the words: the sheet is accepted, or the first refusal is given.
pub fn accept_sheet(
    w0: &[u64],
    st: Counts,
    w1: &mut [u64],
    w2: &mut [u64],
) -> Result<Counts, Refused>
    requires least_words_in_bounds { (least_words ≤ length w0.now) × (least_words ≤ length w1.old) × (least_words ≤ length w2.old) }
    requires known { Known st w0.now w1.old }
    ensures { AcceptsSheet st w0.now w1.old w2.old w1.new w2.new result }
{
    match accept(w0, st, w1, w2) {
        Ok(()) => Ok(st),
        Err(refused) => Err(refused),
    }
}

// Opens a text for a call: it is read, and all its definitions and rules are typed. Every call begins so, and refuses alike.
pub fn open_text(
    text: &[u8],
    w0: &mut [u64],
    w1: &mut [u64],
    w2: &mut [u64],
) -> Result<Counts, Refused>
    requires { (least_words ≤ length w0.old) × (least_words ≤ length w1.old) × (least_words ≤ length w2.old) }
    ensures { OpensText text.now result w0.old w1.old w2.old w0.new w1.new w2.new }
{
    let st = read_text(text, w0, w1, w2)?;
    accept_sheet(w0, st, w1, w2)
}

// Sets the first 8,192 words of each slice to 0.
pub fn wipe_all(w0: &mut [u64], w1: &mut [u64], w2: &mut [u64])
    requires { (least_words ≤ length w0.old) × (least_words ≤ length w1.old) × (least_words ≤ length w2.old) }
    ensures { Wipes w0.old w1.old w2.old w0.new w1.new w2.new }
{
    tables::wipe(w0);
    tables::wipe(w1);
    tables::wipe(w2);
}
