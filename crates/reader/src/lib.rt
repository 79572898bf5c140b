// A sheet read line by line into the tables of the lent words. Document 01, The sheet. It depends on `text`, which splits the
// text, on `declarations`, `slots`, `trees` and `texts`, which take the lines, and on `tables`.
#![tactic(auto)]

ghost use Rattle.std.specs.Prelude.{◌≡◌, true, false, List, [], ℕ, ◌+◌, ◌≤◌, ◌<◌, length, get_or};
ghost use Rattle.sheet.specs.Sizes.{least_words, most_bytes};
ghost use Rattle.sheet.specs.Text.{fields_of};
ghost use Rattle.text.specs.Parts.{Cut};
ghost use Rattle.text.specs.Words.{byte_kind, only_byte};
ghost use Rattle.tables.specs.Layout.{Fine};
ghost use Rattle.texts.specs.Judging.{TookText};
ghost use Rattle.reader.specs.Meanings.{HeldSheet, body_kind, placed_at, TookLine, TookWhole, TookLast, ReadsTo};

use declarations::classes::class_line;
use declarations::definitions::definition_line;
use declarations::objects::object_line;
use declarations::rows::row_line;
use declarations::rules::rule_line;
use memory::lines;
use memory::refusals::{Refusal, Refused};
use slots::line::value_line;
use tables::Counts;
use text::parts::{Fields, cut, field, find};
use text::words::{byte_kind, letter};
use texts::line::text_line;
use trees::ending::end_rule;
use trees::node::node_line;

// Whether a line of this kind (`byte_kind`) belongs to the open definition or rule: an N line or an X line.
fn in_body(kind: u64) -> bool
    ensures { result ≡ body_kind kind }
{
    kind == lines::NODE_LINE || kind == lines::TEXT_LINE
}

// Takes line k, which belongs to the open definition or rule.
fn body_line(
    kind: u64,
    line: &[u8],
    f: Fields,
    w0: &[u64],
    w1: &mut [u64],
    w2: &mut [u64],
    st: Counts,
    k: u64,
) -> Result<Counts, Refusal>
    requires { Cut line.now f × (kind ≡ byte_kind (only_byte (get_or (fields_of line.now) 0 []))) × (body_kind kind ≡ true) × (least_words ≤ length w0.now) × (least_words ≤ length w1.old) × (least_words ≤ length w2.old) × Fine st }
    ensures { TookText st k line.now result w0.now w1.old w2.old w1.new w2.new }
{
    if kind == lines::NODE_LINE {
        return node_line(line, f, w0, w1, st, k);
    }
    text_line(line, f, w0, w1, w2, st, k)
}

// Takes any other line, by its kind.
fn other_line(
    kind: u64,
    line: &[u8],
    f: Fields,
    w0: &mut [u64],
    st: Counts,
) -> Result<Counts, Refusal>
    requires { Cut line.now f × (kind ≡ byte_kind (only_byte (get_or (fields_of line.now) 0 []))) × (body_kind kind ≡ false) × (least_words ≤ length w0.old) × Fine st }
    ensures { (w1 : List ℕ) (k : ℕ) → TookLine st k line.now result w0.old w1 w0.new w1 }
{
    match kind {
        lines::CLASS_LINE => class_line(line, f, w0, st),
        lines::ROW_LINE => row_line(line, f, w0, st),
        lines::OBJECT_LINE => object_line(line, f, w0, st),
        lines::VALUE_LINE => value_line(line, f, w0, st),
        lines::RULE_LINE => rule_line(line, f, st),
        lines::DEFINITION_LINE => definition_line(line, f, st),
        _ => Err(Refusal::BadLine),
    }
}

// A step, with a line's number where it refuses.
fn placed(s: Result<Counts, Refusal>, k: u64) -> Result<Counts, Refused>
    ensures { result ≡ placed_at s k }
{
    match s {
        Ok(st) => Ok(st),
        Err(e) => Err(e.at(k)),
    }
}

// Takes one line, after k others. An open definition or rule ends before a line that does not belong to it.
fn line_read(
    line: &[u8],
    w0: &mut [u64],
    w1: &mut [u64],
    w2: &mut [u64],
    st: Counts,
    k: u64,
) -> Result<Counts, Refused>
    requires { (least_words ≤ length w0.old) × (least_words ≤ length w1.old) × (least_words ≤ length w2.old) × HeldSheet st w0.old w1.old × (k < 100000) }
    ensures { TookWhole st k line.now result w0.old w1.old w2.old w0.new w1.new w2.new }
{
    let f = cut(line);
    let kind = byte_kind(letter(field(line, f, 0)));
    if in_body(kind) {
        let step = body_line(kind, line, f, w0, w1, w2, st, k + 1);
        return placed(step, k + 1);
    }
    let next = placed(end_rule(w0, w1, st), k)?;
    placed(other_line(kind, line, f, w0, next), k + 1)
}

// The text's last part, after k lines: it must be empty, and an open definition or rule ends with the text.
fn last_read(part: &[u8], w0: &mut [u64], w1: &[u64], st: Counts, k: u64) -> Result<Counts, Refused>
    requires { (least_words ≤ length w0.old) × (least_words ≤ length w1.now) × HeldSheet st w0.old w1.now × (k < 100000) }
    ensures { TookLast st k part.now result w0.old w1.now w0.new w1.now }
{
    let f = cut(part);
    let kind = byte_kind(letter(field(part, f, 0)));
    if in_body(kind) {
        return Err(Refusal::BadLine.at(k + 1));
    }
    let next = placed(end_rule(w0, w1, st), k)?;
    if part.is_empty() {
        Ok(next)
    } else {
        Err(Refusal::BadLine.at(k + 1))
    }
}

// Reads a text of at most 49,152 bytes. The nodes of an X line wait in w2 while they are judged; nothing reads them afterwards.
pub fn read(text: &[u8], w0: &mut [u64], w1: &mut [u64], w2: &mut [u64]) -> Result<Counts, Refused>
    requires { (least_words ≤ length w0.old) × (least_words ≤ length w1.old) × (least_words ≤ length w2.old) × (length text.now ≤ most_bytes) }
    ensures { ReadsTo text.now result w0.old w1.old w2.old w0.new w1.new w2.new }
{
    let mut rest = text;
    let mut st = tables::nothing();
    let mut k: u64 = 0;
    let mut e = find(rest, 10);
    while e < rest.len() {
        st = line_read(&rest[..e], w0, w1, w2, st, k)?;
        rest = &rest[e + 1..];
        k += 1;
        e = find(rest, 10);
    }
    last_read(rest, w0, w1, st, k)
}
