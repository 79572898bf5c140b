// The tables of a sheet in the lent words, which reading fills and which typing and evaluation read (document 01, The sheet): specs/ says
// where each lies and what it holds. It depends on `types`, `values` and `nodes` for how these lie in words, and on `text` for a line's fields.
#![tactic(auto)]

ghost use Rattle.std.specs.Prelude.{◌≡◌, ◌≤◌, length};
ghost use Rattle.sheet.specs.Sizes.{least_words};
ghost use Rattle.sheet.specs.Calls.{wiped};
ghost use Rattle.tables.specs.Layout.{no_counts};

use memory::lines;

// How far the sheet has been read: the last block begun, how much of each there is, and what is open; its class, a definition's type as a
// word, its first node.
#[derive(Clone, Copy)]
pub struct Counts {
    pub block: u64,
    pub classes: u64,
    pub rows: u64,
    pub objects: u64,
    pub slots: u64,
    pub cells: u64,
    pub nodes: u64,
    pub definitions: u64,
    pub rules: u64,
    pub open: u64,
    pub context: u64,
    pub result: u64,
    pub first: u64,
}

// The counts before the first line.
pub fn nothing() -> Counts
    ensures { result ≡ no_counts }
{
    Counts {
        block: lines::CLASSES,
        classes: 0,
        rows: 0,
        objects: 0,
        slots: 0,
        cells: 0,
        nodes: 0,
        definitions: 0,
        rules: 0,
        open: lines::NOTHING_OPEN,
        context: 0,
        result: 0,
        first: 0,
    }
}

// Sets the words that must be lent to 0, and no others.
pub fn wipe(w: &mut [u64])
    requires { least_words ≤ length w.old }
    ensures { w.new ≡ wiped w.old }
{
    w[..memory::LEAST_WORDS].fill(0);
}
