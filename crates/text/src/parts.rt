// Lines and fields: where a part of a text ends, and a line cut into its fields.
ghost use Rattle.std.specs.Prelude.{get_or, ◌≡◌, [], ◌<◌};
ghost use Rattle.sheet.specs.Text.{fields_of};
ghost use Rattle.text.specs.Parts.{PartEnd, Cut};

// Where each field of a line ends. No line has more than nine fields, so ten ends are enough: a line of more than ten fields
// has the count 11 and the ends of its first ten.
#[derive(Clone, Copy)]
pub struct Fields {
    pub count: usize,
    pub ends: [usize; 10],
}

// How many bytes come before the first `sep`; all of them if there is none.
pub fn find(s: &[u8], sep: u8) -> usize
    ensures { PartEnd sep s.now result }
{
    s.iter().position(|b| *b == sep).unwrap_or(s.len())
}

// The line's fields; each byte is looked at once.
pub fn cut(line: &[u8]) -> Fields
    ensures { Cut line.now result }
{
    let mut ends: [usize; 10] = [0; 10];
    let mut at = 0;
    for k in 0..10 {
        let e = at + find(&line[at..], b'\t');
        ends[k] = e;
        if e == line.len() {
            return Fields { count: k + 1, ends };
        }
        at = e + 1;
    }
    Fields { count: 11, ends }
}

// The field k of a line that was cut into `f`.
pub fn field(line: &[u8], f: Fields, k: usize) -> &[u8]
    requires { Cut line.now f × (k < f.count) × (k < 10) }
    ensures { result.now ≡ get_or (fields_of line.now) k [] }
{
    let start = if k == 0 { 0 } else { f.ends[k - 1] + 1 };
    &line[start..f.ends[k]]
}
