// Where spaces end, and where a token ends.
ghost use Rattle.std.specs.Prelude.{◌≡◌, ◌≢◌, ◌<◌, ◌≤◌, length, get_or};
ghost use Rattle.sheet.specs.Grammar.Tokens.{in_word};
ghost use Rattle.tokens.specs.Meanings.{Skipped, RunEnds, arrow_at, TokenEnds};

// Whether the byte is a letter, a digit or `#`.
fn in_word(b: u8) -> bool
    ensures { result ≡ in_word b }
{
    b.is_ascii_alphanumeric() || b == b'#'
}

// Where the spaces from `at` on end.
pub fn skip(s: &[u8], at: usize) -> usize
    requires { at ≤ length s.now }
    ensures { Skipped s.now at result }
{
    for i in at..s.len() {
        if s[i] != b' ' {
            return i;
        }
    }
    s.len()
}

// Where a run of letters, digits and `#` ends.
fn run_end(s: &[u8], at: usize) -> usize
    requires { at ≤ length s.now }
    ensures { RunEnds s.now at result }
{
    for i in at..s.len() {
        if !in_word(s[i]) {
            return i;
        }
    }
    s.len()
}

// Whether `->` begins at `at`.
fn is_arrow(s: &[u8], at: usize) -> bool
    requires { at < length s.now }
    ensures { result ≡ arrow_at s.now at }
{
    s[at..].starts_with(b"->")
}

// Where the token ends that begins at `at`.
pub fn token_end(s: &[u8], at: usize) -> usize
    requires { (at < length s.now) × (get_or s.now at 0 ≢ 32) }
    ensures { TokenEnds s.now at result }
{
    if in_word(s[at]) {
        return run_end(s, at + 1);
    }
    if is_arrow(s, at) {
        return at + 2;
    }
    at + 1
}
