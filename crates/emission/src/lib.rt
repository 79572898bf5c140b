// The nodes of a text, which wait in w2, the third slice of words, until the whole text has been judged. Document 02, F-7. It depends on
// `trees` for a node's form.
#![tactic(auto)]

ghost use Rattle.std.specs.Prelude.{◌≡◌, ◌+◌, ◌≤◌, ◌<◌, length};
ghost use Rattle.sheet.specs.Sizes.{least_words, most_nodes, most_classes};
ghost use Rattle.emission.specs.Nodes.{packed as packedOf, parsed_in, Emitted};

use shapes::Parsed;
use trees::operands::put_words;

// What a form has besides its words, as one word: what its line is still to be judged by.
fn packed(p: Parsed) -> u64
    requires { (p.count ≤ 4) × (p.classes ≤ most_classes + 1) }
    ensures { result ≡ packedOf p }
{
    u64::from(p.within) + 2 * u64::from(p.apart) + 4 * p.count as u64 + 32 * p.classes
}

// Puts node n down, unless it is past the 768 that there may be.
pub fn emit(w2: &mut [u64], n: usize, p: Parsed)
    requires { (least_words ≤ length w2.old) × (length p.words ≡ 8) × (p.count ≤ 4) × (p.classes ≤ most_classes + 1) }
    ensures { Emitted n p w2.old w2.new }
{
    if n < memory::NODES {
        let w = p.words;
        let rest = packed(p);
        put_words(
            w2,
            n,
            [w[0], w[1], w[2], w[3], w[4], w[5], w[6], rest],
            0,
            0,
        );
    }
}

// Node i of the line k, as it was put down.
pub fn emitted(w2: &[u64], i: usize, k: u64) -> Parsed
    requires { (least_words ≤ length w2.now) × (i < most_nodes) }
    ensures { result ≡ parsed_in k w2.now i }
{
    let at = memory::NODE_WORDS * i;
    let rest = w2[at + 7];
    Parsed {
        spelled: true,
        words: [
            w2[at],
            w2[at + 1],
            w2[at + 2],
            w2[at + 3],
            w2[at + 4],
            w2[at + 5],
            w2[at + 6],
            k,
        ],
        count: (rest / 4 % 8) as usize,
        within: rest % 2 == 1,
        apart: rest / 2 % 2 == 1,
        classes: rest / 32,
    }
}
