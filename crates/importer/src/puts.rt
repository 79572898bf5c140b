// Nodes that are put down after their operands. An operand is named by how many nodes there are after it: its root is the last of them.
ghost use Rattle.std.specs.Prelude.{◌≡◌, ℕ, ◌-◌, ◌≤◌, ◌<◌, length};
ghost use Rattle.std.proofs.Math.Option.{some};
ghost use Rattle.ocl.specs.Types.{Ty};
ghost use Rattle.sheet.specs.Sizes.{least_words};
ghost use Rattle.sheet.specs.Grammar.Trees.{One, Two, conditional, iterate, one_shape, two_shape, three_shape};
ghost use Rattle.types.specs.Reading.{type_field, held};
ghost use Rattle.phrases.specs.Meanings.{StandsAs, StandsAsTwo};
ghost use Rattle.shapes.specs.Fields.{cut};
ghost use Rattle.shapes.specs.Iterate.{Held};
ghost use Rattle.importer.specs.Puts.{PutNode, Behind, Joins};

use emission::emit;
use memory::codes;
use memory::refusals::Misread;
use shapes::built::built;
use shapes::iterate::{iterated, type_read};
use tokens::Token;
use types::FlatType;

// Puts down a form with one operand, and the class, attribute or definition x that it may hold.
pub fn put_one(w2: &mut [u64], code: u64, x: u64, a: usize, k: u64)
    requires { (least_words ≤ length w2.old) × (0 < a) }
    ensures { (f : One) → StandsAs f code x → PutNode k a (one_shape f (a - 1)) w2.old w2.new }
{
    emit(w2, a, built(code, [a as u64 - 1, x, 0, 0], k));
}

// Puts down a form with two operands, and the variable that it may hold.
pub fn put_two(w2: &mut [u64], code: u64, variable: u64, a: usize, b: usize, k: u64)
    requires { (least_words ≤ length w2.old) × (0 < a) × (a < b) }
    ensures { (f : Two) → StandsAsTwo f code variable → PutNode k b (two_shape f (a - 1) (b - 1)) w2.old w2.new }
{
    let x = a as u64 - 1;
    let y = b as u64 - 1;
    match code {
        codes::FOR_ALL..=codes::EXISTS => emit(w2, b, built(code, [x, variable, y, 0], k)),
        codes::LET_IN => emit(w2, b, built(codes::LET_IN, [variable, x, y, 0], k)),
        _ => emit(w2, b, built(code, [x, y, 0, 0], k)),
    }
}

// Puts down a sign's form, if its right operand was found; the left one is named as above.
pub fn joined(
    w2: &mut [u64],
    code: u64,
    a: usize,
    right: Option<(Token, usize)>,
    k: u64,
) -> Option<(Token, usize)>
    requires { (least_words ≤ length w2.old) × (0 < a) × Behind a right }
    ensures { Joins k code a w2.old right result w2.new }
{
    let (next, nodes) = right?;
    put_two(w2, code, 0, a, nodes, k);
    Some((next, nodes + 1))
}

// Puts down an `if`.
pub fn put_condition(w2: &mut [u64], a: usize, b: usize, c: usize, k: u64)
    requires { (least_words ≤ length w2.old) × (0 < a) × (a < b) × (b < c) }
    ensures { PutNode k c (three_shape conditional (a - 1) (b - 1) (c - 1)) w2.old w2.new }
{
    emit(
        w2,
        c,
        built(
            codes::CONDITIONAL,
            [a as u64 - 1, b as u64 - 1, c as u64 - 1, 0],
            k,
        ),
    );
}

// Puts down an `iter`.
pub fn put_iteration(
    w2: &mut [u64],
    i: u64,
    j: u64,
    of: Result<FlatType, Misread>,
    a: usize,
    b: usize,
    c: usize,
    k: u64,
)
    requires { (least_words ≤ length w2.old) × (0 < a) × (a < b) × (b < c) × Held of }
    ensures { (x y : ℕ) (u : Ty) → i ≡ cut x → j ≡ cut y → type_field of ≡ held (some u) → PutNode k c (three_shape (iterate x y u) (a - 1) (b - 1) (c - 1)) w2.old w2.new }
{
    emit(
        w2,
        c,
        iterated(
            [a as u64 - 1, i, j, 0],
            type_read(of),
            [b as u64 - 1, c as u64 - 1, 0, 0],
            k,
        ),
    );
}
