// The type of each form with no operand or with strict operands, and of `if`, from the types of its operands. `n` is the node's
// number, which a refusal names; `parents` is the table that subtyping reads. "Else 11" says: any other type is refused with 11.
ghost use Rattle.std.specs.Prelude.{◌≡◌, ◌&&◌, ◌<◌, ◌≤◌, length};
ghost use Rattle.memory.specs.Map as memory;
ghost use Rattle.reals.specs.Words.{number_in};
ghost use Rattle.ocl.specs.Types.{Boolean, Integer, simple, subtype as isBelow, join as join_of};
ghost use Rattle.ocl.specs.Model.{Schema, number_type};
ghost use Rattle.ocl.specs.Typing.{typed, refused, below, common, on_collection, cast_type, call_type, both_below, leaf_type, unary_type, includes_type, including_type, union_type, conditional_type, wrap as wrapType};
ghost use Rattle.sheet.specs.Sizes.{most_nodes};
ghost use Rattle.types.specs.Flat.{parents_in, ty_of, letter_of, joined_type};
ghost use Rattle.nodes.specs.Nodes.{word, leaf_of, unary_of};
ghost use Rattle.judgements.specs.Replies.{meaning, env_of, join_more};

use super::TypeEnv;
use super::environment::bound;
use floats::Number;
use floats::cells::number_of;
use memory::codes;
use memory::refusals::{Refusal, Refused};
use memory::words::wide;
use nodes::node_word;
use types::classes::class_below;
use types::order::{join, subtype};
use types::parts::{depth, is_any, is_class, member_type, outer_code, plain, set_of_class, wrap};
use types::{Base, FlatType, letters};

// ---- what several forms ask

// A condition must be below Bool, else 11.
pub fn condition(parents: &[u64], n: u64, t: FlatType) -> Result<FlatType, Refused>
    ensures { (m : Schema) → m.parent ≡ parents_in parents.now → meaning result ≡ below m n (ty_of t) Boolean (typed Boolean) }
{
    if subtype(parents, t, plain(Base::Bool)) {
        return Ok(plain(Base::Bool));
    }
    Err(Refusal::WrongPiece.at(n))
}

// Whether both operands are below w.
pub fn both_under(parents: &[u64], w: FlatType, t: FlatType, u: FlatType) -> bool
    ensures { result ≡ (isBelow (parents_in parents.now) (ty_of t) (ty_of w) && isBelow (parents_in parents.now) (ty_of u) (ty_of w)) }
{
    subtype(parents, t, w) && subtype(parents, u, w)
}

// Both operands must be below w, else 11; the result has type r.
pub fn both_below(
    parents: &[u64],
    n: u64,
    w: FlatType,
    r: FlatType,
    t: FlatType,
    u: FlatType,
) -> Result<FlatType, Refused>
    ensures { (m : Schema) → m.parent ≡ parents_in parents.now → meaning result ≡ both_below m n (ty_of w) (ty_of r) (ty_of t) (ty_of u) }
{
    if both_under(parents, w, t, u) {
        return Ok(r);
    }
    Err(Refusal::WrongPiece.at(n))
}

// The common type of both, else 10.
pub fn common_type(parents: &[u64], n: u64, t: FlatType, u: FlatType) -> Result<FlatType, Refused>
    ensures { (m : Schema) → m.parent ≡ parents_in parents.now → meaning result ≡ common n (join_of m.parent (ty_of t) (ty_of u)) typed }
{
    let Some(w) = join(parents, t, u) else {
        return Err(Refusal::NoMatch.at(n));
    };
    Ok(w)
}

// Bool, if both have a common type, else 10.
pub fn comparable(parents: &[u64], n: u64, t: FlatType, u: FlatType) -> Result<FlatType, Refused>
    ensures { (m : Schema) → m.parent ≡ parents_in parents.now → meaning result ≡ common n (join_of m.parent (ty_of t) (ty_of u)) (λ w. typed Boolean) }
{
    let Some(w) = join(parents, t, u) else {
        return Err(Refusal::NoMatch.at(n));
    };
    Ok(plain(Base::Bool))
}

// A collection of t with the letter of the code; refused with 13 if that is over three deep.
pub fn wrapped(n: u64, code: u8, t: FlatType) -> Result<FlatType, Refused>
    requires { 0 < code }
    ensures { meaning result ≡ wrapType n (letter_of code) (ty_of t) }
{
    if depth(t) <= 2 {
        return Ok(wrap(code, t));
    }
    Err(Refusal::TooManyLayers.at(n))
}

// The common type of one type more and those before it, if they have one.
pub fn join_more(parents: &[u64], common: Option<FlatType>, t: FlatType) -> Option<FlatType>
    ensures { joined_type result ≡ join_more (parents_in parents.now) (joined_type common) (ty_of t) }
{
    let Some(s) = common else {
        return common;
    };
    join(parents, s, t)
}

// A collection of the common type, if there is one, else 10.
pub fn around_common(n: u64, code: u8, joined: Option<FlatType>) -> Result<FlatType, Refused>
    requires { 0 < code }
    ensures { meaning result ≡ common n (joined_type joined) (wrapType n (letter_of code)) }
{
    let Some(w) = joined else {
        return Err(Refusal::NoMatch.at(n));
    };
    wrapped(n, code, w)
}

// ---- forms with no operand

// The type of the number in a word.
fn number_type(w: u64) -> FlatType
    ensures { ty_of result ≡ simple (number_type (number_in w)) }
{
    let x = number_of(w);
    match x {
        Number::Integer { biased } => plain(Base::Int),
        Number::Real(_) => plain(Base::Real),
    }
}

// Node n, which has no operand.
pub fn leaf_type(nodes: &[u64], form: u64, n: usize, env: TypeEnv) -> Result<FlatType, Refused>
    requires { (n < most_nodes) × (memory.nodes_end ≤ length nodes.now) }
    ensures { meaning result ≡ leaf_type n (leaf_of form (word nodes.now n)) (env_of env) }
{
    match form {
        codes::FALSE..=codes::TRUE => Ok(plain(Base::Bool)),
        codes::UNDEF => Ok(plain(Base::Void)),
        codes::NUMBER => Ok(number_type(node_word(nodes, n, 1))),
        codes::SELF => bound(n as u64, 0, env),
        codes::VAR => bound(
            n as u64,
            wide(node_word(nodes, n, 1)) % memory::VARIABLES,
            env,
        ),
        _ => Ok(set_of_class((node_word(nodes, n, 1) % memory::CLASS_NUMBERS) as u8)),
    }
}

// ---- forms with one strict operand

// `size` takes a collection, else 11; Void is none.
fn size_type(n: u64, t: FlatType) -> Result<FlatType, Refused>
    ensures { meaning result ≡ on_collection (ty_of t) (refused 11 n) (λ l u. typed Integer) }
{
    if outer_code(t) == 0 {
        return Err(Refusal::WrongPiece.at(n));
    }
    Ok(plain(Base::Int))
}

// `asSet`, `asSequence`, `asBag` take a collection, else 11; its letter becomes that of the code.
fn converted(n: u64, code: u8, t: FlatType) -> Result<FlatType, Refused>
    requires { 0 < code }
    ensures { meaning result ≡ on_collection (ty_of t) (refused 11 n) (λ l u. wrapType n (letter_of code) u) }
{
    if outer_code(t) == 0 {
        return Err(Refusal::WrongPiece.at(n));
    }
    wrapped(n, code, member_type(t))
}

// `as` takes Any, or a class above or below c; an unrelated class is refused with 10, any other type with 11.
fn cast_type(parents: &[u64], n: u64, c: u8, t: FlatType) -> Result<FlatType, Refused>
    ensures { (m : Schema) → m.parent ≡ parents_in parents.now → meaning result ≡ cast_type m n c (ty_of t) }
{
    if is_any(t) {
        return Ok(plain(Base::Class(c)));
    }
    let Some(d) = is_class(t) else {
        return Err(Refusal::WrongPiece.at(n));
    };
    if class_below(parents, d, c as u64) || class_below(parents, c as u64, d) {
        return Ok(plain(Base::Class(c)));
    }
    Err(Refusal::NoMatch.at(n))
}

// `call` takes the definition's class c or one below it, else 11; Void is none. Its type is the definition's, t.
pub fn call_type(
    parents: &[u64],
    n: u64,
    c: u64,
    t: FlatType,
    u: FlatType,
) -> Result<FlatType, Refused>
    ensures { (m : Schema) → m.parent ≡ parents_in parents.now → meaning result ≡ call_type m n c (ty_of t) (ty_of u) }
{
    let Some(d) = is_class(u) else {
        return Err(Refusal::WrongPiece.at(n));
    };
    if class_below(parents, d, c) {
        return Ok(t);
    }
    Err(Refusal::WrongPiece.at(n))
}

// By how much the codes of `asSet`, `asSequence` and `asBag` are above those of their letters.
const CONVERSIONS: u64 = codes::TO_SET - letters::SET as u64;

// Node n, whose one strict operand has type t.
pub fn unary_type(
    parents: &[u64],
    nodes: &[u64],
    form: u64,
    n: usize,
    t: FlatType,
) -> Result<FlatType, Refused>
    requires { (n < most_nodes) × (memory.nodes_end ≤ length nodes.now) }
    ensures { (m : Schema) → m.parent ≡ parents_in parents.now → meaning result ≡ unary_type m n (unary_of form (word nodes.now n)) (ty_of t) }
{
    match form {
        codes::NEGATION => condition(parents, n as u64, t),
        codes::SIZE_OF => size_type(n as u64, t),
        codes::TO_SET..=codes::TO_BAG => converted(n as u64, (form - CONVERSIONS) as u8, t),
        _ => cast_type(
            parents,
            n as u64,
            (node_word(nodes, n, 2) % memory::CLASS_NUMBERS) as u8,
            t,
        ),
    }
}

// ---- forms with two strict operands

// `includes` takes a collection, else 11; its member type and u must have a common type, else 10.
pub fn includes_type(parents: &[u64], n: u64, t: FlatType, u: FlatType) -> Result<FlatType, Refused>
    ensures { (m : Schema) → m.parent ≡ parents_in parents.now → meaning result ≡ includes_type m n (ty_of t) (ty_of u) }
{
    if outer_code(t) == 0 {
        return Err(Refusal::WrongPiece.at(n));
    }
    comparable(parents, n, member_type(t), u)
}

// `including` takes a Set, Sequence or Bag, else 11; its member type and u must have a common type, else 10.
pub fn including_type(
    parents: &[u64],
    n: u64,
    t: FlatType,
    u: FlatType,
) -> Result<FlatType, Refused>
    ensures { (m : Schema) → m.parent ≡ parents_in parents.now → meaning result ≡ including_type m n (ty_of t) (ty_of u) }
{
    let code = outer_code(t);
    if code <= letters::COLLECTION {
        return Err(Refusal::WrongPiece.at(n));
    }
    around_common(n, code, join(parents, member_type(t), u))
}

// `union` takes two Sets, two Sequences or two Bags, else 11; their member types must have a common type, else 10.
pub fn union_type(parents: &[u64], n: u64, t: FlatType, u: FlatType) -> Result<FlatType, Refused>
    ensures { (m : Schema) → m.parent ≡ parents_in parents.now → meaning result ≡ union_type m n (ty_of t) (ty_of u) }
{
    let code = outer_code(t);
    if code <= letters::COLLECTION || outer_code(u) != code {
        return Err(Refusal::WrongPiece.at(n));
    }
    around_common(n, code, join(parents, member_type(t), member_type(u)))
}

// ---- `if`

// The condition must be below Bool, else 11; then the branches must have a common type, else 10.
pub fn conditional_type(
    parents: &[u64],
    n: u64,
    c: FlatType,
    t: FlatType,
    u: FlatType,
) -> Result<FlatType, Refused>
    ensures { (m : Schema) → m.parent ≡ parents_in parents.now → meaning result ≡ conditional_type m n (ty_of c) (ty_of t) (ty_of u) }
{
    if subtype(parents, c, plain(Base::Bool)) {
        return common_type(parents, n, t, u);
    }
    Err(Refusal::WrongPiece.at(n)) // whatever the branches are
}
