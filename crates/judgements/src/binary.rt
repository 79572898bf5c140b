// All forms with two strict operands, by the form's code: what follows once both operands have their types.
ghost use Rattle.std.specs.Prelude.{◌≡◌, ◌<◌, ◌≤◌, length};
ghost use Rattle.memory.specs.Codes as code;
ghost use Rattle.ocl.specs.Types.{Ty};
ghost use Rattle.ocl.specs.Marks.{Scale, integers, reals as in_reals};
ghost use Rattle.ocl.specs.Model.{Schema};
ghost use Rattle.ocl.specs.Typing.{on_numbers, binary_type};
ghost use Rattle.sheet.specs.Sizes.{most_nodes};
ghost use Rattle.types.specs.Flat.{parents_in, base_type, ty_of};
ghost use Rattle.nodes.specs.Nodes.{binary_of};
ghost use Rattle.judgements.specs.Replies.{Tells};

use super::forms::{both_below, both_under, comparable, includes_type, including_type, union_type};
use memory::codes;
use memory::refusals::{Refusal, Refused};
use types::parts::plain;
use types::{Base, FlatType};

// Numbers go by Integers where both operands are below Int, and the result is i; else by Reals where both are below Real, and it is x;
// else 11. Node n is marked with which of the two.
fn on_numbers(
    parents: &[u64],
    n: usize,
    i: Base,
    x: Base,
    t: FlatType,
    u: FlatType,
    marks: &mut [u64],
) -> Result<FlatType, Refused>
    requires { (n < most_nodes) × (most_nodes ≤ length marks.old) }
    ensures { (m : Schema) → m.parent ≡ parents_in parents.now → (type : Scale → Ty) → base_type i ≡ type integers → base_type x ≡ type in_reals → Tells (on_numbers m n type (ty_of t) (ty_of u)) marks.old marks.new result }
{
    if both_under(parents, plain(Base::Int), t, u) {
        marks[n] = 0;
        return Ok(plain(i));
    }
    if both_under(parents, plain(Base::Real), t, u) {
        marks[n] = memory::MARK_REALS;
        return Ok(plain(x));
    }
    Err(Refusal::WrongPiece.at(n as u64))
}

// Node n, whose two operands have types t and u.
pub fn binary_type(
    parents: &[u64],
    form: u64,
    n: usize,
    t: FlatType,
    u: FlatType,
    marks: &mut [u64],
) -> Result<FlatType, Refused>
    requires { (code.equal ≤ form) × (n < most_nodes) × (most_nodes ≤ length marks.old) }
    ensures { (m : Schema) → m.parent ≡ parents_in parents.now → Tells (binary_type m n (binary_of form) (ty_of t) (ty_of u)) marks.old marks.new result }
{
    match form {
        codes::EQUAL => comparable(parents, n as u64, t, u),
        codes::LESS => on_numbers(parents, n, Base::Bool, Base::Bool, t, u, marks),
        codes::PLUS..=codes::TIMES => on_numbers(parents, n, Base::Int, Base::Real, t, u, marks),
        codes::DIV..=codes::MODULO => both_below(
            parents,
            n as u64,
            plain(Base::Int),
            plain(Base::Int),
            t,
            u,
        ),
        codes::INCLUDES => includes_type(parents, n as u64, t, u),
        codes::INCLUDING => including_type(parents, n as u64, t, u),
        codes::OVER => both_below(
            parents,
            n as u64,
            plain(Base::Real),
            plain(Base::Real),
            t,
            u,
        ),
        _ => union_type(parents, n as u64, t, u),
    }
}
