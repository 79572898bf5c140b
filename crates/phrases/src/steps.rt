// Postfix steps: what follows `.` and `->`.
ghost use Rattle.std.specs.Prelude.{◌≡◌, ◌<◌};
ghost use Rattle.laws.specs.Choice.{map_some};
ghost use Rattle.ocl.specs.Forms.{Quantifier};
ghost use Rattle.sheet.specs.Text.{Bytes};
ghost use Rattle.sheet.specs.Grammar.Trees.{One, quantified};
ghost use Rattle.sheet.specs.Grammar.Parser.{plain, or_broken, after_call, dot_step, quantified_step, collect_step, iterate_step, call_step, arrow_step, step_of};
ghost use Rattle.nodes.specs.Nodes.{quantifier_code};
ghost use Rattle.tokens.specs.Codes.{code_of, after_code};
ghost use Rattle.tokens.specs.Meanings.{onward, Ahead};
ghost use Rattle.tokens.specs.Signs as sign;
ghost use Rattle.phrases.specs.Forms.{cast_step, call_kind};
ghost use Rattle.phrases.specs.Meanings.{StepAs, StandsAs};

use super::Postfix;
use super::typed::type_in;
use super::words::{after, labelled_at, labelled_before};
use memory::codes;
use tokens::{Token, next_token, signs};

// `)`, and the step is done.
fn closing(s: &[u8], t: Token, code: u64, x: u64) -> Postfix
    requires { Ahead s.now t }
    ensures { (f : One) → StandsAs f code x → StepAs s.now t (or_broken (map_some (plain f) (after_code sign.close_bracket (onward s.now t)))) result }
{
    let closed = after(s, t, signs::CLOSE_BRACKET);
    let Some(next) = closed else {
        return Postfix::Broken;
    };
    Postfix::Plain { code, x, next }
}

// `()`, and the step is done.
fn empty_call(s: &[u8], t: Token, code: u64, x: u64) -> Postfix
    requires { Ahead s.now t }
    ensures { (f : One) → StandsAs f code x → StepAs s.now t (or_broken (map_some (plain f) (after_call (onward s.now t)))) result }
{
    let opened = after(s, t, signs::OPEN_BRACKET);
    let Some(u) = opened else {
        return Postfix::Broken;
    };
    closing(s, u, code, x)
}

// `(#1)`, after `oclAsType`.
fn cast_step(s: &[u8], t: Token) -> Postfix
    requires { Ahead s.now t }
    ensures { StepAs s.now t (or_broken (cast_step (onward s.now t))) result }
{
    let opened = after(s, t, signs::OPEN_BRACKET);
    let Some(u) = opened else {
        return Postfix::Broken;
    };
    let class = labelled_before(s, u, b'#', signs::CLOSE_BRACKET);
    let Some((n, next)) = class else {
        return Postfix::Broken;
    };
    Postfix::Plain {
        code: codes::CAST_TO,
        x: n,
        next,
    }
}

// After `.`.
fn dot_step(s: &[u8], t: Token) -> Postfix
    requires { Ahead s.now t }
    ensures { StepAs s.now t (or_broken (dot_step (onward s.now t))) result }
{
    let attribute = labelled_at(s, t, b'a');
    if let Some((n, next)) = attribute {
        return Postfix::Plain {
            code: codes::OF_OBJECT,
            x: n,
            next,
        };
    }
    let definition = labelled_at(s, t, b'd');
    if let Some((n, next)) = definition {
        return empty_call(s, next, codes::CALL, n);
    }
    let e = t.end;
    let code = t.code;
    match code {
        codes::IS_UNDEF => empty_call(s, next_token(s, e), codes::IS_UNDEF, 0),
        codes::CAST_TO => cast_step(s, next_token(s, e)),
        _ => Postfix::Broken,
    }
}

// `v1 |`
fn quantified_step(s: &[u8], t: Token, code: u64) -> Postfix
    requires { Ahead s.now t }
    ensures { (q : Quantifier) → quantifier_code q ≡ code → StepAs s.now t (or_broken (quantified_step (quantified q) (onward s.now t))) result }
{
    let variable = labelled_before(s, t, b'v', signs::BAR);
    let Some((n, next)) = variable else {
        return Postfix::Broken;
    };
    Postfix::Argument {
        code,
        variable: n,
        next,
    }
}

// `a5)`
fn collect_step(s: &[u8], t: Token) -> Postfix
    requires { Ahead s.now t }
    ensures { StepAs s.now t (or_broken (collect_step (onward s.now t))) result }
{
    let attribute = labelled_before(s, t, b'a', signs::CLOSE_BRACKET);
    let Some((n, next)) = attribute else {
        return Postfix::Broken;
    };
    Postfix::Plain {
        code: codes::OF_MEMBERS,
        x: n,
        next,
    }
}

// `v1; v2 : T =`
fn iterate_step(s: &[u8], t: Token) -> Postfix
    requires { Ahead s.now t }
    ensures { StepAs s.now t (or_broken (iterate_step (onward s.now t))) result }
{
    let member = labelled_before(s, t, b'v', signs::SEMICOLON);
    let Some((i, u)) = member else {
        return Postfix::Broken;
    };
    let result = labelled_before(s, u, b'v', signs::COLON);
    let Some((j, v)) = result else {
        return Postfix::Broken;
    };
    let typed = type_in(s, v);
    let Some((of, w)) = typed else {
        return Postfix::Broken;
    };
    let equals = after(s, w, codes::EQUAL);
    let Some(next) = equals else {
        return Postfix::Broken;
    };
    Postfix::Iteration { i, j, of, next }
}

// What stands in the brackets of a form by its word's code: 1 nothing, 2 an operand, 3 a variable and a body, 4 an attribute, 5 the
// variables, type and operands of `iter`; 0 for what is no such form.
fn call_kind(code: u64) -> u64
    ensures { result ≡ call_kind code }
{
    match code {
        codes::SIZE_OF..=codes::TO_BAG => 1,
        codes::INCLUDES..=codes::UNION => 2,
        codes::FOR_ALL..=codes::EXISTS => 3,
        codes::OF_MEMBERS => 4,
        codes::ITERATE => 5,
        _ => 0,
    }
}

// The step by the code of its form's word; t is the token after the bracket.
fn call_step(s: &[u8], t: Token, code: u64) -> Postfix
    requires { Ahead s.now t }
    ensures { (b : Token) (w : Bytes) → b.start < t.start → code_of w ≡ code → StepAs s.now b (or_broken (call_step w (onward s.now t))) result }
{
    match call_kind(code) {
        1 => closing(s, t, code, 0),
        2 => Postfix::Argument {
            code,
            variable: 0,
            next: t,
        },
        3 => quantified_step(s, t, code),
        4 => collect_step(s, t),
        5 => iterate_step(s, t),
        _ => Postfix::Broken,
    }
}

// After `->`.
fn arrow_step(s: &[u8], t: Token) -> Postfix
    requires { Ahead s.now t }
    ensures { StepAs s.now t (or_broken (arrow_step (onward s.now t))) result }
{
    if t.code == signs::END {
        return Postfix::Broken;
    }
    let e = t.end;
    let opened = after(s, next_token(s, e), signs::OPEN_BRACKET);
    let Some(u) = opened else {
        return Postfix::Broken;
    };
    call_step(s, u, t.code)
}

// A postfix step, if one begins here.
pub fn step(s: &[u8], t: Token) -> Postfix
    requires { Ahead s.now t }
    ensures { StepAs s.now t (step_of (onward s.now t)) result }
{
    let e = t.end;
    let code = t.code;
    match code {
        signs::DOT => dot_step(s, next_token(s, e)),
        signs::ARROW => arrow_step(s, next_token(s, e)),
        _ => Postfix::Ends,
    }
}
