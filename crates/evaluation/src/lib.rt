// Evaluates a rule for an object: a recursion over operand nodes, whose numbers get smaller, with the values on a stack of lent
// words. Document 01, Evaluation; document 02, F-11. It depends on `operations` for what a form does once its operands have run, on
// `outcomes` for how that ends, and on `nodes` for what a node's words say.
#![tactic(auto)]

pub mod answers; // answers that say where undefined arose, as one word, and without it
pub mod rule; // a rule for an object
pub mod walk; // the recursion: operands, nodes, and forms that run each operand once
pub mod lazy; // forms that may leave an operand unrun
pub mod bind; // forms that bind variables in a body

// How an evaluation ends: as `Ended` of `outcomes` has it, and undefined with its place, the node at which it arose and the step at which
// that node began, as one word: the node and PLACE_STEP times the step.
#[derive(Clone, Copy)]
pub enum Traced {
    Value { len: usize, steps: u64 },
    Undef { steps: u64, place: u64 },
    Stuck,
    Stop { number: u64, steps: u64 },
}
