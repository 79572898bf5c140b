// The lowest layer: options and lists, and the laws that every other crate shares. It depends on nothing.
#![tactic(auto)]
