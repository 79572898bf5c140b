// The language (document 01, Values and types, The forms and their typing, Evaluation): types, values, forms, typing, evaluation and
// reach, as definitions in specs/, with demand 3 proved over them in proofs/. It has no code and depends on `laws` and `reals`.
#![tactic(auto)]
