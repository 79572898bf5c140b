// The sheet (document 01, The sheet and Calls; document 02): its text, what each call answers and what the programs print, as definitions
// in specs/, with demand 3 carried to every accepted text in proofs/. It has no code and depends on `laws`, `reals` and `ocl`.
#![tactic(auto)]
