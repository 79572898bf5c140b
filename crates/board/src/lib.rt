// Corrections at the machine, document 02, F-10: what the running board is, what making and editing it answer and leave, as
// definitions in specs/; in proofs/ that its verdicts are the report's. It has no code and depends on `laws`, `reals`, `ocl` and `sheet`.
#![tactic(auto)]
