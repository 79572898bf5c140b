// Numbers (document 02, F-8): binary64 in whole numbers, Integers and Reals together, their bits, words and spelling, as
// definitions in specs/, with their laws in proofs/, and that f64 agrees with them. It has no code and depends on `laws` alone.
#![tactic(auto)]
