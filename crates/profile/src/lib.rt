// The free-numbering profile, document 02, F-12: values, models, sheets and texts with their objects numbered anew, as definitions in
// specs/, with the theorem of the profile proved over them in proofs/. It has no code and depends on `laws`, `reals`, `ocl` and `sheet`.
#![tactic(auto)]
