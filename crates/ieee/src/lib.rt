// IEEE 754 beyond lib.Ieee, over the format: the library functions of docs/REQUIREMENTS.md R2 as definitions, and the
// laws that the code's proofs cite, in specs/. No code.

#![tactic(auto)]
