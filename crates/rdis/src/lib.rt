// What a grid block means (specs/) and the theorems about it (proofs/). No code.
#![tactic(auto)]
