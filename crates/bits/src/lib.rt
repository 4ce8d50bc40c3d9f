// Definitions (specs/) and laws (proofs/) of bits, words, digits and bytes. No code.
#![tactic(auto)]
