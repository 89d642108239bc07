// Secrecy holds a statement (specs/) and its proof (proofs/), and no code.

#![tactic(auto)]
