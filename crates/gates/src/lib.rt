// Gates holds statements (specs/) and their proofs (proofs/), and no code.

#![tactic(auto)]
