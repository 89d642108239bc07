// Document 03's definitions (specs/) and their equality with the model (proofs/), and no code.

#![tactic(auto)]
