// Formats holds proofs of the statements that the model makes of stored forms (proofs/), and no code.

#![tactic(auto)]
