// No code: the statements over bytes, and their proofs.
#![tactic(auto)]
