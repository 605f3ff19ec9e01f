// No code: what the proofs of every layer share.
#![tactic(auto)]
