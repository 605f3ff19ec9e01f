// No code: where each value stands in the bytes of a file, the bytes of each record, and the laws of both.
#![tactic(auto)]
