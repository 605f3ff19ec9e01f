// No code: refusals 12 to 17, and the row of trials of each entry.
#![tactic(auto)]
