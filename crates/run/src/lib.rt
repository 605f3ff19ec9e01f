// No code: the run of a plan and its keys, as definitions over a night.
#![tactic(auto)]
