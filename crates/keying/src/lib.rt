// What the built plan opens and seals, and the keys of any plan.
#![tactic(auto)]

pub mod built;
pub mod keys;
