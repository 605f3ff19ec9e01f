// When a record of the file breaks a rule, judged on its values. Nothing here reads a byte.
#![tactic(auto)]

pub mod nodes;
pub mod records;
