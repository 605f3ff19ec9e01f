// Where each value of a plan file stands, and how it is read out of the lent bytes.
#![tactic(auto)]

mod bytes;
pub mod file;
pub mod places;
mod short;
pub mod values;
mod whole;

pub use file::PlanFile;
