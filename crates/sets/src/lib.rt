// Sets by masks and shifts: attributes in a u64, subjects in a u16.
#![tactic(auto, using(crate::proofs::Words::laws), unfolding(crate::specs::Sets::union, crate::specs::Sets::meet, crate::specs::Sets::within, crate::specs::Sets::apart))]

pub mod attributes;
pub mod subjects;
