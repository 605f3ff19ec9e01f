// The tables of a query's nodes, and who may have them. A table's tied sets stand in lent room, its other parts are handed on by value.
#![tactic(auto)]

pub mod may;
pub mod parts;

// What a table has but for its tied sets: attributes visible in clear and sealed, and those that past steps tested in clear and sealed.
#[derive(Clone, Copy, Default)]
pub struct Columns {
    pub clear: u64,
    pub sealed: u64,
    pub tested: u64,
    pub hidden: u64,
}
