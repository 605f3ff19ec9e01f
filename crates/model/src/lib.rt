// What the definitions of planning are over, and what its code works out. No functions.
#![tactic(auto)]

// Attributes visible in clear and sealed, those that past steps tested in clear and sealed, and for each attribute the tied set that it
// stands in, empty where it is not tied.
#[derive(Clone, Copy)]
pub struct Table {
    pub clear: u64,
    pub sealed: u64,
    pub tested: u64,
    pub hidden: u64,
    pub tied: [u64; 64],
}

// The cheapest subject so far: its cost, and the lowest subject of that cost. None where there is none yet.
#[derive(Clone, Copy, Debug, PartialEq, Eq)]
pub struct Best {
    pub least: u64,
    pub lowest: u8,
}

// The tables that are looked at for a step's subject, in this order: the left operand's least view, the right one's, the result. Tables and
// conditions are numbers, as the theorem `OutExactly` and the answer of `tollburrow_why` have them.
pub const LEFT: u8 = 1;

pub const RIGHT: u8 = 2;

pub const RESULT: u8 = 3;

// A subject is out of a step by the first condition that fails: the number of the table, the condition, and the set that offends. None where
// the subject is a candidate.
#[derive(Clone, Copy, Debug, PartialEq, Eq)]
pub struct Out {
    pub table: u8,
    pub condition: u8,
    pub set: u64,
}
