// The values of a plan file as read, every field: what the definitions of a night are over, and what
// reading hands out; and what each version of the file has.
#![tactic(auto)]

pub mod refusals;
pub mod versions;

// The header's values. In a version without a user, `user` is 0 and nothing looks at it; so with `pairs` in a version without pairs. In a version
// without days, `day` is 0, and every grant is in force on it.
#[repr(C)]
#[derive(Clone, Copy, Debug, Default, PartialEq, Eq)]
pub struct Header {
    pub version: u16,
    pub subjects: u8,
    pub relations: u8,
    pub attributes: u8,
    pub nodes: u8,
    pub grants: u16,
    pub steps: u32,
    pub user: u8,
    pub pairs: u8,
    pub day: u16,
}

// A relation: its owner and its attributes.
#[repr(C)]
#[derive(Clone, Copy, Debug, Default, PartialEq, Eq)]
pub struct Relation {
    pub owner: u8,
    pub set: u64,
}

// A grant on a relation to a subject, or to any (255), in force from its first to its last day, both included: the attributes in clear, and those
// sealed. In a version without days these are 0 and 65535.
#[repr(C)]
#[derive(Clone, Copy, Debug, Default, PartialEq, Eq)]
pub struct Grant {
    pub relation: u8,
    pub subject: u8,
    pub first: u16,
    pub last: u16,
    pub clear: u64,
    pub sealed: u64,
}

// A node of the query, with its three spare bytes, and which pairs it names: the first one's number, and how many. In a version without pairs both are 0.
#[repr(C)]
#[derive(Clone, Copy, Debug, Default, PartialEq, Eq)]
pub struct Node {
    pub kind: u8,
    pub left: u8,
    pub right: u8,
    pub x: u8,
    pub y: u8,
    pub spare1: u8,
    pub spare2: u8,
    pub spare3: u8,
    pub set: u64,
    pub needed: u64,
    pub size: u32,
    pub first: u8,
    pub count: u8,
}

// A pair of attributes that a join compares: the left operand's, and the right one's.
#[repr(C)]
#[derive(Clone, Copy, Debug, Default, PartialEq, Eq)]
pub struct Pair {
    pub left: u8,
    pub right: u8,
}

// What a subject sees: attributes in clear, and attributes sealed.
#[derive(Clone, Copy, Debug, Default, PartialEq, Eq)]
pub struct View {
    pub clear: u64,
    pub sealed: u64,
}

// The kinds of node. Numbers and no enum: C hands in nodes with any byte as kind, and the definitions say of each byte what it has.
pub const LEAF: u8 = 0;

pub const PROJECT: u8 = 1;

pub const SELECT_VALUE: u8 = 2;

pub const SELECT_ATTRIBUTE: u8 = 3;

pub const PRODUCT: u8 = 4;

pub const JOIN: u8 = 5;

pub const AGGREGATE: u8 = 6;

pub const COUNT: u8 = 7;

pub const FUNCTION: u8 = 8;

pub const JOIN_ON_PAIRS: u8 = 9;

// The most grants that a file may have.
pub const MOST_GRANTS: u16 = 272;
