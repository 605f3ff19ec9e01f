// What each version of the file has. A version keeps all earlier additions; nothing else compares version numbers.
ghost use Rattle.std.specs.Prelude.{◌≡◌, ◌*◌, ◌<◌, ◌≤◌};
ghost use Rattle.night.specs.Versions.{known, delivers, has_pairs, has_days, header_length, grant_length, node_length, last_kind};

use crate::{FUNCTION, JOIN_ON_PAIRS};

// Whether files of this version are read.
#[tactic(auto, unfolding(crate::specs::Versions::known, laws::specs::Choose::any_of))]
pub fn known(version: u16) -> bool
    ensures { result ≡ known version }
{
    (1..=4).contains(&version)
}

// Whether the header names a user, to whom the root's table is delivered.
#[tactic(auto, unfolding(crate::specs::Versions::delivers))]
pub fn delivers(version: u16) -> bool
    ensures { result ≡ delivers version }
{
    1 < version
}

// Whether there are pairs to join on.
#[tactic(auto, unfolding(crate::specs::Versions::has_pairs))]
pub fn has_pairs(version: u16) -> bool
    ensures { result ≡ has_pairs version }
{
    2 < version
}

// Whether grants have days, and the night one.
#[tactic(auto, unfolding(crate::specs::Versions::has_days))]
pub fn has_days(version: u16) -> bool
    ensures { result ≡ has_days version }
{
    3 < version
}

// The length of the header.
#[tactic(auto, unfolding(crate::specs::Versions::header_length))]
pub fn header_length(version: u16) -> usize
    ensures { (result ≡ header_length version) × (result ≤ 19) }
{
    if has_days(version) {
        19
    } else if has_pairs(version) {
        17
    } else if delivers(version) {
        16
    } else {
        15
    }
}

// The length of so many grants.
#[tactic(auto, unfolding(crate::specs::Versions::grant_length))]
pub fn grants_length(version: u16, n: u16) -> usize
    ensures { (result ≡ grant_length version * n) × (result < 1_500_000) }
{
    let each = if has_days(version) { 22 } else { 18 };
    each * usize::from(n)
}

// The length of so many nodes.
#[tactic(auto, unfolding(crate::specs::Versions::node_length))]
pub fn nodes_length(version: u16, n: u8) -> usize
    ensures { (result ≡ node_length version * n) × (result < 8000) }
{
    let each = if has_pairs(version) { 30 } else { 28 };
    each * usize::from(n)
}

// The last kind of node.
#[tactic(auto, unfolding(crate::specs::Versions::last_kind))]
pub fn last_kind(version: u16) -> u8
    ensures { result ≡ last_kind version }
{
    if has_pairs(version) {
        JOIN_ON_PAIRS
    } else {
        FUNCTION
    }
}

// The length of what every version has of a node: all but the pairs that it names.
pub const NODE_START: usize = 28;

// Lengths of the other records.
pub const RELATION_LENGTH: usize = 9;

// The length of what every version has of a grant: all but its days.
pub const GRANT_START: usize = 18;

pub const PAIR_LENGTH: usize = 2;
