// Sets of attributes: bit k of a u64 for attribute k. A number from 64 on is in no set.
ghost use Rattle.std.specs.Prelude.{◌≡◌};
ghost use Rattle.sets.specs.Sets.{member, union, meet, minus, within, apart, below, single, lowest};

// Whether k is a member.
pub fn has(set: u64, k: u8) -> bool
    ensures { result ≡ member set k }
{
    k < 64 && (set >> k) % 2 == 1
}

// What is in a or in b.
pub fn union(a: u64, b: u64) -> u64
    ensures { result ≡ union a b }
{
    a | b
}

// What is in a and in b.
pub fn meet(a: u64, b: u64) -> u64
    ensures { result ≡ meet a b }
{
    a & b
}

// What is in a and not in b.
pub fn minus(a: u64, b: u64) -> u64
    ensures { result ≡ minus a b }
{
    a & !b
}

// Whether every member of a is one of b.
pub fn within(a: u64, b: u64) -> bool
    ensures { result ≡ within a b }
{
    a & b == a
}

// Whether a and b have no common member.
pub fn apart(a: u64, b: u64) -> bool
    ensures { result ≡ apart a b }
{
    a & b == 0
}

// The attributes 0 to k - 1: all 64 where k is 64 or more.
pub fn below(k: u8) -> u64
    ensures { result ≡ below 64 k }
{
    if k < 64 { (1 << k) - 1 } else { u64::MAX }
}

// The set of k alone.
pub fn single(k: u8) -> u64
    ensures { result ≡ single 64 k }
{
    if k < 64 { 1 << k } else { 0 }
}

// The lowest member, or 64 where there is none.
#[tactic(auto, unfolding(crate::specs::Sets::lowest))]
pub fn lowest(set: u64) -> u32
    ensures { result ≡ lowest 64 set }
{
    set.trailing_zeros()
}
