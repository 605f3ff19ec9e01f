// Sets of subjects: bit p of a u16 for subject p. A number from 16 on is in no set.
// Kept two functions: a trait for both words proves, but each impl repeats the bodies for its width, its contracts go by way of a ghost number,
// and no caller is generic in the word.
ghost use Rattle.std.specs.Prelude.{◌≡◌};
ghost use Rattle.sets.specs.Sets.{member, union, minus, single, size};

// Whether p is a member.
pub fn has(set: u16, p: u8) -> bool
    ensures { result ≡ member set p }
{
    p < 16 && (set >> p) % 2 == 1
}

// What is in a or in b.
pub fn union(a: u16, b: u16) -> u16
    ensures { result ≡ union a b }
{
    a | b
}

// What is in a and not in b.
pub fn minus(a: u16, b: u16) -> u16
    ensures { result ≡ minus a b }
{
    a & !b
}

// The set of p alone.
pub fn single(p: u8) -> u16
    ensures { result ≡ single 16 p }
{
    if p < 16 { 1 << p } else { 0 }
}

// How many members there are.
#[tactic(auto, unfolding(crate::specs::Sets::size))]
pub fn size(set: u16) -> u32
    ensures { result ≡ size set }
{
    set.count_ones()
}
