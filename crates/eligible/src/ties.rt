// Tied sets, in lent room: for each attribute the whole tied set that it stands in. What a reference to an array is of is not known to be 64
// long, so each function that stores asks for it.
ghost use Rattle.std.specs.Prelude.{◌≡◌, length, get_or, if◌then◌else◌};
ghost use Rattle.laws.specs.Upwards.{each};
ghost use Rattle.sets.specs.Sets.{member};
ghost use Rattle.model.specs.Ties.{gathered, tie, merged};

use sets::attributes;

// The set with every tied set that it meets.
fn gather(tied: &[u64; 64], set: u64) -> u64
    ensures { result ≡ gathered tied.now set 64 }
{
    let mut all = set;
    for k in 0..64 {
        if attributes::has(set, k as u8) {
            all = attributes::union(all, tied[k]);
        }
    }
    all
}

// The set stands at each of its members; what stands elsewhere stays.
fn put(tied: &mut [u64; 64], all: u64)
    requires { length tied.old ≡ 64 }
    ensures { tied.new ≡ each 64 (λ k. if member all k then all else get_or tied.old k 0) }
{
    for k in 0..64 {
        if attributes::has(all, k as u8) {
            tied[k] = all;
        }
    }
}

// The set is tied; answered is the tied set that it stands in now.
pub(crate) fn tie(tied: &mut [u64; 64], set: u64) -> u64
    requires { length tied.old ≡ 64 }
    ensures { (result ≡ gathered tied.old set 64) × (tied.new ≡ tie tied.old set) }
{
    let all = gather(tied, set);
    put(tied, all);
    all
}

// Two operands' tied sets together.
pub(crate) fn merge(tied: &mut [u64; 64], other: &[u64; 64])
    requires { length tied.old ≡ 64 }
    ensures { tied.new ≡ merged tied.old other.now 64 }
{
    for &set in other {
        if set != 0 {
            tie(tied, set);
        }
    }
}
