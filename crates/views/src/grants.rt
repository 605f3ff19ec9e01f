// The grants of a plan file decoded, lent as a slice, and searched for a pair of relation and subject.
ghost use Rattle.std.specs.Prelude.{◌≡◌, ℕ, ◌+◌, ◌<◌, ◌≤◌, ◌^◌, get_or};
ghost use Rattle.std.specs.List.{position};
ghost use Rattle.laws.specs.First.{first};
ghost use Rattle.layout.specs.Held.{night_held};
ghost use Rattle.night.specs.Night.{grant_of, no_grant};
ghost use Rattle.night.specs.Views.{is_for};
ghost use Rattle.views.specs.Stretch.{at_once};

use layout::PlanFile;
use night::Grant;

// How many grants are decoded at once: few, since each search clears and copies room for as many, however soon it ends.
pub(crate) const AT_ONCE: usize = 8;

// Whether the grant is on relation r, to subject p.
#[tactic(auto, using(laws::proofs::Cases::cases), unfolding(night::specs::Views::is_for))]
fn is_for(g: Grant, r: u8, p: u8) -> bool
    ensures { result ≡ is_for g r p }
{
    g.relation == r && g.subject == p
}

// The place of the first grant for the pair.
fn find(grants: &[Grant], relation: u8, subject: u8) -> Option<usize>
    ensures { result ≡ position (λ g. is_for g relation subject) grants.now }
{
    grants.iter().position(|g| is_for(*g, relation, subject))
}

// The n grants from number `from` on: a lent slice of decoded structs is a form that document 01 names, in fixed memory, with how many count beside.
fn decoded(file: &PlanFile<'_>, from: usize, n: usize) -> [Grant; AT_ONCE]
    requires { (n ≤ at_once) × (from + n < 2 ^ 64) }
    ensures { (k : ℕ) → k < n → get_or result k no_grant ≡ grant_of (night_held file.now) (from + k) }
{
    let mut out = [Grant::default(); AT_ONCE];
    for i in 0..n {
        out[i] = file.grant(from + i);
    }
    out
}

// How far past `from` the first of those n grants for the pair is, or n where there is none.
pub(crate) fn find_from(
    file: &PlanFile<'_>,
    from: usize,
    n: usize,
    relation: u8,
    subject: u8,
) -> usize
    requires { (n ≤ at_once) × (from + n < 2 ^ 64) }
    ensures { result ≡ first (λ k. is_for (grant_of (night_held file.now) (from + k)) relation subject) n }
{
    let grants = decoded(file, from, n);
    find(&grants[..n], relation, subject).unwrap_or(n)
}
