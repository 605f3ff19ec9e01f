// What a node reads, where the pairs that it names stand in a plan file, and the rules on them.
#![tactic(auto)]

ghost use Rattle.std.specs.Prelude.{◌≡◌, map, get_or};
ghost use Rattle.laws.specs.Choose.{any_of};
ghost use Rattle.layout.specs.Held.{night_held};
ghost use Rattle.night.specs.Kinds.{its_pair, pairs_read, reads, read_together};
ghost use Rattle.trials.specs.Rules.{pairs_bad, half, needed_bad};

use layout::PlanFile;
use night::{Node, Pair};
use rules::nodes;
use sets::attributes;

// Of the pairs that the node names, number k.
#[tactic(auto, unfolding(night::specs::Kinds::its_pair))]
fn its_pair(file: &PlanFile<'_>, v: Node, k: u8) -> Pair
    ensures { result ≡ its_pair (night_held file.now) v k }
{
    file.pair(v.first as usize + k as usize)
}

// All attributes of its pairs.
fn pairs_read(file: &PlanFile<'_>, v: Node) -> u64
    ensures { result ≡ pairs_read (night_held file.now) v }
{
    let mut all = 0;
    for k in 0..v.count {
        let pair = its_pair(file, v, k);
        all = attributes::union(all, kinds::both_of(pair));
    }
    all
}

// What the node reads.
fn reads(file: &PlanFile<'_>, v: Node) -> u64
    ensures { result ≡ reads (night_held file.now) v }
{
    if v.kind == night::JOIN_ON_PAIRS {
        pairs_read(file, v)
    } else {
        kinds::plain_reads(v.kind, v.x, v.y, v.set)
    }
}

// Of the sets that the node reads together, number k; none past the last.
pub fn together(file: &PlanFile<'_>, v: Node, k: u8) -> u64
    ensures { result ≡ get_or (read_together (night_held file.now) v) k 0 }
{
    if kinds::together(v) <= k {
        return 0;
    }
    if kinds::uses_pairs(v.kind) {
        kinds::both_of(its_pair(file, v, k))
    } else {
        reads(file, v)
    }
}

// 9: whether one of the pairs that a node of kind 9 names is bad, where `left` and `right` are visible in its operands.
pub fn pairs_bad(file: &PlanFile<'_>, v: Node, left: u64, right: u64) -> bool
    ensures { result ≡ pairs_bad (night_held file.now) v left right }
{
    kinds::uses_pairs(v.kind)
        && (0..v.count).any(|k| nodes::pair_bad(its_pair(file, v, k), left, right))
}

// 10: whether half of what is read together is needed.
fn half_needed(file: &PlanFile<'_>, v: Node) -> bool
    ensures { result ≡ any_of (map (half v.needed) (read_together (night_held file.now) v)) }
{
    (0..kinds::together(v)).any(|k| nodes::half(v.needed, together(file, v, k)))
}

// 10: whether the needed set breaks a rule.
#[tactic(auto, using(laws::proofs::Cases::cases), unfolding(trials::specs::Rules::needed_bad))]
pub fn needed_bad(file: &PlanFile<'_>, v: Node) -> bool
    ensures { result ≡ needed_bad (night_held file.now) v }
{
    !attributes::within(v.needed, reads(file, v)) || half_needed(file, v)
}
