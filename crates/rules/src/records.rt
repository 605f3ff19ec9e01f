// Counts, relations, grants and prices that break a rule.
ghost use Rattle.std.specs.Prelude.{◌≡◌};
ghost use Rattle.trials.specs.Rules.{counts_bad, relation_bad, left_over, grant_bad, owner_bad, most_for_step, most_for_link};

use night::{Grant, Header, LEAF, MOST_GRANTS, Relation, versions};
use sets::attributes;

// 4: whether a count is outside its limits, or the user, in a version that has one, is no subject.
#[tactic(auto, unfolding(trials::specs::Rules::counts_bad, trials::specs::Rules::user_bad, laws::specs::Choose::any_of))]
pub fn counts_bad(h: Header) -> bool
    ensures { result ≡ counts_bad h }
{
    !(1..=16).contains(&h.subjects)
        || !(1..=16).contains(&h.relations)
        || !(1..=64).contains(&h.attributes)
        || !(1..=64).contains(&h.nodes)
        || MOST_GRANTS < h.grants
        || (versions::delivers(h.version) && h.subjects <= h.user)
}

// 5: whether a relation breaks a rule, where the relations before it have taken `taken`.
#[tactic(auto, unfolding(trials::specs::Rules::relation_bad, laws::specs::Choose::any_of))]
pub fn relation_bad(h: Header, taken: u64, v: Relation) -> bool
    ensures { result ≡ relation_bad h taken v }
{
    h.subjects <= v.owner
        || v.set == 0
        || !attributes::within(v.set, attributes::below(h.attributes))
        || !attributes::apart(v.set, taken)
}

// 5: whether attributes are left over, where all relations together have taken `taken`.
#[tactic(auto, unfolding(trials::specs::Rules::left_over))]
pub fn left_over(h: Header, taken: u64) -> bool
    ensures { result ≡ left_over h taken }
{
    taken != attributes::below(h.attributes)
}

// 6: whether a grant breaks a rule by itself, where its relation has the attributes `set`. Subject 255 stands for any.
#[tactic(auto, unfolding(trials::specs::Rules::grant_bad, trials::specs::Rules::subject_there, laws::specs::Choose::any_of))]
pub fn grant_bad(h: Header, set: u64, v: Grant) -> bool
    ensures { result ≡ grant_bad h set v }
{
    h.relations <= v.relation
        || v.last < v.first
        || (h.subjects <= v.subject && v.subject != 255)
        || !attributes::apart(v.clear, v.sealed)
        || !attributes::within(v.clear, set)
        || !attributes::within(v.sealed, set)
}

// 7: whether an owner that sees `clear` in clear sees less than its whole relation so.
#[tactic(auto, unfolding(trials::specs::Rules::owner_bad))]
pub fn owner_bad(v: Relation, clear: u64) -> bool
    ensures { result ≡ owner_bad v clear }
{
    !attributes::within(v.set, clear)
}

// 11: the most that a step price may be.
#[tactic(auto, unfolding(trials::specs::Rules::most_for_step))]
pub fn most_for_step(kind: u8) -> u32
    ensures { result ≡ most_for_step kind }
{
    if kind == LEAF { 0 } else { 1_000_000 }
}

// 11: the most that a link price may be.
#[tactic(auto, unfolding(trials::specs::Rules::most_for_link))]
pub fn most_for_link(p: usize, q: usize) -> u32
    ensures { result ≡ most_for_link p q }
{
    if p == q { 0 } else { 1000 }
}
