// Nodes that break a rule.
ghost use Rattle.std.specs.Prelude.{◌≡◌};
ghost use Rattle.trials.specs.Rules.{child_bad, left_bad, right_bad, unused_bad, names_bad, shape_bad};
ghost use Rattle.trials.specs.Rules.{leaf_bad, x_bad, y_bad, set_bad, place_bad, step_bad, pair_bad, half};

use night::{AGGREGATE, FUNCTION, Header, JOIN, Node, Pair, SELECT_ATTRIBUTE, versions};
use sets::attributes;

// 8: whether c can be no child of node i.
#[tactic(auto, unfolding(trials::specs::Rules::child_bad, laws::specs::Choose::any_of))]
fn child_bad(i: usize, taken: bool, c: u8) -> bool
    ensures { result ≡ child_bad i taken c }
{
    i <= usize::from(c) || taken
}

// 8: whether the left field is wrong.
#[tactic(auto, unfolding(trials::specs::Rules::left_bad))]
fn left_bad(v: Node, i: usize, taken: bool) -> bool
    ensures { result ≡ left_bad v i taken }
{
    if kinds::uses_left(v.kind) {
        child_bad(i, taken, v.left)
    } else {
        v.left != 255
    }
}

// 8: whether the right field is wrong.
#[tactic(auto, unfolding(trials::specs::Rules::right_bad, laws::specs::Choose::any_of))]
fn right_bad(v: Node, i: usize, taken: bool) -> bool
    ensures { result ≡ right_bad v i taken }
{
    if kinds::uses_right(v.kind) {
        v.right == v.left || child_bad(i, taken, v.right)
    } else {
        v.right != 255
    }
}

// 8: whether an unused x, y or set is filled.
#[tactic(auto, unfolding(trials::specs::Rules::unused_bad, laws::specs::Choose::any_of))]
fn unused_bad(v: Node) -> bool
    ensures { result ≡ unused_bad v }
{
    (!kinds::uses_x(v.kind) && v.x != 255)
        || (!kinds::uses_y(v.kind) && v.y != 255)
        || (!kinds::uses_set(v.kind) && v.set != 0)
}

// 8: whether first and count name no pairs that kind 9 may have, or are filled in another kind.
#[tactic(auto, unfolding(trials::specs::Rules::names_bad, laws::specs::Choose::any_of))]
fn names_bad(h: Header, v: Node) -> bool
    ensures { result ≡ names_bad h v }
{
    if kinds::uses_pairs(v.kind) {
        !(1..=8).contains(&v.count)
            || usize::from(h.pairs) < usize::from(v.first) + usize::from(v.count)
    } else {
        v.first != 0 || v.count != 0
    }
}

// 8: whether node i breaks a rule by its kind, children, unused fields, the pairs that it names, spare bytes or size, where an earlier node
// has taken its left child or its right one.
#[tactic(auto, unfolding(trials::specs::Rules::shape_bad, laws::specs::Choose::any_of))]
pub fn shape_bad(h: Header, v: Node, i: usize, left_taken: bool, right_taken: bool) -> bool
    ensures { result ≡ shape_bad h v i left_taken right_taken }
{
    versions::last_kind(h.version) < v.kind
        || left_bad(v, i, left_taken)
        || right_bad(v, i, right_taken)
        || unused_bad(v)
        || names_bad(h, v)
        || v.spare1 != 0
        || v.spare2 != 0
        || v.spare3 != 0
        || 1_000_000 < v.size
}

// 9: whether a leaf breaks a rule, where its relation has the attributes `set`, and `taken` says that an earlier leaf has it.
#[tactic(auto, unfolding(trials::specs::Rules::leaf_bad, laws::specs::Choose::any_of))]
pub fn leaf_bad(v: Node, h: Header, taken: bool, set: u64) -> bool
    ensures { result ≡ leaf_bad v h taken set }
{
    h.relations <= v.x || taken || v.set == 0 || !attributes::within(v.set, set)
}

// 9: whether a used x is not visible.
#[tactic(auto, unfolding(trials::specs::Rules::x_bad))]
fn x_bad(v: Node, left: u64) -> bool
    ensures { result ≡ x_bad v left }
{
    kinds::uses_x(v.kind) && !attributes::has(left, v.x)
}

// 9: whether a used y is not visible on its side.
#[tactic(auto, unfolding(trials::specs::Rules::y_bad))]
fn y_bad(v: Node, left: u64, right: u64) -> bool
    ensures { result ≡ y_bad v left right }
{
    match v.kind {
        SELECT_ATTRIBUTE => !attributes::has(left, v.y),
        JOIN => !attributes::has(right, v.y),
        _ => false,
    }
}

// 9: whether a used set is not visible, or empty where it must not be.
#[tactic(auto, unfolding(trials::specs::Rules::set_bad, laws::specs::Choose::any_of))]
fn set_bad(v: Node, left: u64) -> bool
    ensures { result ≡ set_bad v left }
{
    kinds::uses_set(v.kind)
        && (!attributes::within(v.set, left) || (v.kind != AGGREGATE && v.set == 0))
}

// 9: whether x stands in the set where it must not, or outside where it must stand in it.
#[tactic(auto, unfolding(trials::specs::Rules::place_bad))]
fn place_bad(v: Node) -> bool
    ensures { result ≡ place_bad v }
{
    match v.kind {
        AGGREGATE => attributes::has(v.set, v.x),
        FUNCTION => !attributes::has(v.set, v.x),
        _ => false,
    }
}

// 9: whether a step breaks a rule by its attributes, where `left` and `right` are visible in its operands.
#[tactic(auto, unfolding(trials::specs::Rules::step_bad, laws::specs::Choose::any_of))]
pub fn step_bad(v: Node, left: u64, right: u64) -> bool
    ensures { result ≡ step_bad v left right }
{
    x_bad(v, left) || y_bad(v, left, right) || set_bad(v, left) || place_bad(v)
}

// 9: whether an attribute of a pair is not visible on its side.
#[tactic(auto, unfolding(trials::specs::Rules::pair_bad, laws::specs::Choose::any_of))]
pub fn pair_bad(q: Pair, left: u64, right: u64) -> bool
    ensures { result ≡ pair_bad q left right }
{
    !attributes::has(left, q.left) || !attributes::has(right, q.right)
}

// 10: whether some of what is read together is needed, and not all of it.
#[tactic(auto, unfolding(trials::specs::Rules::half))]
pub fn half(needed: u64, together: u64) -> bool
    ensures { result ≡ half needed together }
{
    !attributes::apart(needed, together) && !attributes::within(together, needed)
}
