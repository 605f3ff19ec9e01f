// The kinds of node: what each uses, what it reads, what is visible after it.
#![tactic(auto)]

ghost use Rattle.std.specs.Prelude.{◌≡◌, length};
ghost use Rattle.night.specs.Night.{Night};
ghost use Rattle.night.specs.Kinds.{uses_left, uses_right, uses_x, uses_y, uses_set, uses_pairs, both_of, read_together, visible_after};
ghost use Rattle.kinds.specs.Plain.{plain_reads, reads_at_once};

use night::{
    AGGREGATE, COUNT, FUNCTION, JOIN, JOIN_ON_PAIRS, LEAF, Node, PRODUCT, PROJECT, Pair,
    SELECT_ATTRIBUTE, SELECT_VALUE,
};
use sets::attributes;

// Whether the kind has a left operand.
#[tactic(auto, unfolding(night::specs::Kinds::uses_left))]
pub fn uses_left(kind: u8) -> bool
    ensures { result ≡ uses_left kind }
{
    kind != LEAF
}

// Whether the kind has a right operand.
#[tactic(auto, unfolding(night::specs::Kinds::uses_right, laws::specs::Choose::any_of))]
pub fn uses_right(kind: u8) -> bool
    ensures { result ≡ uses_right kind }
{
    matches!(kind, PRODUCT | JOIN | JOIN_ON_PAIRS)
}

// Whether the kind uses x.
#[tactic(auto, unfolding(night::specs::Kinds::uses_x, laws::specs::Choose::any_of))]
pub fn uses_x(kind: u8) -> bool
    ensures { result ≡ uses_x kind }
{
    matches!(
        kind,
        LEAF | SELECT_VALUE | SELECT_ATTRIBUTE | JOIN | AGGREGATE | FUNCTION
    )
}

// Whether the kind uses y.
#[tactic(auto, unfolding(night::specs::Kinds::uses_y, laws::specs::Choose::any_of))]
pub fn uses_y(kind: u8) -> bool
    ensures { result ≡ uses_y kind }
{
    matches!(kind, SELECT_ATTRIBUTE | JOIN)
}

// Whether the kind uses its set.
#[tactic(auto, unfolding(night::specs::Kinds::uses_set, laws::specs::Choose::any_of))]
pub fn uses_set(kind: u8) -> bool
    ensures { result ≡ uses_set kind }
{
    matches!(kind, LEAF | PROJECT | AGGREGATE | COUNT | FUNCTION)
}

// Whether the kind uses pairs.
#[tactic(auto, unfolding(night::specs::Kinds::uses_pairs))]
pub fn uses_pairs(kind: u8) -> bool
    ensures { result ≡ uses_pairs kind }
{
    kind == JOIN_ON_PAIRS
}

// Both attributes of a pair.
#[tactic(auto, unfolding(night::specs::Kinds::both_of))]
pub fn both_of(q: Pair) -> u64
    ensures { result ≡ both_of q }
{
    attributes::union(attributes::single(q.left), attributes::single(q.right))
}

// How many sets the node reads together: one in kinds 3, 5 and 8, each of its pairs in kind 9.
#[tactic(auto, using(crate::proofs::TogetherLaws::together_pairs, crate::proofs::TogetherLaws::together_one, crate::proofs::TogetherLaws::together_none))]
pub fn together(v: Node) -> u8
    ensures { (N : Night) → result ≡ length (read_together N v) }
{
    if uses_pairs(v.kind) {
        v.count
    } else if at_once(v.kind) {
        1
    } else {
        0
    }
}

// What is visible after the node, where `left` and `right` are visible in its operands.
#[tactic(auto, unfolding(night::specs::Kinds::visible_after))]
pub fn visible_after(v: Node, left: u64, right: u64) -> u64
    ensures { result ≡ visible_after v left right }
{
    let x = attributes::single(v.x);
    match v.kind {
        LEAF | PROJECT | COUNT => v.set,
        SELECT_VALUE | SELECT_ATTRIBUTE => left,
        PRODUCT | JOIN | JOIN_ON_PAIRS => attributes::union(left, right),
        AGGREGATE => attributes::union(v.set, x),
        FUNCTION => attributes::union(attributes::minus(left, v.set), x),
        _ => 0,
    }
}

// What a node that names no pairs reads: by its fields, so that a caller need not hand on the whole node.
#[tactic(auto, unfolding(crate::specs::Plain::plain_reads))]
pub fn plain_reads(kind: u8, x: u8, y: u8, set: u64) -> u64
    ensures { result ≡ plain_reads kind x y set }
{
    let one = attributes::single(x);
    match kind {
        SELECT_VALUE => one,
        SELECT_ATTRIBUTE | JOIN => attributes::union(one, attributes::single(y)),
        AGGREGATE => attributes::union(set, one),
        COUNT | FUNCTION => set,
        _ => 0,
    }
}

// Whether a node that names no pairs reads all that together.
#[tactic(auto, unfolding(crate::specs::Plain::reads_at_once, laws::specs::Choose::any_of))]
pub fn at_once(kind: u8) -> bool
    ensures { result ≡ reads_at_once kind }
{
    matches!(kind, SELECT_ATTRIBUTE | JOIN | FUNCTION)
}
