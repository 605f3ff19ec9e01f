// Refusals 8 to 10: nodes.
ghost use Rattle.std.specs.Prelude.{◌<◌, ◌≤◌, ◌-◌, ◌^◌, ◌≡◌, get_or};
ghost use Rattle.laws.specs.Trials.{verdict};
ghost use Rattle.layout.specs.Held.{night_held};
ghost use Rattle.night.specs.Kinds.{is_child, taken};
ghost use Rattle.night.specs.Refusals.{said};
ghost use Rattle.reading.specs.HasVisible.{HasVisible};
ghost use Rattle.trials.specs.Trials.{is_leaf_of, leaf_before, attributes_bad, trials_of};
ghost use Rattle.trials.specs.declared.Section.TheVariants.{Nodes, Parents};

use crate::records::tried;
use layout::PlanFile;
use night::Node;
use night::refusals::{Reason, Refusal};
use rules::nodes;

// The set at k, or none past the end.
fn entry(visible: &[u64], k: u8) -> u64
    ensures { result ≡ get_or visible.now k 0 }
{
    visible.get(k as usize).copied().unwrap_or(0)
}

// What is visible after each node, worked out upwards.
pub(crate) fn visible_sets(file: &PlanFile<'_>) -> [u64; 64]
    requires { file.now.header.nodes ≤ 64 }
    ensures { HasVisible (night_held file.now) result }
{
    let mut visible = [0; 64];
    for i in 0..file.header.nodes as usize {
        let v = file.node(i);
        let left = entry(&visible, v.left);
        let right = entry(&visible, v.right);
        visible[i] = kinds::visible_after(v, left, right);
    }
    visible
}

// Whether node number c is an operand of the node.
#[tactic(auto, using(laws::proofs::Cases::cases), unfolding(night::specs::Kinds::is_child, laws::specs::Choose::any_of))]
fn is_child(v: Node, c: usize) -> bool
    ensures { result ≡ is_child v c }
{
    (kinds::uses_left(v.kind) && v.left as usize == c)
        || (kinds::uses_right(v.kind) && v.right as usize == c)
}

// Whether the node is a leaf of relation r.
#[tactic(auto, using(laws::proofs::Cases::cases), unfolding(trials::specs::Trials::is_leaf_of))]
fn is_leaf_of(v: Node, r: u8) -> bool
    ensures { result ≡ is_leaf_of v r }
{
    v.kind == night::LEAF && v.x == r
}

// Whether node number c is an operand of a node before i.
fn child_taken(file: &PlanFile<'_>, i: usize, c: usize) -> bool
    ensures { result ≡ taken (night_held file.now) i c }
{
    (0..i).any(|j| is_child(file.node(j), c))
}

// Whether an earlier leaf has taken relation r. (Of the form of `child_taken`: one line each, for two definitions.)
fn leaf_before(file: &PlanFile<'_>, i: usize, r: u8) -> bool
    ensures { result ≡ leaf_before (night_held file.now) i r }
{
    (0..i).any(|j| is_leaf_of(file.node(j), r))
}

// 9: whether attributes or relation of node i break the kinds' rules.
#[tactic(auto, using(laws::proofs::Cases::cases), unfolding(trials::specs::Trials::attributes_bad, format::specs::Layout::night_in, laws::specs::Choose::any_of))]
fn attributes_bad(file: &PlanFile<'_>, visible: &[u64], i: usize) -> bool
    requires { HasVisible (night_held file.now) visible.now }
    ensures { result ≡ attributes_bad (night_held file.now) i }
{
    let v = file.node(i);
    if v.kind == night::LEAF {
        let relation = file.relation(v.x as usize);
        return nodes::leaf_bad(v, file.header, leaf_before(file, i, v.x), relation.set);
    }
    let left = entry(visible, v.left);
    let right = entry(visible, v.right);
    nodes::step_bad(v, left, right) || pairs::pairs_bad(file, v, left, right)
}

// 8, 9 and 10: node i.
pub(crate) fn node_tried(file: &PlanFile<'_>, visible: &[u64], i: usize) -> Result<(), Refusal>
    requires { (i < 2 ^ 32) × HasVisible (night_held file.now) visible.now }
    ensures { said result ≡ verdict (trials_of (night_held file.now) Nodes i) tt }
{
    let v = file.node(i);
    let left = child_taken(file, i, v.left as usize);
    let right = child_taken(file, i, v.right as usize);
    let shape = nodes::shape_bad(file.header, v, i, left, right);
    tried(shape, Reason::BadShape, i)?;
    tried(attributes_bad(file, visible, i), Reason::BadAttributes, i)?;
    tried(pairs::needed_bad(file, v), Reason::BadNeeded, i)
}

// How many nodes are asked for their parent: all but the last.
pub(crate) fn parents_asked(nodes: u8) -> usize
    ensures { result ≡ nodes - 1 }
{
    (nodes as usize).saturating_sub(1)
}

// 8: node i, which is not the last, has a parent.
#[tactic(auto, unfolding(trials::specs::Trials::trials_of, format::specs::Layout::night_in))]
pub(crate) fn parent_tried(file: &PlanFile<'_>, i: usize) -> Result<(), Refusal>
    requires { i < 2 ^ 32 }
    ensures { said result ≡ verdict (trials_of (night_held file.now) Parents i) tt }
{
    let taken = child_taken(file, file.header.nodes as usize, i);
    tried(!taken, Reason::BadShape, i)
}
