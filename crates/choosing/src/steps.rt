// Steps: over every child and its parent, the parent's candidates times the child's.
ghost use Rattle.std.specs.Prelude.{◌≡◌, true, ◌*◌, ◌<◌, ◌≤◌, if◌then◌else◌};
ghost use Rattle.layout.specs.Held.{night_held};
ghost use Rattle.model.specs.Choice.{weight, steps_at, steps};
ghost use Rattle.choosing.specs.Held.{Ready};

use crate::subjects::Subjects;
use sets::subjects;

// How many subjects may run node i: a leaf counts 1.
fn weight_of(who: &Subjects<'_>, i: usize) -> u32
    requires { Ready who.now × (i < 64) }
    ensures { (result ≡ weight (night_held who.now.file) i) × (result ≤ 16) }
{
    if who.file.node(i).kind == night::LEAF {
        1
    } else {
        subjects::size(who.sets[i])
    }
}

// The parent's candidates times the child's, where the parent has this child.
fn with_child(who: &Subjects<'_>, i: usize, used: bool, c: u8) -> u32
    requires { Ready who.now × (i < 64) × (used ≡ true → c < 64) }
    ensures { (result ≡ (if used then weight (night_held who.now.file) i * weight (night_held who.now.file) c else 0)) × (result ≤ 256) }
{
    if used {
        weight_of(who, i) * weight_of(who, c as usize)
    } else {
        0
    }
}

// The steps at node i: those of its children.
#[tactic(auto, using(crate::proofs::Sets::children_there), unfolding(model::specs::Choice::steps_at, format::specs::Layout::night_in))]
fn steps_at(who: &Subjects<'_>, i: usize) -> u32
    requires { Ready who.now × (i < who.now.file.header.nodes) }
    ensures { (result ≡ steps_at (night_held who.now.file) i) × (result ≤ 512) }
{
    let v = who.file.node(i);
    with_child(who, i, kinds::uses_left(v.kind), v.left)
        + with_child(who, i, kinds::uses_right(v.kind), v.right)
}

// The steps of the night.
#[tactic(auto, using(crate::proofs::Offers::sum_loop), unfolding(format::specs::Layout::night_in, model::specs::Choice::steps))]
pub(crate) fn steps(who: &Subjects<'_>) -> u32
    requires { Ready who.now }
    ensures { result ≡ steps (night_held who.now.file) }
{
    let mut all = 0;
    for i in 0..who.file.header.nodes as usize {
        all += steps_at(who, i);
    }
    all
}
