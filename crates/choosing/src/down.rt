// The subjects from the last node down: each child gets the lowest of its cheapest for its parent's subject, so that the list read from the
// last node to the first is the smallest.
ghost use Rattle.std.specs.Prelude.{◌≡◌};
ghost use Rattle.layout.specs.Held.{night_held};
ghost use Rattle.model.specs.Choice.{AllHave, steps};
ghost use Rattle.choosing.specs.Answers.{CheapestFor};
ghost use Rattle.choosing.specs.Held.{Ready, Given, Giving, GivingAt, GivingChild, given_child, GivesBoth, GivesDown};

use crate::rows::{self, Row};
use crate::subjects::Subjects;

// A choice with its total.
#[derive(Clone, Copy)]
pub(crate) struct Picked {
    pub subjects: [u8; 64],
    pub total: u64,
}

// Child k gets its subject from its parent i's, where node i has this child.
#[tactic(auto, unfolding(format::specs::Layout::night_in))]
fn give_child(who: &Subjects<'_>, rows: &[Row], chosen: &mut [u8; 64], i: usize, used: bool, k: u8)
    requires { GivingChild who.now rows.now i used k chosen.old }
    ensures { (chosen.new ≡ given_child (night_held who.now.file) i used k chosen.old) × Given (night_held who.now.file) chosen.new }
{
    if used {
        let best = rows::best_child(who, rows, k as usize, chosen[i]);
        chosen[k as usize] = best.lowest;
    }
}

// Both children of node i.
#[tactic(auto, using(crate::proofs::Sets::children_there), unfolding(model::specs::Dp::give_left, model::specs::Dp::give_both, format::specs::Layout::night_in))]
fn give_both(who: &Subjects<'_>, rows: &[Row], chosen: &mut [u8; 64], i: usize)
    requires { GivingAt who.now rows.now i chosen.old }
    ensures { GivesBoth (night_held who.now.file) i chosen.old chosen.new }
{
    let v = who.file.node(i);
    give_child(who, rows, chosen, i, kinds::uses_left(v.kind), v.left);
    give_child(who, rows, chosen, i, kinds::uses_right(v.kind), v.right);
}

// The children of all nodes, from the last node down.
#[tactic(auto, using(crate::proofs::Held::down_turn))]
fn give_down(who: &Subjects<'_>, rows: &[Row], chosen: &mut [u8; 64])
    requires { Giving who.now rows.now chosen.old }
    ensures { GivesDown (night_held who.now.file) who.now.file.header chosen.old chosen.new }
{
    for i in (0..who.file.header.nodes as usize).rev() {
        give_both(who, rows, chosen, i);
    }
}

// The cheapest choice: the subjects of every node from the rows of least costs, and its total.
#[tactic(auto, unfolding(format::specs::Layout::night_in))]
pub(crate) fn least(who: &Subjects<'_>) -> Picked
    requires { Ready who.now × AllHave (night_held who.now.file) }
    ensures { CheapestFor (night_held who.now.file) result.subjects result.total (steps (night_held who.now.file)) }
{
    let known = rows::cost_rows(who);
    let top = rows::best_last(who, &known);
    let mut subjects = [0; 64];
    subjects[who.file.header.nodes as usize - 1] = top.lowest;
    give_down(who, &known, &mut subjects);
    Picked {
        subjects,
        total: top.least,
    }
}
