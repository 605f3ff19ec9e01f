// An offered choice: whether it is one from the candidates, and what it costs.
ghost use Rattle.std.specs.Prelude.{◌≡◌, ◌<◌, ◌≤◌, length, get_or};
ghost use Rattle.laws.specs.Trials.{verdict};
ghost use Rattle.layout.specs.Held.{night_held};
ghost use Rattle.night.specs.Promised.{Promised};
ghost use Rattle.night.specs.Refusals.{said};
ghost use Rattle.model.specs.Choice.{Admissible, cost_at, total};
ghost use Rattle.verdicts.specs.Refusals.{offer_bad, offer_trials};
ghost use Rattle.choosing.specs.Held.{Ready, Offering, OfferingChild, handed_if};

use crate::costs;
use crate::subjects::Subjects;
use layout::PlanFile;
use night::refusals::{Reason, Refusal};
use sets::subjects;

// Whether the subject offered for node i is no candidate, or at a leaf not the owner.
#[tactic(auto, unfolding(verdicts::specs::Refusals::offer_bad))]
fn offer_bad(who: &Subjects<'_>, offer: &[u8], i: usize) -> bool
    requires { Ready who.now × (i < length offer.now) × (i < 64) }
    ensures { result ≡ offer_bad (night_held who.now.file) offer.now i }
{
    let p = offer[i];
    let v = who.file.node(i);
    if v.kind == night::LEAF {
        p != who.file.relation(v.x as usize).owner
    } else {
        !subjects::has(who.sets[i], p)
    }
}

// 14: the choice must have a subject for each node; then the lowest node whose subject may not have it is refused.
#[tactic(auto, using(crate::proofs::Answered::offer_loop), unfolding(format::specs::Layout::night_in))]
pub(crate) fn all_may(who: &Subjects<'_>, offer: &[u8]) -> Result<(), Refusal>
    requires { Ready who.now }
    ensures { said result ≡ verdict (offer_trials (night_held who.now.file) offer.now) tt }
{
    let n = who.file.header.nodes as usize;
    if offer.len() != n {
        return Err(Refusal {
            reason: Reason::BadOffer,
            place: n as u32,
        });
    }
    for i in 0..n {
        if offer_bad(who, offer, i) {
            return Err(Refusal {
                reason: Reason::BadOffer,
                place: i as u32,
            });
        }
    }
    Ok(())
}

// What it costs to hand child k to node i, where node i has this child.
fn handed_over(file: &PlanFile<'_>, offer: &[u8], i: usize, used: bool, k: u8) -> u64
    requires { OfferingChild (night_held file.now) file.now.header offer.now i used k }
    ensures { (result ≡ handed_if (night_held file.now) offer.now i used k) × (result ≤ 1000000000) }
{
    if used {
        let child = k as usize;
        costs::handed(file, file.node(child).size, offer[child], offer[i])
    } else {
        0
    }
}

// What node i costs.
fn cost_at(file: &PlanFile<'_>, offer: &[u8], i: usize) -> u64
    requires { Offering (night_held file.now) file.now.header offer.now i }
    ensures { (result ≡ cost_at (night_held file.now) (λ j. get_or offer.now j 0) i) × (result ≤ 2001000000) }
{
    let v = file.node(i);
    costs::paid(file, i, offer[i])
        + handed_over(file, offer, i, kinds::uses_left(v.kind), v.left)
        + handed_over(file, offer, i, kinds::uses_right(v.kind), v.right)
}

// The total of the offered choice.
#[tactic(auto, using(crate::proofs::Offers::sum_loop), unfolding(format::specs::Layout::night_in, model::specs::Choice::total))]
pub(crate) fn total(file: &PlanFile<'_>, offer: &[u8]) -> u64
    requires { Promised (night_held file.now) × Admissible (night_held file.now) (λ j. get_or offer.now j 0) × (length offer.now ≡ file.now.header.nodes) }
    ensures { result ≡ total (night_held file.now) (λ j. get_or offer.now j 0) }
{
    let mut all = 0;
    for i in 0..file.header.nodes as usize {
        all += cost_at(file, offer, i);
    }
    all
}
