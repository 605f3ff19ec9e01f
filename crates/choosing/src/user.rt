// What both choices begin with after reading's trials: 17, the leaves that the user may not have.
ghost use Rattle.std.specs.Prelude.{◌≡◌};
ghost use Rattle.laws.specs.Trials.{verdict};
ghost use Rattle.laws.specs.Upwards.{each};
ghost use Rattle.layout.specs.Held.{night_held};
ghost use Rattle.night.specs.Promised.{Promised};
ghost use Rattle.night.specs.Refusals.{said};
ghost use Rattle.night.specs.Views.{clear_of};
ghost use Rattle.verdicts.specs.Refusals.{user_trials};
ghost use Rattle.choosing.specs.Kept.{kept_back};

use layout::PlanFile;
use night::refusals::{Reason, Refusal};
use night::{Node, versions};
use sets::attributes;

// Whether a node is a leaf that holds more than `clear`. A leaf's table has no other part, so condition 1 alone can fail.
#[tactic(auto, unfolding(crate::specs::Kept::kept_back))]
fn kept_back(v: Node, clear: u64) -> bool
    ensures { result ≡ kept_back v clear }
{
    v.kind == night::LEAF && !attributes::within(v.set, clear)
}

// 17: in a version with a user, that user must see in clear all that the leaves hold. `clear` has what each subject sees.
#[tactic(auto, using(crate::proofs::Users::user_loop), unfolding(format::specs::Layout::night_in))]
pub(crate) fn allowed(file: &PlanFile<'_>, clear: &[u64; 16]) -> Result<(), Refusal>
    requires { Promised (night_held file.now) × (clear.now ≡ each 16 (clear_of (night_held file.now))) }
    ensures { said result ≡ verdict (user_trials (night_held file.now)) tt }
{
    let h = file.header;
    if !versions::delivers(h.version) {
        return Ok(());
    }
    let seen = clear[h.user as usize];
    for i in 0..h.nodes as usize {
        if kept_back(file.node(i), seen) {
            return Err(Refusal {
                reason: Reason::KeptFromUser,
                place: i as u32,
            });
        }
    }
    Ok(())
}
