// Who may be the subject of each node, and the steps that nobody may run.
ghost use Rattle.std.specs.Prelude.{◌≡◌};
ghost use Rattle.laws.specs.Trials.{verdict};
ghost use Rattle.layout.specs.Held.{night_held};
ghost use Rattle.night.specs.Refusals.{said};
ghost use Rattle.verdicts.specs.Refusals.{candidate_trials};
ghost use Rattle.choosing.specs.Held.{Ready};

use layout::PlanFile;
use night::refusals::{Reason, Refusal};

// A plan file with who may be the subject of each of its nodes.
#[derive(Clone, Copy)]
pub(crate) struct Subjects<'f> {
    pub file: PlanFile<'f>,
    pub sets: [u16; 64],
}

// 12: the lowest step without candidate is refused.
#[tactic(auto, using(crate::proofs::Answered::candidates_loop), unfolding(format::specs::Layout::night_in))]
pub(crate) fn all_have(who: &Subjects<'_>) -> Result<(), Refusal>
    requires { Ready who.now }
    ensures { said result ≡ verdict (candidate_trials (night_held who.now.file)) tt }
{
    for i in 0..who.file.header.nodes as usize {
        if who.file.node(i).kind != night::LEAF && who.sets[i] == 0 {
            return Err(Refusal {
                reason: Reason::NoCandidate,
                place: i as u32,
            });
        }
    }
    Ok(())
}
