// The entries of the planner. Each takes any bytes, asks nothing of its caller, and answers or refuses with a reason and a place.
#![tactic(auto)]

mod rooms;

ghost use Rattle.std.specs.Prelude.{◌≡◌, []};
ghost use Rattle.night.specs.Refusals.{said};
ghost use Rattle.planning.specs.Answers.{candidates_of, why_of, CheapestSays, OfferedSays};

use layout::{PlanFile, values};
use model::Out;
use night::refusals::Refusal;

// The candidates of a node, as a set of subjects: none for a leaf and for a number that no node has.
#[tactic(auto, unfolding(crate::specs::Answers::candidates_of))]
pub fn candidates(file: &[u8], node: usize) -> Result<u16, Refusal>
    ensures { said result ≡ candidates_of file.now node }
{
    Ok(eligible::candidate_set(file, node)?.set)
}

// Why a subject is out of a step: the table (1 the left operand's least view, 2 the right one's, 3 the result), the condition, and the lowest
// attribute or the whole tied set that offends; nothing where it is a candidate.
#[tactic(auto, unfolding(crate::specs::Answers::why_of))]
pub fn why(file: &[u8], node: u32, subject: u32) -> Result<Option<Out>, Refusal>
    ensures { said result ≡ why_of file.now node subject }
{
    Ok(eligible::standing(file, node, subject)?.out)
}

// The cheapest plan's total and the steps.
#[derive(Clone, Copy, Debug, PartialEq, Eq)]
pub struct CheapestPlan {
    pub total: u64,
    pub steps: u32,
}

// The cheapest choice and its plan, written into the rooms lent for the choice, the plan and the keys; a refusal writes nothing.
pub fn cheapest(
    file: &[u8],
    choice: &mut [u8],
    plan: &mut [u64],
    keys: &mut [u64],
) -> Result<CheapestPlan, Refusal>
    ensures { CheapestSays file.now
        (record { choice = choice.entry.now; plan = plan.old; keys = keys.old })
        (record { choice = choice.exit.now; plan = plan.new; keys = keys.new }) result }
{
    let chosen = choosing::cheapest_choice(file)?;
    let file = PlanFile {
        bytes: file,
        header: values::header(file),
    };
    rooms::all_fit(&file, choice, plan, keys)?;
    let nodes = file.header.nodes as usize;
    choice[..nodes].copy_from_slice(&chosen.subjects[..nodes]);
    rooms::fill_plan(&file, &chosen.subjects, chosen.built, plan, keys);
    Ok(CheapestPlan {
        total: chosen.total,
        steps: chosen.steps,
    })
}

// The plan for an offered choice, written into the rooms lent for the plan and the keys; says its total. A refusal writes nothing.
pub fn offered(
    file: &[u8],
    offer: &[u8],
    plan: &mut [u64],
    keys: &mut [u64],
) -> Result<u64, Refusal>
    ensures { OfferedSays file.now offer.now
        (record { choice = []; plan = plan.old; keys = keys.old })
        (record { choice = []; plan = plan.new; keys = keys.new }) result }
{
    let costed = choosing::offered_choice(file, offer)?;
    let file = PlanFile {
        bytes: file,
        header: values::header(file),
    };
    rooms::plan_fits(&file, plan, keys)?;
    rooms::fill_plan(&file, offer, costed.built, plan, keys);
    Ok(costed.total)
}
