// The cheapest choice of subjects, and what an offered choice costs.
#![tactic(auto)]

mod costs;
mod down;
mod offer;
mod rows;
mod steps;
mod subjects;
mod user;

ghost use Rattle.choosing.specs.Answers.{ChoiceSays, OfferSays};
ghost use Rattle.choosing.specs.Held.{OpenSays};

use down::Picked;
use eligible::{Built, PassOver};
use layout::PlanFile;
use night::refusals::{Reason, Refusal};
use subjects::Subjects;

// The cheapest choice: the subject of each node, 0 past the last node, its total and the steps; and what the plan is made of.
#[derive(Clone, Copy)]
pub struct Chosen {
    pub subjects: [u8; 64],
    pub total: u64,
    pub steps: u32,
    pub built: Built,
}

// The total of an offered choice, and what the plan is made of.
#[derive(Clone, Copy)]
pub struct Costed {
    pub total: u64,
    pub built: Built,
}

// What both choices begin with: 1 to 11 and 17; then who may be the subject of each node, and what the plan is made of.
fn open(file: &[u8]) -> Result<(Subjects<'_>, Built), Refusal>
    ensures { OpenSays file.now result }
{
    let PassOver {
        header,
        sets,
        clear,
        built,
    } = eligible::pass(file)?;
    let file = PlanFile {
        bytes: file,
        header,
    };
    user::allowed(&file, &clear)?;
    Ok((Subjects { file, sets }, built))
}

// The cheapest choice, for any bytes. Too few steps allowed is a refusal and carries no choice.
pub fn cheapest_choice(file: &[u8]) -> Result<Chosen, Refusal>
    ensures { ChoiceSays file.now result }
{
    let (who, built) = open(file)?;
    subjects::all_have(&who)?;
    let steps = steps::steps(&who);
    if who.file.header.steps < steps {
        return Err(Refusal {
            reason: Reason::TooFewSteps,
            place: 0,
        });
    }
    let Picked { subjects, total } = down::least(&who);
    Ok(Chosen {
        subjects,
        total,
        steps,
        built,
    })
}

// What an offered choice costs, for any bytes and any offer: a subject for each node.
pub fn offered_choice(file: &[u8], offer: &[u8]) -> Result<Costed, Refusal>
    ensures { OfferSays file.now offer.now result }
{
    let (who, built) = open(file)?;
    offer::all_may(&who, offer)?;
    Ok(Costed {
        total: offer::total(&who.file, offer),
        built,
    })
}
