// The lent rooms: which is too short, and what is written into them from the front.
ghost use Rattle.std.specs.Prelude.{◌≤◌, ◌*◌, ◌≡◌, [], ◌∷◌, ◌++◌, ltb, length, get_or, drop};
ghost use Rattle.laws.specs.Trials.{trial, verdict};
ghost use Rattle.night.specs.Promised.{Promised};
ghost use Rattle.night.specs.Refusals.{said};
ghost use Rattle.layout.specs.Held.{night_held};
ghost use Rattle.model.specs.Plan.{in_turn};
ghost use Rattle.verdicts.specs.Refusals.{choice_room_trials, plan_room_trials, keys_room_trials};
ghost use Rattle.eligible.specs.Answers.{BuiltFor};
ghost use Rattle.planning.specs.Answers.{WrittenFor};

use eligible::Built;
use keying::keys::Plan;
use keying::{built, keys};
use layout::PlanFile;
use night::refusals::{Reason, Refusal};

// A room that is too short for what is written into it is refused.
fn fits(room: usize, needed: usize, place: u32) -> Result<(), Refusal>
    ensures { said result ≡ verdict (trial (ltb room needed) 15 place ∷ []) tt }
{
    if room < needed {
        return Err(Refusal {
            reason: Reason::ShortRoom,
            place,
        });
    }
    Ok(())
}

// Whether plan and keys fit, asked in this order.
pub(crate) fn plan_fits(file: &PlanFile<'_>, plan: &[u64], keys: &[u64]) -> Result<(), Refusal>
    ensures { said result ≡ verdict (plan_room_trials (night_held file.now) plan.now ++ keys_room_trials (night_held file.now) keys.now) tt }
{
    fits(plan.len(), 2 * (file.header.nodes as usize), 2)?;
    fits(keys.len(), 2 * (file.header.attributes as usize), 3)
}

// The same where the room for the choice is asked first.
pub(crate) fn all_fit(
    file: &PlanFile<'_>,
    choice: &[u8],
    plan: &[u64],
    keys: &[u64],
) -> Result<(), Refusal>
    ensures { said result ≡ verdict (choice_room_trials (night_held file.now) choice.now
        ++ (plan_room_trials (night_held file.now) plan.now ++ keys_room_trials (night_held file.now) keys.now)) tt }
{
    fits(choice.len(), file.header.nodes as usize, 1)?;
    plan_fits(file, plan, keys)
}

// A room of pairs: the first n of one list and of another, in turn; what lies beyond stays.
fn fill_pairs(room: &mut [u64], first: [u64; 64], second: [u64; 64], n: u8)
    requires { (n ≤ 64) × (2 * n ≤ length room.old) }
    ensures { room.new ≡ in_turn (λ i. get_or first i 0) (λ i. get_or second i 0) n ++ drop (2 * n) room.old }
{
    for i in 0..n as usize {
        room[2 * i] = first[i];
        room[2 * i + 1] = second[i];
    }
}

// The plan's room, and the keys' room, for the choice with these subjects, from what the pass has for the plan.
pub(crate) fn fill_plan(
    file: &PlanFile<'_>,
    choice: &[u8],
    parts: Built,
    plan: &mut [u64],
    keys: &mut [u64],
)
    requires { Promised (night_held file.now) × BuiltFor (night_held file.now) parts
        × (2 * file.now.header.nodes ≤ length plan.old) × (2 * file.now.header.attributes ≤ length keys.old) }
    ensures { WrittenFor (night_held file.now) file.now.header choice.now
        plan.old plan.new
        keys.old keys.new }
{
    let opens = built::all_opens(file);
    let seals = parts.seals;
    let tied = parts.tied;
    let nodes = file.header.nodes;
    let names = keys::names(&tied, &seals, nodes);
    let delivery = built::delivery(file.header, parts.sealed);
    let done = Plan {
        choice,
        opens: &opens,
        seals: &seals,
        nodes,
    };
    let holders = keys::holders(&tied, &done, delivery);
    fill_pairs(plan, opens, seals, file.header.nodes);
    fill_pairs(keys, names, holders, file.header.attributes);
}
