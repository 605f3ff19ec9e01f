// The planner for programs in C and Rust: every function says 0, or the refusal as its number times 2^32 and its place. A refusal writes nothing anywhere.
#![tactic(auto)]

ghost use Rattle.std.specs.Prelude.{◌≡◌, []};
ghost use Rattle.night.specs.Refusals.{number_of};
ghost use Rattle.trials.specs.Trials.{check_of};
ghost use Rattle.planning.specs.Answers.{candidates_of, why_of};
ghost use Rattle.verdicts.specs.Refusals.{Rooms};
ghost use Rattle.tollburrow.specs.Codes.{refusal_code, code_of, GrantsOut, CandidatesOut, StandingOut, CheapestOut, OfferedOut, WriteOut};

use encoding::values::Values;
use layout::places;
use night::refusals::Refusal;
use night::{Grant, Header, Node, Relation};

// A refusal as one number.
fn code(refusal: Refusal) -> u64
    ensures { result ≡ refusal_code (number_of refusal.reason) refusal.place }
{
    u64::from(refusal.reason.number()) * 4_294_967_296 + u64::from(refusal.place)
}

// The verdict on a file.
#[unsafe(no_mangle)]
pub extern "C" fn tollburrow_check(file: &[u8]) -> u64
    ensures { result ≡ code_of (check_of file.now) }
{
    match reading::check(file) {
        Ok(_) => 0,
        Err(refusal) => code(refusal),
    }
}

// Where the grant records lie in the file.
#[unsafe(no_mangle)]
pub extern "C" fn tollburrow_grant_records(file: &[u8], from: &mut u64, length: &mut u64) -> u64
    ensures { GrantsOut (check_of file.now) from.old length.old from.new length.new result }
{
    match reading::check(file) {
        Ok(h) => {
            let start = places::grants_from(h);
            let end = places::nodes_from(h);
            *from = start as u64;
            *length = (end - start) as u64;
            0
        }
        Err(refusal) => code(refusal),
    }
}

// The candidates of a node.
#[unsafe(no_mangle)]
pub extern "C" fn tollburrow_candidates(file: &[u8], node: usize, set: &mut u16) -> u64
    ensures { CandidatesOut (candidates_of file.now node) set.old set.new result }
{
    match planning::candidates(file, node) {
        Ok(among) => {
            *set = among;
            0
        }
        Err(refusal) => code(refusal),
    }
}

// How a subject stands to a step: table, condition and set, all 0 for a candidate.
#[unsafe(no_mangle)]
pub extern "C" fn tollburrow_why(
    file: &[u8],
    node: u32,
    subject: u32,
    table: &mut u8,
    condition: &mut u8,
    set: &mut u64,
) -> u64
    ensures { StandingOut (why_of file.now node subject)
        table.old condition.old set.old
        table.new condition.new set.new result }
{
    match planning::why(file, node, subject) {
        Ok(None) => {
            *table = 0;
            *condition = 0;
            *set = 0;
            0
        }
        Ok(Some(out)) => {
            *table = out.table;
            *condition = out.condition;
            *set = out.set;
            0
        }
        Err(refusal) => code(refusal),
    }
}

// The cheapest choice and its plan.
#[unsafe(no_mangle)]
pub extern "C" fn tollburrow_cheapest(
    file: &[u8],
    choice: &mut [u8],
    plan: &mut [u64],
    keys: &mut [u64],
    total: &mut u64,
    steps: &mut u32,
) -> u64
    ensures { CheapestOut file.now
        (record { choice = choice.entry.now; plan = plan.old; keys = keys.old })
        (record { choice = choice.exit.now; plan = plan.new; keys = keys.new })
        total.old steps.old total.new steps.new result }
{
    match planning::cheapest(file, choice, plan, keys) {
        Ok(cheapest) => {
            *total = cheapest.total;
            *steps = cheapest.steps;
            0
        }
        Err(refusal) => code(refusal),
    }
}

// The plan for an offered choice.
#[unsafe(no_mangle)]
pub extern "C" fn tollburrow_offered(
    file: &[u8],
    offer: &[u8],
    plan: &mut [u64],
    keys: &mut [u64],
    total: &mut u64,
) -> u64
    ensures { OfferedOut file.now offer.now
        (record { choice = []; plan = plan.old; keys = keys.old })
        (record { choice = []; plan = plan.new; keys = keys.new })
        total.old total.new result }
{
    match planning::offered(file, offer, plan, keys) {
        Ok(cost) => {
            *total = cost;
            0
        }
        Err(refusal) => code(refusal),
    }
}

// The file of these values, written into the room.
#[unsafe(no_mangle)]
pub extern "C" fn tollburrow_write<'h, 'a, 'p, 'r, 'w>(
    header: &'h Header,
    relations: &'a [Relation],
    grants: &'a [Grant],
    nodes: &'a [Node],
    pairs: &'p [u8],
    steps: &'p [u32],
    links: &'p [u32],
    room: &'r mut [u8],
    written: &'w mut u64,
) -> u64
    ensures { WriteOut
        (record {
          header = header.entry.now;
          relations = relations.now;
          grants = grants.now;
          nodes = nodes.now;
          pairs = pairs.now;
          step_prices = steps.now;
          link_prices = links.now;
        })
        room.old room.new written.old written.new result }
{
    let values = Values {
        header: *header,
        relations,
        grants,
        nodes,
        pairs,
        step_prices: steps,
        link_prices: links,
    };
    match writing::write(&values, room) {
        Ok(n) => {
            *written = n as u64;
            0
        }
        Err(refusal) => code(refusal),
    }
}
