// Reads a plan file from standard input and prints the cheapest plan, or the refusal.
#![tactic(auto)]

use layout::values;
use planning::CheapestPlan;
use show::{input, lines};
use std::io;

fn main(rt: HostRuntime) -> io::Result<()> {
    let mut room = [0u8; input::ROOM];
    let file = input::read(&rt, &mut room)?;
    answer(&rt, file)
}

// Plans the file and prints what comes of it.
fn answer(rt: &impl Print, file: &[u8]) -> io::Result<()> {
    let mut choice = [0u8; 64];
    let mut plan = [0u64; 128];
    let mut keys = [0u64; 128];
    match planning::cheapest(file, &mut choice, &mut plan, &mut keys) {
        Ok(CheapestPlan { total, steps }) => {
            lines::totals(rt, total, steps)?;
            let h = values::header(file);
            lines::nodes(rt, &choice, &plan, h.nodes)?;
            lines::keys(rt, &keys, h.attributes)
        }
        Err(refusal) => println!(rt; "{refusal}"),
    }
}
