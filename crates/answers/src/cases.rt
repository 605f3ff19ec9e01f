// The lines of a case.
use layout::{places, values};
use planning::CheapestPlan;
use show::{lines, rooms};
use std::io;

// How long the rooms are that a case lends.
#[derive(Clone, Copy)]
pub(crate) struct Lengths {
    pub(crate) choice: usize,
    pub(crate) plan: usize,
    pub(crate) keys: usize,
}

// Answers case k.
pub(crate) fn answer(
    rt: &impl Print,
    k: u64,
    file: &[u8],
    offer: &[u8],
    lent: Lengths,
) -> io::Result<()> {
    println!(rt; "case {k}")?;
    print!(rt; "grants ")?;
    grants(rt, file)?;
    candidates(rt, file)?;
    let first = cheapest(rt, file, lent)?;
    print!(rt; "offered ")?;
    let second = offered(rt, file, offer, lent)?;
    if first && second {
        println!(rt; "rooms kept")
    } else {
        println!(rt; "rooms changed")
    }
}

// Where the part of grant records lies, or the refusal.
fn grants(rt: &impl Print, file: &[u8]) -> io::Result<()> {
    match reading::grant_records_told(file) {
        Ok(records) => {
            let from = places::grants_from(values::header(file));
            let n = records.len();
            println!(rt; "{from} {n}")
        }
        Err(refusal) => println!(rt; "{refusal}"),
    }
}

// A line for each node, or the refusal.
fn candidates(rt: &impl Print, file: &[u8]) -> io::Result<()> {
    match reading::check(file) {
        Ok(h) => every_node(rt, file, h.nodes),
        Err(refusal) => {
            print!(rt; "candidates ")?;
            println!(rt; "{refusal}")
        }
    }
}

fn every_node(rt: &impl Print, file: &[u8], n: u8) -> io::Result<()> {
    for i in 0..n {
        candidates_of(rt, file, i)?;
    }
    Ok(())
}

fn candidates_of(rt: &impl Print, file: &[u8], i: u8) -> io::Result<()> {
    print!(rt; "candidates ")?;
    match planning::candidates(file, i as usize) {
        Ok(set) => {
            print!(rt; "{i} ")?;
            lines::members(rt, u64::from(set))?;
            lines::end(rt)
        }
        Err(refusal) => println!(rt; "{refusal}"),
    }
}

// The cheapest plan's lines; whether all that had to stay in the rooms did.
fn cheapest(rt: &impl Print, file: &[u8], lent: Lengths) -> io::Result<bool> {
    let mut choice = [rooms::BYTE; 64];
    let mut plan = [rooms::WORD; 128];
    let mut keys = [rooms::WORD; 128];
    let said = planning::cheapest(
        file,
        rooms::front(&mut choice, lent.choice),
        rooms::front(&mut plan, lent.plan),
        rooms::front(&mut keys, lent.keys),
    );
    match said {
        Ok(CheapestPlan { total, steps }) => {
            lines::totals(rt, total, steps)?;
            let h = values::header(file);
            lines::nodes(rt, &choice, &plan, h.nodes)?;
            lines::keys(rt, &keys, h.attributes)?;
            Ok(
                rooms::kept(&choice, rooms::BYTE, h.nodes as usize)
                    && rooms::plan_kept(&plan, &keys, h.nodes, h.attributes),
            )
        }
        Err(refusal) => {
            println!(rt; "{refusal}")?;
            Ok(rooms::kept(&choice, rooms::BYTE, 0) && rooms::plan_kept(&plan, &keys, 0, 0))
        }
    }
}

// The same of the plan for the offered choice, with the subjects as offered.
fn offered(rt: &impl Print, file: &[u8], offer: &[u8], lent: Lengths) -> io::Result<bool> {
    let mut plan = [rooms::WORD; 128];
    let mut keys = [rooms::WORD; 128];
    let said = planning::offered(
        file,
        offer,
        rooms::front(&mut plan, lent.plan),
        rooms::front(&mut keys, lent.keys),
    );
    match said {
        Ok(total) => {
            lines::total(rt, total)?;
            let h = values::header(file);
            lines::nodes(rt, offer, &plan, h.nodes)?;
            lines::keys(rt, &keys, h.attributes)?;
            Ok(rooms::plan_kept(&plan, &keys, h.nodes, h.attributes))
        }
        Err(refusal) => {
            println!(rt; "{refusal}")?;
            Ok(rooms::plan_kept(&plan, &keys, 0, 0))
        }
    }
}
