// Started with two words, a node and a subject, reads a plan file from standard input and prints why the subject is out of that step, or that it
// is a candidate, or the refusal.
#![tactic(auto)]

use show::{input, lines, words};
use std::io;

// The program's own name is counted among its words.
fn main(rt: HostRuntime) -> io::Result<()> {
    match (words::count(&rt), words::at(&rt, 1), words::at(&rt, 2)) {
        (3, Some(node), Some(subject)) => run(&rt, node, subject),
        _ => tell_use(&rt),
    }
}

// To standard error, so that a use that is wrong is never taken for an answer.
fn tell_use(rt: &impl Eprint) -> io::Result<()> {
    eprintln!(rt; "use: why NODE SUBJECT < FILE, two numbers below 4294967296")
}

// Reads the file, asks the planner and prints what it says, in one line.
fn run(rt: &(impl Input + Print), node: u32, subject: u32) -> io::Result<()> {
    let mut room = [0u8; input::ROOM];
    let file = input::read(rt, &mut room)?;
    match planning::why(file, node, subject) {
        Ok(None) => println!(rt; "candidate"),
        Ok(Some(out)) => {
            lines::reason(rt, out)?;
            lines::end(rt)
        }
        Err(refusal) => println!(rt; "{refusal}"),
    }
}
