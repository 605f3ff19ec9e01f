// Reads a plan file from standard input, takes its values as they stand, and prints the file that is written from them, or the refusal. Started with
// a word, a number of bytes, it lends the writer no more than that.
#![tactic(auto)]

use encoding::LONGEST;
use show::{input, lines, rooms, words};
use std::io;

// The program's own name is counted among its words.
fn main(rt: HostRuntime) -> io::Result<()> {
    match (words::count(&rt), words::at(&rt, 1)) {
        (1, _) => run(&rt, LONGEST),
        (2, Some(lent)) => run(&rt, lent as usize),
        _ => tell_use(&rt),
    }
}

// To standard error, so that a use that is wrong is never taken for an answer.
fn tell_use(rt: &impl Eprint) -> io::Result<()> {
    eprintln!(rt; "use: rewrite [ROOM] < FILE, a number below 4294967296")
}

// Reads the file, lends so much room, and prints the file written again, or the refusal. More room than the longest file has is never needed: it is no
// longer than that.
fn run(rt: &(impl Input + Print), lent: usize) -> io::Result<()> {
    let mut input = [0u8; input::ROOM];
    let file = input::read(rt, &mut input)?;
    let mut room = [0u8; LONGEST];
    match writing::rewrite(file, rooms::front(&mut room, lent)) {
        Ok(n) => rt.write_all(rooms::front(&mut room, n)),
        Err(refusal) => println!(rt; "{refusal}"),
    }
}
