// Runs the figures of document 01 that are not marked as proved, and those of tickets 2026-01, 2026-02, 2026-04, 2026-05 and 2026-06. Standard input holds the
// cases one after the other: a byte with the length of the name, the name; the entry that is asked, a byte; the lengths of the rooms for choice, plan and
// keys, a byte each; a byte with the length of the offer, the offer; two bytes with the length of the file, the file. What the entry says of each
// is printed in one line.
#![tactic(auto)]

mod entries;

ghost use Rattle.std.specs.Prelude.{◌<◌, ◌≡◌, length, IfOk};

use show::input;
use std::io;

fn main(rt: HostRuntime) -> io::Result<()> {
    let mut room = zeros::<524288>();
    let file = input::read(&rt, &mut room)?;
    run(&rt, file)
}

// So many zeros. A proof that they are as many is of any number, and counts none out.
fn zeros<const N: usize>() -> [u8; N]
    ensures { N ≡ length result }
{
    [0; N]
}

// Runs every case.
fn run(rt: &impl Print, input: &[u8]) -> io::Result<()> {
    // no `for`: a case says where the next one starts
    let mut at: usize = 0;
    while at < input.len() {
        at = case_at(rt, input, at)?;
    }
    Ok(())
}

// Runs the case that starts at `at`, and says where the next one starts. A case that is cut off ends the run.
fn case_at(rt: &impl Print, input: &[u8], at: usize) -> io::Result<usize>
    requires { at < length input.now }
    ensures { IfOk result (λ next. at < next) }
{
    let asked = at + 1 + wide(input[at]);
    let offered = asked + 5;
    if input.len() < offered {
        return Ok(input.len());
    }
    let sized = offered + wide(input[asked + 4]);
    let from = sized + 2;
    if input.len() < from {
        return Ok(input.len());
    }
    let to = from + u16::from_be_bytes([input[sized], input[sized + 1]]) as usize;
    if input.len() < to {
        return Ok(input.len());
    }
    rt.write_all(&input[at + 1..asked])?;
    entries::ask(
        rt,
        &input[asked..offered],
        &input[offered..sized],
        &input[from..to],
    )?;
    Ok(to)
}

// A byte as a length. The sums of the places rest on its bound.
fn wide(x: u8) -> usize
    ensures { result < 256 }
{
    x as usize
}
