// Answers cases for tests. Standard input holds any number of them: file length and offer length in 32 bits, the lengths of the rooms for choice, plan and
// keys in 16 bits each, the file, the offer, all big-endian. A case that is cut off, or too long, ends the run.
#![tactic(auto)]

mod cases;

ghost use Rattle.std.specs.Prelude.{◌≤◌, length};

use cases::Lengths;
use show::input;
use std::io;

fn main(rt: HostRuntime) -> io::Result<()> {
    for k in 0..u64::MAX {
        if !next(&rt, k)? {
            return Ok(());
        }
    }
    Ok(())
}

// Answers the next case; whether there was a whole one.
fn next(rt: &(impl Input + Print), k: u64) -> io::Result<bool> {
    let mut head = [0u8; 14];
    let n = input::read_full(rt, &mut head)?;
    if n == 0 {
        return Ok(false);
    }
    if n < 14 {
        return cut(rt);
    }
    let [f0, f1, f2, f3, o0, o1, o2, o3, c0, c1, p0, p1, k0, k1] = head;
    let file = u32::from_be_bytes([f0, f1, f2, f3]) as usize;
    let offer = u32::from_be_bytes([o0, o1, o2, o3]) as usize;
    if 16384 < file || 255 < offer {
        return cut(rt);
    }
    let lent = Lengths {
        choice: u16::from_be_bytes([c0, c1]) as usize,
        plan: u16::from_be_bytes([p0, p1]) as usize,
        keys: u16::from_be_bytes([k0, k1]) as usize,
    };
    whole(rt, k, file, offer, lent)
}

// Reads the file of m bytes and the offer of o, and answers.
fn whole(rt: &(impl Input + Print), k: u64, m: usize, o: usize, lent: Lengths) -> io::Result<bool>
    requires { (m ≤ 16384) × (o ≤ 255) }
{
    let mut file = [0u8; 16384];
    let mut offer = [0u8; 255];
    if !filled(rt, &mut file, m)? || !filled(rt, &mut offer, o)? {
        return cut(rt);
    }
    cases::answer(rt, k, &file[..m], &offer[..o], lent)?;
    Ok(true)
}

// Reads just so many bytes; whether they came.
fn filled(rt: &impl Input, room: &mut [u8], n: usize) -> io::Result<bool>
    requires { n ≤ length room.old }
{
    Ok(input::read_full(rt, &mut room[..n])? == n)
}

fn cut(rt: &impl Print) -> io::Result<bool> {
    println!(rt; "cut")?;
    Ok(false)
}
