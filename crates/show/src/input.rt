// The plan file on standard input.
ghost use Rattle.std.specs.Prelude.{◌≡◌, ◌≤◌, length, IfOk};

use std::io;
use std::io::Read;

// Room for the input: one byte more than the longest file has, so that a longer one is refused by its length.
pub const ROOM: usize = 13698;

// Reads standard input into the room, as far as it goes, and hands out the part that holds it.
pub fn read<'r>(rt: &impl Input, room: &'r mut [u8]) -> io::Result<&'r mut [u8]>
    ensures { IfOk result (λ part. length part.now ≤ length room.old) }
{
    let n = read_full(rt, room)?;
    Ok(&mut room[..n])
}

// Reads standard input until the room is full or the input ends. Says how many bytes came. The room keeps its length, also where a read fails.
// A `while`, since how often it reads is for the input to say.
pub fn read_full(rt: &impl Input, room: &mut [u8]) -> io::Result<usize>
    ensures came { IfOk result (λ n. n ≤ length room.new) }
    ensures kept { length room.new ≡ length room.old }
{
    let mut from = rt.reader();
    let mut n: usize = 0;
    while n < room.len() {
        let more = from.read(&mut room[n..])?;
        if more == 0 {
            break;
        }
        n += more;
    }
    Ok(n)
}
