// Rooms that a program lends: what stands in them before a call, and whether it still does.
ghost use Rattle.std.specs.Prelude.{◌≡◌, ◌*◌, ◌&&◌, take};
ghost use Rattle.show.specs.Kept.{kept};

// Every byte is 165.
pub const BYTE: u8 = 165;

pub const WORD: u64 = 0xa5a5_a5a5_a5a5_a5a5;

// Whether a room holds its first contents, this value, from here on.
pub fn kept<T: Copy + PartialEq>(room: &[T], value: T, from: usize) -> bool
    ensures { result ≡ kept T.eq value room.now from }
{
    room.iter().skip(from).all(|found| *found == value)
}

// Whether the rooms for a plan and its keys hold their first contents past those of n nodes and of a attributes, two numbers each.
pub fn plan_kept(plan: &[u64], keys: &[u64], n: u8, a: u8) -> bool
    ensures { result ≡ (kept ⟦<u64 as PartialEq>⟧.eq WORD plan.now (2 * n) && kept ⟦<u64 as PartialEq>⟧.eq WORD keys.now (2 * a)) }
{
    kept(plan, WORD, 2 * usize::from(n)) && kept(keys, WORD, 2 * usize::from(a))
}

// The front of a room: its first n, or all of it where it is shorter.
pub fn front<T>(room: &mut [T], n: usize) -> &mut [T]
    ensures { result.now ≡ take n room.old }
{
    let end = n.min(room.len());
    &mut room[..end]
}
