// The lines of the answer.
use model::Out;
use sets::attributes;
use std::io;

// The first line.
pub fn totals(rt: &impl Print, total: u64, steps: u32) -> io::Result<()> {
    println!(rt; "total {total} steps {steps}")
}

// The first line of an offered choice.
pub fn total(rt: &impl Print, total: u64) -> io::Result<()> {
    println!(rt; "total {total}")
}

// Why a subject is out: the table, the condition and what offends.
pub fn reason(rt: &impl Print, out: Out) -> io::Result<()> {
    let word = match out.table {
        model::LEFT => "left",
        model::RIGHT => "right",
        _ => "result",
    };
    let condition = out.condition;
    print!(rt; "{word} {condition} ")?;
    members(rt, out.set)
}

// A line for each node.
pub fn nodes(rt: &impl Print, choice: &[u8], plan: &[u64], n: u8) -> io::Result<()> {
    for i in 0..usize::from(n) {
        let subject = entry(choice, i);
        print!(rt; "node {i} subject {subject} opens ")?;
        members(rt, entry(plan, 2 * i))?;
        print!(rt; " seals ")?;
        members(rt, entry(plan, 2 * i + 1))?;
        end(rt)?;
    }
    Ok(())
}

// A line for each key, names rising: an attribute that names its own key names it first.
pub fn keys(rt: &impl Print, keys: &[u64], a: u8) -> io::Result<()> {
    for name in 0..a {
        if key_of(keys, name) == u64::from(name) {
            print!(rt; "key {name} attributes ")?;
            members(rt, served(keys, a, name))?;
            print!(rt; " holders ")?;
            members(rt, entry(keys, 2 * usize::from(name) + 1))?;
            end(rt)?;
        }
    }
    Ok(())
}

// The name of the key that opens an attribute.
fn key_of(keys: &[u64], attribute: u8) -> u64 {
    entry(keys, 2 * usize::from(attribute))
}

// The attributes that the key serves.
fn served(keys: &[u64], a: u8, name: u8) -> u64 {
    let mut set = 0;
    for attribute in 0..a {
        if key_of(keys, attribute) == u64::from(name) {
            set = attributes::union(set, attributes::single(attribute));
        }
    }
    set
}

// What stands in a room, 0 past its end.
fn entry<T: Copy + Default>(room: &[T], i: usize) -> T {
    room.get(i).copied().unwrap_or_default()
}

// The members of a set, rising; `-` for none.
pub fn members(rt: &impl Print, set: u64) -> io::Result<()> {
    if set == 0 {
        return print!(rt; "-");
    }
    let lowest = attributes::lowest(set);
    print!(rt; "{lowest}")?;
    for k in 0..64 {
        if lowest < u32::from(k) && attributes::has(set, k) {
            print!(rt; ",{k}")?;
        }
    }
    Ok(())
}

// The end of a line.
pub fn end(rt: &impl Print) -> io::Result<()> {
    println!(rt)
}
