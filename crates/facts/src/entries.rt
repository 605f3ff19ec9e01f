// The entries that a case may ask, and what each says.
use encoding::LONGEST;
use layout::values;
use night::refusals::Refusal;
use planning::CheapestPlan;
use show::{lines, rooms};
use std::io;

// Asks the entry: 1 cheapest, 2 offered, 3 why, 4 rewrite, else check. `how` holds the entry and the lengths of the rooms.
pub(crate) fn ask(rt: &impl Print, how: &[u8], offer: &[u8], file: &[u8]) -> io::Result<()> {
    let [entry, choice, plan, keys, ..] = *how else {
        return Ok(());
    };
    match entry {
        1 => cheapest(rt, file, choice as usize, plan as usize, keys as usize)?,
        2 => offered(rt, file, offer, plan as usize, keys as usize)?,
        3 => reason(rt, file, offer)?,
        4 => rewrite(rt, file, offer)?,
        _ => check(rt, file)?,
    }
    lines::end(rt)
}

// The verdict of reading, and the length of the part of grant records.
fn check(rt: &impl Print, file: &[u8]) -> io::Result<()> {
    match reading::check(file) {
        Ok(_) => print!(rt; ": accepted")?,
        Err(refusal) => refused(rt, refusal)?,
    }
    let n = reading::grant_records(file).len();
    print!(rt; ", {n} bytes of grants")
}

// The cheapest plan's total and steps, with rooms of n, p and k, and whether all that had to stay in them did.
fn cheapest(rt: &impl Print, file: &[u8], n: usize, p: usize, k: usize) -> io::Result<()> {
    let mut choice = [rooms::BYTE; 64];
    let mut plan = [rooms::WORD; 128];
    let mut keys = [rooms::WORD; 128];
    let said = planning::cheapest(
        file,
        rooms::front(&mut choice, n),
        rooms::front(&mut plan, p),
        rooms::front(&mut keys, k),
    );
    match said {
        Ok(CheapestPlan { total, steps }) => {
            print!(rt; ": total {total} steps {steps}")?;
            let h = values::header(file);
            told(
                rt,
                rooms::kept(&choice, rooms::BYTE, h.nodes as usize)
                    && rooms::plan_kept(&plan, &keys, h.nodes, h.attributes),
            )
        }
        Err(refusal) => {
            refused(rt, refusal)?;
            told(
                rt,
                rooms::kept(&choice, rooms::BYTE, 0) && rooms::plan_kept(&plan, &keys, 0, 0),
            )
        }
    }
}

// The same of the plan for an offered choice.
fn offered(rt: &impl Print, file: &[u8], offer: &[u8], p: usize, k: usize) -> io::Result<()> {
    let mut plan = [rooms::WORD; 128];
    let mut keys = [rooms::WORD; 128];
    let said = planning::offered(
        file,
        offer,
        rooms::front(&mut plan, p),
        rooms::front(&mut keys, k),
    );
    match said {
        Ok(total) => {
            print!(rt; ": total {total}")?;
            let h = values::header(file);
            told(rt, rooms::plan_kept(&plan, &keys, h.nodes, h.attributes))
        }
        Err(refusal) => {
            refused(rt, refusal)?;
            told(rt, rooms::plan_kept(&plan, &keys, 0, 0))
        }
    }
}

// Why a subject is out of a step. The offer holds the node and the subject, four bytes each.
fn reason(rt: &impl Print, file: &[u8], offer: &[u8]) -> io::Result<()> {
    let [a, b, c, d, e, f, g, h, ..] = *offer else {
        return Ok(());
    };
    let node = u32::from_be_bytes([a, b, c, d]);
    let subject = u32::from_be_bytes([e, f, g, h]);
    match planning::why(file, node, subject) {
        Ok(None) => print!(rt; ": candidate"),
        Ok(Some(out)) => {
            print!(rt; ": ")?;
            lines::reason(rt, out)
        }
        Err(refusal) => refused(rt, refusal),
    }
}

// How many bytes are written of the file's values, and whether all else in the room stayed. The offer holds the room's length, four bytes.
fn rewrite(rt: &impl Print, file: &[u8], offer: &[u8]) -> io::Result<()> {
    let [a, b, c, d, ..] = *offer else {
        return Ok(());
    };
    let lent = u32::from_be_bytes([a, b, c, d]) as usize;
    let mut room = [rooms::BYTE; LONGEST];
    match writing::rewrite(file, rooms::front(&mut room, lent)) {
        Ok(n) => {
            print!(rt; ": {n} bytes")?;
            told(rt, rooms::kept(&room, rooms::BYTE, n))
        }
        Err(refusal) => {
            refused(rt, refusal)?;
            told(rt, rooms::kept(&room, rooms::BYTE, 0))
        }
    }
}

// Whether the rooms kept what had to stay.
fn told(rt: &impl Print, kept: bool) -> io::Result<()> {
    let word = if kept { "kept" } else { "changed" };
    print!(rt; ", rooms {word}")
}

fn refused(rt: &impl Print, refusal: Refusal) -> io::Result<()> {
    print!(rt; ": {refusal}")
}
