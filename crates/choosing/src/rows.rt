// The least costs of every node, upwards: a row for each node, and in it what the node costs with all under it where a subject does it.
ghost use Rattle.std.specs.Prelude.{◌≡◌, ◌≤◌, if◌then◌else◌};
ghost use Rattle.laws.specs.Upwards.{upwards};
ghost use Rattle.layout.specs.Held.{night_held};
ghost use Rattle.model.specs.Dp.{least_of, better, best_of, best_child, row_entry, row_step, cost_rows, best_last};
ghost use Rattle.choosing.specs.Held.{Ready, HasRows, Fits, Finds, Searched, SearchedIf, Filling, FillingAt};

use crate::costs;
use crate::subjects::Subjects;
use layout::PlanFile;
use model::Best;
use sets::subjects;

// A row: what the node costs with all under it, for each subject that may do it.
pub(crate) type Row = [u64; 16];

// One more, subject t at this cost: taken where there is none so far, or where it costs less.
#[tactic(auto, unfolding(model::specs::Dp::better))]
fn better(best: Option<Best>, cost: u64, t: u8) -> Option<Best>
    ensures { result ≡ better best cost t }
{
    match best {
        Some(b) if b.least <= cost => best,
        _ => Some(Best {
            least: cost,
            lowest: t,
        }),
    }
}

// The cheapest of the subjects in the set, by the row and with this size handed to subject s: the lowest of those, or zeros where the set is empty.
#[tactic(auto, using(crate::proofs::Held::best_loop), unfolding(model::specs::Dp::handed_on))]
fn best_of(file: &PlanFile<'_>, row: &Row, among: u16, size: u32, s: u8) -> Best
    requires { Fits (night_held file.now) row.now among size s }
    ensures { Finds (best_of (night_held file.now) row.now among size s 16) result }
{
    let mut best = None;
    for t in 0..16 {
        if subjects::has(among, t) {
            let cost = row[t as usize] + costs::handed(file, size, t, s);
            best = better(best, cost, t);
        }
    }
    best.unwrap_or(Best {
        least: 0,
        lowest: 0,
    })
}

// The cheapest way to have child k, whose row is known, done and handed to subject s.
pub(crate) fn best_child(who: &Subjects<'_>, rows: &[Row], k: usize, s: u8) -> Best
    requires { Ready who.now × Searched (night_held who.now.file) rows.now k s }
    ensures { Finds (best_child (night_held who.now.file) rows.now k s) result }
{
    best_of(&who.file, &rows[k], who.sets[k], who.file.node(k).size, s)
}

// The least of these where the parent has this child, else nothing.
#[tactic(auto, using(crate::proofs::Held::child_most))]
fn child_least(who: &Subjects<'_>, rows: &[Row], used: bool, k: u8, s: u8) -> u64
    requires { Ready who.now × SearchedIf (night_held who.now.file) used rows.now k s }
    ensures { (result ≡ (if used then least_of (best_child (night_held who.now.file) rows.now k s) else 0)) × (result ≤ 129064000000) }
{
    if used {
        best_child(who, rows, k as usize, s).least
    } else {
        0
    }
}

// What node i costs with all under it where subject s does it, the least.
fn row_entry(who: &Subjects<'_>, rows: &[Row], i: usize, s: u8) -> u64
    requires { FillingAt who.now rows.now i s }
    ensures { result ≡ row_entry (night_held who.now.file) (upwards (row_step (night_held who.now.file)) i) i s }
{
    let v = who.file.node(i);
    costs::paid(&who.file, i, s)
        + child_least(who, rows, kinds::uses_left(v.kind), v.left, s)
        + child_least(who, rows, kinds::uses_right(v.kind), v.right, s)
}

// Node i's row from those of the nodes before it: nothing where a subject may not do it.
#[tactic(auto, unfolding(format::specs::Layout::night_in))]
fn row(who: &Subjects<'_>, rows: &[Row], i: usize) -> Row
    requires { Filling who.now rows.now i }
    ensures { result ≡ row_step (night_held who.now.file) (upwards (row_step (night_held who.now.file)) i) i }
{
    let mut made = [0; 16];
    for s in 0..16 {
        if subjects::has(who.sets[i], s) {
            made[s as usize] = row_entry(who, rows, i, s);
        }
    }
    made
}

// The rows of all nodes, worked out upwards.
#[tactic(auto, unfolding(format::specs::Layout::night_in))]
pub(crate) fn cost_rows(who: &Subjects<'_>) -> [Row; 64]
    requires { Ready who.now }
    ensures { HasRows (night_held who.now.file) who.now.file.header.nodes result }
{
    let mut rows = [[0; 16]; 64];
    for i in 0..who.file.header.nodes as usize {
        rows[i] = row(who, &rows, i);
    }
    rows
}

// The cheapest of the last node: nothing is handed on.
#[tactic(auto, unfolding(format::specs::Layout::night_in))]
pub(crate) fn best_last(who: &Subjects<'_>, rows: &[Row]) -> Best
    requires { Ready who.now × HasRows (night_held who.now.file) who.now.file.header.nodes rows.now }
    ensures { Finds (best_last (night_held who.now.file) (cost_rows (night_held who.now.file))) result }
{
    let last = who.file.header.nodes as usize - 1;
    best_of(&who.file, &rows[last], who.sets[last], 0, 0)
}
