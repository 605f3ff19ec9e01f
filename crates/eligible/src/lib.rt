// The candidate pass over a plan file: it checks the file, works out what each subject sees and each table once, and tells who may run what.
#![tactic(auto)]

mod asks;
mod reasons;
mod seen;
mod ties;
mod walk;

ghost use Rattle.std.specs.Prelude.{◌≡◌};
ghost use Rattle.laws.specs.Upwards.{each};
ghost use Rattle.night.specs.Promised.{Promised};
ghost use Rattle.night.specs.Views.{clear_of};
ghost use Rattle.layout.specs.Held.{night_held};
ghost use Rattle.model.specs.Candidates.{candidate_set};
ghost use Rattle.model.specs.Dp.{subjects_of};
ghost use Rattle.eligible.specs.Answers.{BuiltFor, PassSays, SetSays, StandingSays};

use layout::PlanFile;
use model::Out;
use night::Header;
use night::refusals::{Reason, Refusal};
use seen::Seen;
use sets::subjects;
use walk::Trail;

// What the built plan is made of: what each node seals (what it has in clear, the root nothing), the root's tied sets, which group the keys, and
// what leaves the root sealed.
#[derive(Clone, Copy)]
pub struct Built {
    pub seals: [u64; 64],
    pub tied: [u64; 64],
    pub sealed: u64,
}

// What the pass finds in an accepted file: the header's values, who may be the subject of each node, what each subject sees in clear, and what the plan
// is made of.
#[derive(Clone, Copy)]
pub struct PassOver {
    pub header: Header,
    pub sets: [u16; 64],
    pub clear: [u64; 16],
    pub built: Built,
}

// The candidates of a node of an accepted file, with the header's values.
#[derive(Clone, Copy)]
pub struct NodeSet {
    pub header: Header,
    pub set: u16,
}

// By what a subject is out of a step of an accepted file, nothing where it is a candidate, with the header's values.
#[derive(Clone, Copy)]
pub struct Stood {
    pub header: Header,
    pub out: Option<Out>,
}

// The pass over a checked file: one walk from the root. Past the last node stands who a leaf of nothing would have.
fn passed(file: PlanFile<'_>) -> PassOver
    requires { Promised (night_held file) }
    ensures { (result.header ≡ file.entry.header) × (result.sets ≡ each 64 (subjects_of (night_held file.entry)))
        × (result.clear ≡ each 16 (clear_of (night_held file.entry))) × BuiltFor (night_held file.entry) result.built }
{
    let (clear, sealed) = seen::all_seen(&file);
    let seen = Seen {
        file,
        clear,
        sealed,
    };
    let mut tied = [0; 64];
    let mut trail = Trail {
        seals: [0; 64],
        sets: [subjects::single(file.relation(0).owner); 64],
    };
    let root = file.header.nodes as usize - 1;
    let top = walk::walk(&seen, root, &mut tied, &mut trail);
    trail.seals[root] = 0;
    PassOver {
        header: file.header,
        sets: trail.sets,
        clear,
        built: Built {
            seals: trail.seals,
            tied,
            sealed: top.columns.sealed,
        },
    }
}

// The pass over any bytes.
pub fn pass(file: &[u8]) -> Result<PassOver, Refusal>
    ensures { PassSays file.now result }
{
    let header = reading::check(file)?;
    Ok(passed(PlanFile {
        bytes: file,
        header,
    }))
}

// The candidates of node i of a checked file, by a walk from there: a leaf has none, nor has a number that no node has.
fn set_of(file: PlanFile<'_>, i: usize) -> u16
    requires { Promised (night_held file) }
    ensures { result ≡ candidate_set (night_held file.entry) i }
{
    if file.node(i).kind == night::LEAF {
        return 0;
    }
    let (clear, sealed) = seen::all_seen(&file);
    let seen = Seen {
        file,
        clear,
        sealed,
    };
    let mut tied = [0; 64];
    let mut trail = Trail {
        seals: [0; 64],
        sets: [0; 64],
    };
    walk::walk(&seen, i, &mut tied, &mut trail);
    trail.sets[i]
}

// The candidates of a node, for any bytes.
pub fn candidate_set(file: &[u8], node: usize) -> Result<NodeSet, Refusal>
    ensures { SetSays file.now node result }
{
    let header = reading::check(file)?;
    let file = PlanFile {
        bytes: file,
        header,
    };
    Ok(NodeSet {
        header,
        set: set_of(file, node),
    })
}

// How a subject stands to a step, for any bytes.
pub fn standing(file: &[u8], node: u32, subject: u32) -> Result<Stood, Refusal>
    ensures { StandingSays file.now node subject result }
{
    let header = reading::check(file)?;
    let file = PlanFile {
        bytes: file,
        header,
    };
    if reasons::not_asked(&file, node, subject) {
        return Err(Refusal {
            reason: Reason::NotAsked,
            place: node,
        });
    }
    Ok(Stood {
        header,
        out: reasons::stands(file, node as usize, subject as usize),
    })
}
