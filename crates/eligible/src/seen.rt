// What every subject sees, worked out in one pass over the grants: each grant is read once, not searched for.
ghost use Rattle.std.specs.Prelude.{◌≡◌, ◌<◌, if◌then◌else◌};
ghost use Rattle.laws.specs.Upwards.{each};
ghost use Rattle.sets.specs.Sets.{single};
ghost use Rattle.layout.specs.Held.{night_held};
ghost use Rattle.night.specs.Promised.{Promised};
ghost use Rattle.night.specs.Views.{clear_of, sealed_of};
ghost use Rattle.eligible.specs.Seen.{place, any_for, seen_from};

use layout::PlanFile;
use night::Grant;
use sets::{attributes, subjects};

// A plan file with what each subject sees in it, over all relations: in clear and sealed.
#[derive(Clone, Copy)]
pub(crate) struct Seen<'f> {
    pub file: PlanFile<'f>,
    pub clear: [u64; 16],
    pub sealed: [u64; 16],
}

// Where the sets of a grant are held: a subject's own at its number, those of any past them, since any may yet be replaced.
#[tactic(auto, unfolding(crate::specs::Seen::place))]
fn place(g: Grant) -> usize
    ensures { result ≡ place g }
{
    if g.subject == 255 {
        16 + g.relation as usize
    } else {
        g.subject as usize
    }
}

// What the grant to any on relation r lets subject p see: nothing where it has an own grant in force, which replaces any entirely.
#[tactic(auto, unfolding(crate::specs::Seen::any_for))]
fn any_for(sets: &[u64; 32], own: &[u16; 16], p: u8, r: usize) -> u64
    requires { r < 16 }
    ensures { result ≡ any_for sets.now own.now p r }
{
    if subjects::has(own[r], p) {
        0
    } else {
        sets[16 + r]
    }
}

// All that subject p sees, in clear or sealed, as the sets are. All 16 places of any are asked: one without a relation holds nothing.
fn seen_from(sets: &[u64; 32], own: &[u16; 16], p: u8) -> u64
    requires { p < 16 }
    ensures { result ≡ seen_from sets.now own.now p }
{
    let mut any = 0;
    for r in 0..16 {
        any = attributes::union(any, any_for(sets, own, p, r));
    }
    attributes::union(sets[p as usize], any)
}

// The same of every subject.
fn each_seen(sets: &[u64; 32], own: &[u16; 16]) -> [u64; 16]
    ensures { result ≡ each 16 (seen_from sets.now own.now) }
{
    let mut seen = [0; 16];
    for p in 0..16 {
        seen[p] = seen_from(sets, own, p as u8);
    }
    seen
}

// What every subject sees on the night's day, in clear and sealed, in one pass over the grants. A checked file has one grant at most for a pair of relation and
// subject that is in force that day, so no earlier one is asked for: each such grant's sets are joined to what its place holds.
pub(crate) fn all_seen(file: &PlanFile<'_>) -> ([u64; 16], [u64; 16])
    requires { Promised (night_held file.now) }
    ensures { (result.0 ≡ each 16 (clear_of (night_held file.now))) × (result.1 ≡ each 16 (sealed_of (night_held file.now))) }
{
    let mut clear = [0; 32];
    let mut sealed = [0; 32];
    let mut own = [0; 16];
    for i in 0..file.header.grants as usize {
        let g = file.grant(i);
        if views::in_force(g, file.header.day) {
            let at = place(g);
            let r = g.relation as usize;
            clear[at] = attributes::union(clear[at], g.clear);
            sealed[at] = attributes::union(sealed[at], g.sealed);
            own[r] = subjects::union(own[r], subjects::single(g.subject));
        }
    }
    (each_seen(&clear, &own), each_seen(&sealed, &own))
}
