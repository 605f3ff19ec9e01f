// Who of the subjects passes: a step's columns and tied sets are held against what each of them sees.
ghost use Rattle.std.specs.Prelude.{ℕ, ◌≤◌, ◌≡◌, List, get_or};
ghost use Rattle.sets.specs.Sets.{unions};
ghost use Rattle.tables.specs.Columns.{with_tied};
ghost use Rattle.eligible.specs.Asked.{out_among, pass_among};

use crate::seen::Seen;
use sets::subjects;
use tables::{Columns, may};

// Those whom condition 3 puts out by this tied set: they see it neither wholly in clear nor wholly sealed.
pub(crate) fn out_by(seen: &Seen<'_>, set: u64) -> u16
    requires { seen.now.file.header.subjects ≤ 16 }
    ensures { result ≡ out_among seen.now.file.header.subjects seen.now.clear seen.now.sealed set }
{
    let mut out = 0;
    for p in 0..seen.file.header.subjects {
        let at = p as usize;
        if may::splits(set, seen.clear[at], seen.sealed[at]) {
            out = subjects::union(out, subjects::single(p));
        }
    }
    out
}

// Those whom one of the tied sets puts out. Most sets are empty, which puts nobody out.
pub(crate) fn out_by_any(seen: &Seen<'_>, tied: &[u64; 64]) -> u16
    requires { seen.now.file.header.subjects ≤ 16 }
    ensures { result ≡ unions (λ k. out_among seen.now.file.header.subjects seen.now.clear seen.now.sealed (get_or tied.now k 0)) 64 }
{
    let mut out = 0;
    for &set in tied {
        if set != 0 {
            out = subjects::union(out, out_by(seen, set));
        }
    }
    out
}

// Those of whom conditions 1 and 2 hold. (The loop is that of `out_by` with another test: a closure for the test would need a definition of its own.)
pub(crate) fn passing(seen: &Seen<'_>, t: Columns) -> u16
    requires { seen.now.file.header.subjects ≤ 16 }
    ensures { (tied : List ℕ) → result ≡ pass_among seen.now.file.header.subjects seen.now.clear seen.now.sealed (with_tied t tied) }
{
    let mut set = 0;
    for p in 0..seen.file.header.subjects {
        let at = p as usize;
        if may::passes_both(t, seen.clear[at], seen.sealed[at]) {
            set = subjects::union(set, subjects::single(p));
        }
    }
    set
}
