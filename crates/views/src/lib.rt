// What a subject sees, from the grants of a plan file.
#![tactic(auto)]

mod grants;

ghost use Rattle.std.specs.Prelude.{◌≡◌, ◌≤◌};
ghost use Rattle.laws.specs.First.{first};
ghost use Rattle.layout.specs.Held.{night_held};
ghost use Rattle.night.specs.Night.{grant_of};
ghost use Rattle.night.specs.Views.{is_for, shares_day, in_force, is_for_on, seen_by, view_on};
ghost use Rattle.views.specs.Stretch.{Next};

use layout::PlanFile;
use night::{Grant, View};

// The number of the next of the first n grants, from number `start` on, that is on relation r to subject p, or n where there is none. They are
// gone through in stretches, and none is decoded after the stretch that has it.
fn next_grant(file: &PlanFile<'_>, r: u8, p: u8, start: usize, n: usize) -> usize
    requires { start ≤ n }
    ensures { Next (λ k. is_for (grant_of (night_held file.now) k) r p) start n result }
{
    // no `for`: a turn goes on by a whole stretch
    let mut from = start;
    while from < n {
        let m = (n - from).min(grants::AT_ONCE);
        let found = grants::find_from(file, from, m, r, p);
        if found < m {
            return from + found;
        }
        from += m;
    }
    n
}

// Whether the grant shares a day with those from `from` to `to`, both included.
#[tactic(auto, using(laws::proofs::Cases::cases), unfolding(night::specs::Views::shares_day))]
fn shares_day(g: Grant, from: u16, to: u16) -> bool
    ensures { result ≡ shares_day g from to }
{
    g.first <= to && from <= g.last
}

// Whether the grant is in force on the day.
pub fn in_force(g: Grant, day: u16) -> bool
    ensures { result ≡ in_force g day }
{
    shares_day(g, day, day)
}

// The number of the first of the first n grants that is on relation r to subject p and shares a day with those from `from` to `to`, or n where there is none.
pub fn first_grant(file: &PlanFile<'_>, r: u8, p: u8, from: u16, to: u16, n: usize) -> usize
    ensures { result ≡ first (λ k. is_for_on (grant_of (night_held file.now) k) r p from to) n }
{
    // no `for`: a turn goes on behind the grant that was found
    let mut at: usize = 0;
    while at < n {
        let j = next_grant(file, r, p, at, n);
        if n <= j {
            return n;
        }
        if shares_day(file.grant(j), from, to) {
            return j;
        }
        at = j + 1;
    }
    n
}

// What a grant lets see.
fn seen_by(g: Grant) -> View
    ensures { result ≡ seen_by g }
{
    View {
        clear: g.clear,
        sealed: g.sealed,
    }
}

// The view of relation r that subject p has on a day: its own grant in force, or else the grant to any (255) in force, or else nothing.
pub fn view(file: &PlanFile<'_>, day: u16, p: u8, r: u8) -> View
    ensures { result ≡ view_on (night_held file.now) day p r }
{
    let n = file.header.grants as usize;
    let own = first_grant(file, r, p, day, day, n);
    if own < n {
        return seen_by(file.grant(own));
    }
    let other = first_grant(file, r, 255, day, day, n);
    if other < n {
        return seen_by(file.grant(other));
    }
    View::default()
}
