// The keys of any plan: which attributes share one, its name, and who holds it. A list that is too short counts as 0 past its end.
ghost use Rattle.std.specs.Prelude.{ℕ, ◌≡◌, List, get_or, if◌then◌else◌};
ghost use Rattle.laws.specs.Upwards.{each};
ghost use Rattle.sets.specs.Sets.{member, union, meet, apart, single};
ghost use Rattle.night.specs.Kinds.{attribute};
ghost use Rattle.run.specs.Keys.{ever_sealed, key_name, holders_of, key_holders};
ghost use Rattle.keying.specs.Nodes.{node_events, events_to};

use sets::{attributes, subjects};

// The delivery: the user, and what it opens.
#[derive(Clone, Copy)]
pub struct Delivery {
    pub user: u8,
    pub opened: u64,
}

// What the first nodes of a plan do: who runs each, what it opens and what it seals.
#[derive(Clone, Copy)]
pub struct Plan<'p> {
    pub choice: &'p [u8],
    pub opens: &'p [u64],
    pub seals: &'p [u64],
    pub nodes: u8,
}

// What a list has for node i or attribute i, nothing past its end.
fn entry<T: Copy>(list: &[T], i: u8, nothing: T) -> T
    ensures { result ≡ get_or list.now i nothing }
{
    list.get(i as usize).copied().unwrap_or(nothing)
}

// All that one of the first n nodes seals, whoever runs them and whatever they open.
fn ever_sealed(seals: &[u64], n: u8) -> u64
    ensures { (subjects opens : List ℕ) → result ≡ ever_sealed (node_events subjects opens seals.now n) }
{
    let mut all = 0;
    for i in 0..n {
        all = attributes::union(all, entry(seals, i, 0));
    }
    all
}

// The attributes that share attribute k's key, where `sealed` is all that is ever sealed: of these, k's tied set, or k alone.
fn group_of(tied: &[u64], sealed: u64, k: u8) -> u64
    ensures { result ≡ (if member sealed k then meet sealed (union (attribute k) (get_or tied.now k 0)) else 0) }
{
    if attributes::has(sealed, k) {
        let tied = attributes::union(attributes::single(k), entry(tied, k, 0));
        attributes::meet(sealed, tied)
    } else {
        0
    }
}

// Subject p as a set where it opens or seals one of the group, else no subject.
fn as_holder(group: u64, p: u8, opened: u64, sealed: u64) -> u16
    ensures { result ≡ (if apart group (union opened sealed) then 0 else single 16 p) }
{
    if attributes::apart(group, attributes::union(opened, sealed)) {
        0
    } else {
        subjects::single(p)
    }
}

// The subjects that seal or open one of the group at one of the plan's nodes.
fn holders_of(plan: &Plan<'_>, group: u64) -> u16
    ensures { result ≡ holders_of (node_events plan.now.choice.now plan.now.opens.now plan.now.seals.now plan.now.nodes) group }
{
    let mut all = 0;
    for i in 0..plan.nodes {
        let subject = entry(plan.choice, i, 0);
        let holder = as_holder(
            group,
            subject,
            entry(plan.opens, i, 0),
            entry(plan.seals, i, 0),
        );
        all = subjects::union(all, holder);
    }
    all
}

// The same with the user, where it opens one of the group at the delivery.
fn holders_with(plan: &Plan<'_>, d: Delivery, group: u64) -> u16
    ensures { result ≡ holders_of (events_to plan.now.choice.now plan.now.opens.now plan.now.seals.now plan.now.nodes d) group }
{
    subjects::union(
        holders_of(plan, group),
        as_holder(group, d.user, d.opened, 0),
    )
}

// The name of each attribute's key, 64 where it is never sealed, whoever runs the nodes and whatever they open.
pub fn names(tied: &[u64], seals: &[u64], n: u8) -> [u64; 64]
    ensures { (subjects opens : List ℕ) → result ≡ each 64 (key_name (λ j. get_or tied.now j 0) (node_events subjects opens seals.now n)) }
{
    let sealed = ever_sealed(seals, n);
    let mut all = [0; 64];
    for k in 0..64 {
        all[k as usize] = u64::from(attributes::lowest(group_of(tied, sealed, k)));
    }
    all
}

// The holders of each attribute's key, none where it is never sealed: who sealed or opened it, the user at the delivery too.
pub fn holders(tied: &[u64], plan: &Plan<'_>, d: Delivery) -> [u64; 64]
    ensures { result ≡ each 64 (key_holders (λ j. get_or tied.now j 0)
        (events_to plan.now.choice.now plan.now.opens.now plan.now.seals.now plan.now.nodes d)) }
{
    let sealed = ever_sealed(plan.seals, plan.nodes);
    let mut all = [0; 64];
    for k in 0..64 {
        let group = group_of(tied, sealed, k);
        all[k as usize] = u64::from(holders_with(plan, d, group));
    }
    all
}
