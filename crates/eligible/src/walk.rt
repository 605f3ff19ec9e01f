// One walk from a node down to the leaves: it meets each step under the node once, works out its table once, and leaves on its way what each
// node has in clear and who may be its subject. A table's tied sets stand in the room lent for it.
ghost use Rattle.std.specs.Prelude.{◌<◌, ◌≤◌, ◌≡◌, true, length, if◌then◌else◌};
ghost use Rattle.layout.specs.Held.{night_held};
ghost use Rattle.night.specs.Night.{node_of};
ghost use Rattle.night.specs.Kinds.{uses_right};
ghost use Rattle.model.specs.Ties.{untied, merged};
ghost use Rattle.model.specs.Tables.{ties, tie_all, table_of};
ghost use Rattle.model.specs.OneTest.{Under};
ghost use Rattle.tables.specs.Columns.{columns_of};
ghost use Rattle.eligible.specs.Walk.{out_tied, out_after, Closes, walked_of, right_of, Walking, Leaves};

use crate::seen::Seen;
use crate::{asks, ties};
use night::Node;
use sets::subjects;
use tables::{Columns, parts};

// A table with its tied sets elsewhere, and the subjects whom condition 3 on it puts out.
#[derive(Clone, Copy)]
pub(crate) struct Walked {
    pub columns: Columns,
    pub out: u16,
}

// What a walk leaves on its way: for each node what it has in clear, which it seals in the built plan, and who may be its subject.
#[derive(Clone, Copy)]
pub(crate) struct Trail {
    pub seals: [u64; 64],
    pub sets: [u16; 64],
}

// The step ties what it reads together, set after set. Condition 3 then puts out those whom it put out before, and those whom each new tied set puts out.
fn tie_step(seen: &Seen<'_>, v: Node, out: u16, tied: &mut [u64; 64]) -> u16
    requires { (seen.now.file.header.subjects ≤ 16) × (length tied.old ≡ 64) }
    ensures { (result ≡ out_tied out seen.now.file.header.subjects seen.now.clear seen.now.sealed tied.old (ties (night_held seen.now.file) v))
        × (tied.new ≡ tie_all tied.old (ties (night_held seen.now.file) v)) }
{
    let mut so_far = out;
    for k in 0..kinds::together(v) {
        let all = ties::tie(tied, pairs::together(&seen.file, v, k));
        so_far = subjects::union(so_far, asks::out_by(seen, all));
    }
    so_far
}

// The same for a step of one operand or two: two may tie what neither had, so that every tied set is asked.
fn out_after(seen: &Seen<'_>, v: Node, out: u16, tied: &mut [u64; 64]) -> u16
    requires { (seen.now.file.header.subjects ≤ 16) × (length tied.old ≡ 64) }
    ensures { (result ≡ out_after (night_held seen.now.file) v out seen.now.file.header.subjects seen.now.clear seen.now.sealed tied.old)
        × (tied.new ≡ tie_all tied.old (ties (night_held seen.now.file) v)) }
{
    let one = tie_step(seen, v, out, tied);
    if kinds::uses_right(v.kind) {
        asks::out_by_any(seen, tied)
    } else {
        one
    }
}

// Node i once its operands are walked: its table over theirs, what it has in clear, and its candidates, who pass conditions 1 and 2 of what it
// has of its operands and 3 of its result.
pub(crate) fn close(
    seen: &Seen<'_>,
    i: usize,
    v: Node,
    l: Walked,
    r: Columns,
    tied: &mut [u64; 64],
    trail: &mut Trail,
) -> Walked
    requires { (seen.now.file.header.subjects ≤ 16) × (i < 64) × (length tied.old ≡ 64) }
    ensures { Closes (night_held seen.now.file) seen.now.file.header.subjects i v l r seen.now.clear seen.now.sealed tied.old tied.new
        trail.old.seals trail.new.seals trail.old.sets trail.new.sets result }
{
    let left = parts::least_view(v.needed, l.columns);
    let right = parts::least_view(v.needed, r);
    let taken = parts::taken(v, left, right);
    let columns = parts::made(v, l.columns, r, taken);
    let out = out_after(seen, v, l.out, tied);
    trail.seals[i] = columns.clear;
    trail.sets[i] = subjects::minus(asks::passing(seen, taken), out);
    Walked { columns, out }
}

// The right operand where the step has one: its tied sets stand in room of their own, and are merged into the left operand's.
#[cycle(walk_walk_right_walk_step)]
fn walk_right(
    seen: &Seen<'_>,
    i: usize,
    v: Node,
    tied: &mut [u64; 64],
    trail: &mut Trail,
) -> Columns
    requires { Walking (night_held seen.now.file) seen.now.clear seen.now.sealed trail.old.seals trail.old.sets
        × (i < seen.now.file.header.nodes) × (v ≡ node_of (night_held seen.now.file) i) × (length tied.old ≡ 64) }
    ensures { (result ≡ columns_of (right_of (night_held seen.now.file) i))
        × (tied.new ≡ (if uses_right v.kind then merged tied.old (right_of (night_held seen.now.file) i).tied 64 else tied.old))
        × Leaves (night_held seen.now.file) (λ k. (uses_right v.kind ≡ true) × Under (night_held seen.now.file) v.right k)
        trail.old.seals trail.new.seals trail.old.sets trail.new.sets }
{
    if kinds::uses_right(v.kind) {
        let mut other = [0; 64];
        let r = walk(seen, v.right as usize, &mut other, trail);
        ties::merge(tied, &other);
        r.columns
    } else {
        parts::no_columns()
    }
}

// Step i: its operands, whose numbers are lower, and then the step itself.
#[cycle(walk_walk_right_walk_step)]
fn walk_step(seen: &Seen<'_>, i: usize, v: Node, tied: &mut [u64; 64], trail: &mut Trail) -> Walked
    requires { Walking (night_held seen.now.file) seen.now.clear seen.now.sealed trail.old.seals trail.old.sets
        × (i < seen.now.file.header.nodes) × (v ≡ node_of (night_held seen.now.file) i) × (v.kind ≡ 0 → ⊥) × (tied.old ≡ untied) }
    ensures { (result ≡ walked_of (night_held seen.now.file) i) × (tied.new ≡ (table_of (night_held seen.now.file) i).tied)
        × Leaves (night_held seen.now.file) (Under (night_held seen.now.file) i)
        trail.old.seals trail.new.seals trail.old.sets trail.new.sets }
{
    let l = walk(seen, v.left as usize, tied, trail);
    let r = walk_right(seen, i, v, tied, trail);
    close(seen, i, v, l, r, tied, trail)
}

// Node c, leaf or step, with all under it.
#[cycle(walk_walk_right_walk_step)]
pub(crate) fn walk(seen: &Seen<'_>, c: usize, tied: &mut [u64; 64], trail: &mut Trail) -> Walked
    requires { Walking (night_held seen.now.file) seen.now.clear seen.now.sealed trail.old.seals trail.old.sets
        × (c < seen.now.file.header.nodes) × (tied.old ≡ untied) }
    ensures { (result ≡ walked_of (night_held seen.now.file) c) × (tied.new ≡ (table_of (night_held seen.now.file) c).tied)
        × Leaves (night_held seen.now.file) (Under (night_held seen.now.file) c)
        trail.old.seals trail.new.seals trail.old.sets trail.new.sets }
{
    let v = seen.file.node(c);
    if v.kind == night::LEAF {
        trail.seals[c] = v.set;
        trail.sets[c] = subjects::single(seen.file.relation(v.x as usize).owner);
        return Walked {
            columns: parts::leaf_columns(v),
            out: 0,
        };
    }
    walk_step(seen, c, v, tied, trail)
}
