// Why a subject is out of a step: the walk works out the tables that it would take and make, each once and none before it is asked, and the
// first condition that fails is named.
ghost use Rattle.std.specs.Prelude.{◌<◌, ◌≡◌, true, false, not, None, [], ◌∷◌, ltb, length, if◌then◌else◌};
ghost use Rattle.laws.specs.Choose.{any_of};
ghost use Rattle.layout.specs.Held.{night_held};
ghost use Rattle.night.specs.Night.{node_of};
ghost use Rattle.night.specs.Kinds.{uses_right};
ghost use Rattle.night.specs.Promised.{Promised};
ghost use Rattle.night.specs.Views.{clear_of, sealed_of};
ghost use Rattle.model.specs.Ties.{untied, merged};
ghost use Rattle.model.specs.Tables.{least_view, table_of};
ghost use Rattle.model.specs.Reasons.{of_left, of_right, standing_by, standing};
ghost use Rattle.tables.specs.Columns.{columns_of};
ghost use Rattle.verdicts.specs.Refusals.{no_step};
ghost use Rattle.eligible.specs.Walk.{walked_of, right_of, Walking};

use crate::seen::Seen;
use crate::walk::{Trail, Walked};
use crate::{seen, ties, walk};
use layout::PlanFile;
use model::Out;
use night::{Node, View};
use tables::{Columns, may, parts};

// The right operand's columns, and by what its least view puts the subject out.
#[derive(Clone, Copy)]
struct Right {
    pub columns: Columns,
    pub out: Option<Out>,
}

// Whether a node is no step: no node at all, or a leaf.
#[tactic(auto, unfolding(verdicts::specs::Refusals::no_step, format::specs::Layout::night_in))]
fn no_step(file: &PlanFile<'_>, node: u32) -> bool
    ensures { result ≡ no_step (night_held file.now) node }
{
    file.header.nodes as u32 <= node || file.node(node as usize).kind == night::LEAF
}

// Whether the question is refused: for a node that is no step, or a subject that isn't there.
#[tactic(auto, unfolding(laws::specs::Choose::any_of))]
pub(crate) fn not_asked(file: &PlanFile<'_>, node: u32, subject: u32) -> bool
    ensures { result ≡ any_of (no_step (night_held file.now) node ∷ not (ltb subject file.now.header.subjects) ∷ []) }
{
    no_step(file, node) || file.header.subjects as u32 <= subject
}

// By the right operand's least view, where the step has one: it is asked with its own tied sets, before they are merged into the left one's.
fn stands_right(
    seen: &Seen<'_>,
    i: usize,
    v: Node,
    sees: View,
    tied: &mut [u64; 64],
    trail: &mut Trail,
) -> Right
    requires { Walking (night_held seen.now.file) seen.now.clear seen.now.sealed trail.old.seals trail.old.sets
        × (no_step (night_held seen.now.file) i ≡ false) × (v ≡ node_of (night_held seen.now.file) i) × (length tied.old ≡ 64) }
    ensures { (result.columns ≡ columns_of (right_of (night_held seen.now.file) i))
        × (tied.new ≡ (if uses_right v.kind then merged tied.old (right_of (night_held seen.now.file) i).tied 64 else tied.old))
        × (result.out ≡ (if uses_right v.kind
        then standing_by of_right (least_view v.needed (table_of (night_held seen.now.file) v.right)) sees.clear sees.sealed else None)) }
{
    if kinds::uses_right(v.kind) {
        let mut other = [0; 64];
        let r = walk::walk(seen, v.right as usize, &mut other, trail);
        let columns = r.columns;
        let least = parts::least_view(v.needed, columns);
        let out = may::standing_by(model::RIGHT, least, &other, sees.clear, sees.sealed);
        ties::merge(tied, &other);
        Right { columns, out }
    } else {
        Right {
            columns: parts::no_columns(),
            out: None,
        }
    }
}

// Whom the left operand's least view lets pass is asked by the right one's, and then by the result over both.
fn stands_later(
    seen: &Seen<'_>,
    i: usize,
    v: Node,
    l: Walked,
    sees: View,
    tied: &mut [u64; 64],
    trail: &mut Trail,
) -> Option<Out>
    requires { Walking (night_held seen.now.file) seen.now.clear seen.now.sealed trail.old.seals trail.old.sets
        × (no_step (night_held seen.now.file) i ≡ false) × (v ≡ node_of (night_held seen.now.file) i)
        × (l ≡ walked_of (night_held seen.now.file) v.left) × (tied.old ≡ (table_of (night_held seen.now.file) v.left).tied)
        × (standing_by of_left (least_view v.needed (table_of (night_held seen.now.file) v.left)) sees.clear sees.sealed ≡ None) }
    ensures { result ≡ standing (night_held seen.now.file) i sees.clear sees.sealed }
{
    let r = stands_right(seen, i, v, sees, tied, trail);
    // `let .. else`, a form that document 01 names, where a candidate goes on
    let by_right = r.out;
    let None = by_right else {
        return by_right;
    };
    let made = walk::close(seen, i, v, l, r.columns, tied, trail);
    may::standing_by(model::RESULT, made.columns, tied, sees.clear, sees.sealed)
}

// By the left operand's least view first: no other table is worked out where it puts the subject out.
fn stands_by(
    seen: &Seen<'_>,
    i: usize,
    sees: View,
    tied: &mut [u64; 64],
    trail: &mut Trail,
) -> Option<Out>
    requires { Walking (night_held seen.now.file) seen.now.clear seen.now.sealed trail.old.seals trail.old.sets
        × (no_step (night_held seen.now.file) i ≡ false) × (tied.old ≡ untied) }
    ensures { result ≡ standing (night_held seen.now.file) i sees.clear sees.sealed }
{
    let v = seen.file.node(i);
    let l = walk::walk(seen, v.left as usize, tied, trail);
    let least = parts::least_view(v.needed, l.columns);
    let by_left = may::standing_by(model::LEFT, least, tied, sees.clear, sees.sealed);
    let None = by_left else {
        return by_left;
    };
    stands_later(seen, i, v, l, sees, tied, trail)
}

// How a subject stands to step i of a checked file, by what it sees over all relations: by what it is out, or not at all.
pub(crate) fn stands(file: PlanFile<'_>, i: usize, subject: usize) -> Option<Out>
    requires { Promised (night_held file) × (no_step (night_held file) i ≡ false) × (subject < file.header.subjects) }
    ensures { result ≡ standing (night_held file.entry) i
        (clear_of (night_held file.entry) subject) (sealed_of (night_held file.entry) subject) }
{
    let (clear, sealed) = seen::all_seen(&file);
    let seen = Seen {
        file,
        clear,
        sealed,
    };
    let sees = View {
        clear: clear[subject],
        sealed: sealed[subject],
    };
    let mut tied = [0; 64];
    let mut trail = Trail {
        seals: [0; 64],
        sets: [0; 64],
    };
    stands_by(&seen, i, sees, &mut tied, &mut trail)
}
