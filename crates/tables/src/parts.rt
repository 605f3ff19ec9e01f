// Tables made of other tables: least views, operands joined, results. What is said of the columns holds whatever is tied.
ghost use Rattle.std.specs.Prelude.{ℕ, ◌≡◌, List, if◌then◌else◌};
ghost use Rattle.sets.specs.Sets.{union};
ghost use Rattle.night.specs.Night.{Night};
ghost use Rattle.night.specs.Kinds.{uses_right, visible_after};
ghost use Rattle.model.specs.Ties.{merged};
ghost use Rattle.model.specs.Tables.{blank, shown, least_view, tests, ties, tie_all, joined, result as result_table, leaf_table};
ghost use Rattle.tables.specs.Columns.{with_tied, columns_of};

use crate::Columns;
use night::Node;
use sets::attributes;

// No columns and no past: the name of the definition for what is derived.
pub fn no_columns() -> Columns
    ensures { result ≡ columns_of blank }
{
    Columns::default()
}

// A leaf's table: its set in clear.
#[tactic(auto, unfolding(model::specs::Tables::leaf_table))]
pub fn leaf_columns(v: Node) -> Columns
    ensures { result ≡ columns_of (leaf_table v) }
{
    Columns {
        clear: v.set,
        ..Columns::default()
    }
}

// All that is visible.
fn shown(t: Columns) -> u64
    ensures { result ≡ union t.clear t.sealed }
{
    attributes::union(t.clear, t.sealed)
}

// The least view: the needed attributes that are visible are clear, the other visible ones sealed.
#[tactic(auto, unfolding(model::specs::Tables::least_view))]
pub fn least_view(needed: u64, t: Columns) -> Columns
    ensures { (tied : List ℕ) → with_tied result tied ≡ least_view needed (with_tied t tied) }
{
    let visible = shown(t);
    Columns {
        clear: attributes::meet(needed, visible),
        sealed: attributes::minus(visible, needed),
        tested: t.tested,
        hidden: t.hidden,
    }
}

// Two operands' parts joined.
#[tactic(auto, unfolding(model::specs::Tables::joined))]
fn join(t: Columns, u: Columns) -> Columns
    ensures { (tied other : List ℕ) → with_tied result (merged tied other 64) ≡ joined (with_tied t tied) (with_tied u other) }
{
    Columns {
        clear: attributes::union(t.clear, u.clear),
        sealed: attributes::union(t.sealed, u.sealed),
        tested: attributes::union(t.tested, u.tested),
        hidden: attributes::union(t.hidden, u.hidden),
    }
}

// What the step adds to the implicit part.
#[tactic(auto, unfolding(model::specs::Tables::tests))]
fn tests(v: Node) -> u64
    ensures { result ≡ tests v }
{
    match v.kind {
        night::SELECT_VALUE => attributes::single(v.x),
        night::AGGREGATE | night::COUNT => v.set,
        _ => 0,
    }
}

// What the step has of its operands, of which `left` and `right` are the least views: both joined where there are two.
pub fn taken(v: Node, left: Columns, right: Columns) -> Columns
    ensures { (tied other : List ℕ)
        → result ≡ columns_of (if uses_right v.kind then joined (with_tied left tied) (with_tied right other) else with_tied left tied) }
{
    if kinds::uses_right(v.kind) {
        join(left, right)
    } else {
        left
    }
}

// The step's table over its operands' tables l and r, of which it has `taken`.
#[tactic(auto, unfolding(model::specs::Tables::result))]
pub fn made(v: Node, l: Columns, r: Columns, taken: Columns) -> Columns
    ensures { (N : Night) (tied other both : List ℕ)
        → with_tied result (tie_all both (ties N v))
        ≡ result_table N v (visible_after v (shown (with_tied l tied)) (shown (with_tied r other))) (with_tied taken both) }
{
    let after = kinds::visible_after(v, shown(l), shown(r));
    let tested = tests(v);
    Columns {
        clear: attributes::meet(taken.clear, after),
        sealed: attributes::meet(taken.sealed, after),
        tested: attributes::union(taken.tested, attributes::meet(tested, taken.clear)),
        hidden: attributes::union(taken.hidden, attributes::meet(tested, taken.sealed)),
    }
}
