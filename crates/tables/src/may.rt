// Who may have a table.
ghost use Rattle.std.specs.Prelude.{ℕ, ◌<◌, ◌≡◌, true, false, List, MatchOption, slice_index};
ghost use Rattle.sets.specs.Sets.{union, minus, lowest};
ghost use Rattle.night.specs.Kinds.{attribute};
ghost use Rattle.model.specs.OneTest.{splits, passes_both};
ghost use Rattle.model.specs.Reasons.{standing_by};
ghost use Rattle.tables.specs.Columns.{with_tied};

use crate::Columns;
use model::Out;
use sets::attributes;

// Whether a set lies neither wholly in `clear` nor wholly in `sealed`.
#[tactic(auto, unfolding(model::specs::OneTest::splits))]
pub fn splits(set: u64, clear: u64, sealed: u64) -> bool
    ensures { result ≡ splits set clear sealed }
{
    !attributes::within(set, clear) && !attributes::within(set, sealed)
}

// Condition 1: what is visible or implicit in clear, and not in `clear`.
fn clear_offends(t: Columns, clear: u64) -> u64
    ensures { result ≡ minus (union t.clear t.tested) clear }
{
    attributes::minus(attributes::union(t.clear, t.tested), clear)
}

// Condition 2: what is visible or implicit sealed, and neither in `clear` nor in `sealed`.
fn sealed_offends(t: Columns, clear: u64, sealed: u64) -> u64
    ensures { result ≡ minus (union t.sealed t.hidden) (union clear sealed) }
{
    attributes::minus(
        attributes::union(t.sealed, t.hidden),
        attributes::union(clear, sealed),
    )
}

// Whether conditions 1 and 2 hold of a table.
#[tactic(auto, unfolding(model::specs::OneTest::passes_both, model::specs::Candidates::clear_offends, model::specs::Candidates::sealed_offends))]
pub fn passes_both(t: Columns, clear: u64, sealed: u64) -> bool
    ensures { (tied : List ℕ) → result ≡ passes_both (with_tied t tied) clear sealed }
{
    clear_offends(t, clear) == 0 && sealed_offends(t, clear, sealed) == 0
}

// Condition 3: of the tied sets that offend the one of the lowest attribute.
fn tied_offends(tied: &[u64; 64], clear: u64, sealed: u64) -> Option<u64>
    ensures { MatchOption result ((k : ℕ) → k < 64 → splits (slice_index tied.now k) clear sealed ≡ false)
        (λ set. (k : ℕ) × (k < 64) × (set ≡ slice_index tied.now k) × (splits set clear sealed ≡ true)
        × ((j : ℕ) → j < k → splits (slice_index tied.now j) clear sealed ≡ false)) }
{
    tied.iter().copied().find(|set| splits(*set, clear, sealed))
}

// The lowest attribute of a set, as a set.
#[tactic(auto, using(sets::proofs::Words::lowest_most))]
fn lowest_of(set: u64) -> u64
    ensures { result ≡ attribute (lowest 64 set) }
{
    attributes::single(attributes::lowest(set) as u8)
}

// How a subject stands by one table: out by the first of the three conditions that fails, named with the table's number, or not out.
#[tactic(auto, using(model::proofs::Reasons::by_first, model::proofs::Reasons::by_second, model::proofs::Reasons::by_none))]
pub fn standing_by(table: u8, t: Columns, tied: &[u64; 64], clear: u64, sealed: u64) -> Option<Out>
    ensures { result ≡ standing_by table (with_tied t tied.now) clear sealed }
{
    let first = clear_offends(t, clear);
    if first != 0 {
        return Some(Out {
            table,
            condition: 1,
            set: lowest_of(first),
        });
    }
    let second = sealed_offends(t, clear, sealed);
    if second != 0 {
        return Some(Out {
            table,
            condition: 2,
            set: lowest_of(second),
        });
    }
    let set = tied_offends(tied, clear, sealed)?;
    Some(Out {
        table,
        condition: 3,
        set,
    })
}
