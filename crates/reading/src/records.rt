// Refusals 5 to 7: relations, grants, owners' views.
ghost use Rattle.std.specs.Prelude.{◌<◌, ◌^◌, ◌≡◌, [], ◌∷◌};
ghost use Rattle.laws.specs.Trials.{trial, verdict};
ghost use Rattle.layout.specs.Held.{night_held};
ghost use Rattle.night.specs.Refusals.{number_of, said};
ghost use Rattle.trials.specs.Trials.{taken_before, left_trials, pair_seen, trials_of};
ghost use Rattle.trials.specs.declared.Section.TheVariants.{Relations, Grants, Owners};

use layout::PlanFile;
use night::refusals::{Reason, Refusal};
use rules::records;
use sets::attributes;

// One trial, which fails where `bad` holds.
#[tactic(auto, using(laws::proofs::Cases::cases), unfolding(laws::specs::Trials::verdict))]
pub(crate) fn tried(bad: bool, reason: Reason, place: usize) -> Result<(), Refusal>
    requires { place < 2 ^ 32 }
    ensures { said result ≡ verdict (trial bad (number_of reason) place ∷ []) tt }
{
    if bad {
        return Err(Refusal {
            reason,
            place: place as u32,
        });
    }
    Ok(())
}

// The attributes that the relations before i have.
fn taken_before(file: &PlanFile<'_>, i: usize) -> u64
    ensures { result ≡ taken_before (night_held file.now) i }
{
    let mut taken = 0;
    for j in 0..i {
        taken = attributes::union(taken, file.relation(j).set);
    }
    taken
}

// 5: relation i.
#[tactic(auto, unfolding(trials::specs::Trials::trials_of, format::specs::Layout::night_in))]
pub(crate) fn relation_tried(file: &PlanFile<'_>, i: usize) -> Result<(), Refusal>
    requires { i < 2 ^ 32 }
    ensures { said result ≡ verdict (trials_of (night_held file.now) Relations i) tt }
{
    let bad = records::relation_bad(file.header, taken_before(file, i), file.relation(i));
    tried(bad, Reason::BadRelation, i)
}

// 5: attributes left over after all relations.
#[tactic(auto, unfolding(format::specs::Layout::night_in))]
pub(crate) fn left_tried(file: &PlanFile<'_>) -> Result<(), Refusal>
    ensures { said result ≡ verdict (left_trials (night_held file.now)) tt }
{
    let n = file.header.relations as usize;
    tried(
        records::left_over(file.header, taken_before(file, n)),
        Reason::BadRelation,
        n,
    )
}

// 6: whether an earlier grant for the same pair of relation and subject shares a day with it.
#[tactic(auto, unfolding(trials::specs::Trials::pair_seen, laws::specs::First::somewhere))]
fn pair_seen(file: &PlanFile<'_>, i: usize) -> bool
    ensures { result ≡ pair_seen (night_held file.now) i }
{
    let g = file.grant(i);
    views::first_grant(file, g.relation, g.subject, g.first, g.last, i) < i
}

// 6: grant i, by itself and beside the earlier ones.
pub(crate) fn grant_tried(file: &PlanFile<'_>, i: usize) -> Result<(), Refusal>
    requires { i < 2 ^ 32 }
    ensures { said result ≡ verdict (trials_of (night_held file.now) Grants i) tt }
{
    let g = file.grant(i);
    let relation = file.relation(g.relation as usize);
    tried(
        records::grant_bad(file.header, relation.set, g),
        Reason::BadGrant,
        i,
    )?;
    tried(pair_seen(file, i), Reason::BadGrant, i)
}

// 7: the owner of relation i.
#[tactic(auto, unfolding(trials::specs::Trials::trials_of, format::specs::Layout::night_in))]
pub(crate) fn owner_tried(file: &PlanFile<'_>, i: usize) -> Result<(), Refusal>
    requires { i < file.now.header.relations }
    ensures { said result ≡ verdict (trials_of (night_held file.now) Owners i) tt }
{
    let v = file.relation(i);
    let view = views::view(file, file.header.day, v.owner, i as u8);
    tried(records::owner_bad(v, view.clear), Reason::BlindOwner, i)
}
