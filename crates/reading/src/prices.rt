// Refusal 11: prices.
ghost use Rattle.std.specs.Prelude.{◌+◌, ◌<◌, ◌≡◌};
ghost use Rattle.laws.specs.Trials.{verdict};
ghost use Rattle.layout.specs.Held.{night_held};
ghost use Rattle.night.specs.Refusals.{said};
ghost use Rattle.trials.specs.Trials.{price_in, most_in, trials_of};
ghost use Rattle.trials.specs.declared.Section.TheVariants.{Prices};

use crate::records::tried;
use layout::PlanFile;
use night::refusals::{Reason, Refusal};
use rules::records;

// The price in row i and column p, the rows of step prices first.
#[tactic(auto, using(laws::proofs::Cases::cases), unfolding(trials::specs::Trials::price_in, format::specs::Layout::night_in))]
fn price_in(file: &PlanFile<'_>, i: usize, p: usize) -> u32
    ensures { result ≡ price_in (night_held file.now) i p }
{
    let n = file.header.nodes as usize;
    if i < n {
        file.step_price(i, p)
    } else {
        file.link_price(i - n, p)
    }
}

// The most that this price may be.
#[tactic(auto, using(laws::proofs::Cases::cases), unfolding(trials::specs::Trials::most_in, format::specs::Layout::night_in))]
fn most_in(file: &PlanFile<'_>, i: usize, p: usize) -> u32
    ensures { result ≡ most_in (night_held file.now) i p }
{
    let n = file.header.nodes as usize;
    if i < n {
        records::most_for_step(file.node(i).kind)
    } else {
        records::most_for_link(i - n, p)
    }
}

// 11: the prices in row i.
pub(crate) fn prices_tried(file: &PlanFile<'_>, i: usize) -> Result<(), Refusal>
    requires { i < file.now.header.nodes + file.now.header.subjects }
    ensures { said result ≡ verdict (trials_of (night_held file.now) Prices i) tt }
{
    let n = file.header.subjects as usize;
    for p in 0..n {
        let bad = most_in(file, i, p) < price_in(file, i, p);
        tried(bad, Reason::BadPrice, i * n + p)?;
    }
    Ok(())
}
