// The trials of the night, section by section.
ghost use Rattle.std.specs.Prelude.{◌<◌, ◌≤◌, ◌≡◌, ◌^◌, ◌++◌};
ghost use Rattle.laws.specs.Trials.{verdict};
ghost use Rattle.layout.specs.Held.{night_held};
ghost use Rattle.night.specs.Refusals.{said};
ghost use Rattle.reading.specs.HasVisible.{HasVisible};
ghost use Rattle.trials.specs.Trials.{count_in, trials_of, section, record_trials, tree_trials};

use crate::{nodes, prices, records};
use layout::PlanFile;
use night::Header;
use night::refusals::Refusal;
use trials::Section;

// How many records a section has.
#[tactic(auto, unfolding(trials::specs::Trials::count_in))]
fn records_in(h: Header, part: Section) -> usize
    ensures { (result ≡ count_in h part) × (result < 2 ^ 16) }
{
    match part {
        Section::Relations => h.relations as usize,
        Section::Grants => h.grants as usize,
        Section::Owners => h.relations as usize,
        Section::Nodes => h.nodes as usize,
        Section::Parents => nodes::parents_asked(h.nodes),
        Section::Prices => h.nodes as usize + h.subjects as usize,
    }
}

// The trials of record i of a section, where `visible` has what is visible after each node. The sections are an enum and no closures, since the definitions
// go by it (`trials_of`).
#[tactic(auto, unfolding(trials::specs::Trials::count_in))]
fn record_tried(
    file: &PlanFile<'_>,
    visible: &[u64],
    part: Section,
    i: usize,
) -> Result<(), Refusal>
    requires { (i < count_in file.now.header part) × (i < 2 ^ 16) × HasVisible (night_held file.now) visible.now }
    ensures { said result ≡ verdict (trials_of (night_held file.now) part i) tt }
{
    match part {
        Section::Relations => records::relation_tried(file, i),
        Section::Grants => records::grant_tried(file, i),
        Section::Owners => records::owner_tried(file, i),
        Section::Nodes => nodes::node_tried(file, visible, i),
        Section::Parents => nodes::parent_tried(file, i),
        Section::Prices => prices::prices_tried(file, i),
    }
}

// The trials of a section, its records in order.
fn section_tried(file: &PlanFile<'_>, visible: &[u64], part: Section) -> Result<(), Refusal>
    requires { HasVisible (night_held file.now) visible.now }
    ensures { said result ≡ verdict (section (night_held file.now) part) tt }
{
    let n = records_in(file.header, part);
    for i in 0..n {
        record_tried(file, visible, part, i)?;
    }
    Ok(())
}

// Relations, attributes left over, grants, owners' views.
fn records_tried(file: &PlanFile<'_>, visible: &[u64]) -> Result<(), Refusal>
    requires { HasVisible (night_held file.now) visible.now }
    ensures { said result ≡ verdict (record_trials (night_held file.now)) tt }
{
    section_tried(file, visible, Section::Relations)?;
    records::left_tried(file)?;
    section_tried(file, visible, Section::Grants)?;
    section_tried(file, visible, Section::Owners)
}

// Nodes, nodes without parent, prices.
fn tree_tried(file: &PlanFile<'_>, visible: &[u64]) -> Result<(), Refusal>
    requires { HasVisible (night_held file.now) visible.now }
    ensures { said result ≡ verdict (tree_trials (night_held file.now)) tt }
{
    section_tried(file, visible, Section::Nodes)?;
    section_tried(file, visible, Section::Parents)?;
    section_tried(file, visible, Section::Prices)
}

// All trials after the header's, which has visible to it that there are at most 64 nodes.
pub(crate) fn night_tried(file: &PlanFile<'_>) -> Result<(), Refusal>
    requires { file.now.header.nodes ≤ 64 }
    ensures { said result ≡ verdict (record_trials (night_held file.now) ++ tree_trials (night_held file.now)) tt }
{
    let visible = nodes::visible_sets(file);
    records_tried(file, &visible)?;
    tree_tried(file, &visible)
}
