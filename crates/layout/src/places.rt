// Where the sections of a plan file start.
ghost use Rattle.std.specs.Prelude.{◌≡◌, ◌<◌, ◌+◌, ◌*◌};
ghost use Rattle.format.specs.Layout.{grants_from, nodes_from, pairs_from, pairs_in, step_prices_from, link_prices_from, file_length};

use night::{Header, versions};

// Where the grants start.
#[tactic(auto, unfolding(format::specs::Layout::grants_from))]
pub fn grants_from(h: Header) -> usize
    ensures { (result ≡ grants_from h) × (result < 2400) }
{
    versions::header_length(h.version) + versions::RELATION_LENGTH * (h.relations as usize)
}

// Where the nodes start.
#[tactic(auto, unfolding(format::specs::Layout::nodes_from))]
pub fn nodes_from(h: Header) -> usize
    ensures { (result ≡ nodes_from h) × (result < 1_510_000) }
{
    grants_from(h) + versions::grants_length(h.version, h.grants)
}

// Where the pairs start.
#[tactic(auto, unfolding(format::specs::Layout::pairs_from))]
pub fn pairs_from(h: Header) -> usize
    ensures { (result ≡ pairs_from h) × (result < 1_550_000) }
{
    nodes_from(h) + versions::nodes_length(h.version, h.nodes)
}

// How many pairs there are.
#[tactic(auto, unfolding(format::specs::Layout::pairs_in))]
pub fn pairs_in(h: Header) -> usize
    ensures { (result ≡ pairs_in h) × (result < 256) }
{
    if versions::has_pairs(h.version) {
        h.pairs as usize
    } else {
        0
    }
}

// Where the step prices start.
#[tactic(auto, unfolding(format::specs::Layout::step_prices_from))]
pub fn step_prices_from(h: Header) -> usize
    ensures { (result ≡ step_prices_from h) × (result < 1_600_000) }
{
    pairs_from(h) + versions::PAIR_LENGTH * pairs_in(h)
}

// How many step prices there are.
pub fn step_prices(h: Header) -> usize
    ensures { (result ≡ h.nodes * h.subjects) × (result < 65_536) }
{
    product(h.nodes, h.subjects)
}

// How many link prices there are.
pub fn link_prices(h: Header) -> usize
    ensures { (result ≡ h.subjects * h.subjects) × (result < 65_536) }
{
    product(h.subjects, h.subjects)
}

// How many prices there are.
pub(crate) fn prices(h: Header) -> usize
    ensures { (result ≡ h.nodes * h.subjects + h.subjects * h.subjects) × (result < 131_072) }
{
    step_prices(h) + link_prices(h)
}

// Where the link prices start.
#[tactic(auto, unfolding(format::specs::Layout::link_prices_from))]
pub fn link_prices_from(h: Header) -> usize
    ensures { (result ≡ link_prices_from h) × (result < 1_900_000) }
{
    step_prices_from(h) + 4 * step_prices(h)
}

// Where the file ends.
#[tactic(auto, unfolding(format::specs::Layout::file_length))]
pub fn file_length(h: Header) -> usize
    ensures { result ≡ file_length h }
{
    link_prices_from(h) + 4 * link_prices(h)
}

// The product of two counts.
fn product(a: u8, b: u8) -> usize
    ensures { (result ≡ a * b) × (result < 65_536) }
{
    (a as usize) * (b as usize)
}
