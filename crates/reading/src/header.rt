// Refusals 1 to 4: the header and the file's length.
ghost use Rattle.std.specs.Prelude.{◌≡◌};
ghost use Rattle.laws.specs.Trials.{verdict};
ghost use Rattle.night.specs.Refusals.{said};
ghost use Rattle.trials.specs.Trials.{not_marked, not_versioned, header_trials};

use crate::records::tried;
use layout::{places, values};
use night::refusals::{Reason, Refusal};
use night::versions;
use rules::records;

// 1: whether the mark is missing.
#[tactic(auto, using(laws::proofs::Cases::cases), unfolding(trials::specs::Trials::not_marked, laws::specs::Choose::any_of))]
fn not_marked(file: &[u8]) -> bool
    ensures { result ≡ not_marked file.now }
{
    file.len() < 3 || file[0] != b'A' || file[1] != b'X' || file[2] != b'P'
}

// 2: whether the version is missing or unknown.
#[tactic(auto, using(laws::proofs::Cases::cases), unfolding(trials::specs::Trials::not_versioned, laws::specs::Choose::any_of))]
fn not_versioned(file: &[u8]) -> bool
    ensures { result ≡ not_versioned file.now }
{
    file.len() < 5 || !versions::known(values::header(file).version)
}

// The header's trials: 3 is asked before 4 of the header itself, and after 4 of the whole file.
pub(crate) fn header_tried(file: &[u8]) -> Result<(), Refusal>
    ensures { said result ≡ verdict (header_trials file.now) tt }
{
    tried(not_marked(file), Reason::NoMark, 0)?;
    tried(not_versioned(file), Reason::UnknownVersion, 0)?;
    let h = values::header(file);
    let cut = file.len() < versions::header_length(h.version);
    tried(cut, Reason::WrongLength, 0)?;
    tried(records::counts_bad(h), Reason::BadCounts, 0)?;
    tried(file.len() != places::file_length(h), Reason::WrongLength, 0)
}
