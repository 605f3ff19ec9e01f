// The bytes of a plan file from its values.
#![tactic(auto)]

mod records;
mod sections;
pub mod values;

ghost use Rattle.std.specs.Prelude.{◌≡◌, false, ◌≤◌, length};
ghost use Rattle.laws.specs.Trials.{verdict};
ghost use Rattle.night.specs.Refusals.{said};
ghost use Rattle.writes.specs.Values.{file_bytes};
ghost use Rattle.encoding.specs.Stored.{Stored};
ghost use Rattle.format.specs.Layout.{file_length};
ghost use Rattle.trials.specs.Rules.{counts_bad};
ghost use Rattle.writes.specs.Writing.{miscounted, count_trials};
ghost use Rattle.writes.specs.Back.{ValuesFit};
ghost use Rattle.encoding.specs.Encoded.{EncodedSays, values_of, longest};

use layout::places;
use night::refusals::{Reason, Refusal};
use night::versions;
use rules::records as records_of;
use values::Values;

// The length of the longest file.
pub const LONGEST: usize = 13_697;

// The file of these values, with zeros behind it; or the first of 2, 4 and 3 that refuses them, at place 0.
pub fn encode(values: &Values<'_>) -> Result<[u8; LONGEST], Refusal>
    ensures { EncodedSays (values_of values.now) result }
{
    tried(values)?;
    let mut file = [0u8; LONGEST];
    put_all(&mut file, values);
    Ok(file)
}

// Refused by an unknown version, by counts outside their limits, or by values that are not as many as the counts say.
fn tried(values: &Values<'_>) -> Result<(), Refusal>
    ensures { said result ≡ verdict (count_trials (values_of values.now)) tt }
{
    let reason = if !versions::known(values.header.version) {
        Reason::UnknownVersion
    } else if records_of::counts_bad(values.header) {
        Reason::BadCounts
    } else if miscounted(values) {
        Reason::WrongLength
    } else {
        return Ok(());
    };
    Err(Refusal { reason, place: 0 })
}

// Whether there are not as many records, bytes of pairs and prices as the counts say.
fn miscounted(values: &Values<'_>) -> bool
    ensures { result ≡ miscounted (values_of values.now) }
{
    let h = values.header;
    let there = [
        values.relations.len(),
        values.grants.len(),
        values.nodes.len(),
        values.pairs.len(),
        values.step_prices.len(),
        values.link_prices.len(),
    ];
    let counted = [
        h.relations as usize,
        h.grants as usize,
        h.nodes as usize,
        versions::PAIR_LENGTH * places::pairs_in(h),
        places::step_prices(h),
        places::link_prices(h),
    ];
    there != counted
}

// Every section of the file, where it stands.
fn put_all(room: &mut [u8], values: &Values<'_>)
    requires counts { counts_bad values.now.header ≡ false }
    requires as_many { miscounted (values_of values.now) ≡ false }
    requires room { length room.old ≡ longest }
    ensures stored { Stored room.old room.new 0 (file_bytes (values_of values.now)) }
    ensures in_range { ValuesFit (values_of values.now) }
    ensures within { file_length values.now.header ≤ longest }
{
    let h = values.header;
    let version = h.version;
    records::put_header(room, h);
    sections::put_records(
        room,
        versions::header_length(version),
        values.relations,
        version,
    );
    sections::put_records(room, places::grants_from(h), values.grants, version);
    sections::put_records(room, places::nodes_from(h), values.nodes, version);
    sections::put(room, places::pairs_from(h), values.pairs);
    sections::put_records(
        room,
        places::step_prices_from(h),
        values.step_prices,
        version,
    );
    sections::put_records(
        room,
        places::link_prices_from(h),
        values.link_prices,
        version,
    );
}
