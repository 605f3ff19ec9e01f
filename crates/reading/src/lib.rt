// Reading and checking a plan file: refusals 1 to 11 of document 01, in its order, on any bytes.
#![tactic(auto)]

mod header;
mod nodes;
mod prices;
mod records;
mod sections;

ghost use Rattle.std.specs.Prelude.{◌≡◌, IfOk, IfErr};
ghost use Rattle.night.specs.Refusals.{said};
ghost use Rattle.reading.specs.Answers.{grants_part, GrantsTold, NotTold};
ghost use Rattle.laws.specs.Trials.{verdict};
ghost use Rattle.format.specs.Layout.{header_of};
ghost use Rattle.trials.specs.Trials.{header_trials, check_of};

use layout::{PlanFile, places, values};
use night::Header;
use night::refusals::Refusal;

// The verdict on a file, for any bytes: the header's values where it is accepted, or the first refusal.
pub fn check(file: &[u8]) -> Result<Header, Refusal>
    ensures { said result ≡ check_of file.now }
{
    header::header_tried(file)?;
    let header = values::header(file);
    sections::night_tried(&PlanFile {
        bytes: file,
        header,
    })?;
    Ok(header)
}

// The verdict on a file's header and its length alone: 1 to 4, and 3 again. Whatever the records say, a file that passes has as many as its counts say.
pub fn check_header(file: &[u8]) -> Result<Header, Refusal>
    ensures { said result ≡ verdict (header_trials file.now) (header_of file.now) }
{
    header::header_tried(file)?;
    Ok(values::header(file))
}

// The part of the file that holds the grant records: empty with a refusal.
pub fn grant_records(file: &[u8]) -> &[u8]
    ensures { result.now ≡ grants_part (check_of file.now) file.now }
{
    grant_records_told(file).unwrap_or(&[])
}

// The same part, or the refusal.
pub fn grant_records_told(file: &[u8]) -> Result<&[u8], Refusal>
    ensures told { IfOk result (λ part. GrantsTold (check_of file.now) file.now part.now) }
    ensures refused { IfErr result (λ r. NotTold (check_of file.now) r) }
{
    let h = check(file)?;
    Ok(&file[places::grants_from(h)..places::nodes_from(h)])
}
