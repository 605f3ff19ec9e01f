// Writing a plan file: from its values, as reading gives them, into lent room. Any values may come in; a refusal writes nothing.
#![tactic(auto)]

ghost use Rattle.std.specs.Prelude.{◌≡◌, ◌<◌, ℕ, length, get_or};
ghost use Rattle.night.specs.Night.{relation_of, grant_of, node_of, no_relation, no_grant, no_node};
ghost use Rattle.format.specs.Layout.{nth_price};
ghost use Rattle.layout.specs.Held.{night_held};
ghost use Rattle.encoding.specs.Encoded.{values_of};
ghost use Rattle.writing.specs.Answers.{WriteSays, RewriteSays, JudgedSays};

use encoding::values::Values;
use layout::{PlanFile, places};
use night::refusals::{Reason, Refusal};
use night::{Grant, Node, Relation};

// The most records of each kind that a file may have, and the most prices: a step price for each node and subject, a link price for each two subjects.
const MOST_RELATIONS: usize = 16;

const MOST_GRANTS: usize = 272;

const MOST_NODES: usize = 64;

const MOST_PRICES: usize = 1280;

// The file of these values, written into the room. Says how many bytes it has.
// A field that the version doesn't have is dropped without a word. So is a user with version 1: that file is never refused with 17, and delivers to nobody.
pub fn write(values: &Values<'_>, room: &mut [u8]) -> Result<usize, Refusal>
    ensures { WriteSays (values_of values.now) room.old room.new result }
{
    let file = encoding::encode(values)?;
    let end = places::file_length(values.header);
    judged(&file[..end], room)
}

// A file as reading judges it, and then copied to the front of the room, where that is long enough; what lies beyond stays.
fn judged(file: &[u8], room: &mut [u8]) -> Result<usize, Refusal>
    ensures { JudgedSays file.now room.old room.new result }
{
    reading::check(file)?;
    let end = file.len();
    if room.len() < end {
        return Err(Refusal {
            reason: Reason::ShortRoom,
            place: 4,
        });
    }
    room[..end].copy_from_slice(file);
    Ok(end)
}

// The relations of a file, as many as one may have. (An array by a closure over this and the next three is no plainer: what is promised of its entries unfolds
// once for each.)
fn relations(file: &PlanFile<'_>) -> [Relation; MOST_RELATIONS]
    ensures long { length result ≡ 16 }
    ensures each { (k : ℕ) → k < 16 → get_or result k no_relation ≡ relation_of (night_held file.now) k }
{
    let mut all = [Relation::default(); MOST_RELATIONS];
    for i in 0..MOST_RELATIONS {
        all[i] = file.relation(i);
    }
    all
}

// The grants.
fn grants(file: &PlanFile<'_>) -> [Grant; MOST_GRANTS]
    ensures long { length result ≡ 272 }
    ensures each { (k : ℕ) → k < 272 → get_or result k no_grant ≡ grant_of (night_held file.now) k }
{
    let mut all = [Grant::default(); MOST_GRANTS];
    for i in 0..MOST_GRANTS {
        all[i] = file.grant(i);
    }
    all
}

// The nodes.
fn nodes(file: &PlanFile<'_>) -> [Node; MOST_NODES]
    ensures long { length result ≡ 64 }
    ensures each { (k : ℕ) → k < 64 → get_or result k no_node ≡ node_of (night_held file.now) k }
{
    let mut all = [Node::default(); MOST_NODES];
    for i in 0..MOST_NODES {
        all[i] = file.node(i);
    }
    all
}

// The prices, step prices first.
fn prices(file: &PlanFile<'_>) -> [u32; MOST_PRICES]
    ensures long { length result ≡ 1280 }
    ensures each { (k : ℕ) → k < 1280 → get_or result k 0 ≡ nth_price file.now.bytes.now file.now.header k }
{
    let mut all = [0; MOST_PRICES];
    for i in 0..MOST_PRICES {
        all[i] = file.price(i);
    }
    all
}

// The values of a file, as they stand in it, written again. A file whose header is refused has no values.
pub fn rewrite(file: &[u8], room: &mut [u8]) -> Result<usize, Refusal>
    ensures { RewriteSays file.now room.old room.new result }
{
    let header = reading::check_header(file)?;
    let held = PlanFile {
        bytes: file,
        header,
    };
    let every_relation = relations(&held);
    let every_grant = grants(&held);
    let every_node = nodes(&held);
    let every_price = prices(&held);
    let relations = &every_relation[..header.relations as usize];
    let grants = &every_grant[..header.grants as usize];
    let nodes = &every_node[..header.nodes as usize];
    let pairs = &file[places::pairs_from(header)..places::step_prices_from(header)];
    let steps = places::step_prices(header);
    let step_prices = &every_price[..steps];
    let link_prices = &every_price[steps..steps + places::link_prices(header)];
    let values = Values {
        header,
        relations,
        grants,
        nodes,
        pairs,
        step_prices,
        link_prices,
    };
    write(&values, room)
}
