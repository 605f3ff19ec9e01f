// The records of a file that ends before they do. Such a file is refused by its length, so nothing is gained by reading only the one that is asked.
ghost use Rattle.std.specs.Prelude.{◌≡◌, ◌<◌, ◌^◌};
ghost use Rattle.format.specs.Layout.{relation_at, grant_at, node_at};

use crate::{bytes, whole};
use night::{Grant, Node, Relation};

// What stands at a place, as each kind of record. One function for all three stays out of line, and leaves the readers of whole records small.
#[derive(Clone, Copy)]
pub(crate) struct Records {
    pub(crate) relation: Relation,
    pub(crate) grant: Grant,
    pub(crate) node: Node,
}

// The records at `at`, in this version.
pub(crate) fn all_at(file: &[u8], at: usize, version: u16) -> Records
    requires { at < 2 ^ 31 }
    ensures { (result.relation ≡ relation_at file.now at)
        × (result.grant ≡ grant_at version file.now at)
        × (result.node ≡ node_at version file.now at) }
{
    let bytes = bytes::padded(file, at);
    let part = &bytes[..30];
    Records {
        relation: whole::relation_in(part, 0),
        grant: whole::grant_in(part, 0, version),
        node: whole::node_in(part, 0, version),
    }
}
