// The records that a file has whole: one test of its length stands for all fields, and each is a plain load.
ghost use Rattle.std.specs.Prelude.{◌≡◌, ◌+◌, ◌<◌, ◌≤◌, ◌^◌, length};
ghost use Rattle.format.specs.Layout.{relation_at, grant_at, node_at};

use crate::bytes;
use night::{Grant, Node, Relation, versions};

// A relation's record.
pub(crate) fn relation_in(file: &[u8], at: usize) -> Relation
    requires { at + 9 ≤ length file.now }
    ensures { result ≡ relation_at file.now at }
{
    Relation {
        owner: file[at],
        set: bytes::eight_in(file, at + 1),
    }
}

// A grant's record. Its days, which not every version has, are read first: a test between the loads of its sets would undo that each is one load.
pub(crate) fn grant_in(file: &[u8], at: usize, version: u16) -> Grant
    requires { (at + 18 ≤ length file.now) × (at < 2 ^ 30) }
    ensures { result ≡ grant_at version file.now at }
{
    let dated = versions::has_days(version);
    let first = bytes::two_or(dated, file, at + 18, 0);
    let last = bytes::two_or(dated, file, at + 20, 65535);
    Grant {
        relation: file[at],
        subject: file[at + 1],
        first,
        last,
        clear: bytes::eight_in(file, at + 2),
        sealed: bytes::eight_in(file, at + 10),
    }
}

// A node's record. Its last two bytes, which not every version has, are read as any byte is.
pub(crate) fn node_in(file: &[u8], at: usize, version: u16) -> Node
    requires { (at + 28 ≤ length file.now) × (at < 2 ^ 31) }
    ensures { result ≡ node_at version file.now at }
{
    let paired = versions::has_pairs(version);
    let first = bytes::byte_if(paired, file, at + 28);
    let count = bytes::byte_if(paired, file, at + 29);
    Node {
        kind: file[at],
        left: file[at + 1],
        right: file[at + 2],
        x: file[at + 3],
        y: file[at + 4],
        spare1: file[at + 5],
        spare2: file[at + 6],
        spare3: file[at + 7],
        set: bytes::eight_in(file, at + 8),
        needed: bytes::eight_in(file, at + 16),
        size: bytes::four_in(file, at + 24),
        first,
        count,
    }
}
