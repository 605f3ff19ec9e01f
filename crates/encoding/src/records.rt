// The header and the records of a plan file, each stored where it stands.
ghost use Rattle.std.specs.Prelude.{◌≡◌, ℕ, ◌+◌, ◌^◌, ◌<◌, ◌≤◌, List, length};
ghost use Rattle.encoding.specs.Stored.{Stored};
ghost use Rattle.laws.specs.BigEndian.{bytes};
ghost use Rattle.laws.proofs.BigEndian.{bytes_length};
ghost use Rattle.night.specs.Versions.{header_length, grant_length, node_length};
ghost use Rattle.format.specs.Layout.{header_bytes, relation_bytes, grant_bytes, node_bytes};
ghost use Rattle.writes.specs.Back.{HeaderFits, RelationFits, GrantFits, NodeFits};
ghost use Rattle.format.proofs.Written.{relation_long, grant_long, node_long};

use crate::sections::put;
use night::{Grant, Header, Node, Relation, versions};

// What stands in a file as so many bytes, by the file's version.
pub(crate) trait Record: Copy {
    ghost bytes_of: { ℕ → Self → List ℕ };

    ghost length_of: { ℕ → ℕ };

    ghost fits: { Self → Type 0 };

    fn length(version: u16) -> usize
        ensures { result ≡ length_of version };

    fn put(self, room: &mut [u8], at: usize, version: u16)
        requires { at + length_of version ≤ length room.old }
        ensures stored { Stored room.old room.new at (bytes_of version self) }
        ensures in_range { fits self };

    ghost one_length: { (version : ℕ) (x : Self) → length (bytes_of version x) ≡ length_of version };
}

impl Record for Relation {
    ghost bytes_of = { λ version v. relation_bytes v };

    ghost length_of = { λ version. 9 };

    ghost fits = { RelationFits };

    ghost one_length = { λ version v. relation_long v };

    fn length(_version: u16) -> usize {
        versions::RELATION_LENGTH
    }

    fn put(self, room: &mut [u8], at: usize, _version: u16) {
        room[at] = self.owner;
        put(room, at + 1, &self.set.to_be_bytes());
    }
}

impl Record for Grant {
    ghost bytes_of = { grant_bytes };

    ghost length_of = { grant_length };

    ghost fits = { GrantFits };

    ghost one_length = { grant_long };

    fn length(version: u16) -> usize {
        versions::grants_length(version, 1)
    }

    #[tactic(auto, using(format::proofs::Written::grant_least))]
    fn put(self, room: &mut [u8], at: usize, version: u16) {
        put(room, at, &[self.relation, self.subject]);
        put(room, at + 2, &self.clear.to_be_bytes());
        put(room, at + 10, &self.sealed.to_be_bytes());
        if versions::has_days(version) {
            put(room, at + 18, &self.first.to_be_bytes());
            put(room, at + 20, &self.last.to_be_bytes());
        }
    }
}

impl Record for Node {
    ghost bytes_of = { node_bytes };

    ghost length_of = { node_length };

    ghost fits = { NodeFits };

    ghost one_length = { node_long };

    fn length(version: u16) -> usize {
        versions::nodes_length(version, 1)
    }

    #[tactic(auto, using(format::proofs::Written::node_least))]
    fn put(self, room: &mut [u8], at: usize, version: u16) {
        let start = [
            self.kind,
            self.left,
            self.right,
            self.x,
            self.y,
            self.spare1,
            self.spare2,
            self.spare3,
        ];
        put(room, at, &start);
        put(room, at + 8, &self.set.to_be_bytes());
        put(room, at + 16, &self.needed.to_be_bytes());
        put(room, at + 24, &self.size.to_be_bytes());
        if versions::has_pairs(version) {
            put(room, at + 28, &[self.first, self.count]);
        }
    }
}

// A price.
impl Record for u32 {
    ghost bytes_of = { λ version v. bytes 4 v };

    ghost length_of = { λ version. 4 };

    ghost fits = { λ v. v < 2 ^ 32 };

    ghost one_length = { λ version v. bytes_length 4 v };

    fn length(_version: u16) -> usize {
        4
    }

    fn put(self, room: &mut [u8], at: usize, _version: u16) {
        put(room, at, &self.to_be_bytes());
    }
}

// The header, at the start: the mark, and what the version has.
#[tactic(auto, using(format::proofs::Written::header_least))]
pub(crate) fn put_header(room: &mut [u8], h: Header)
    requires { header_length h.version ≤ length room.old }
    ensures stored { Stored room.old room.new 0 (header_bytes h) }
    ensures in_range { HeaderFits h × (h.pairs < 256) }
{
    put(room, 0, b"AXP");
    put(room, 3, &h.version.to_be_bytes());
    put(room, 5, &[h.subjects, h.relations, h.attributes, h.nodes]);
    put(room, 9, &h.grants.to_be_bytes());
    put(room, 11, &h.steps.to_be_bytes());
    if versions::delivers(h.version) {
        put(room, 15, &[h.user]);
    }
    if versions::has_pairs(h.version) {
        put(room, 16, &[h.pairs]);
    }
    if versions::has_days(h.version) {
        put(room, 17, &h.day.to_be_bytes());
    }
}
