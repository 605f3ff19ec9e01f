// A plan file: the caller's bytes with the header's values, which say where each record stands. Any bytes and any values make one.
// A record past its section is all zeros. A file that is too short for a record is handed on by a copy of the reference, `here`: its address and length then
// stay in registers elsewhere.
ghost use Rattle.std.specs.Prelude.{◌≡◌, ◌<◌, ◌+◌, ◌*◌, ◌^◌, ltb};
ghost use Rattle.laws.specs.First.{first};
ghost use Rattle.format.specs.Layout.{relation_at, grant_at, node_at, pair_at, nth_price, nodes_from};
ghost use Rattle.night.specs.Versions.{node_length};
ghost use Rattle.night.specs.Night.{relation_of, grant_of, node_of, pair_of, step_price, link_price};
ghost use Rattle.layout.specs.Held.{night_held};

use crate::{bytes, places, short, whole};
use night::{Grant, Header, Node, Pair, Relation, versions};

#[derive(Clone, Copy)]
pub struct PlanFile<'a> {
    pub bytes: &'a [u8],
    pub header: Header,
}

impl<'a> PlanFile<'a> {
    // Relation i.
    pub fn relation(&self, i: usize) -> Relation
        ensures { result ≡ relation_of (night_held self.now) i }
    {
        let h = self.header;
        if h.relations as usize <= i {
            return Relation::default();
        }
        relation_at(
            self.bytes,
            versions::header_length(h.version) + versions::RELATION_LENGTH * i,
        )
    }

    // Grant i. (Each record has its place, its length and its definition: a trait would say as much once more for each.)
    pub fn grant(&self, i: usize) -> Grant
        ensures { result ≡ grant_of (night_held self.now) i }
    {
        let h = self.header;
        if h.grants as usize <= i {
            return Grant::default();
        }
        grant_at(
            self.bytes,
            places::grants_from(h) + versions::grants_length(h.version, i as u16),
            h.version,
        )
    }

    // Node i.
    pub fn node(&self, i: usize) -> Node
        ensures { result ≡ node_of (night_held self.now) i }
    {
        let h = self.header;
        if h.nodes as usize <= i {
            return Node::default();
        }
        node_at(
            self.bytes,
            places::nodes_from(h) + versions::nodes_length(h.version, i as u8),
            h.version,
        )
    }

    // The kind of node i alone, for a caller that asks no more of it: the whole node goes through memory where it has several callers. The same of the six fields below.
    pub fn kind(&self, i: usize) -> u8
        ensures { result ≡ (node_of (night_held self.now) i).kind }
    {
        let h = self.header;
        if h.nodes as usize <= i {
            return 0;
        }
        bytes::byte(self.bytes, node_from(h, i))
    }

    // The left operand of node i.
    pub fn left(&self, i: usize) -> u8
        ensures { result ≡ (node_of (night_held self.now) i).left }
    {
        let h = self.header;
        if h.nodes as usize <= i {
            return 0;
        }
        bytes::byte(self.bytes, node_from(h, i) + 1)
    }

    // The right operand of node i.
    pub fn right(&self, i: usize) -> u8
        ensures { result ≡ (node_of (night_held self.now) i).right }
    {
        let h = self.header;
        if h.nodes as usize <= i {
            return 0;
        }
        bytes::byte(self.bytes, node_from(h, i) + 2)
    }

    // The number x of node i: at a leaf its relation.
    pub fn x(&self, i: usize) -> u8
        ensures { result ≡ (node_of (night_held self.now) i).x }
    {
        let h = self.header;
        if h.nodes as usize <= i {
            return 0;
        }
        bytes::byte(self.bytes, node_from(h, i) + 3)
    }

    // The set of node i.
    pub fn set(&self, i: usize) -> u64
        ensures { result ≡ (node_of (night_held self.now) i).set }
    {
        let h = self.header;
        if h.nodes as usize <= i {
            return 0;
        }
        bytes::eight(self.bytes, node_from(h, i) + 8)
    }

    // What node i needs in clear.
    pub fn needed(&self, i: usize) -> u64
        ensures { result ≡ (node_of (night_held self.now) i).needed }
    {
        let h = self.header;
        if h.nodes as usize <= i {
            return 0;
        }
        bytes::eight(self.bytes, node_from(h, i) + 16)
    }

    // The size of node i.
    pub fn size(&self, i: usize) -> u32
        ensures { result ≡ (node_of (night_held self.now) i).size }
    {
        let h = self.header;
        if h.nodes as usize <= i {
            return 0;
        }
        bytes::four(self.bytes, node_from(h, i) + 24)
    }

    // Pair i.
    pub fn pair(&self, i: usize) -> Pair
        ensures { result ≡ pair_of (night_held self.now) i }
    {
        let h = self.header;
        if places::pairs_in(h) <= i {
            return Pair::default();
        }
        pair_at(
            self.bytes,
            places::pairs_from(h) + versions::PAIR_LENGTH * i,
        )
    }

    // Price i of all, step prices first.
    pub fn price(&self, i: usize) -> u32
        ensures { result ≡ nth_price self.now.bytes.now self.now.header i }
    {
        let h = self.header;
        if places::prices(h) <= i {
            return 0;
        }
        bytes::four(self.bytes, places::step_prices_from(h) + 4 * i)
    }

    // The price of node i done by subject p.
    pub fn step_price(&self, i: usize, p: usize) -> u32
        ensures { result ≡ step_price (night_held self.now) i p }
    {
        let h = self.header;
        if h.nodes as usize <= i || h.subjects as usize <= p {
            return 0;
        }
        self.price(cell(h, i, p))
    }

    // The price of the link from subject p to subject q.
    pub fn link_price(&self, p: usize, q: usize) -> u32
        ensures { result ≡ link_price (night_held self.now) p q }
    {
        let h = self.header;
        if h.subjects as usize <= p || h.subjects as usize <= q {
            return 0;
        }
        self.price(places::step_prices(h) + cell(h, p, q))
    }

    // In row i of all prices, the rows of step prices first, the first column whose price is over `most`, or how many columns there are.
    pub fn first_over(&self, i: usize, most: u32) -> usize
        ensures { result ≡ first (λ p. ltb most (nth_price self.now.bytes.now self.now.header (i * self.now.header.subjects + p))) self.now.header.subjects }
    {
        let h = self.header;
        let n = h.subjects as usize;
        if h.nodes as usize + n <= i {
            return n;
        }
        // one test of the length stands for the whole row
        let at = places::step_prices_from(h) + 4 * cell(h, i, 0);
        if at + 4 * n <= self.bytes.len() {
            return bytes::first_over_in(self.bytes, at, n, most);
        }
        for p in 0..n {
            if most < self.price(cell(h, i, p)) {
                return p;
            }
        }
        n
    }
}

// Where node i stands, for any that a file can have.
fn node_from(h: Header, i: usize) -> usize
    requires { i < 256 }
    ensures { (result ≡ nodes_from h + node_length h.version * i) × (result < 1_600_000) }
{
    places::nodes_from(h) + versions::nodes_length(h.version, i as u8)
}

// A relation's record.
fn relation_at(file: &[u8], at: usize) -> Relation
    requires { at < 2 ^ 31 }
    ensures { result ≡ relation_at file.now at }
{
    if file.len() < at + versions::RELATION_LENGTH {
        let here = file;
        return short::all_at(here, at, 0).relation;
    }
    whole::relation_in(file, at)
}

// A grant's record.
fn grant_at(file: &[u8], at: usize, version: u16) -> Grant
    requires { at < 2 ^ 30 }
    ensures { result ≡ grant_at version file.now at }
{
    if file.len() < at + versions::GRANT_START {
        let here = file;
        return short::all_at(here, at, version).grant;
    }
    whole::grant_in(file, at, version)
}

// A node's record.
fn node_at(file: &[u8], at: usize, version: u16) -> Node
    requires { at < 2 ^ 31 }
    ensures { result ≡ node_at version file.now at }
{
    if file.len() < at + versions::NODE_START {
        let here = file;
        return short::all_at(here, at, version).node;
    }
    whole::node_in(file, at, version)
}

// A pair's record.
fn pair_at(file: &[u8], at: usize) -> Pair
    requires { at < 2 ^ 31 }
    ensures { result ≡ pair_at file.now at }
{
    Pair {
        left: bytes::byte(file, at),
        right: bytes::byte(file, at + 1),
    }
}

// The number of the price in row i and column p of a table that has a column for each subject.
fn cell(h: Header, i: usize, p: usize) -> usize
    requires { (i < 511) × (p < 256) }
    ensures { (result ≡ i * h.subjects + p) × (result < 131_072) }
{
    i * (h.subjects as usize) + p
}
