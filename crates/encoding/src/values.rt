// The values that a plan file is made of.
use night::{Grant, Header, Node, Relation};

// The values of a plan file, lent: records in the file's order, pairs as they stand in it, two bytes each, prices row after row. There should be as many
// of each as the header's counts say.
#[derive(Clone, Copy)]
pub struct Values<'a> {
    pub header: Header,
    pub relations: &'a [Relation],
    pub grants: &'a [Grant],
    pub nodes: &'a [Node],
    pub pairs: &'a [u8],
    pub step_prices: &'a [u32],
    pub link_prices: &'a [u32],
}
