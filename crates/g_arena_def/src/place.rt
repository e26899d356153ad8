//! The places of regions.

/// The place of a region: the body where `node` is None, `region` then being 0, and else the region
/// of that number, counted from 0, of the node of that number.
#[derive(Clone, Copy, PartialEq, Eq, Hash, Debug)]
pub struct Place {
    pub node: Option<u32>,
    pub region: u32,
}
