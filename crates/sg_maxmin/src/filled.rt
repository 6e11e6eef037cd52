//! The result of a max-min solve of connected components.

/// The result of a max-min solve of some flows and resources: under the number of each flow its level, and under that
/// of each resource its hold.
#[derive(Clone, Copy)]
pub struct Filled<'a> {
    pub flows: &'a [usize],
    pub resources: &'a [usize],
    pub levels: &'a [Option<u64>],
    pub holds: &'a [Option<u64>],
}
