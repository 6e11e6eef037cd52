//! What is seen of a use.

/// One flow's use of one resource, with the numbers of the next use of the same flow and of the next one on the
/// same resource, each None at the last.
#[derive(Clone, Copy)]
pub struct Use {
    pub flow: usize,
    pub resource: usize,
    pub next_of_flow: Option<usize>,
    pub next_on: Option<usize>,
}
