//! What a program works with.
use std::alloc::Global;

/// The threads on which actors take their turns, and where memory is taken.
#[derive(Drop)]
pub struct Host<'a, R> {
    pub rt: &'a R,
    pub alloc: Global,
}
