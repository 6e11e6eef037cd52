//! Routes between points.
use sg_base::Links;

/// A route from a point to another, one way, over its links in order.
#[derive(Drop)]
pub struct PathRoute {
    pub from: u32,
    pub to: u32,
    pub links: Links,
}
