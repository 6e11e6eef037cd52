//! Mailboxes: sends and receives that wait for each other; and who waits for each activity.
//! `Boxes`: `look` returns whom an arriving endpoint matches, `enter` adds it or removes its match.
//! `Owners` has the waiters of each activity: an actor, the endpoint of a communication or both, or nobody once it completed
//! or failed. `push` and `put` set them, `of` returns them, `fail` and `take` end the activity.
//! It stands on `sg_base`, and on `sg_queues` for the queues and for values by activity id.
#![tactic(auto)]

mod box_queues;
mod boxes;
mod owners;
mod sides;

pub use boxes::Boxes;
pub use owners::{How, Owners, Whose};
pub use sides::{Found, Meeting, Post, Side};
