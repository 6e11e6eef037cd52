//! The requests of actors: communications that they started without waiting.
//! The type is `Requests`: `push` adds one, `take` removes the oldest, `let_go` releases all of an actor, and `awaited`
//! returns their activity ids.
//! It stands on `sg_base`, and on `sg_queues` for the order in which they came.
#![tactic(auto)]

mod requests;
mod serials;

pub use requests::Requests;
