//! The types that every layer of the simulator uses: identifiers, calls, actions, answers, records, exit statuses,
//! texts, lists, sets of small numbers, and the counter of visits.
//! An actor's turn ends in a `Call`, which is answered by an `Answer`; `Steps` counts visits.
//! It stands on std alone.
#![tactic(auto)]

mod actors;
mod awaits;
mod call;
mod ids;
mod laws;
mod links;
mod marks;
mod memory;
mod status;
mod steps;
mod text;
mod trace_record;

pub use actors::Ids;
pub use awaits::{Await, Party};
pub use call::{Action, Answer, Call, Msg};
pub use ids::{ActorId, BoxId, Child, LinkId, PointId, Serial, ZoneId};
pub use laws::{draws_are_small, turns_keep_limits};
pub use links::Links;
pub use marks::Marks;
pub use memory::Memory;
pub use status::Status;
pub use steps::Steps;
pub use text::Text;
pub use trace_record::{End, Record};
