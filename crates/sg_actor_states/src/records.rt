//! Records of calls that are answered.
ghost use Rattle.std.specs.Prelude.{◌≡◌};
ghost use Rattle.sg_actor_states.specs.Records.{end_by as end_by_spec, record_of as record_of_spec};

use sg_base::{ActorId, Answer, Call, End, Record};

// Returns how a call ended that had its answer after so many nanoseconds.
fn end_by(answer: Answer, ns: u128) -> End
    ensures { result ≡ end_by_spec answer ns }
{
    match answer {
        Answer::Start | Answer::Act(_) | Answer::NoMore | Answer::Done | Answer::Got(_) => {
            End::Done(ns)
        }
        Answer::Refused => End::Refused,
        Answer::Failed => End::Failed,
    }
}

/// Returns the record of a call that was made at the date `since` and is answered now.
pub(crate) fn record_of(
    actor: ActorId,
    what: Call,
    since: u128,
    bytes: u64,
    answer: Answer,
    now: u128,
) -> Record
    ensures { result ≡ record_of_spec actor.0 what since bytes answer now }
{
    Record {
        actor,
        date: now,
        what,
        bytes,
        end: end_by(answer, now.saturating_sub(since)),
    }
}
