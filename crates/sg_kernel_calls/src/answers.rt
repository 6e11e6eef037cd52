//! Who is answered when an activity ends.

ghost use Rattle.std.specs.Prelude.{◌≡◌, if◌then◌else◌};
ghost use Rattle.sg_kernel_calls.specs.Answers.{answer_to as answer_to_spec, answers, answers_side, for_receiver, tells_bytes as tells_bytes_spec};
ghost use Rattle.sg_kernel_calls.specs.World.{extent};
ghost use Rattle.sg_kernel_calls.specs.kept.Asks.{CanReply};
ghost use Rattle.sg_kernel_calls.specs.kept.Sound.{IsOwner, IsSide, StepsBy};
ghost use Rattle.sg_kernel_calls.specs.kept.Whole.{KeepsWhole};

use crate::meetings::bare_side;
use crate::simulation_state::Fields;
use sg_actor_states::{Blocking, State};
use sg_base::{Answer, Call, Msg, Party, Serial};
use sg_mailbox::{How, Side, Whose};

fn tells_bytes(what: Call) -> bool
    ensures { result ≡ tells_bytes_spec what }
{
    match what {
        Call::Send(..) | Call::Recv(_) => true,
        _ => false,
    }
}

// Returns how many of the bytes that came the record of a call reports.
fn bytes_told(what: Call, bytes: u64) -> u64
    ensures { result ≡ (if tells_bytes_spec what then bytes else 0) }
{
    if tells_bytes(what) { bytes } else { 0 }
}

// Returns the answer to a call, by how its activity ended.
fn answer_to(over: How, what: Call, msg: Msg) -> Answer
    ensures { result ≡ answer_to_spec over what msg }
{
    match over {
        How::Done => match what {
            Call::Recv(_) => Answer::Got(msg),
            _ => Answer::Done,
        },
        How::Failed => Answer::Failed,
    }
}

/// Answers the actor of an endpoint if it is blocked on this endpoint of this activity. The answer depends on how the
/// activity ended and on what the endpoint gives.
pub(crate) fn answer_side(fields: &mut Fields, over: How, serial: Serial, party: Party, given: Side)
    requires given { IsSide (extent fields.old.setup) given }
    requires able { CanReply fields.old }
    ensures known { StepsBy (answers_side over serial.0 party given) fields.old fields.new }
    ensures keeps { KeepsWhole fields.old fields.new }
{
    match fields.states.state(given.actor) {
        State::Blocked(what, since, Some(on)) if on.serial.0 == serial.0 && on.party == party => {
            let bytes = bytes_told(what, given.bytes);
            let answer = answer_to(over, what, given.msg);
            let date = fields.doing.date();
            let on = Some(on);
            let blocking = Blocking { what, since, on };
            fields
                .states
                .reply(given.actor, blocking, bytes, answer, date);
        }
        _ => {}
    }
}

/// Returns what a sender sent, for the receiver.
pub(crate) fn for_receiver(sender: Side, receiver: Side) -> Side
    ensures { result ≡ for_receiver sender receiver }
{
    Side {
        actor: receiver.actor,
        ..sender
    }
}

/// Answers the waiters of an activity that ended: of a communication the sender first, then the receiver.
pub fn answer_owners(fields: &mut Fields, over: How, serial: Serial, whose: Whose)
    requires whose { IsOwner (extent fields.old.setup) whose }
    requires able { CanReply fields.old }
    ensures known { StepsBy (answers over serial.0 whose) fields.old fields.new }
    ensures keeps { KeepsWhole fields.old fields.new }
{
    match whose {
        Whose::Alone(actor) => answer_side(fields, over, serial, Party::Alone, bare_side(actor)),
        Whose::Pair(sender, receiver) => {
            answer_side(fields, over, serial, Party::Sender, sender);
            let given = for_receiver(sender, receiver);
            answer_side(fields, over, serial, Party::Receiver, given);
        }
        Whose::Over(_) | Whose::Posted(..) => {}
    }
}
