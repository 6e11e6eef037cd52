//! How a call is answered.

ghost use Rattle.std.specs.Prelude.{◌≡◌};
ghost use Rattle.sg_kernel_calls.specs.Calls.{answered};
ghost use Rattle.sg_kernel_calls.specs.Meetings.{comer_of};
ghost use Rattle.sg_kernel_calls.specs.Roads.{AreOver};
ghost use Rattle.sg_kernel_calls.specs.kept.Sound.{core_of};
ghost use Rattle.sg_kernel_calls.specs.kept.Acts.{Replies};
ghost use Rattle.sg_kernel_calls.specs.kept.Asks.{CanAnswer};

use crate::at_once::{answer_now, go_on};
use crate::creating::create;
use crate::events::event;
use crate::executions::{compute, sleep};
use crate::holding::{resume, suspend};
use crate::joining::{exit, join};
use crate::killing::kill;
use crate::locks::{acquire, arrive, lock, release, unlock};
use crate::meetings::{Comer, come, receives_by, sends_by, side_of, wait};
use crate::simulation_state::Fields;
use crate::stop::Stop;
use arrayvec::ArrayVec;
use sg_base::{ActorId, Answer, Call, LinkId};
use sg_route::Router;

// Returns the endpoint that arrives by a call, if it is one of a communication.
fn comer_of(actor: ActorId, call: Call) -> Option<Comer>
    ensures { result ≡ comer_of actor.0 call }
{
    match call {
        Call::Send(mailbox, bytes, msg, rate) => {
            let side = side_of(actor, bytes, msg, rate);
            Some(sends_by(side, call, true, mailbox))
        }
        Call::ISend(mailbox, bytes, msg, rate) => {
            let side = side_of(actor, bytes, msg, rate);
            Some(sends_by(side, call, false, mailbox))
        }
        Call::Recv(mailbox) => Some(receives_by(actor, call, true, mailbox)),
        Call::IRecv(mailbox) => Some(receives_by(actor, call, false, mailbox)),
        _ => None,
    }
}

/// Answers a call, unless the budget is used up: it is counted, and then the arms are the rows of `acts`. A missing or
/// too long route stops the run before the count. The route is written to `links`.
pub fn answer_call(
    fields: &mut Fields,
    actor: ActorId,
    call: Call,
    router: &mut Router,
    links: &mut ArrayVec<LinkId, 64>,
) -> Result<(), Stop>
    requires answers { CanAnswer fields.old actor.0 call }
    requires roads { AreOver fields.old.setup.links router.old }
    ensures replies { Replies
        (answered router.old fields.old.setup (core_of fields.old) actor.0 call)
        fields.old fields.new result }
    ensures router { router.new ≡ router.old }
{
    if let Some(comer) = comer_of(actor, call) {
        return come(fields, router, links, &comer);
    }
    event(fields)?;
    match call {
        Call::Ask => go_on(fields, actor, Answer::Refused),
        Call::Compute(flops, priority) => compute(fields, actor, flops, priority),
        Call::Sleep(ns) => sleep(fields, actor, ns),
        Call::Wait => wait(fields, actor),
        Call::Lock(mutex) => lock(fields, actor, mutex),
        Call::Unlock(mutex) => unlock(fields, actor, mutex),
        Call::Acquire(semaphore) => acquire(fields, actor, semaphore),
        Call::Release(semaphore) => release(fields, actor, semaphore),
        Call::Barrier => arrive(fields, actor),
        Call::Create(target) => create(fields, actor, target, false),
        Call::Join(target) => join(fields, actor, target),
        Call::Kill(target) => kill(fields, actor, target),
        Call::Suspend(target) => suspend(fields, actor, target),
        Call::Resume(target) => resume(fields, actor, target),
        Call::Yield => answer_now(fields, actor, Call::Yield, 0, Answer::Done),
        Call::Exit => exit(fields, actor),
        // These bring an endpoint.
        Call::Send(..) | Call::Recv(_) | Call::ISend(..) | Call::IRecv(_) => {}
    }
    Ok(())
}
