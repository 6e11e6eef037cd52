//! Endpoints of communications arrive at mailboxes, and actors wait for their requests.

ghost use Rattle.std.specs.Prelude.{◌≡◌, ◌≢◌, ◌+◌, AllPairs, None, length};
ghost use Rattle.sg_base.specs.declared.ids.BoxId.{BoxId};
ghost use Rattle.sg_mailbox.specs.Posts.{partner, waiters, IsFound};
ghost use Rattle.sg_requests.specs.Requested.{oldest, queue_at};
ghost use Rattle.sg_kernel_calls.specs.World.{extent};
ghost use Rattle.sg_kernel_calls.specs.Answers.{bare_side, side_of};
ghost use Rattle.sg_kernel_calls.specs.Meetings.{answer_of_over as answer_of_over_spec, comer_fails, fails_with, joins_on, joins_with, other_fails, party_of, posted, receiver_of, receives_by, sender_of, sends_by, stop_of, takes_part, waits_by};
ghost use Rattle.sg_kernel_calls.specs.Roads.{AreOver, IsOver};
ghost use Rattle.sg_kernel_calls.specs.kept.Acts.{Answers, CanCome, CanMeet, CanPost, CanTakePart, FindsWay, Replies};
ghost use Rattle.sg_kernel_calls.specs.kept.Asks.{CanReply};
ghost use Rattle.sg_kernel_calls.specs.kept.Sound.{comes_in, IsComer, IsSide, StepsBy};
ghost use Rattle.sg_kernel_calls.specs.kept.Whole.{CanStep, KeepsWhole};

use crate::answers::{answer_side, for_receiver};
use crate::at_once::{answer_now, block};
use crate::events::{check_budget, count};
use crate::setup::Setup;
use crate::simulation_state::Fields;
use crate::stop::Stop;
use arrayvec::ArrayVec;
use sg_base::{ActorId, Answer, Await, BoxId, Call, LinkId, Msg, Party, PointId, Serial};
use sg_mailbox::{Found, How, Side, Whose};
use sg_route::{RouteFault, Router};

/// An endpoint that arrives at a mailbox.
#[derive(Clone, Copy)]
pub struct Comer {
    /// The call by which it comes.
    pub what: Call,
    pub mailbox: BoxId,
    pub sends: bool,
    /// Whether the call waits until the communication is done.
    pub waits: bool,
    pub side: Side,
}

/// Returns the endpoint of an actor, with what it brings.
pub(crate) fn side_of(actor: ActorId, bytes: u64, msg: Msg, rate: u64) -> Side
    ensures { result ≡ side_of actor.0 bytes msg rate }
{
    Side {
        actor,
        bytes,
        msg,
        rate,
    }
}

/// Returns an endpoint that brings nothing.
pub(crate) fn bare_side(actor: ActorId) -> Side
    ensures { result ≡ bare_side actor.0 }
{
    side_of(actor, 0, Msg::Empty, 0)
}

/// Returns the arriving endpoint of a send.
pub(crate) fn sends_by(side: Side, what: Call, waits: bool, mailbox: BoxId) -> Comer
    ensures { result ≡ sends_by side what waits mailbox }
{
    Comer {
        what,
        mailbox,
        sends: true,
        waits,
        side,
    }
}

/// Returns the arriving endpoint of a receive.
pub(crate) fn receives_by(actor: ActorId, what: Call, waits: bool, mailbox: BoxId) -> Comer
    ensures { result ≡ receives_by actor.0 what waits mailbox }
{
    Comer {
        what,
        mailbox,
        sends: false,
        waits,
        side: bare_side(actor),
    }
}

fn party_of(sends: bool) -> Party
    ensures { result ≡ party_of sends }
{
    if sends {
        Party::Sender
    } else {
        Party::Receiver
    }
}

// Makes the actor take part in the communication with this id.
fn take_part(fields: &mut Fields, comer: &Comer, serial: Serial)
    requires { CanTakePart fields.old comer.now serial.0 }
    ensures { Answers (takes_part comer.now.waits comer.now serial.0) fields.old fields.new }
{
    let actor = comer.side.actor;
    let on = Await {
        serial,
        party: party_of(comer.sends),
    };
    if comer.waits {
        block(fields, actor, comer.what, Some(on))
    } else {
        fields.requests.push(actor, on);
        answer_now(fields, actor, comer.what, comer.side.bytes, Answer::Done)
    }
}

// Posts the endpoint, as a communication with the next id.
fn post(fields: &mut Fields, comer: &Comer, found: Found)
    requires comes { CanPost fields.old comer.now }
    requires found { IsFound fields.old.boxes comer.now.mailbox comer.now.sends found }
    requires alone { partner comer.now.sends (waiters fields.old.boxes comer.now.mailbox) ≡ None }
    ensures { Answers (λ core. takes_part comer.now.waits comer.now (length core.under.tasks + 1)
        (posted comer.now core))
        fields.old fields.new }
{
    let serial = fields.doing.take_serial();
    fields
        .whose
        .push(Whose::Posted(comer.mailbox, comer.sends, comer.side));
    fields
        .boxes
        .enter(comer.mailbox, comer.sends, found, comer.side, serial);
    take_part(fields, comer, serial);
}

fn stop_of(from: PointId, to: PointId, fault: RouteFault) -> Stop
    ensures { result ≡ stop_of from to fault }
{
    match fault {
        RouteFault::NoRoute {
            zone,
            from: a,
            to: b,
        } => Stop::NoRoute {
            from,
            to,
            zone,
            a,
            b,
        },
        RouteFault::TooLong => Stop::TooLong { from, to },
    }
}

fn sender_of(comer: &Comer, other: Side) -> Side
    ensures { result ≡ sender_of comer.now other }
{
    if comer.sends { comer.side } else { other }
}

fn receiver_of(comer: &Comer, other: Side) -> Side
    ensures { result ≡ receiver_of comer.now other }
{
    if comer.sends { other } else { comer.side }
}

// Begins the communication of two endpoints over these links.
fn begin(
    fields: &mut Fields,
    comer: &Comer,
    found: Found,
    met: (Serial, Side),
    links: &[LinkId],
    latency: u128,
)
    requires meets { CanMeet fields.old comer.now found met }
    requires route { IsOver fields.old.setup.links
        (record { links = links.now; latency = latency }) }
    requires apart { AllPairs (λ a b. a ≢ b) links.now }
    ensures { Answers
        (joins_with (record { links = links.now; latency = latency }) fields.old.setup
        comer.now met.0 met.1)
        fields.old fields.new }
{
    let (serial, other) = met;
    let sender = sender_of(comer, other);
    let receiver = receiver_of(comer, other);
    let lasts = fields.setup.latency_over(links, latency);
    let bound = fields.setup.own_bound(links, latency, sender.rate);
    let from = fields.setup.host(sender.actor);
    let to = fields.setup.host(receiver.actor);
    let next = fields.doing.next_serial();
    fields
        .boxes
        .enter(comer.mailbox, comer.sends, found, comer.side, next);
    fields
        .doing
        .start_comm(serial, links, lasts, sender.bytes, bound, from, to);
    fields.whose.put(serial, Whose::Pair(sender, receiver));
    take_part(fields, comer, serial);
}

// Makes the actor take part in a communication that fails.
fn fail_comer(fields: &mut Fields, comer: &Comer, serial: Serial, other: Side)
    requires takes_part { CanTakePart fields.old comer.now serial.0 }
    requires other { IsSide (extent fields.old.setup) other }
    ensures { Answers (comer_fails comer.now serial.0 other) fields.old fields.new }
{
    if comer.waits {
        let bytes = sender_of(comer, other).bytes;
        answer_now(fields, comer.side.actor, comer.what, bytes, Answer::Failed)
    } else {
        take_part(fields, comer, serial)
    }
}

// Answers the endpoint that waited, since its communication fails.
fn fail_other(fields: &mut Fields, comer: &Comer, serial: Serial, other: Side)
    requires comer { IsComer (extent fields.old.setup) comer.now }
    requires other { IsSide (extent fields.old.setup) other }
    requires able { CanReply fields.old }
    ensures known { StepsBy (other_fails comer.now serial.0 other) fields.old fields.new }
    ensures keeps { KeepsWhole fields.old fields.new }
{
    if comer.sends {
        let given = for_receiver(comer.side, other);
        answer_side(fields, How::Failed, serial, Party::Receiver, given)
    } else {
        answer_side(fields, How::Failed, serial, Party::Sender, other)
    }
}

// Fails a communication within the call: both endpoints are there, and something that they would use is off.
fn fail_at_once(fields: &mut Fields, comer: &Comer, found: Found, met: (Serial, Side))
    requires { CanMeet fields.old comer.now found met }
    ensures { Answers (fails_with comer.now met.0 met.1) fields.old fields.new }
{
    let (serial, other) = met;
    let next = fields.doing.next_serial();
    fields
        .boxes
        .enter(comer.mailbox, comer.sends, found, comer.side, next);
    fields.whose.put(serial, Whose::Over(How::Failed));
    if comer.sends {
        fail_comer(fields, comer, serial, other);
        fail_other(fields, comer, serial, other)
    } else {
        fail_other(fields, comer, serial, other);
        fail_comer(fields, comer, serial, other)
    }
}

// Begins the communication of two endpoints over these links, unless something that it would use is off.
fn meet(
    fields: &mut Fields,
    comer: &Comer,
    found: Found,
    met: (Serial, Side),
    links: &[LinkId],
    latency: u128,
)
    requires meets { CanMeet fields.old comer.now found met }
    requires route { IsOver fields.old.setup.links
        (record { links = links.now; latency = latency }) }
    requires apart { AllPairs (λ a b. a ≢ b) links.now }
    ensures { Answers
        (joins_on (record { links = links.now; latency = latency }) fields.old.setup
        comer.now met.0 met.1)
        fields.old fields.new }
{
    let (_, other) = met;
    let sender = fields.setup.host(sender_of(comer, other).actor);
    let receiver = fields.setup.host(receiver_of(comer, other).actor);
    if fields.doing.is_cut(links, sender, receiver) {
        fail_at_once(fields, comer, found, met)
    } else {
        begin(fields, comer, found, met, links, latency)
    }
}

// Returns the latency of the route between an arriving endpoint and its match. The links are written to an array that is
// kept ready, since making one takes longer than writing a route.
fn route_to(
    setup: &Setup,
    router: &mut Router,
    links: &mut ArrayVec<LinkId, 64>,
    comer: &Comer,
    other: Side,
) -> Result<u128, Stop>
    requires comer { IsSide (extent setup.now) comer.now.side }
    requires other { IsSide (extent setup.now) other }
    ensures { FindsWay router.old router.new setup.now comer.now other
        result links.new.items }
{
    let from = setup.host(sender_of(comer, other).actor);
    let to = setup.host(receiver_of(comer, other).actor);
    match router.route(from, to, links) {
        Ok(latency) => Ok(latency),
        Err(fault) => Err(stop_of(from, to, fault)),
    }
}

/// Brings an endpoint to its mailbox: its call is counted once its route is known, and then nothing stops it. A missing
/// or too long route stops the run and changes nothing.
pub(crate) fn come(
    fields: &mut Fields,
    router: &mut Router,
    links: &mut ArrayVec<LinkId, 64>,
    comer: &Comer,
) -> Result<(), Stop>
    requires comes { CanCome fields.old comer.now }
    requires roads { AreOver fields.old.setup.links router.old }
    ensures replies { Replies (comes_in router.old comer.now fields.old)
        fields.old fields.new result }
    ensures router { router.new ≡ router.old }
{
    check_budget(fields)?;
    let found = fields.boxes.look(comer.mailbox, comer.sends);
    match found.met {
        Some(met) => {
            let latency = route_to(&fields.setup, router, links, comer, met.1)?;
            count(fields);
            meet(fields, comer, found, met, links.as_slice(), latency);
            Ok(())
        }
        None => {
            count(fields);
            post(fields, comer, found);
            Ok(())
        }
    }
}

// Returns the answer for an actor that waits for an activity, if the activity has ended.
fn answer_of_over(whose: Whose) -> Option<Answer>
    ensures { result ≡ answer_of_over_spec whose }
{
    match whose {
        Whose::Over(How::Done) => Some(Answer::Done),
        Whose::Over(How::Failed) => Some(Answer::Failed),
        Whose::Alone(_) | Whose::Posted(..) | Whose::Pair(..) => None,
    }
}

/// Makes the actor wait for its oldest request.
pub(crate) fn wait(fields: &mut Fields, actor: ActorId)
    requires { CanStep fields.old actor.0 }
    ensures { Answers (λ core. waits_by (oldest (queue_at core.requests actor.0)) actor.0 core)
        fields.old fields.new }
{
    match fields.requests.take(actor) {
        None => answer_now(fields, actor, Call::Wait, 0, Answer::Refused),
        Some(on) => match answer_of_over(fields.whose.of(on.serial)) {
            Some(answer) => answer_now(fields, actor, Call::Wait, 0, answer),
            None => block(fields, actor, Call::Wait, Some(on)),
        },
    }
}
