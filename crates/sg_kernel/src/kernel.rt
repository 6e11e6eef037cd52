//! The kernel.

ghost use Rattle.std.specs.Prelude.{◌≡◌, ◌≢◌, [], ◌==◌, ◌+◌, ◌-◌, ◌*◌, ◌<◌, ◌≤◌, ◌^◌, ◌++◌, true, false, IfOk, OnOk, IfSome, IsTrue, Ok, Err, All, length, Some, None, is_ok, if◌then◌else◌, slice_index_or};
ghost use Rattle.std.specs.List.{list_all, list_any};
ghost use Rattle.sg_base.specs.Limits.{IsCall, IsAction, IsAnswer};
ghost use Rattle.sg_activity.specs.Underway.{work_of};
ghost use Rattle.sg_platform_rows.specs.Deployment.{IsDeployedOn};
ghost use Rattle.sg_actor_states.specs.Actors.{actor_at, blocked_of, inbox_of, is_alive, is_over, is_ready, is_unstarted};
ghost use Rattle.sg_actor_states.specs.Queue.{IsQueue};
ghost use Rattle.sg_actor_states.specs.Records.{IsTellable, AreRecords};
ghost use Rattle.sg_kernel_calls.specs.World.{extent, is_suspended, state_of, IsActor, MayCall};
ghost use Rattle.sg_kernel_calls.specs.Calls.{answered, told};
ghost use Rattle.sg_kernel_calls.specs.Lives.{created};
ghost use Rattle.sg_kernel_calls.specs.declared.stop.Stop.TheVariants as stop;
ghost use Rattle.sg_kernel_calls.specs.Steps.{result_of};
ghost use Rattle.sg_kernel.specs.Start.{capacities_in, first_known};
ghost use Rattle.sg_kernel_calls.specs.Setup.{setup_of};
ghost use Rattle.sg_kernel_calls.specs.Roads.{AreOver};
ghost use Rattle.sg_kernel.specs.Passes.{pass_of};
ghost use Rattle.sg_kernel_calls.specs.Known.{after, after_call};

use crate::beginning::{make_doing, make_objects, make_states};
use crate::passes::move_on;
use crate::setup::make_setup;
use arrayvec::ArrayVec;
use sg_actor_states::State;
use sg_base::{Action, ActorId, Answer, Call, LinkId, Memory, PointId, Record, Steps};
use sg_kernel_calls::{
    Fields, Stop, answer_call, check_budget, count, create, event, go_on, is_used_up,
};
use sg_mailbox::{Boxes, Owners};
use sg_platform_rows::{Deployment, PlatformText};
use sg_profile::Profiles;
use sg_requests::Requests;
use sg_route::Router;
use std::alloc::Global;
use std::marker::Model;
use std::sync::ledger::Ledger;

/// For how many more calls than asked for room is made, so that most scheduling rounds find it.
const SPARE_CALLS: usize = 64;

/// Runs a simulation. In a scheduling round each ready actor takes its turn, and the kernel answers the calls in order
/// of actor id. Once no actor is ready, a time advance moves the date to where the next activities complete or a host
/// or a link changes. Each answered call, each such change, each activity that fails by one and each activity that
/// completes is one event.
///
/// Contracts see the setup, the core of the world, the records that aren't cleared, and for how many calls there is
/// room. It stands for each world with that core: it keeps no minds of actors, no counts of the lines that they
/// fetched, no ended activities, and no cleared records.
///
/// After a `Stop` it is as before the event that was refused. If the budget stops a time advance in its middle, the
/// events before that one stay; if it stops one before its first event, the date stays. In both cases the rates are up
/// to date.
pub struct Kernel {
    fields: Fields,
    // the links of the route over which a communication begins
    way: ArrayVec<LinkId, 64>,
}

// A function of its own, so that a proof in which one is dropped doesn't go into its parts.
impl Drop for Kernel {
    fn drop(self) {
        let Kernel { fields: _, way: _ } = self;
    }
}

impl Model for Kernel {
    ghost use Rattle.sg_kernel_calls.specs.Known.{Known};

    ghost Value = { Known };

    ghost use Rattle.sg_kernel_calls.specs.kept.Sound.{known_of};
    ghost use Rattle.sg_kernel_calls.specs.kept.Whole.{IsWhole};

    ghost view = { λ s. known_of s.fields };

    ghost invariant = { λ s. IsWhole s.fields };
}

impl Kernel {
    /// Makes a kernel in which nothing has happened yet: the actors that start with the run are ready with the answer
    /// Start, mutexes are free, and semaphores have their capacities. `budget` is the most events that there may be.
    pub fn new(
        alloc: Global,
        platform: &PlatformText,
        deployment: &Deployment,
        budget: u64,
    ) -> Result<Kernel, Memory>
        requires deployed { IsDeployedOn platform.now deployment.now }
        requires budget { budget ≤ 10 ^ 9 }
        ensures { IfOk result (λ kernel. kernel
            ≡ first_known (capacities_in platform.now)
            (setup_of platform.now deployment.now budget)) }
    {
        let setup = make_setup(alloc, platform, deployment, budget)?;
        let states = make_states(alloc, &setup)?;
        let objects = make_objects(alloc, &setup)?;
        let requests = Requests::new(alloc, deployment.actors().len())?;
        let profiles = Profiles::new(alloc, platform)?;
        let boxes = Boxes::new(alloc)?;
        // Last of all, so that running out of memory doesn't drop it.
        let doing = make_doing(alloc, platform)?;
        let fields = Fields {
            setup,
            doing,
            states,
            whose: Owners::new(alloc),
            boxes,
            requests,
            objects,
            profiles,
            events: 0,
        };
        Ok(Kernel {
            fields,
            way: ArrayVec::new(),
        })
    }

    // Makes room for so many calls, and for all time advances up to the next scheduling round.
    fn make_room(&mut self, n: usize) -> Result<(), Memory>
        ensures room { OnOk result (n ≤ self.new.room) }
        ensures kept { self.new ≡ record self.old { room = self.new.room } }
    {
        let n = n.max(self.fields.states.room());
        self.fields.doing.reserve(n)?;
        self.fields.whose.reserve(n)?;
        self.fields.boxes.reserve(n)?;
        self.fields.requests.reserve(n)?;
        self.fields.states.reserve_round(n)
    }

    /// Makes room for so many calls, and for all time advances up to the next scheduling round, which then take no
    /// memory. Nothing except the room changes, even if memory runs out. If the room is there already, as in most
    /// scheduling rounds since more is made than is asked for, that costs a comparison.
    pub fn reserve_round(&mut self, n: usize) -> Result<(), Memory>
        ensures room { OnOk result (n ≤ self.new.room) }
        ensures kept { self.new ≡ record self.old { room = self.new.room } }
    {
        if n <= self.fields.states.room() {
            self.fields.states.keep_ready();
            return Ok(());
        }
        self.make_room(n.saturating_add(SPARE_CALLS))
    }

    /// Answers a call of an actor that had an answer. It refuses a call that fetches the next line, which `tell`
    /// answers if there is a script, and a Create, which `create` answers if the named actor may be given a context. An
    /// execution on a host that is off fails at once, and so does a communication that would begin over a link that is
    /// off, or from or to such a host. `router` has the routes of the kernel's platform, and stands for the same ones
    /// afterwards.
    pub fn answer(&mut self, actor: ActorId, call: Call, router: &mut Router) -> Result<(), Stop>
        requires caller { MayCall self.old.core actor.0 }
        requires call { IsCall (extent self.old.setup) call }
        requires room { 0 < self.old.room }
        requires roads { AreOver self.old.setup.links router.old }
        ensures step { self.new ≡ after_call (is_ok result)
            (answered router.old self.old.setup self.old.core actor.0 call) self.old }
        ensures result { result
            ≡ result_of (answered router.old self.old.setup self.old.core actor.0 call).stop }
        ensures router { router.new ≡ router.old }
    {
        answer_call(&mut self.fields, actor, call, router, &mut self.way)
    }

    /// Gives an actor that fetched its next line that line, or the answer that there is none.
    pub fn tell(&mut self, actor: ActorId, action: Option<Action>) -> Result<(), Stop>
        requires caller { MayCall self.old.core actor.0 }
        requires action { IfSome action (IsAction (extent self.old.setup)) }
        requires room { 0 < self.old.room }
        ensures step { self.new ≡ after_call (is_ok result)
            (told self.old.setup self.old.core actor.0 action) self.old }
        ensures result { result
            ≡ result_of (told self.old.setup self.old.core actor.0 action).stop }
    {
        event(&mut self.fields)?;
        match action {
            Some(action) => go_on(&mut self.fields, actor, Answer::Act(action)),
            None => go_on(&mut self.fields, actor, Answer::NoMore),
        }
        Ok(())
    }

    /// Returns whether an actor may create another: that one hasn't started.
    pub fn may_create(&self, actor: ActorId, target: ActorId) -> Result<bool, Stop>
        requires caller { MayCall self.now.core actor.0 }
        requires target { IsActor self.now.core target.0 }
        ensures { result ≡ (if self.now.core.events == self.now.setup.budget then Err stop.Budget
            else Ok (is_unstarted (state_of self.now.core target.0))) }
    {
        check_budget(&self.fields)?;
        Ok(matches!(self.fields.states.state(target), State::Unstarted))
    }

    /// Answers the Create of an actor: the named one begins if it was given a context, and else the call is refused.
    pub fn create(&mut self, actor: ActorId, target: ActorId, given: bool)
        requires caller { MayCall self.old.core actor.0 }
        requires target { IsActor self.old.core target.0 }
        requires fresh { IsTrue given → IsTrue (is_unstarted (state_of self.old.core target.0)) }
        requires budget { self.old.core.events ≢ self.old.setup.budget }
        requires room { 0 < self.old.room }
        ensures { self.new ≡ after_call true (created given actor.0 target self.old.core) self.old }
    {
        count(&mut self.fields);
        create(&mut self.fields, actor, target, given);
    }

    /// Moves the date to where the next activities complete or the next entries of profiles come. First the entries of
    /// that date come, in order of rows; after each, all that uses a host or a link that is off fails, in order of
    /// activity id. Then the activities that complete at that date end, in the same order. Each that fails or completes
    /// answers its actor, with a record. If neither will ever come, the run is in a deadlock, or starved if an activity
    /// is running. `steps` counts the solver's visits to uses of what shares hosts or links with what began, ended or
    /// changed since the last time advance.
    pub fn pass<L: Ledger>(&mut self, steps: &mut Steps<L>) -> Result<(), Stop>
        requires idle { list_any is_ready self.old.core.actors ≡ false }
        requires going { list_all is_over self.old.core.actors ≡ false }
        ensures step { self.new ≡ after (pass_of self.old.setup self.old.core) self.old }
        ensures result { result ≡ result_of (pass_of self.old.setup self.old.core).stop }
        ensures looks { steps.new ≤ steps.old + work_of self.old.core.under }
        ensures actors { length self.new.core.actors ≡ length self.old.core.actors }
    {
        self.fields.doing.settle(steps);
        move_on(&mut self.fields)
    }

    /// Returns how many actors there are. Their ids count from 1.
    pub fn actors(&self) -> usize
        ensures is { result ≡ length self.now.core.actors }
        ensures homes { result ≡ length self.now.setup.homes }
    {
        self.fields.states.actors()
    }

    /// Returns who is to take a turn: by rising id all actors that are ready, and perhaps some that have called since
    /// `reserve_round`. That costs nothing.
    pub fn run_queue(&self) -> &[ActorId]
        ensures { IsQueue self.now.core.actors result.now }
    {
        self.fields.states.run_queue()
    }

    /// Returns the answer of an actor that is ready.
    pub fn inbox(&self, actor: ActorId) -> Option<Answer>
        requires { IsActor self.now.core actor.0 }
        ensures is { result ≡ inbox_of (actor_at self.now.core.actors actor.0) }
        ensures limited { IfSome result (IsAnswer (extent self.now.setup)) }
    {
        self.fields.states.inbox(actor)
    }

    /// Returns the call on which an actor is blocked.
    pub fn blocked(&self, actor: ActorId) -> Option<Call>
        requires { IsActor self.now.core actor.0 }
        ensures is { result ≡ blocked_of (state_of self.now.core actor.0) }
        ensures limited { IfSome result (IsTellable (extent self.now.setup)) }
    {
        self.fields.states.state(actor).blocked()
    }

    /// Returns whether an actor has started and hasn't ended.
    pub fn alive(&self, actor: ActorId) -> bool
        requires { IsActor self.now.core actor.0 }
        ensures { result ≡ is_alive (state_of self.now.core actor.0) }
    {
        self.fields.states.state(actor).is_alive()
    }

    /// Returns whether an actor is suspended.
    pub fn suspended(&self, actor: ActorId) -> bool
        requires { IsActor self.now.core actor.0 }
        ensures { result ≡ is_suspended self.now.core actor.0 }
    {
        self.fields.states.suspended(actor)
    }

    /// Returns whether an actor is ready.
    pub fn any_ready(&self) -> bool
        ensures { result ≡ list_any is_ready self.now.core.actors }
    {
        self.fields.states.any_ready()
    }

    /// Returns whether all actors that started have ended.
    pub fn ending(&self) -> bool
        ensures is { result ≡ list_all is_over self.now.core.actors }
        ensures number { length self.now.core.actors ≡ length self.now.setup.homes }
    {
        self.fields.states.all_over()
    }

    /// Returns whether as many events were counted as there may be.
    pub fn is_used_up(&self) -> bool
        ensures { result ≡ (self.now.core.events == self.now.setup.budget) }
    {
        is_used_up(&self.fields)
    }

    /// Returns the date, in nanoseconds.
    pub fn date(&self) -> u128
        ensures is { result ≡ self.now.core.under.date }
        ensures below { result < 10 ^ 33 }
    {
        self.fields.doing.date()
    }

    /// Returns how many events there were.
    pub fn events(&self) -> u64
        ensures { result ≡ self.now.core.events }
    {
        self.fields.events
    }

    /// Returns the energy of a host up to the date, if it has a power: whole joules, and the rest in picojoules.
    pub fn energy(&self, host: PointId) -> (u128, u64)
        requires { host.0 < self.now.setup.hosts }
        ensures energy { result.0 * 10 ^ 12 + result.1
            ≡ slice_index_or self.now.core.under.energy host.0 0 }
        ensures rest { result.1 < 10 ^ 12 }
    {
        self.fields.doing.energy(host)
    }

    /// Returns the records that aren't cleared, in the order in which they were made.
    pub fn records(&self) -> &[Record]
        ensures are { result.now ≡ self.now.records }
        ensures limited { AreRecords (extent self.now.setup) self.now.records }
    {
        self.fields.states.records()
    }

    /// Clears the records.
    pub fn clear_records(&mut self)
        ensures { self.new ≡ record self.old { records = [] } }
    {
        self.fields.states.clear_records();
    }
}
