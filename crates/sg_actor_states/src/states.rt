//! The states of all actors.
ghost use Rattle.std.specs.Prelude.{◌≡◌, ◌-◌, ◌<◌, ◌≤◌, ◌^◌, [], false, true, All, IfOk, IfSome, IsTrue, MatchOption, OnOk, length, map};
ghost use Rattle.std.specs.List.{list_all, list_any};
ghost use Rattle.sg_base.specs.declared.call.Answer.TheVariants as answer;
ghost use Rattle.sg_base.specs.Limits.{IsAmount, IsAnswer};
ghost use Rattle.sg_actor_states.specs.declared.state.State.TheVariants.{Unstarted, Ready, Blocked, Ended};
ghost use Rattle.sg_actor_states.specs.Actors.{actor_at, first_actor, inbox_of, is_blocked, is_over, is_ready, is_unstarted, joiners, state_at, IsActor, IsJoiner};
ghost use Rattle.sg_actor_states.specs.Queue.{AreReady, IsQueue};
ghost use Rattle.sg_actor_states.specs.Records.{AreRecords, IsTellable};
ghost use Rattle.sg_actor_states.specs.States.{by_call, with_reply, with_state, with_suspended, CanCall, CanGoOn, CanReserve, IsAlive, KeepsLimits};

use crate::crowd::Crowd;
use crate::records::record_of;
use crate::state::{Blocking, State};
use sg_base::{ActorId, Answer, Await, Call, Memory, Record};
use std::alloc::Global;
use std::marker::Model;

/// What each actor does, who is to take a turn, who waits for another to end, and the records of what was answered.
///
/// Contracts see what calls may name, the states, the records that aren't cleared, for how many calls there is room,
/// whether a time advance is running, and whether the run queue was trimmed since an actor changed. No call costs more
/// with more actors, except for a binary search in the run queue when an actor gets ready in a scheduling round, the
/// same among the joiners when one joins another or continues, with the shift of those after it, and for the sorting of
/// the queue at the end of a time advance.
pub struct States {
    crowd: Crowd,
    /// The records that aren't cleared.
    records: Vec<Record>,
    /// Room for so many calls.
    room: usize,
    actors: usize,
    mutexes: usize,
    semaphores: usize,
}

// A function of its own, so that a proof in which one is dropped doesn't go into its parts.
impl Drop for States {
    fn drop(self) {
        let States {
            crowd: _,
            records: _,
            room: _,
            actors: _,
            mutexes: _,
            semaphores: _,
        } = self;
    }
}

impl Model for States {
    ghost use Rattle.std.specs.Prelude.{vec_capacity, vec_len};
    ghost use Rattle.sg_actor_states.specs.States.{ActorStates};
    ghost use Rattle.sg_actor_states.specs.kept.Fields.{states_of, IsKept};

    ghost Value = { ActorStates };

    ghost view = { λ s. states_of s.actors s.mutexes s.semaphores s.crowd s.records.items s.room };

    ghost invariant = { λ s. IsKept
        (states_of s.actors s.mutexes s.semaphores s.crowd s.records.items s.room)
        (vec_len s.records)
        (vec_capacity s.records) };
}

impl States {
    /// Makes the actors, of which just those are ready that start at the beginning, with the answer Start. There is no
    /// room for calls. Calls may name so many mutexes and semaphores.
    pub fn new(
        alloc: Global,
        starts: &[bool],
        mutexes: usize,
        semaphores: usize,
    ) -> Result<States, Memory>
        ensures { IfOk result (λ states. states ≡ record {
          extent = record {
            actors = length starts.now;
            mutexes = mutexes;
            semaphores = semaphores;
          };
          actors = map first_actor starts.now;
          records = [];
          room = 0;
          passing = false;
          trimmed = false;
        }) }
    {
        Ok(States {
            crowd: Crowd::new(alloc, starts)?,
            records: Vec::new(alloc),
            room: 0,
            actors: starts.len(),
            mutexes,
            semaphores,
        })
    }

    /// Begins a scheduling round: makes room for this many calls and for what the time advances after them answer, and
    /// removes those from the run queue that aren't ready. Nothing else changes, even if memory runs out.
    pub fn reserve_round(&mut self, n: usize) -> Result<(), Memory>
        requires { CanReserve n self.old }
        ensures room { OnOk result (self.new.room ≡ n) }
        ensures most { self.new.room ≤ n }
        ensures trimmed { OnOk result (IsTrue self.new.trimmed) }
        ensures kept { self.new
            ≡ record self.old { room = self.new.room; trimmed = self.new.trimmed } }
    {
        let Some(most) = n.checked_add(self.crowd.len()) else {
            return Err(Memory);
        };
        self.records.reserve(most)?;
        self.crowd.keep_ready();
        self.room = n;
        Ok(())
    }

    /// Begins a scheduling round for which there is room: removes those from the run queue that aren't ready.
    pub fn keep_ready(&mut self)
        requires { self.old.passing ≡ false }
        ensures { self.new ≡ record self.old { trimmed = true } }
    {
        self.crowd.keep_ready();
    }

    /// Returns for how many calls there is room.
    pub fn room(&self) -> usize
        ensures { result ≡ self.now.room }
    {
        self.room
    }

    /// Makes the actor continue with this answer, without a record.
    pub fn go_on(&mut self, actor: ActorId, answer: Answer)
        requires { CanGoOn self.old actor.0 answer }
        ensures { self.new ≡ by_call actor.0 (Ready answer) self.old }
    {
        self.crowd.put_answer(actor, answer);
        self.room -= 1;
    }

    /// Blocks an actor by its call, which it makes at this date.
    pub fn block(&mut self, actor: ActorId, what: Call, date: u128, on: Option<Await>)
        requires able { CanCall self.old actor.0 }
        requires what { IsTellable self.old.extent what }
        ensures { self.new ≡ by_call actor.0 (Blocked what date on) self.old }
    {
        self.crowd.put_blocked(actor, what, date, on);
        self.room -= 1;
    }

    /// Ends an actor after its last call.
    pub fn exit(&mut self, actor: ActorId)
        requires able { CanCall self.old actor.0 }
        ensures { self.new ≡ by_call actor.0 Ended self.old }
    {
        self.crowd.put_state(actor, State::Ended);
        self.room -= 1;
    }

    /// Answers an actor's call, which it makes at this date, at once, with a record.
    pub fn answer(&mut self, actor: ActorId, what: Call, bytes: u64, answer: Answer, date: u128)
        requires able { CanCall self.old actor.0 }
        requires what { IsTellable self.old.extent what }
        requires bytes { IsAmount bytes }
        requires answer { IsAnswer self.old.extent answer }
        requires date { date < 10 ^ 33 }
        ensures { self.new ≡ record (with_reply actor.0 what date bytes answer date self.old) {
          room = self.old.room - 1;
        } }
    {
        self.records
            .push_reserved(record_of(actor, what, date, bytes, answer, date));
        self.crowd.put_answer(actor, answer);
        self.room -= 1;
    }

    /// Answers the call on which an actor is blocked, with a record. A suspended actor takes its turn after it is
    /// resumed.
    pub fn reply(
        &mut self,
        actor: ActorId,
        blocking: Blocking,
        bytes: u64,
        answer: Answer,
        date: u128,
    )
        requires actor { IsActor self.old.actors actor.0 }
        requires blocked { IsTrue (is_blocked (state_at self.old.actors actor.0)) }
        requires what { IsTellable self.old.extent blocking.what }
        requires bytes { IsAmount bytes }
        requires answer { IsAnswer self.old.extent answer }
        requires date { date < 10 ^ 33 }
        ensures { self.new
            ≡ with_reply actor.0 blocking.what blocking.since bytes answer date self.old }
    {
        let Blocking { what, since, .. } = blocking;
        self.records
            .push_reserved(record_of(actor, what, since, bytes, answer, date));
        self.crowd.put_reply(actor, answer);
    }

    /// Starts an actor for another: it is to take a turn, with the answer `Start`.
    pub fn begin(&mut self, target: ActorId)
        requires actor { IsActor self.old.actors target.0 }
        requires unstarted { IsTrue (is_unstarted (state_at self.old.actors target.0)) }
        requires round { self.old.passing ≡ false }
        ensures { self.new ≡ with_state target.0 (Ready answer.Start) self.old }
    {
        self.crowd.put_state(target, State::Ready(Answer::Start));
    }

    /// Kills an actor for another. What it was blocked on is no longer known.
    pub fn end(&mut self, target: ActorId)
        requires alive { IsAlive self.old target.0 }
        ensures { self.new ≡ with_state target.0 Ended self.old }
    {
        self.crowd.put_state(target, State::Ended);
    }

    /// Suspends an actor for another: it takes no turn until it is resumed.
    pub fn suspend(&mut self, target: ActorId)
        requires alive { IsAlive self.old target.0 }
        ensures { self.new ≡ with_suspended target.0 true self.old }
    {
        self.crowd.put_suspended(target, true);
    }

    /// Resumes an actor for another: if it has an answer, it is to take a turn.
    pub fn resume(&mut self, target: ActorId)
        requires alive { IsAlive self.old target.0 }
        ensures { self.new ≡ with_suspended target.0 false self.old }
    {
        self.crowd.put_suspended(target, false);
    }

    /// Begins a time advance, when nobody is ready.
    pub fn begin_pass(&mut self)
        requires idle { list_any is_ready self.old.actors ≡ false }
        ensures { self.new ≡ record self.old { passing = true; trimmed = false } }
    {
        self.crowd.begin_pass();
    }

    /// Ends a time advance.
    pub fn end_pass(&mut self)
        requires { self.old.passing ≡ true }
        ensures { self.new ≡ record self.old { passing = false; trimmed = false } }
    {
        self.crowd.end_pass();
    }

    /// Returns how many actors there are. Their ids count from 1.
    pub fn actors(&self) -> usize
        ensures { result ≡ length self.now.actors }
    {
        self.crowd.len()
    }

    /// Returns who is to take a turn: by rising id all actors that are ready, and those that were since the queue was
    /// trimmed, by `reserve_round` or `keep_ready`. It costs nothing.
    pub fn run_queue(&self) -> &[ActorId]
        requires { self.now.passing ≡ false }
        ensures lists { IsQueue self.now.actors result.now }
        ensures trimmed { IsTrue self.now.trimmed → AreReady self.now.actors result.now }
    {
        self.crowd.queue()
    }

    /// Returns who waits first, by rising id, for the actor to end.
    pub fn joiner(&self, target: ActorId) -> Option<ActorId>
        ensures { MatchOption result (joiners target.0 1 self.now.actors ≡ [])
            (λ actor. IsJoiner self.now.actors target.0 actor) }
    {
        self.crowd.joiner(target)
    }

    /// Returns what an actor does.
    pub fn state(&self, actor: ActorId) -> State
        requires { IsActor self.now.actors actor.0 }
        ensures is { result ≡ state_at self.now.actors actor.0 }
        ensures limited { KeepsLimits self.now.extent result }
    {
        self.crowd.actor(actor).state
    }

    /// Returns whether an actor is suspended.
    pub fn suspended(&self, actor: ActorId) -> bool
        requires { IsActor self.now.actors actor.0 }
        ensures { result ≡ (actor_at self.now.actors actor.0).suspended }
    {
        self.crowd.actor(actor).suspended
    }

    /// Returns the answer of an actor that is to take a turn.
    pub fn inbox(&self, actor: ActorId) -> Option<Answer>
        requires { IsActor self.now.actors actor.0 }
        ensures is { result ≡ inbox_of (actor_at self.now.actors actor.0) }
        ensures limited { IfSome result (IsAnswer self.now.extent) }
    {
        self.crowd.actor(actor).inbox()
    }

    /// Returns whether an actor is ready.
    pub fn any_ready(&self) -> bool
        ensures { result ≡ list_any is_ready self.now.actors }
    {
        self.crowd.any_ready()
    }

    /// Returns whether no actor is alive: none takes a turn again.
    pub fn all_over(&self) -> bool
        ensures { result ≡ list_all is_over self.now.actors }
    {
        self.crowd.all_over()
    }

    /// Returns the records that aren't cleared, in the order in which they were made.
    pub fn records(&self) -> &[Record]
        ensures are { result.now ≡ self.now.records }
        ensures limited { AreRecords self.now.extent self.now.records }
    {
        self.records.as_slice()
    }

    /// Clears the records.
    pub fn clear_records(&mut self)
        ensures { self.new ≡ record self.old { records = [] } }
    {
        self.records.clear();
    }
}
