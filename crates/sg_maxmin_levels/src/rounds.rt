//! A rate update: processes active resources, in any order, until none is active or the visits run out.
ghost use Rattle.std.specs.Prelude.{◌≡◌, ◌≢◌, ◌≤◌, ◌<◌, ◌+◌, ◌*◌, ◌^◌, ℕ, [], ◌∷◌, true, false, IsTrue, List, Option, None, IfSome, IsSome, AllPairs, length, max, slice_index};
ghost use Rattle.sg_base.specs.MarkSet.{is_in};
ghost use Rattle.sg_maxmin.specs.Chained.{users_on};
ghost use Rattle.sg_maxmin.specs.Sharing.{IsSound, flow_at, uses_at};
ghost use Rattle.sg_maxmin.specs.Held.{AreFilled};
ghost use Rattle.sg_maxmin_levels.specs.Kept.{HasFlow, HasHold, HasPlaces, HasResource, IsBetween, IsBetweenBut, IsFirstPass, IsSettling, IsSettlingAt, Moves, NotesChanged, NotesMoved, Settles, SettlesUsers, StaysWithin};
ghost use Rattle.sg_maxmin_levels.specs.Allowed.{AreNew, HaveUsers, IsSpent, KnowsUsers, SparesLooks};
ghost use Rattle.sg_maxmin_levels.specs.Joined.{spare_looks};
ghost use Rattle.sg_maxmin.specs.Numbered.{all_uses, level_at};
ghost use Rattle.sg_maxmin_levels.specs.Settling.{is_active};

use crate::allowance::Allowance;
use crate::hold::{Above, hold_of, level_above};
use crate::levels::Levels;
use crate::settling::{bound_of, move_flow, settle_users};
use sg_base::Steps;
use sg_maxmin::System;
use std::sync::ledger::Ledger;

// With more active resources than this, solving the whole connected component is cheaper than choosing among them.
const MOST_ACTIVE: usize = 64;

// The active resource that is processed next, and how many users one of the active has at least.
#[derive(Clone, Copy)]
struct Next {
    resource: usize,
    most_users: u64,
}

// Returns whether there is neither.
fn are_none(one: Option<u64>, other: Option<u64>) -> bool
    ensures { IsTrue result → (one ≡ None) × (other ≡ None) }
{
    one.is_none() && other.is_none()
}

// Returns a level below which a resource that holds none has nothing to do, by its capacity and the demand on it: the
// rest is shared by those without a level, of which each asks for more than any capacity.
fn slack_level(capacity: u64, demand: u128) -> u64 {
    let each = u128::from(u64::MAX) + 1;
    let loose = (demand / each) as u64;
    let taken = (demand % each) as u64;
    if taken >= capacity {
        0
    } else if loose == 0 {
        u64::MAX
    } else {
        (capacity - taken) / loose
    }
}

// Returns whether the visits suffice for a walk over so many users, none with more uses, and for all that these take.
fn suffice(looks: u64, users: u64, longest: usize) -> bool
    ensures { IsTrue result → users * (2 * longest + 1) ≤ looks }
{
    users <= looks && users.saturating_mul(longest as u64) <= (looks - users) / 2
}

// Returns how many visits remain after that walk, if the uses of one user were visited so often.
fn after_walk(looks: u64, users: u64, times: u64, longest: usize) -> u64
    requires enough { users * (2 * longest + 1) ≤ looks }
    requires few { times ≤ 2 * users }
    ensures { result + users + times * longest ≡ looks }
{
    looks - users - times * longest as u64
}

// Gives a flow that began or has another bound the level of its bound.
fn renew<L: Ledger>(system: &System, flow: usize, kept: &mut Levels, steps: &mut Steps<L>)
    requires { HasFlow system.now kept.old flow }
    ensures renewed { (rest : List ℕ) → IsBetweenBut system.now kept.old (flow ∷ rest)
        → IsBetweenBut system.now kept.new rest }
    ensures stale { kept.new.stale ≡ kept.old.stale }
    ensures noted { is_in flow kept.new.moved.members ≡ true }
    ensures moves { Moves system.now flow kept.old kept.new }
    ensures looks { steps.new ≤ steps.old + length (uses_at system.now.slots flow) }
{
    move_flow(system, flow, bound_of(system, flow), kept, steps);
}

// Does the same for each such flow.
fn renew_all<L: Ledger>(system: &System, kept: &mut Levels, steps: &mut Steps<L>)
    requires { IsBetween system.now kept.old }
    ensures settling { IsSettling system.now kept.new }
    ensures stale { AreNew system.now kept.new }
    ensures once { AllPairs (λ a b. a ≢ b) kept.old.stale.members }
    ensures moved { NotesMoved kept.old kept.new }
    ensures within { StaysWithin system.now kept.old kept.new }
    ensures looks { steps.new
        ≤ steps.old + all_uses system.now.slots kept.old.stale.members }
{
    for k in 0..kept.stale.members().len() {
        renew(system, kept.stale.members()[k], kept, steps);
    }
}

impl Levels {
    // Returns whether a resource offers more than the demand on it.
    fn has_slack(&self, system: &System, resource: usize) -> bool
        requires { HasResource system.now self.now resource }
        ensures { IsTrue result
            → (slice_index self.now.demands.items resource
            < slice_index system.now.capacities resource)
            × (slice_index system.now.capacities resource < 2 ^ 64) }
    {
        self.demands[resource] < u128::from(system.capacity(resource))
    }

    // Makes a resource inactive that held none and holds none: it needs no visit.
    fn put_to_rest(&mut self, system: &System, resource: usize)
        requires none { HasHold system.now self.old resource None }
        requires held { level_at self.old.holds.items resource ≡ None }
        ensures { Settles system.now resource self.old self.new }
    {
        system.is_sound();
        self.active.remove(resource);
    }

    // Writes the hold of a resource: its flows above it come down to it, and those that it held before and that nothing
    // holds now go up to their bounds. The other resources of flows that moved become active. Returns how often the uses of
    // a flow were visited.
    fn write_hold<L: Ledger>(
        &mut self,
        system: &System,
        resource: usize,
        hold: Option<u64>,
        steps: &mut Steps<L>,
    ) -> u64
        requires { HasHold system.now self.old resource hold }
        ensures { SettlesUsers system.now resource self.old self.new result
            steps.old steps.new }
    {
        system.is_sound();
        let was = self.hold(resource);
        self.active.remove(resource);
        self.holds[resource] = hold;
        settle_users(system, resource, was, self, steps)
    }

    // Processes a resource after a first pass over its users: writes its hold; its flows above it come down to it, and
    // those that it held before and that nothing holds now go up to their bounds. Returns how many visits remain; None if
    // they may not suffice, and then nothing changes.
    fn look_at<L: Ledger>(
        &mut self,
        system: &System,
        resource: usize,
        first: Above,
        looks: u64,
        steps: &mut Steps<L>,
    ) -> Option<u64>
        requires at { IsSettlingAt system.now self.old resource }
        requires first { IsFirstPass system.now resource self.old.levels.items looks first }
        ensures settles { Settles system.now resource self.old self.new }
        ensures spent { IfSome result (λ left.
            steps.new + first.users + left ≤ steps.old + looks) }
        ensures looks { steps.new + first.users ≤ steps.old + looks }
    {
        system.is_sound();
        let was = self.hold(resource);
        let found = hold_of(system, resource, &self.levels, first, looks, steps)?;
        if are_none(was, found.hold) {
            self.put_to_rest(system, resource);
            return Some(found.looks);
        }
        let longest = self.longest;
        if !suffice(found.looks, found.users, longest) {
            return None;
        }
        let times = self.write_hold(system, resource, found.hold, steps);
        Some(after_walk(found.looks, found.users, times, longest))
    }

    // Does the same from the start, unless the resource held none and offers more than the demand on it, which needs no
    // visit. Returns what is known and spent then.
    fn refresh<L: Ledger>(
        &mut self,
        system: &System,
        resource: usize,
        given: Allowance,
        steps: &mut Steps<L>,
    ) -> Option<Allowance>
        requires at { IsSettlingAt system.now self.old resource }
        requires given { given.spent ≤ spare_looks given.known given.row given.ended }
        ensures settles { Settles system.now resource self.old self.new }
        ensures spent { IfSome result (IsSpent given steps.old steps.new) }
        ensures known { IfSome result (KnowsUsers given
            (length (users_on system.now.users resource))) }
        ensures looks { let users = length (users_on system.now.users resource) in
            steps.new + given.spent ≤ steps.old
            + spare_looks (max given.known users) (max given.row users) given.ended }
    {
        system.is_sound();
        let was = self.hold(resource);
        if was.is_none() && self.has_slack(system, resource) {
            self.put_to_rest(system, resource);
            return Some(given);
        }
        let before = given.left()?;
        let first = level_above(system, resource, &self.levels, 0, u64::MAX, steps)?;
        let looks = given.left_for(first.users, before)?;
        let left = self.look_at(system, resource, first, looks, steps)?;
        Some(given.with_row(first.users, looks.saturating_sub(left)))
    }

    // Returns a level below which an active resource has nothing to do. Only the order is by it: any is right.
    fn key(&self, system: &System, resource: usize) -> u64
        requires { HasResource system.now self.now resource }
    {
        match self.holds[resource] {
            Some(hold) => hold,
            None => slack_level(system.capacity(resource), self.demands[resource]),
        }
    }

    // Returns the active resource of least key, and how many users an active one has at least.
    fn next_active(&self, system: &System) -> Option<Next>
        requires { HasPlaces system.now self.now }
        ensures none { result ≡ None
            → ((r : ℕ) → is_active self.now.active.members r ≡ false) }
        ensures some { IfSome result (λ next. next.resource < length system.now.capacities) }
        ensures active { IfSome result (λ next.
            is_active self.now.active.members next.resource ≡ true) }
        ensures most { IfSome result (λ next. HaveUsers self.now next.most_users) }
    {
        let mut found = None;
        let mut least = u64::MAX;
        let mut most_users = 0;
        for resource in self.active.members() {
            most_users = self.counts[*resource].max(most_users);
            let key = self.key(system, *resource);
            if key <= least {
                least = key;
                found = Some(*resource);
            }
        }
        let resource = found?;
        Some(Next {
            resource,
            most_users,
        })
    }

    // Processes active resources until none is active, or very many are, or the visits may not suffice.
    fn look_on<L: Ledger>(&mut self, system: &System, ended: usize, steps: &mut Steps<L>) -> bool
        requires settling { IsSettling system.now self.old }
        requires stale { AreNew system.now self.old }
        ensures settling { IsSettling system.now self.new }
        ensures moved { NotesMoved self.old self.new }
        ensures within { StaysWithin system.now self.old self.new }
        ensures levels { IsTrue result → AreFilled system.now self.new.levels.items }
        ensures none_active { IsTrue result
            → (r : ℕ) → is_active self.new.active.members r ≡ false }
        ensures looks { SparesLooks system.now self.old ended steps.old steps.new }
    {
        system.is_sound();
        let behind = self
            .moved
            .members()
            .len()
            .saturating_sub(self.stale.members().len());
        let mut given = Allowance {
            known: 0,
            row: 0,
            ended: ended as u64,
            spent: 0,
        };
        for _round in 0..u64::MAX {
            let Some(next) = self.next_active(system) else {
                return true;
            };
            let flows = self.moved.members().len().saturating_sub(behind);
            if self.active.members().len() > MOST_ACTIVE {
                return false;
            }
            let known = given.with_flows(flows as u64, next.most_users);
            let Some(left) = self.refresh(system, next.resource, known, steps) else {
                return false;
            };
            given = left;
        }
        false
    }

    /// Brings the levels up to date, after so many flows ended since the last time. It visits each use of the flows that
    /// began or got another bound once; its further visits are bounded by the size of the connected component. True:
    /// each flow has its max-min level. False: very many resources were active, or the visits may not have sufficed. It
    /// ends either way, and the flows whose levels changed are noted.
    pub fn settle<L: Ledger>(&mut self, system: &System, ended: usize, steps: &mut Steps<L>) -> bool
        requires { IsBetween system.now self.old }
        ensures between { IsBetween system.now self.new }
        ensures none_stale { self.new.stale.members ≡ [] }
        ensures once { AllPairs (λ a b. a ≢ b) self.old.stale.members }
        ensures changed { NotesChanged system.now system.now self.old self.new }
        ensures within { StaysWithin system.now self.old self.new }
        ensures levels { IsTrue result → AreFilled system.now self.new.levels.items }
        ensures none_active { IsTrue result
            → (r : ℕ) → is_active self.new.active.members r ≡ false }
        ensures looks { SparesLooks system.now self.old ended
            (steps.old + all_uses system.now.slots self.old.stale.members) steps.new }
    {
        system.is_sound();
        renew_all(system, self, steps);
        let settled = self.look_on(system, ended, steps);
        self.stale.clear();
        settled
    }
}
