//! Running activities.

ghost use Rattle.std.specs.Prelude.{◌≡◌, ◌≢◌, ◌+◌, ◌-◌, ◌*◌, ◌<◌, ◌≤◌, ◌^◌, ◌++◌, true, None, Some, IsTrue, IfOk, OnOk, OnErr, All, AllPairs, MatchOption, [], ◌∷◌, length, map, slice_index_or};
ghost use Rattle.sg_base.specs.declared.ids.LinkId.{LinkId};
ghost use Rattle.sg_base.specs.Limits.{IsAmount, IsPriority, IsTime};
ghost use Rattle.sg_activity.specs.Hosts.{IsHost};
ghost use Rattle.sg_activity.specs.Links.{IsLink, is_off};
ghost use Rattle.sg_activity.specs.Task.{comm_of, exec_of, is_cut as is_cut_spec, timer_of};
ghost use Rattle.sg_activity.specs.Underway.{hits, is_computing as is_computing_spec, is_kept as is_kept_spec, is_running, load as load_spec, next_in, with_bandwidth, with_host_on, with_link_on, with_speed, work_of};
ghost use Rattle.sg_activity.specs.Doing.{idle_on, started_in, drawn_in, begun_in, settled_in, later_in, ended_in, gave_up, held_in, went_on_in, set_in, switched_in, way_of, CanBegin, CanGoOn, CanStart, HaveStamps, IsComputing, IsDue, IsHit, IsNext, IsTransfer, IsUnderWay, IsUpTo, MakesRoom};

use crate::activity_room::grow;
use crate::activity_state::Kept;
use crate::beginning::first_parts;
use crate::capacities::{set_bandwidth, set_speed};
use crate::phases::{end_phase, first_due, go_on, hold, leave};
use crate::power::{first_meter, load, note, set_powers};
use crate::renewal::{renew, restamp};
use crate::routes::write_things;
use crate::switches::{is_way_cut, note_hit, set_host_on, set_link_on};
use sg_activity_table::{
    HostCap, LinkCap, Live, Lives, Phase, PhaseKind, Place, UNBEGUN, is_exec, is_held,
};
use sg_base::{LinkId, Marks, Memory, PointId, Serial, Steps};
use sg_energy::Meter;
use sg_heap::Agenda;
use sg_lazy::Lazy;
use std::alloc::Global;
use std::marker::Model;
use std::sync::ledger::Ledger;

/// The running activities on some hosts and links: executions, sleeps and communications. Executions share their hosts
/// and flows their links, all in one max-min solve, in which an execution weighs as much as its priority and a flow
/// weighs 1. Each activity has the id that it drew, counted up from 1.
///
/// A communication has two phases: first the latency of its route passes, and takes no bandwidth; then its bytes flow.
/// It has both even if the latency is 0 or there are no bytes. A flow uses the SHARED links of its route. Its rate is
/// bounded by the FATPIPE links of its route, and by a bound of its own if it has one.
///
/// Contracts see the hosts and links, the date, by activity id the running phase or nothing, and how much of it
/// remained at which date, the ids that complete now, whether the rates are up to date, and for how many starts there
/// is room. Dates and times are in nanoseconds.
/// The remaining work of an execution or a flow is in unit-nanoseconds: one of n flops or bytes needs n times 10^9, and
/// each nanosecond takes as much as the rate.
///
/// An execution can be suspended: it keeps its remaining work, takes no share and never completes, until it is resumed.
///
/// Each host with power uses energy as time passes, at the power that its load gives.
///
/// A time advance is `settle`, `next_date`, `advance_to`, and then `due` and `finish` for each phase that completes.
pub struct Activities {
    kept: Kept,
    // by key the ids of the activities that use something that is off
    hits: Agenda,
    // what each host used, and the power that it had last
    meter: Meter,
    // the hosts whose power may have changed since the meter got it
    touched: Marks,
}

// A function of its own, so that a proof in which one is dropped doesn't go into its parts.
impl Drop for Activities {
    fn drop(self) {
        let Activities {
            kept: _,
            hits: _,
            meter: _,
            touched: _,
        } = self;
    }
}

impl Model for Activities {
    ghost use Rattle.sg_activity.specs.Doing.{Doing};
    ghost use Rattle.sg_activity.specs.kept.Metered.{energies, metered_in};
    ghost use Rattle.sg_activity.specs.kept.State.{doing_of, state_of};
    ghost use Rattle.sg_activity.specs.kept.Whole.{IsWhole};

    ghost Value = { Doing };

    ghost view = { λ s. metered_in (energies s.kept.date s.meter)
        (doing_of (state_of s.kept) s.kept.room) };

    ghost invariant = { λ s. IsWhole s.kept s.hits s.meter s.touched };
}

impl Activities {
    /// Makes the state with these hosts and links, no running activity and the date 0.
    pub fn new(alloc: Global, hosts: &[HostCap], links: &[LinkCap]) -> Result<Activities, Memory>
        requires hosts { All IsHost hosts.now }
        requires links { All IsLink links.now }
        ensures { IfOk result (λ doing. doing ≡ idle_on hosts.now links.now) }
    {
        let (meter, touched) = first_meter(alloc, hosts.len())?;
        let parts = first_parts(alloc, hosts, links)?;
        Ok(Activities {
            kept: parts.kept,
            hits: parts.hits,
            meter,
            touched,
        })
    }

    /// Makes room for this many more starts, which then take no memory. Only the room changes, even if memory runs out,
    /// and the room doesn't shrink.
    pub fn reserve(&mut self, n: usize) -> Result<(), Memory>
        ensures { MakesRoom n self.old self.new result }
    {
        if n <= self.kept.room {
            return Ok(());
        }
        self.grow(n)
    }

    // Does the same, if there isn't that much room yet.
    fn grow(&mut self, wanted: usize) -> Result<(), Memory>
        ensures { MakesRoom wanted self.old self.new result }
    {
        let n = wanted.max(self.kept.room);
        let more = n - self.kept.room;
        // each latency that passes is followed by a flow, over the links of its own route
        let Some(flows) = self.kept.flows.checked_add(more) else {
            return Err(Memory);
        };
        let Some(room) = more.checked_mul(64) else {
            return Err(Memory);
        };
        let Some(uses) = self.kept.uses.checked_add(room) else {
            return Err(Memory);
        };
        let Some(keys) = self.kept.lives.numbers().checked_add(n) else {
            return Err(Memory);
        };
        self.hits.reserve(keys)?;
        grow(&mut self.kept, n, flows, uses)?;
        self.kept.room = n;
        self.kept.flows = flows;
        self.kept.uses = uses;
        Ok(())
    }

    /// Starts an execution of this many flops on a host, and returns its activity id. Beside others on the host it gets
    /// as many times the flops of one of priority 1 as its priority says, and at most the host's speed. It runs even
    /// if the host is off; then `hit` returns it until it is given up.
    pub fn start_exec(&mut self, host: PointId, flops: u64, priority: u32) -> Serial
        requires host { host.0 < length self.old.under.capacities.hosts }
        requires flops { IsAmount flops }
        requires priority { IsPriority priority }
        requires start { CanStart self.old }
        ensures serial { result.0 ≡ length self.old.under.tasks + 1 }
        ensures starts { self.new ≡ started_in (exec_of host.0 flops priority) self.old }
    {
        let serial = self.next_serial();
        let off = self.is_host_off(host);
        let place = Place::OnHost(host);
        let host = host.0 as usize;
        let bound = self.kept.hosts[host].speed;
        let flow = self.kept.lazy.start(&[host], priority, Some(bound));
        let key = self.kept.lives.put(Live {
            serial: serial.0,
            kind: PhaseKind::Exec,
            place,
            kept: u128::from(flops) * 1_000_000_000,
            stamp: self.kept.date,
            weight: priority,
            flow,
            ..UNBEGUN
        });
        self.kept.index.enter(key, &[host]);
        self.kept.by_flow[flow] = key;
        self.kept.fresh.insert(key);
        self.kept.drawn += 1;
        self.kept.settled = false;
        self.kept.room -= 1;
        self.kept.flows -= 1;
        self.kept.uses -= 64;
        note_hit(&mut self.hits, key, serial, off);
        self.touched.insert(host);
        serial
    }

    /// Starts a sleep of this many nanoseconds, and returns its activity id.
    pub fn start_timer(&mut self, ns: u64) -> Serial
        requires ns { IsTime ns }
        requires start { CanStart self.old }
        ensures serial { result.0 ≡ length self.old.under.tasks + 1 }
        ensures starts { self.new ≡ started_in (timer_of ns) self.old }
    {
        let serial = self.next_serial();
        let key = self.kept.lives.put(Live {
            serial: serial.0,
            kind: PhaseKind::Timer,
            kept: u128::from(ns),
            stamp: self.kept.date,
            rate: 1,
            ..UNBEGUN
        });
        self.kept.fresh.insert(key);
        self.kept.drawn += 1;
        self.kept.settled = false;
        self.kept.room -= 1;
        self.kept.flows -= 1;
        self.kept.uses -= 64;
        serial
    }

    /// Starts the communication of an activity id that was drawn and isn't running, over the links of a route, which are
    /// all different, from one host to another. The latency passes first; then this many bytes flow, at most as many a
    /// second as the bound says. It runs even if a link or a host is off; then `hit` returns it until it is given up.
    pub fn start_comm(
        &mut self,
        serial: Serial,
        links: &[LinkId],
        latency: u128,
        bytes: u64,
        bound: Option<u64>,
        sender: PointId,
        receiver: PointId,
    )
        requires serial { CanBegin self.old serial.0 }
        requires transfer { IsTransfer self.old.under (way_of links.now sender.0 receiver.0)
            latency bytes }
        ensures { self.new ≡ begun_in serial.0
            (comm_of (way_of links.now sender.0 receiver.0) latency bytes bound) self.old }
    {
        let count = links.len();
        let cut = self.is_cut(links, sender, receiver);
        let key = self.kept.lives.put(Live {
            serial: serial.0,
            kind: PhaseKind::Latency,
            place: Place::Over {
                sender,
                receiver,
                links: count as u32,
            },
            kept: latency,
            stamp: self.kept.date,
            rate: 1,
            bound,
            bytes,
            ..UNBEGUN
        });
        write_things(
            self.kept.hosts.len(),
            self.kept.links.len(),
            links,
            sender.0 as usize,
            receiver.0 as usize,
            &mut self.kept.things,
        );
        self.kept.index.enter(key, self.kept.things.as_slice());
        self.kept.fresh.insert(key);
        self.kept.settled = false;
        self.kept.room -= 1;
        self.kept.uses -= 64 - count;
        note_hit(&mut self.hits, key, serial, cut);
    }

    /// Gives each core of a host this speed, from now on. `settle` brings the rates of its executions up to date.
    pub fn set_speed(&mut self, host: PointId, speed: u64)
        requires host { host.0 < length self.old.under.capacities.hosts }
        requires speed { speed ≤ 10 ^ 15 }
        ensures { self.new ≡ set_in (with_speed host.0 speed) self.old }
    {
        set_speed(&mut self.kept, host.0 as usize, speed);
        self.touched.insert(host.0 as usize);
    }

    /// Gives a link this bandwidth, from now on. `settle` brings the rates of the flows over it up to date.
    pub fn set_bandwidth(&mut self, link: LinkId, bandwidth: u64)
        requires link { link.0 < length self.old.under.capacities.links }
        requires bandwidth { bandwidth ≤ 10 ^ 18 }
        ensures { self.new ≡ set_in (with_bandwidth link.0 bandwidth) self.old }
    {
        set_bandwidth(&mut self.kept, link.0 as usize, bandwidth);
    }

    /// Returns whether a host is off.
    pub fn is_host_off(&self, host: PointId) -> bool
        requires { host.0 < length self.now.under.capacities.hosts }
        ensures { result ≡ is_off self.now.under.on.hosts host.0 }
    {
        !self.kept.hosts_on[host.0 as usize]
    }

    /// Returns whether something is off of these links and of the hosts at both ends.
    pub fn is_cut(&self, links: &[LinkId], sender: PointId, receiver: PointId) -> bool
        requires links { All (λ (link : LinkId).
            link.0 < length self.now.under.capacities.links) links.now }
        requires sender { sender.0 < length self.now.under.capacities.hosts }
        requires receiver { receiver.0 < length self.now.under.capacities.hosts }
        ensures { result ≡ is_cut_spec self.now.under.on
            (record { links = links.now; sender = sender.0; receiver = receiver.0 }) }
    {
        is_way_cut(&self.kept, links, sender.0 as usize, receiver.0 as usize)
    }

    /// Turns a host on or off. What uses it continues as it is, until it is given up.
    pub fn set_host_on(&mut self, host: PointId, on: bool)
        requires { host.0 < length self.old.under.capacities.hosts }
        ensures { self.new ≡ switched_in (with_host_on host.0 on) self.old }
    {
        set_host_on(&mut self.kept, &mut self.hits, host.0 as usize, on);
        self.touched.insert(host.0 as usize);
    }

    /// Turns a link on or off. What uses it continues as it is, until it is given up.
    pub fn set_link_on(&mut self, link: LinkId, on: bool)
        requires { link.0 < length self.old.under.capacities.links }
        ensures { self.new ≡ switched_in (with_link_on link.0 on) self.old }
    {
        set_link_on(&mut self.kept, &mut self.hits, link.0 as usize, on);
    }

    /// Returns the least id of an activity that uses a host or a link that is off.
    pub fn hit(&self) -> Option<Serial>
        ensures { MatchOption result (hits self.now.under ≡ [])
            (λ serial. IsHit self.now serial.0) }
    {
        let (_, _, serial) = self.hits.least()?;
        Some(serial)
    }

    /// Gives up the activity of an id.
    pub fn give_up(&mut self, serial: Serial)
        requires { IsUnderWay self.old serial.0 }
        ensures { self.new ≡ gave_up serial.0 self.old }
    {
        let Some((key, live)) = self.kept.lives.find(serial) else {
            unreachable!()
        };
        note(&mut self.touched, &live);
        leave(&mut self.kept, &mut self.hits, key, live);
    }

    /// Returns whether an execution is running under an activity id, and isn't suspended.
    pub fn is_computing(&self, serial: Serial) -> bool
        requires { 0 < serial.0 }
        ensures { result ≡ is_computing_spec self.now.under serial.0 }
    {
        match self.kept.lives.find(serial) {
            Some((_, live)) => is_exec(live.kind),
            None => false,
        }
    }

    /// Returns whether an execution is suspended under an activity id.
    pub fn is_kept(&self, serial: Serial) -> bool
        requires { 0 < serial.0 }
        ensures { result ≡ is_kept_spec self.now.under serial.0 }
    {
        match self.kept.lives.find(serial) {
            Some((_, live)) => is_held(live.kind),
            None => false,
        }
    }

    /// Suspends an execution: it keeps its remaining work, and gets nothing of its host until it is resumed.
    pub fn hold(&mut self, serial: Serial)
        requires { IsComputing self.old serial.0 }
        ensures { self.new ≡ held_in serial.0 self.old }
    {
        let Some((key, live)) = self.kept.lives.find(serial) else {
            unreachable!()
        };
        note(&mut self.touched, &live);
        hold(&mut self.kept, key, live);
    }

    /// Resumes a suspended execution with its remaining work.
    pub fn go_on(&mut self, serial: Serial)
        requires { CanGoOn self.old serial.0 }
        ensures { self.new ≡ went_on_in serial.0 self.old }
    {
        let Some((key, live)) = self.kept.lives.find(serial) else {
            unreachable!()
        };
        note(&mut self.touched, &live);
        go_on(&mut self.kept, key, live);
    }

    /// Returns the activity id that is drawn next.
    pub fn next_serial(&self) -> Serial
        ensures { result.0 ≡ length self.now.under.tasks + 1 }
    {
        Serial(self.kept.drawn + 1)
    }

    /// Draws the next activity id, for a communication that starts once both endpoints are there.
    pub fn take_serial(&mut self) -> Serial
        requires { length self.old.under.tasks < 10 ^ 9 }
        ensures serial { result.0 ≡ length self.old.under.tasks + 1 }
        ensures drawn { self.new ≡ drawn_in self.old }
    {
        let serial = self.next_serial();
        self.kept.drawn += 1;
        serial
    }

    /// Brings the rates up to date. It visits only what shares hosts or links with what began and ended since: `steps`
    /// counts the visits to uses of hosts and links.
    pub fn settle<L: Ledger>(&mut self, steps: &mut Steps<L>)
        ensures settles { self.new ≡ settled_in self.old }
        ensures looks { steps.new ≤ steps.old + work_of self.old.under }
    {
        self.kept.lazy.settle(steps);
        restamp(
            &mut self.kept.lives,
            &mut self.kept.agenda,
            &mut self.kept.fresh,
            &self.kept.by_flow,
            &self.kept.lazy,
            self.kept.date,
        );
        renew(
            &mut self.kept.agenda,
            &self.kept.lives,
            self.kept.fresh.members(),
        );
        self.kept.fresh.clear();
        self.kept.settled = true;
        self.kept.arrived = false;
    }

    /// States that each running phase has a stamp, from which its remaining work follows: so much remained at a date,
    /// and each nanosecond took so much from then on. `advance_to` writes no stamp, `settle` those of phases that began
    /// or have another rate, and a start, an end, a suspension or a resumption its own.
    pub fn stamps_tell(&self)
        ensures { HaveStamps self.now }
    {
        let _date = self.kept.date;
    }

    /// Returns the date.
    pub fn date(&self) -> u128
        ensures { result ≡ self.now.under.date }
    {
        self.kept.date
    }

    /// Returns whether some activity is running and isn't a suspended execution.
    pub fn running(&self) -> bool
        ensures { result ≡ is_running self.now.under }
    {
        !self.kept.lives.is_idle()
    }

    /// Returns the date at which the next phase completes: now if no work remains of it, and else once its rate has
    /// taken the rest. `None` if none ever completes, since each has the rate 0 or nothing is running.
    pub fn next_date(&self) -> Option<u128>
        requires { IsTrue self.now.settled }
        ensures { MatchOption result (next_in self.now.under ≡ None)
            (λ date. IsNext self.now date) }
    {
        let (_, date, _) = self.kept.agenda.least()?;
        Some(date)
    }

    /// Moves to a date, from now to that of `next_date`, or to any from now on if that is `None`: of each phase as much
    /// remains as its rate leaves in that time, and those whose date it is complete.
    pub fn advance_to(&mut self, date: u128)
        requires settled { IsTrue self.old.settled }
        requires from { self.old.under.date ≤ date }
        requires to { IsUpTo (date - self.old.under.date) (next_in self.old.under) }
        requires small { date < 10 ^ 34 }
        ensures { self.new ≡ later_in (date - self.old.under.date) self.old }
    {
        set_powers(&self.kept, &mut self.meter, &mut self.touched);
        self.kept.date = date;
        self.kept.arrived = true;
    }

    /// Returns the phase of least activity id that completes now and hasn't ended yet.
    pub fn due(&self) -> Option<Phase>
        ensures { MatchOption result (self.now.due ≡ []) (λ phase. IsDue self.now phase) }
    {
        let (_, live) = first_due(&self.kept)?;
        Some(Phase {
            serial: Serial(live.serial),
            kind: live.kind,
        })
    }

    /// Ends the phase that `due` returns: after a latency its bytes begin to flow, and else its activity is done.
    pub fn finish(&mut self)
        requires { self.old.due ≢ [] }
        ensures { self.new ≡ ended_in self.old }
    {
        let Some((key, live)) = first_due(&self.kept) else {
            unreachable!()
        };
        note(&mut self.touched, &live);
        end_phase(&mut self.kept, &mut self.hits, key, live);
    }

    /// Returns what the executions of a host get together, in flops a second; `None` if all are suspended or none runs.
    pub fn load(&self, host: PointId) -> Option<u64>
        requires settled { IsTrue self.now.settled }
        requires host { host.0 < length self.now.under.capacities.hosts }
        ensures { result ≡ load_spec self.now.under host.0 }
    {
        load(&self.kept, host.0 as usize)
    }

    /// Returns the energy that a host used: whole joules, and the milliwatt-nanoseconds below a joule.
    pub fn energy(&self, host: PointId) -> (u128, u64)
        requires { host.0 < length self.now.under.capacities.hosts }
        ensures energy { result.0 * 10 ^ 12 + result.1
            ≡ slice_index_or self.now.under.energy host.0 0 }
        ensures rest { result.1 < 10 ^ 12 }
    {
        self.meter.energy(host, self.kept.date)
    }
}
