//! Phases that complete, and their ends, and suspended executions.

ghost use Rattle.std.specs.Prelude.{List, MatchOption, None, Option, Some};
ghost use Rattle.sg_activity_table.specs.declared.kinds.PhaseKind.TheVariants as phase;
ghost use Rattle.sg_activity.specs.kept.State.{state_of, task_of};
ghost use Rattle.sg_activity.specs.Task.{next_phase, rekinded};
ghost use Rattle.sg_heap.specs.Agenda.{Key};
ghost use Rattle.sg_activity.specs.kept.Hits.{AreHit};
ghost use Rattle.sg_activity.specs.kept.Sound.{IsSound};
ghost use Rattle.sg_activity.specs.kept.Ends.{Ends, GoesOn, IsFirst, IsIdle};
ghost use Rattle.sg_activity.specs.kept.Whole.{IsUsed};
ghost use Rattle.sg_activity.specs.kept.Asks.{AreKnown, CanEnd, IsHeldAt, IsPhaseAt};

use crate::activity_state::Kept;
use crate::renewal::left_at;
use crate::routes::{bound_of, tighter, write_uses, write_way};
use sg_activity_table::{Live, PhaseKind, Place, flows_ahead, takes_share, uses_ahead};
use sg_heap::Agenda;

/// Returns the activity whose phase completes first, and its key.
pub(crate) fn first_due(kept: &Kept) -> Option<(usize, Live)>
    requires { IsSound kept.now }
    ensures { MatchOption result (IsIdle (state_of kept.now))
        (λ first. IsFirst (state_of kept.now) first.0 first.1) }
{
    if !kept.arrived {
        return None;
    }
    match kept.agenda.least() {
        Some((key, date, _)) if date == kept.date => {
            let Some(live) = kept.lives.get(key) else {
                unreachable!()
            };
            Some((key, live))
        }
        _ => None,
    }
}

// Begins the flow of a communication over its route, after its latency passed.
fn begin_flow(kept: &mut Kept, key: usize, live: Live)
    requires { IsPhaseAt kept.old key live phase.Latency }
    ensures ends { Ends kept.old kept.new key live
        (next_phase live.kind (task_of (state_of kept.old) key live)) }
    ensures used { IsUsed kept.new kept.new.index }
    ensures hit { (hits : List (Option Key)) → AreHit kept.old hits → AreHit kept.new hits }
{
    let hosts = kept.hosts.len();
    write_way(&kept.index, key, hosts, &mut kept.way);
    write_uses(hosts, &kept.links, kept.way.as_slice(), &mut kept.way_uses);
    let bound = tighter(bound_of(&kept.links, kept.way.as_slice()), live.bound);
    let flow = kept
        .lazy
        .start(kept.way_uses.as_slice(), live.weight, bound);
    kept.lives.set(
        key,
        Live {
            kind: PhaseKind::Flow,
            kept: u128::from(live.bytes) * 1_000_000_000,
            stamp: kept.date,
            rate: 0,
            flow,
            ..live
        },
    );
    kept.agenda.clear(key);
    kept.by_flow[flow] = key;
    kept.fresh.insert(key);
    kept.flows -= 1;
    kept.uses -= uses_ahead(&live);
    kept.settled = false;
}

/// Ends an activity that is done, or given up: its flow ends, it uses nothing, and its key is free.
pub(crate) fn leave(kept: &mut Kept, hits: &mut Agenda, key: usize, live: Live)
    requires { CanEnd kept.old hits.old key live }
    ensures ends { Ends kept.old kept.new key live None }
    ensures known { AreKnown kept.new hits.new }
{
    hits.clear(key);
    if takes_share(live.kind) {
        kept.lazy.end(live.flow);
    }
    kept.index.leave(key);
    kept.lives.remove(key);
    kept.agenda.clear(key);
    kept.flows -= flows_ahead(live.kind);
    kept.uses -= uses_ahead(&live);
    kept.settled = false;
}

/// Ends the phase of the activity under a key: a latency becomes a flow, and else the activity is done.
pub(crate) fn end_phase(kept: &mut Kept, hits: &mut Agenda, key: usize, live: Live)
    requires { CanEnd kept.old hits.old key live }
    ensures ends { Ends kept.old kept.new key live
        (next_phase live.kind (task_of (state_of kept.old) key live)) }
    ensures known { AreKnown kept.new hits.new }
{
    match live.kind {
        PhaseKind::Latency => begin_flow(kept, key, live),
        PhaseKind::Flow | PhaseKind::Exec | PhaseKind::Timer | PhaseKind::Kept => {
            leave(kept, hits, key, live);
        }
    }
}

/// Suspends an execution: its flow ends, and it keeps its remaining work.
pub(crate) fn hold(kept: &mut Kept, key: usize, live: Live)
    requires { IsPhaseAt kept.old key live phase.Exec }
    ensures ends { Ends kept.old kept.new key live
        (Some (rekinded phase.Kept (task_of (state_of kept.old) key live))) }
    ensures used { IsUsed kept.old kept.old.index → IsUsed kept.new kept.new.index }
    ensures hit { (hits : List (Option Key)) → AreHit kept.old hits → AreHit kept.new hits }
{
    kept.lazy.end(live.flow);
    kept.lives.set(
        key,
        Live {
            kind: PhaseKind::Kept,
            kept: left_at(&live, kept.date),
            stamp: kept.date,
            rate: 0,
            ..live
        },
    );
    kept.agenda.clear(key);
    kept.fresh.insert(key);
    kept.settled = false;
}

/// Resumes a suspended execution: its flow begins, with its remaining work.
pub(crate) fn go_on(kept: &mut Kept, key: usize, live: Live)
    requires { IsHeldAt kept.old key live }
    ensures goes_on { GoesOn kept.old kept.new key live }
    ensures used { IsUsed kept.old kept.old.index → IsUsed kept.new kept.new.index }
    ensures hit { (hits : List (Option Key)) → AreHit kept.old hits → AreHit kept.new hits }
{
    let Place::OnHost(host) = live.place else {
        unreachable!()
    };
    let host = host.0 as usize;
    let bound = tighter(Some(kept.hosts[host].speed), live.bound);
    let flow = kept.lazy.start(&[host], live.weight, bound);
    kept.lives.set(
        key,
        Live {
            kind: PhaseKind::Exec,
            stamp: kept.date,
            rate: 0,
            flow,
            ..live
        },
    );
    kept.by_flow[flow] = key;
    kept.fresh.insert(key);
    kept.settled = false;
    kept.room -= 1;
    kept.flows -= 1;
    kept.uses -= 64;
}
