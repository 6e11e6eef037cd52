//! The max-min solve by component: each connected component is solved by itself.
ghost use Rattle.std.specs.Prelude.{◌≡◌, ◌<◌, false, IsSome, IsTrue, All, length};
ghost use Rattle.sg_base.specs.MarkSet.{is_in, with_mark};
ghost use Rattle.sg_maxmin.specs.Chained.{users_on};
ghost use Rattle.sg_maxmin.specs.Sharing.{flow_at};
ghost use Rattle.sg_maxmin_solve.specs.Component.{AllPass};
ghost use Rattle.sg_maxmin_solve.specs.Parts.{AreHeldUnless, FillsFrom, IsFilled, IsFilledAt, IsFilledBut, RunningPass};

use crate::alone::{fill_alone, touch_alone};
use crate::component::{Component, reach};
use crate::filling::{Filling, fill};
use sg_base::{Marks, Steps};
use sg_maxmin::System;
use std::sync::ledger::Ledger;

// Solves the connected component of a flow that isn't touched.
fn fill_part<L: Ledger>(
    system: &System,
    flow: usize,
    component: &mut Component,
    filling: &mut Filling,
    steps: &mut Steps<L>,
)
    requires { IsFilledBut system.now component.old filling.old flow }
    ensures { FillsFrom system.now (λ p q. IsTrue (p flow)) component.old component.new filling.new
        steps.old steps.new }
{
    let touched = component.touched.members().len();
    let reached = component.reached.members().len();
    match touch_alone(system, flow, component, steps) {
        Some(low) => {
            let came = &component.reached.members()[reached..];
            fill_alone(system, flow, low, came, filling);
        }
        None => {
            reach(system, reached, component, steps);
            fill(
                system,
                &component.touched.members()[touched..],
                &component.reached.members()[reached..],
                filling,
                steps,
            );
        }
    }
}

// Solves the connected component of a marked flow, unless it ended or is solved already.
fn fill_running<L: Ledger>(
    system: &System,
    flow: usize,
    ended: &Marks,
    component: &mut Component,
    filling: &mut Filling,
    steps: &mut Steps<L>,
)
    requires flow { (flow < ended.now.room) × (flow < length system.now.slots) }
    requires held { is_in flow ended.now.members ≡ false → IsSome (flow_at system.now.slots flow) }
    requires filled { IsFilled system.now component.old filling.old }
    ensures { FillsFrom system.now (λ p q. is_in flow ended.now.members ≡ false → IsTrue (p flow))
        component.old component.new filling.new steps.old steps.new }
{
    if ended.contains(flow) {
        return;
    }
    if component.touched.contains(flow) {
        return;
    }
    fill_part(system, flow, component, filling, steps);
}

/// Solves the connected components of the marked flows, except those that ended: one after the other.
pub fn fill_marked<L: Ledger>(
    system: &System,
    marked: &[usize],
    ended: &Marks,
    component: &mut Component,
    filling: &mut Filling,
    steps: &mut Steps<L>,
)
    requires marked { AreHeldUnless system.now ended.now marked.now }
    requires filled { IsFilled system.now component.old filling.old }
    ensures { FillsFrom system.now (λ p q. RunningPass marked.now ended.now.members p)
        component.old component.new filling.new steps.old steps.new }
{
    for flow in marked {
        fill_running(system, *flow, ended, component, filling, steps);
    }
}

// Solves the connected component of a resource that isn't reached, and that flows use.
fn fill_from<L: Ledger>(
    system: &System,
    resource: usize,
    component: &mut Component,
    filling: &mut Filling,
    steps: &mut Steps<L>,
)
    requires at { IsFilledAt system.now component.old filling.old resource }
    requires used { 0 < length (users_on system.now.users resource) }
    ensures { FillsFrom system.now (λ p q. IsTrue (q resource)) component.old component.new
        filling.new steps.old steps.new }
{
    let touched = component.touched.members().len();
    let reached = component.reached.members().len();
    component.reached.insert(resource);
    reach(system, reached, component, steps);
    fill(
        system,
        &component.touched.members()[touched..],
        &component.reached.members()[reached..],
        filling,
        steps,
    );
}

// Reaches a resource that no flow uses: it holds none.
fn reach_free(system: &System, resource: usize, component: &mut Component, filling: &mut Filling)
    requires at { IsFilledAt system.now component.old filling.old resource }
    requires free { length (users_on system.now.users resource) ≡ 0 }
    ensures filled { IsFilled system.now component.new filling.new }
    ensures touched { component.new.touched ≡ component.old.touched }
    ensures reached { component.new.reached ≡ record component.old.reached {
      members = with_mark resource component.old.reached.members;
    } }
{
    component.reached.insert(resource);
    filling.holds[resource] = None;
}

// Solves the connected component of a resource, unless it is solved already.
fn fill_on<L: Ledger>(
    system: &System,
    resource: usize,
    component: &mut Component,
    filling: &mut Filling,
    steps: &mut Steps<L>,
)
    requires { IsFilledAt system.now component.old filling.old resource }
    ensures { FillsFrom system.now (λ p q. IsTrue (q resource)) component.old component.new
        filling.new steps.old steps.new }
{
    if component.reached.contains(resource) {
        return;
    }
    match system.first_on(resource) {
        None => reach_free(system, resource, component, filling),
        Some(_) => fill_from(system, resource, component, filling, steps),
    }
}

/// Solves the connected components of these resources: one after the other.
pub fn fill_on_all<L: Ledger>(
    system: &System,
    resources: &[usize],
    component: &mut Component,
    filling: &mut Filling,
    steps: &mut Steps<L>,
)
    requires resources { All (λ c. c < length system.now.capacities) resources.now }
    requires filled { IsFilled system.now component.old filling.old }
    ensures { FillsFrom system.now (λ p q. AllPass q resources.now) component.old component.new
        filling.new steps.old steps.new }
{
    for c in resources {
        fill_on(system, *c, component, filling, steps);
    }
}
