//! The lines on Out. They are put into the buffer, and those of a scheduling round or a time advance are written
//! together.
ghost use Rattle.std.specs.Prelude.{◌≡◌, ◌<◌, ◌++◌, [], slice_index_or, if◌then◌else◌, IfSome, OnOk};
ghost use Rattle.sg_actor_states.specs.Actors.{actor_at};
ghost use Rattle.sg_actor_states.specs.Records.{AreRecords, IsRecord};
ghost use Rattle.sg_kernel_calls.specs.World.{IsActor};
ghost use Rattle.sg_platform_rows.specs.Deployment.{extent_of};
ghost use Rattle.sg_trace.specs.Ending.{IsLastOf};
ghost use Rattle.sg_trace.specs.Line.{line_of};
ghost use Rattle.sg_engine.specs.kept.Writing.{Puts, Writes};
ghost use Rattle.sg_engine.specs.Output.{energy_last, stuck_last, trace_of};
ghost use Rattle.sg_engine.specs.kept.Listed.{line_if};
ghost use Rattle.sg_engine.specs.kept.Stretches.{ending_in, energy_in, stuck_in, trace_in};

use crate::buffer::Buffer;
use crate::final_state::Final;
use crate::output::Output;
use crate::plan::Plan;
use crate::show::Show;
use sg_base::{ActorId, PointId, Record};
use sg_edge::{Failed, Sinks};
use sg_kernel::Kernel;
use sg_platform_rows::HostRow;
use sg_trace::Last;

// Puts the trace line of a record into the buffer.
fn put_record<O: Sinks>(
    plan: &Plan<'_>,
    answered: &Record,
    buffer: &mut Buffer,
    out: &mut Output<'_, O>,
) -> Result<(), Failed>
    requires { IsRecord (extent_of plan.now.deployment.now) answered.now }
    ensures { Puts O.contents O.faults
        (buffer.old ++ line_of answered.now plan.now.platform.now plan.now.deployment.now)
        buffer.new result out.old.sink out.new.sink }
{
    buffer.put_line(answered, plan, out)
}

// Puts a trace line for each record into the buffer.
fn put_records<O: Sinks>(
    plan: &Plan<'_>,
    records: &[Record],
    buffer: &mut Buffer,
    out: &mut Output<'_, O>,
) -> Result<(), Failed>
    requires { AreRecords (extent_of plan.now.deployment.now) records.now }
    ensures { Puts O.contents O.faults
        (buffer.old ++ trace_of Show.All plan.now.platform.now plan.now.deployment.now records.now)
        buffer.new result out.old.sink out.new.sink }
{
    for answered in records {
        put_record(plan, answered, buffer, out)?;
    }
    Ok(())
}

// Writes a trace line for each record.
fn write_lines<O: Sinks>(
    plan: &Plan<'_>,
    records: &[Record],
    buffer: &mut Buffer,
    out: &mut Output<'_, O>,
) -> Result<(), Failed>
    requires records { AreRecords (extent_of plan.now.deployment.now) records.now }
    requires empty { buffer.old ≡ [] }
    ensures writes { Writes O.contents O.faults
        (trace_of Show.All plan.now.platform.now plan.now.deployment.now records.now) result
        out.old.sink out.new.sink }
    ensures empty { OnOk result (buffer.new ≡ []) }
{
    put_records(plan, records, buffer, out)?;
    buffer.flush(out)
}

/// Writes a trace line for each record of a scheduling round or a time advance, if all is shown: in one write, unless
/// they exceed the buffer.
pub fn write_trace<O: Sinks>(
    plan: &Plan<'_>,
    records: &[Record],
    buffer: &mut Buffer,
    out: &mut Output<'_, O>,
) -> Result<(), Failed>
    requires records { AreRecords (extent_of plan.now.deployment.now) records.now }
    requires empty { buffer.old ≡ [] }
    ensures writes { Writes O.contents O.faults (trace_in plan.now records.now) result out.old.sink
        out.new.sink }
    ensures empty { OnOk result (buffer.new ≡ []) }
{
    // The script answers most scheduling rounds, and then there is no record.
    if records.is_empty() {
        return Ok(());
    }
    match plan.terms.show {
        Show::All => write_lines(plan, records, buffer, out),
        Show::Quiet | Show::Summary => Ok(()),
    }
}

/// Puts a last line into the buffer.
pub fn put_last<O: Sinks>(
    plan: &Plan<'_>,
    last: Last,
    buffer: &mut Buffer,
    out: &mut Output<'_, O>,
) -> Result<(), Failed>
    requires { IsLastOf plan.now.platform.now plan.now.deployment.now last }
    ensures { Puts O.contents O.faults (buffer.old ++ ending_in plan.now last) buffer.new result
        out.old.sink out.new.sink }
{
    buffer.put_ending(&last, plan, out)
}

// Returns the line for an actor that can't continue.
fn stuck(end: &Final<'_, '_>, actor: ActorId) -> Option<Last>
    requires { IsActor end.now.kernel.now.core actor.0 }
    ensures is { result ≡ stuck_last actor.0 (actor_at end.now.kernel.now.core.actors actor.0) }
    ensures told { IfSome result
        (IsLastOf end.now.plan.platform.now end.now.plan.deployment.now) }
{
    let kernel = end.kernel;
    if kernel.suspended(actor) && kernel.alive(actor) {
        return Some(Last::Suspended(actor));
    }
    let call = kernel.blocked(actor)?;
    Some(Last::Blocked(actor, call))
}

/// Puts a line into the buffer, if there is one.
pub fn put_if<O: Sinks>(
    plan: &Plan<'_>,
    told: Option<Last>,
    buffer: &mut Buffer,
    out: &mut Output<'_, O>,
) -> Result<(), Failed>
    requires { IfSome told (IsLastOf plan.now.platform.now plan.now.deployment.now) }
    ensures { Puts O.contents O.faults
        (buffer.old ++ line_if plan.now.platform.now plan.now.deployment.now told) buffer.new
        result out.old.sink out.new.sink }
{
    match told {
        Some(last) => put_last(plan, last, buffer, out),
        None => Ok(()),
    }
}

// Puts a line for each actor that is suspended or blocked into the buffer, in rising id.
fn put_all_stuck<O: Sinks>(
    end: &Final<'_, '_>,
    buffer: &mut Buffer,
    out: &mut Output<'_, O>,
) -> Result<(), Failed>
    ensures { Puts O.contents O.faults
        (buffer.old ++ stuck_in end.now.plan end.now.kernel.now.core) buffer.new result
        out.old.sink out.new.sink }
{
    for i in 0..end.kernel.actors() {
        let told = stuck(end, ActorId(i as u32 + 1));
        put_if(&end.plan, told, buffer, out)?;
    }
    Ok(())
}

/// Does the same if these actors are to be reported.
pub fn put_stuck<O: Sinks>(
    end: &Final<'_, '_>,
    told: bool,
    buffer: &mut Buffer,
    out: &mut Output<'_, O>,
) -> Result<(), Failed>
    ensures { Puts O.contents O.faults (buffer.old
        ++ (if told then stuck_in end.now.plan end.now.kernel.now.core else [])) buffer.new result
        out.old.sink out.new.sink }
{
    if told {
        put_all_stuck(end, buffer, out)
    } else {
        Ok(())
    }
}

// Returns the line for the energy of a host, if it has power.
fn energy(kernel: &Kernel, host: PointId, row: &HostRow) -> Option<Last>
    requires { host.0 < kernel.now.setup.hosts }
    ensures { result ≡ energy_last host.0 row.now
        (slice_index_or kernel.now.core.under.energy host.0 0) }
{
    match row.power {
        Some(_) => {
            let (joules, rest) = kernel.energy(host);
            Some(Last::Energy(host, joules, rest))
        }
        None => None,
    }
}

/// Puts a line for each host with power into the buffer, in declared order.
pub fn put_energy<O: Sinks>(
    end: &Final<'_, '_>,
    buffer: &mut Buffer,
    out: &mut Output<'_, O>,
) -> Result<(), Failed>
    ensures { Puts O.contents O.faults
        (buffer.old ++ energy_in end.now.plan end.now.kernel.now.core) buffer.new result
        out.old.sink out.new.sink }
{
    let rows = end.plan.platform.hosts();
    for (i, row) in rows.iter().enumerate() {
        let told = energy(end.kernel, PointId(i as u32), row);
        put_if(&end.plan, told, buffer, out)?;
    }
    Ok(())
}
