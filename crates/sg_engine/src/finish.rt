//! The lines at the end of a run.
ghost use Rattle.std.specs.Prelude.{◌≡◌, ◌≢◌, ◌++◌, false};
ghost use Rattle.sg_engine.specs.Output.{fault_line};
ghost use Rattle.sg_engine.specs.RunContract.{is_cut, Ends};
ghost use Rattle.sg_engine.specs.kept.Listed.{report_as, AreLastsOf};
ghost use Rattle.sg_engine.specs.kept.Stretches.{how_in, last_in, reported};
ghost use Rattle.sg_engine.specs.kept.Writing.{HasReason, Puts, Tells};

use crate::buffer::Buffer;
use crate::ended::Ended;
use crate::final_state::Final;
use crate::output::Output;
use crate::printing::{put_energy, put_if, put_last, put_stuck};
use crate::report::{Lasts, Report, report_of};
use sg_edge::{Failed, Sinks, Stream};

// Puts how a run has ended into the buffer.
fn put_how<O: Sinks>(
    end: &Final<'_, '_>,
    told: Lasts,
    buffer: &mut Buffer,
    out: &mut Output<'_, O>,
) -> Result<(), Failed>
    requires { AreLastsOf end.now.plan.platform.now end.now.plan.deployment.now told }
    ensures { Puts O.contents O.faults
        (buffer.old ++ how_in end.now.plan end.now.kernel.now.core told) buffer.new result
        out.old.sink out.new.sink }
{
    put_if(&end.plan, told.ahead, buffer, out)?;
    put_last(&end.plan, told.last, buffer, out)?;
    put_stuck(end, told.stuck, buffer, out)
}

// Puts how a run has ended and the energies of hosts into the buffer.
fn put_lasts<O: Sinks>(
    end: &Final<'_, '_>,
    told: Lasts,
    buffer: &mut Buffer,
    out: &mut Output<'_, O>,
) -> Result<(), Failed>
    requires { AreLastsOf end.now.plan.platform.now end.now.plan.deployment.now told }
    ensures { Puts O.contents O.faults
        (buffer.old ++ last_in end.now.plan end.now.kernel.now.core
        (report_as end.now.kernel.now.core (Report.Lasts told))) buffer.new result
        out.old.sink out.new.sink }
{
    put_how(end, told, buffer, out)?;
    put_energy(end, buffer, out)
}

// Writes a line on Err, after what waits.
fn write_fault<O: Sinks>(
    line: &str,
    buffer: &mut Buffer,
    out: &mut Output<'_, O>,
) -> Result<(), Failed>
    ensures { Tells O.contents O.faults buffer.old line.now result out.old.sink out.new.sink }
{
    buffer.flush(out)?;
    out.append(Stream::Err, line.as_bytes())
}

// Writes what stands after the trace lines of a run that ended so: all of Out before Err gets a byte.
fn print_end<O: Sinks>(
    end: &Final<'_, '_>,
    how: Ended,
    buffer: &mut Buffer,
    out: &mut Output<'_, O>,
) -> Result<(), Failed>
    ensures { Tells O.contents O.faults (buffer.old ++ last_in end.now.plan
        end.now.kernel.now.core (reported end.now.plan end.now.kernel.now.core how))
        (fault_line (reported end.now.plan end.now.kernel.now.core how)) result
        out.old.sink out.new.sink }
{
    match report_of(end, how) {
        Report::Lasts(told) => {
            put_lasts(end, told, buffer, out)?;
            buffer.flush(out)
        }
        Report::Fault(line) => write_fault(line.as_str(), buffer, out),
        Report::Nothing => buffer.flush(out),
    }
}

/// Writes what follows the trace lines of a run that ended so and wasn't cut off. It takes no memory, so that an end
/// that was reached is reported.
pub fn finish<O: Sinks>(
    end: &Final<'_, '_>,
    how: Ended,
    buffer: &mut Buffer,
    out: &mut Output<'_, O>,
) -> Ended
    requires uncut { is_cut how ≡ false }
    ensures ends { Ends (buffer.old ++ last_in end.now.plan end.now.kernel.now.core
        (reported end.now.plan end.now.kernel.now.core how))
        (fault_line (reported end.now.plan end.now.kernel.now.core how)) how result
        (O.contents out.old.sink.now) (O.contents out.new.sink.now) }
    ensures cause { HasReason O.faults (result ≡ Ended.WriteFault) (result ≡ Ended.ReadFault)
        (how ≡ Ended.ReadFault) out.old.sink out.new.sink }
    ensures memory { result ≢ Ended.Memory }
{
    match print_end(end, how, buffer, out) {
        Ok(()) => how,
        Err(Failed) => Ended::WriteFault,
    }
}
