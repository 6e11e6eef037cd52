//! What is reported of the end of a run.
ghost use Rattle.std.specs.Prelude.{◌≡◌, None, length};
ghost use Rattle.sg_engine.specs.Output.{summary as summary_spec};
ghost use Rattle.sg_engine.specs.kept.Listed.{listed, report_as, IsReportOf};
ghost use Rattle.sg_engine.specs.kept.Stretches.{reported};

use crate::ended::Ended;
use crate::fault_lines::{Line, no_route_line, read_fault_line, script_fault_line, too_long_line};
use crate::final_state::Final;
use crate::show::Show;
use sg_trace::Last;

/// How a run has ended: a line, perhaps one ahead of it, and perhaps one behind it for each actor that can't continue.
#[derive(Clone, Copy)]
pub struct Lasts {
    pub ahead: Option<Last>,
    pub last: Last,
    pub stuck: bool,
}

/// What is reported of the end of a run.
#[derive(Drop)]
pub enum Report {
    /// How it has ended, on Out. The energies of hosts follow.
    Lasts(Lasts),
    /// The fault that has ended it, on Err.
    Fault(Line),
    /// Nothing: it was cut off.
    Nothing,
}

// Returns the line of how many actors and events there were, if that is shown.
fn summary(end: &Final<'_, '_>) -> Option<Last>
    ensures { listed result ≡ summary_spec end.now.plan.terms.show
        (length end.now.plan.deployment.now.actors) end.now.kernel.now.core.events }
{
    match end.plan.terms.show {
        Show::Summary => {
            let actors = end.plan.deployment.actors().len() as u64;
            Some(Last::Summary(actors, end.kernel.events()))
        }
        Show::All | Show::Quiet => None,
    }
}

fn told(last: Last, stuck: bool) -> Report
    ensures { result ≡ Report.Lasts (record { ahead = None; last = last; stuck = stuck }) }
{
    Report::Lasts(Lasts {
        ahead: None,
        last,
        stuck,
    })
}

/// Returns what is reported of a run that ended so.
pub fn report_of(end: &Final<'_, '_>, how: Ended) -> Report
    ensures is { report_as end.now.kernel.now.core result
        ≡ reported end.now.plan end.now.kernel.now.core how }
    ensures told { IsReportOf end.now.plan.platform.now end.now.plan.deployment.now result }
{
    let date = end.kernel.date();
    match how {
        Ended::Completed => Report::Lasts(Lasts {
            ahead: summary(end),
            last: Last::Time(date),
            stuck: false,
        }),
        Ended::Deadlock => told(Last::Deadlock(date), true),
        Ended::Starved => told(Last::Starved(date), true),
        Ended::Budget => told(Last::Budget(end.plan.terms.budget, date), false),
        Ended::NoRoute {
            from,
            to,
            zone,
            a,
            b,
        } => Report::Fault(no_route_line(end.plan.platform, from, to, zone, a, b)),
        Ended::TooLong { from, to } => Report::Fault(too_long_line(end.plan.platform, from, to)),
        Ended::Script(number, kind) => Report::Fault(script_fault_line(number, kind)),
        Ended::ReadFault => Report::Fault(read_fault_line()),
        Ended::WriteFault | Ended::Memory => Report::Nothing,
    }
}
