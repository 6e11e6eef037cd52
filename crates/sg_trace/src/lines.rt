//! The lines on standard output.
ghost use Rattle.std.specs.Prelude.{◌≡◌, ◌≤◌, ◌++◌, codes, length};
ghost use Rattle.sg_platform_rows.specs.Deployment.{IsDeployedOn};
ghost use Rattle.sg_trace.specs.Ending.{IsLastOf, ending_of, last_text};
ghost use Rattle.sg_trace.specs.Line.{IsDate, IsOfDeployment, line_of};
ghost use Rattle.sg_units.specs.Date.{date_of};
ghost use Rattle.sg_trace.specs.kept.Room.{HasRoom, GrowsBy};

use crate::calls::push_call;
use crate::last::Last;
use crate::names::{host_name, push_actor, push_name};
use crate::pieces::{push_date, push_end, push_energy, push_number};
use arrayvec::ArrayString;
use sg_base::Record;
use sg_platform_rows::{Deployment, PlatformText};

/// Appends the trace line of a record, with its newline. It takes no memory.
pub fn push_line<const N: usize>(
    lines: &mut ArrayString<N>,
    answered: &Record,
    platform: &PlatformText,
    deployment: &Deployment,
)
    requires answered { IsOfDeployment deployment.now answered.now }
    requires deployed { IsDeployedOn platform.now deployment.now }
    requires room { HasRoom N lines.old 512 }
    ensures { lines.new.bytes
        ≡ lines.old.bytes ++ line_of answered.now platform.now deployment.now }
{
    lines.push_str("[");
    push_actor(lines, platform, deployment, answered.actor);
    lines.push_str(" ");
    push_date(lines, answered.date);
    lines.push_str("] ");
    push_call(lines, deployment, answered.what, Some(answered.bytes));
    lines.push_str(" ");
    push_end(lines, answered.end);
    lines.push_str("\n");
}

/// Returns the trace line of a record, with its newline. It takes no memory.
pub fn line(answered: &Record, platform: &PlatformText, deployment: &Deployment) -> ArrayString<512>
    requires answered { IsOfDeployment deployment.now answered.now }
    requires deployed { IsDeployedOn platform.now deployment.now }
    ensures { result.bytes ≡ line_of answered.now platform.now deployment.now }
{
    let mut text = ArrayString::new();
    push_line(&mut text, answered, platform, deployment);
    text
}

fn push_dated<const N: usize>(lines: &mut ArrayString<N>, text: &str, date: u128)
    requires date { IsDate date }
    requires text { length text.now ≤ 40 }
    requires room { HasRoom N lines.old 104 }
    ensures bytes { lines.new.bytes ≡ lines.old.bytes ++ (text.now ++ date_of date) }
    ensures len { GrowsBy lines.old lines.new 104 }
{
    lines.push_str(text);
    push_date(lines, date);
}

fn push_last<const N: usize>(
    lines: &mut ArrayString<N>,
    last: Last,
    platform: &PlatformText,
    deployment: &Deployment,
)
    requires last { IsLastOf platform.now deployment.now last }
    requires deployed { IsDeployedOn platform.now deployment.now }
    requires room { HasRoom N lines.old 312 }
    ensures bytes { lines.new.bytes
        ≡ lines.old.bytes ++ last_text last platform.now deployment.now }
    ensures len { GrowsBy lines.old lines.new 260 }
{
    match last {
        Last::Time(date) => push_dated(lines, "Simulation time ", date),
        Last::Deadlock(date) => push_dated(lines, "deadlock at ", date),
        Last::Starved(date) => push_dated(lines, "starved at ", date),
        Last::Budget(events, date) => {
            lines.push_str("budget of ");
            push_number(lines, events);
            push_dated(lines, " events used at ", date);
        }
        Last::Blocked(actor, call) => {
            lines.push_str("blocked [");
            push_actor(lines, platform, deployment, actor);
            lines.push_str("] ");
            push_call(lines, deployment, call, None);
        }
        Last::Suspended(actor) => {
            lines.push_str("suspended [");
            push_actor(lines, platform, deployment, actor);
            lines.push_str("]");
        }
        Last::Summary(actors, events) => {
            push_number(lines, actors);
            lines.push_str(" actors, ");
            push_number(lines, events);
            lines.push_str(" events");
        }
        Last::Energy(host, joules, rest) => {
            lines.push_str("energy ");
            push_name(lines, host_name(platform, host));
            lines.push_str(" ");
            push_energy(lines, joules, rest);
        }
    }
}

/// Appends a line that reports how the run ended, with its newline. It takes no memory.
pub fn push_ending<const N: usize>(
    lines: &mut ArrayString<N>,
    last: &Last,
    platform: &PlatformText,
    deployment: &Deployment,
)
    requires last { IsLastOf platform.now deployment.now last.now }
    requires deployed { IsDeployedOn platform.now deployment.now }
    requires room { HasRoom N lines.old 512 }
    ensures { lines.new.bytes ≡ lines.old.bytes ++ ending_of last.now platform.now deployment.now }
{
    push_last(lines, *last, platform, deployment);
    lines.push_str("\n");
}

/// Returns a line that reports how the run ended, with its newline. It takes no memory.
pub fn ending_lines(
    last: &Last,
    platform: &PlatformText,
    deployment: &Deployment,
) -> ArrayString<512>
    requires last { IsLastOf platform.now deployment.now last.now }
    requires deployed { IsDeployedOn platform.now deployment.now }
    ensures { result.bytes ≡ ending_of last.now platform.now deployment.now }
{
    let mut text = ArrayString::new();
    push_ending(&mut text, last, platform, deployment);
    text
}
