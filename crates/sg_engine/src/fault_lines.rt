//! The lines on Err. They take no memory.
ghost use Rattle.std.specs.Prelude.{◌≡◌, ◌≤◌, ◌+◌, ◌++◌, codes, decimal, length};
ghost use Rattle.arrayvec.specs.ArrayString.{array_string_len};
ghost use Rattle.sg_engine.specs.FaultLines.{fault_text as fault_text_spec, point_name, zone_name, child_name, script_line, no_route_line as no_route_line_spec, too_long_line as too_long_line_spec};

use arrayvec::ArrayString;
use itoa::Buffer;
use sg_base::{Child, PointId, ZoneId};
use sg_platform_rows::PlatformText;
use sg_script::LineFault;

/// A line with its newline. The limits on names and numbers leave it room.
pub type Line = ArrayString<512>;

fn fault_text(kind: LineFault) -> &'static str
    ensures text { result.now ≡ fault_text_spec kind }
    ensures short { length result.now ≤ 64 }
{
    match kind {
        LineFault::TooLong => "line too long",
        LineFault::NotAscii => "not ASCII",
        LineFault::UnknownActor => "unknown actor",
        LineFault::UnknownAction => "unknown action",
        LineFault::ArgumentCount => "wrong number of arguments",
        LineFault::BadAmount => "bad amount",
        LineFault::TooManyLines => "too many lines",
        LineFault::UnknownObject => "unknown object",
    }
}

/// Returns the line that reports a bad script line.
pub fn script_fault_line(number: u64, kind: LineFault) -> Line
    ensures { result.bytes ≡ script_line number kind }
{
    let mut buffer = Buffer::new();
    let mut line = Line::new();
    line.push_str("script line ");
    line.push_str(buffer.format(number));
    line.push_str(": ");
    line.push_str(fault_text(kind));
    line.push_str("\n");
    line
}

/// Returns the line that reports that the script could not be read.
pub fn read_fault_line() -> Line
    ensures { result.bytes ≡ codes "cannot read the script\n" }
{
    let mut line = Line::new();
    line.push_str("cannot read the script\n");
    line
}

// A name on a line.
#[derive(Clone, Copy)]
struct Name<'a> {
    text: &'a str,
    ghost short: { length text.now ≤ 64 },
}

fn point_name(platform: &PlatformText, point: PointId) -> Name<'_>
    ensures { result.text.now ≡ point_name platform.now point }
{
    let hosts = platform.hosts();
    let place = point.0 as usize;
    if place < hosts.len() {
        return Name {
            text: hosts[place].id.as_str(),
        };
    }
    match platform.routers().get(place - hosts.len()) {
        Some(router) => Name {
            text: router.id.as_str(),
        },
        None => Name { text: "" },
    }
}

fn zone_name(platform: &PlatformText, zone: ZoneId) -> Name<'_>
    ensures { result.text.now ≡ zone_name platform.now zone }
{
    match platform.zones().get(zone.0 as usize) {
        Some(zone) => Name {
            text: zone.id.as_str(),
        },
        None => Name { text: "" },
    }
}

fn child_name(platform: &PlatformText, child: Child) -> Name<'_>
    ensures { result.text.now ≡ child_name platform.now child }
{
    match child {
        Child::Point(point) => point_name(platform, point),
        Child::Zone(zone) => zone_name(platform, zone),
    }
}

// Adds two names, and " to " between them.
fn push_pair(line: &mut Line, from: Name<'_>, to: Name<'_>)
    requires { array_string_len line.old ≤ 380 }
    ensures bytes { line.new.bytes ≡ line.old.bytes
        ++ (from.entry.text.now ++ (codes " to " ++ to.entry.text.now)) }
    ensures len { array_string_len line.new ≤ array_string_len line.old + 132 }
{
    line.push_str(from.text);
    line.push_str(" to ");
    line.push_str(to.text);
}

/// Returns the line that reports a missing route.
pub fn no_route_line(
    platform: &PlatformText,
    from: PointId,
    to: PointId,
    zone: ZoneId,
    a: Child,
    b: Child,
) -> Line
    ensures { result.bytes ≡ no_route_line_spec platform.now from to zone a b }
{
    let mut line = Line::new();
    line.push_str("no route from ");
    push_pair(
        &mut line,
        point_name(platform, from),
        point_name(platform, to),
    );
    line.push_str(": zone ");
    line.push_str(zone_name(platform, zone).text);
    line.push_str(", ");
    push_pair(&mut line, child_name(platform, a), child_name(platform, b));
    line.push_str("\n");
    line
}

/// Returns the line that reports a route that is too long.
pub fn too_long_line(platform: &PlatformText, from: PointId, to: PointId) -> Line
    ensures { result.bytes ≡ too_long_line_spec platform.now from to }
{
    let mut line = Line::new();
    line.push_str("route from ");
    push_pair(
        &mut line,
        point_name(platform, from),
        point_name(platform, to),
    );
    line.push_str(": more than 64 links\n");
    line
}
