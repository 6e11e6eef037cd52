//! The pieces of a line, appended to a text. The limits on names, dates and numbers keep a line within 512 bytes.
ghost use Rattle.std.specs.Prelude.{◌≡◌, ◌-◌, ◌<◌, ◌^◌, ◌++◌, decimal, length, replicate};
ghost use Rattle.sg_base.specs.Limits.{IsEnd};
ghost use Rattle.sg_units.specs.Date.{date_of};
ghost use Rattle.sg_trace.specs.Energy.{energy_of};
ghost use Rattle.sg_trace.specs.Line.{IsDate, end_text};
ghost use Rattle.sg_trace.specs.kept.Room.{HasRoom, GrowsBy};

use arrayvec::ArrayString;
use itoa::Buffer;
use sg_base::End;

pub fn push_number<const N: usize>(lines: &mut ArrayString<N>, number: u64)
    requires { HasRoom N lines.old 32 }
    ensures bytes { lines.new.bytes ≡ lines.old.bytes ++ decimal number }
    ensures len { GrowsBy lines.old lines.new 20 }
{
    let mut buffer = Buffer::new();
    lines.push_str(buffer.format(number));
}

pub fn push_date<const N: usize>(lines: &mut ArrayString<N>, ns: u128)
    requires date { IsDate ns }
    requires room { HasRoom N lines.old 64 }
    ensures bytes { lines.new.bytes ≡ lines.old.bytes ++ date_of ns }
    ensures len { GrowsBy lines.old lines.new 64 }
{
    sg_units::push_date(lines, ns);
}

fn push_zeros<const N: usize>(lines: &mut ArrayString<N>, count: usize)
    requires { HasRoom N lines.old count }
    ensures bytes { lines.new.bytes ≡ lines.old.bytes ++ replicate count 48 }
    ensures len { GrowsBy lines.old lines.new count }
{
    for _i in 0..count {
        lines.push('0');
    }
}

/// Appends twelve digits of a number below 10^12.
fn push_twelve_digits<const N: usize>(lines: &mut ArrayString<N>, number: u64)
    requires small { number < 10 ^ 12 }
    requires room { HasRoom N lines.old 12 }
    ensures bytes { lines.new.bytes
        ≡ lines.old.bytes ++ (replicate (12 - length (decimal number)) 48 ++ decimal number) }
    ensures len { GrowsBy lines.old lines.new 12 }
{
    let mut buffer = Buffer::new();
    let digits = buffer.format(number);
    push_zeros(lines, 12 - digits.len());
    lines.push_str(digits);
}

/// Adds an energy: whole joules, and the rest in units of 10^-12 J.
pub fn push_energy<const N: usize>(lines: &mut ArrayString<N>, joules: u128, rest: u64)
    requires rest { rest < 10 ^ 12 }
    requires room { HasRoom N lines.old 52 }
    ensures bytes { lines.new.bytes ≡ lines.old.bytes ++ energy_of joules rest }
    ensures len { GrowsBy lines.old lines.new 52 }
{
    let mut buffer = Buffer::new();
    lines.push_str(buffer.format(joules));
    lines.push('.');
    push_twelve_digits(lines, rest);
}

/// Adds how long a call took, or that it was refused or failed.
pub fn push_end<const N: usize>(lines: &mut ArrayString<N>, end: End)
    requires end { IsEnd end }
    requires room { HasRoom N lines.old 64 }
    ensures bytes { lines.new.bytes ≡ lines.old.bytes ++ end_text end }
    ensures len { GrowsBy lines.old lines.new 64 }
{
    match end {
        End::Done(duration) => push_date(lines, duration),
        End::Refused => lines.push_str("refused"),
        End::Failed => lines.push_str("failed"),
    }
}
