//! The judgement of a line by its number too.
ghost use Rattle.std.specs.Prelude.{◌≡◌, ◌≤◌, ◌+◌, IsTrue, true};
ghost use Rattle.std.specs.List.{list_all};
ghost use Rattle.sg_script.specs.Answer.{judgement_of};
ghost use Rattle.sg_script.specs.Known.{known_in};
ghost use Rattle.sg_script.specs.Line.{is_plain};
ghost use Rattle.sg_script.specs.kept.Asks.{IsJudged};

use crate::fault::LineFault;
use crate::line::{Entry, read_known_line};
use sg_platform_rows::Deployment;

/// The most lines of a script.
pub const MOST_LINES: u64 = 100_000_000;

/// Returns the judgement of a line before which so many lines stand, of which it may be known that it is plain.
pub fn judge(
    line: &[u8],
    before: u64,
    plain: bool,
    deployment: &Deployment,
) -> Result<Option<Entry>, LineFault>
    requires few { before ≤ 100000000 }
    requires plain { IsTrue plain → list_all is_plain line.now ≡ true }
    ensures { IsJudged deployment.now
        (judgement_of (known_in deployment.now) (before + 1) line.now) result }
{
    if before >= MOST_LINES {
        return Err(LineFault::TooManyLines);
    }
    read_known_line(line, plain, deployment)
}
