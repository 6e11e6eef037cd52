//! The loop that goes over a table.
use crate::case::Case;
use crate::done::Done;
use std::alloc::Global;
use std::test::Fail;

/// Does the job of each case of a table, and fails if one has another result than the expected one; the failure shows
/// its words and its number in the table.
///
/// A line is `KEY TEXT`, and a blank line ends a case, so that each is whole: `job WORDS`, if it isn't a replay of the
/// three parts; `over PLATFORM DEPLOYMENT` (by the names of texts) or `over PLATFORM HOST..` (of the actors p0, p1 and
/// so on), and in place of one or after it `platform TEXT`, `with LINE` after a platform, `deployment TEXT`;
/// `script LINE`, `lines TIMES LINE`, `unended TEXT`;
/// `crew KIND NUMBER` or `meeting NUMBER WANTED TURN`, else twenty contexts of both kinds; what is written by
/// `out LINE`, `front TEXT` and `err LINE`; `status NUMBER`, if it isn't 0; what else [`Case`] has; `-- TEXT` is a
/// comment. `same` does the job too, and keeps it for the next case, in which a `job`, `crew` or `failing_call` takes
/// the place of the one before.
pub fn hold<F: Fn(Global, &Case) -> Result<Done, Fail>>(
    alloc: Global,
    table: &str,
    does: F,
) -> Result<(), Fail>
    requires { F.IsAlwaysCallable does }
{
    if !table.ends_with("\n\n") {
        return Err(Fail::new("no blank line ends the last case"));
    }
    let mut case = Case::new(alloc)?;
    let mut number: u64 = 0;
    for line in table.lines() {
        if line.is_empty() || line == "same" {
            number = number.saturating_add(1);
            if let Some(what) = does(alloc, &case)?.difference(&case) {
                return Err(case.failure(alloc, what, number));
            }
        }
        if line.is_empty() {
            case = Case::new(alloc)?;
        } else if line != "same" {
            case.take_line(alloc, line)?;
        }
    }
    Ok(())
}
