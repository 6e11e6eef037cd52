//! Jobs in which each call of a part and each write fails in turn, and jobs in small pieces.
use crate::case::Case;
use crate::done::Done;
use std::alloc::Global;
use std::test::Fail;

// Fails each call of the parts in turn. There are as many as the case says.
fn fail_calls<F: Fn(Global, &Case) -> Result<Done, Fail>>(
    alloc: Global,
    case: &mut Case,
    does: &F,
) -> Result<(), Fail>
    requires { F.IsAlwaysCallable does.now }
{
    for call in 1..1000 {
        case.failing_call = call;
        let done = does(alloc, case)?;
        let is_right = match done.broken {
            Some(part) => call <= case.calls && done.tells_unread(case, part),
            None => call > case.calls && done.is_whole(case),
        };
        if !is_right {
            return Err(case.failure(alloc, "this call failed", call));
        }
        if done.broken.is_none() {
            case.failing_call = 0;
            return Ok(());
        }
    }
    Err(case.failure(alloc, "more calls than", 1000))
}

// Fails each write in turn, of so many bytes at most. There are so many at least, and at most.
fn fail_writes<F: Fn(Global, &Case) -> Result<Done, Fail>>(
    alloc: Global,
    case: &mut Case,
    writes: (usize, u64, u64),
    does: &F,
) -> Result<(), Fail>
    requires { F.IsAlwaysCallable does.now }
{
    let (takes, least, most) = writes;
    case.takes = takes;
    for write in 1..1000 {
        case.failing_write = write;
        let done = does(alloc, case)?;
        let is_cut = done.status == 11;
        let is_right = if is_cut {
            write <= most && done.is_cut_off(case)
        } else {
            write > least && done.is_whole(case)
        };
        if !is_right {
            return Err(case.failure(alloc, "this write failed", write));
        }
        if !is_cut {
            case.failing_write = 0;
            return Ok(());
        }
    }
    Err(case.failure(alloc, "more writes than", 1000))
}

// Does the job of a case with each call and each write failing in turn, and in reads of a byte.
fn fail_all<F: Fn(Global, &Case) -> Result<Done, Fail>>(
    alloc: Global,
    case: &mut Case,
    does: &F,
) -> Result<(), Fail>
    requires { F.IsAlwaysCallable does.now }
{
    case.takes = 4096;
    fail_calls(alloc, case, does)?;
    let bytes = case.out.len().saturating_add(case.err.len()) as u64;
    fail_writes(alloc, case, (1, bytes, bytes), does)?;
    fail_writes(alloc, case, (7, bytes.div_ceil(7), bytes), does)?;
    // What is written at once takes one write.
    let writes = case.writes;
    fail_writes(alloc, case, (4096, writes, writes), does)?;
    case.gives = 1;
    if !does(alloc, case)?.is_whole(case) {
        return Err(case.failure(alloc, "reads of a byte", 1));
    }
    case.gives = 4096;
    Ok(())
}

/// Does the job of each case of a table, as [`hold`](crate::hold) reads it, with each of its `calls` of a part and each
/// write failing in turn. It fails if a job doesn't report which part can't be read, or doesn't write prefixes; and
/// once in reads of a byte.
pub fn hold_failing<F: Fn(Global, &Case) -> Result<Done, Fail>>(
    alloc: Global,
    table: &str,
    does: F,
) -> Result<(), Fail>
    requires { F.IsAlwaysCallable does }
{
    if !table.ends_with("\n\n") {
        return Err(Fail::new("no blank line ends the last case"));
    }
    let mut case = Case::new(alloc)?;
    for line in table.lines() {
        if line.is_empty() {
            fail_all(alloc, &mut case, &does)?;
            case = Case::new(alloc)?;
        } else {
            case.take_line(alloc, line)?;
        }
    }
    Ok(())
}
