//! Jobs over parts and streams in memory: the tables of `sg_job_cases`.
ghost use Rattle.std.specs.Prelude.{◌≡◌, All, None, IfOk};
ghost use Rattle.sg_base.specs.Ledgers.{IsBlankOf};
ghost use Rattle.sg_edge.specs.declared.files.Part.{Part};
ghost use Rattle.sg_edge.specs.declared.files.Stage.TheVariants.{Fresh};

use crate::host::Host;
use crate::whole_call::simgrid;
use sg_actor::{Actor, PlainContext, Role, TapeContext, all_blank};
use sg_base::{Answer, Call, Memory, Steps};
use sg_edge::{Files, MemFiles, MemSinks, Sinks, SureFiles, SureSinks};
use sg_job_cases::{
    CHANGES, COMPUTATIONS, Case, Done, EACH_FAILURE, FAILURES, FAULTS, JOBS, Kind, LIMITS, LONG,
    MEETINGS, RUNS, hold, hold_failing,
};
use sg_platform::{read_deployment, read_platform};
use std::alloc::Global;
use std::marker::Brand;
use std::sync::Arc;
use std::sync::atomic::{AtomicU64, Ordering};
use std::sync::ledger::{Blank, Ledger};
use std::test::Fail;
use std::thread::Threads;

// Makes a blank context of the kind that a case has at this place.
fn context(alloc: Global, case: &Case, place: u32) -> Result<Box<dyn Actor + Send>, Memory> {
    match case.kinds.at(place) {
        Kind::Plain => Ok(Box::new(alloc, PlainContext::new(alloc))?),
        Kind::Tape => Ok(Box::new(alloc, TapeContext::new(alloc))?),
        Kind::Meeter => Ok(Box::new(alloc, case.meeting.meeter(alloc)?)?),
    }
}

// Returns the context pool if all its contexts are blank.
fn blank_crew(crew: Vec<Box<dyn Actor + Send>>) -> Result<Vec<Box<dyn Actor + Send>>, Memory>
    ensures { IfOk result (λ crew. All (λ b. mind b ≡ None) crew.items) }
{
    if all_blank(crew.as_slice()) {
        Ok(crew)
    } else {
        Err(Memory)
    }
}

// Makes the context pool of a case.
fn crew_of(alloc: Global, case: &Case) -> Result<Vec<Box<dyn Actor + Send>>, Memory>
    ensures { IfOk result (λ crew. All (λ b. mind b ≡ None) crew.items) }
{
    let mut crew: Vec<Box<dyn Actor + Send>> = Vec::new(alloc);
    for place in 0..case.contexts {
        crew.push(context(alloc, case, place)?)?;
    }
    blank_crew(crew)
}

// Returns the exit status of a job, which counts its own visits.
fn code_of<R: Threads + Sync, F: Files, O: Sinks, L: Ledger>(
    host: &Host<'_, R>,
    words: &[String],
    files: &mut F,
    out: &mut O,
    crew: &mut Vec<Box<dyn Actor + Send>>,
    blank: Blank,
) -> u8
    requires fresh { (part : Part) → (F.shows files.old part).stage ≡ Fresh }
    requires blank { All (λ b. mind b ≡ None) crew.old.items }
    requires sound { O.faults out.old ≡ 0 }
    requires ledger { IsBlankOf L.name L.parts blank }
{
    let mut steps = Steps::<L>::new(blank);
    simgrid(host.rt, host.alloc, words, files, out, crew, &mut steps).code()
}

// Does the job of a case with these contexts.
fn done_by<R: Threads + Sync>(
    rt: &R,
    alloc: Global,
    case: &Case,
    crew: &mut Vec<Box<dyn Actor + Send>>,
) -> Result<Done, Fail>
    requires blank { All (λ b. mind b ≡ None) crew.old.items }
{
    let words = case.command_line(alloc)?;
    let mut files = case.files(alloc)?;
    let mut out = case.sinks(alloc)?;
    let code = code_of::<R, MemFiles, MemSinks, Brand>(
        &Host { rt, alloc },
        &words,
        &mut files,
        &mut out,
        crew,
        Blank::new(1),
    );
    Ok(Done::new(&files, out, code))
}

// Does the job of a case.
fn done<R: Threads + Sync>(rt: &R, alloc: Global, case: &Case) -> Result<Done, Fail> {
    let mut crew = crew_of(alloc, case)?;
    done_by(rt, alloc, case, &mut crew)
}

// Returns the exit status of the job of a case over parts and streams that never fail.
fn over_sure_parts<R: Threads + Sync>(rt: &R, alloc: Global, case: &Case) -> Result<u8, Memory> {
    let words = case.command_line(alloc)?;
    let mut files = SureFiles::new(alloc, &case.platform, &case.deployment, &case.script)?;
    let mut out = SureSinks::new();
    let mut crew = crew_of(alloc, case)?;
    let code = code_of::<R, SureFiles, SureSinks, Brand>(
        &Host { rt, alloc },
        &words,
        &mut files,
        &mut out,
        &mut crew,
        Blank::new(1),
    );
    Ok(code)
}

#[test]
fn writes_the_lines_of_runs(rt: HostRuntime) -> Result<(), Fail> {
    for table in [COMPUTATIONS, RUNS, CHANGES] {
        hold(rt.alloc(), table, |alloc, case| done(&rt, alloc, case))?;
    }
    Ok(())
}

#[test]
fn does_jobs_and_tells_faults(rt: HostRuntime) -> Result<(), Fail> {
    for table in [JOBS, FAULTS, FAILURES] {
        hold(rt.alloc(), table, |alloc, case| done(&rt, alloc, case))?;
    }
    Ok(())
}

#[test]
fn keeps_to_limits(rt: HostRuntime) -> Result<(), Fail> {
    hold(rt.alloc(), LIMITS, |alloc, case| done(&rt, alloc, case))
}

#[test]
fn a_text_has_16_mib_at_most(rt: HostRuntime) -> Result<(), Fail> {
    hold(rt.alloc(), LONG, |alloc, case| done(&rt, alloc, case))
}

#[test]
fn two_flags(rt: HostRuntime) -> Result<(), Fail> {
    hold(rt.alloc(), MEETINGS, |alloc, case| done(&rt, alloc, case))
}

#[test]
fn each_call_and_each_write_fails(rt: HostRuntime) -> Result<(), Fail> {
    hold_failing(
        rt.alloc(),
        EACH_FAILURE,
        |alloc, case| done(&rt, alloc, case),
    )
}

#[test]
fn completes_over_parts_and_streams_that_never_fail(rt: HostRuntime) -> Result<(), Fail> {
    let alloc = rt.alloc();
    let mut case = Case::new(alloc)?;
    case.take(alloc, "job", "simgrid_replay replay p d s")?;
    case.take(alloc, "over", "FAST h1")?;
    case.take(alloc, "script", "p0 compute 1e9")?;
    assert_eq!(rt; over_sure_parts(&rt, alloc, &case)?, 0);
    Ok(())
}

// A context that has a number, and adds it for as many times as its actor's id says.
#[derive(Drop)]
struct Numbered {
    inner: PlainContext,
    number: u64,
    sum: Arc<AtomicU64>,
}

impl Actor for Numbered {
    ghost mind = { λ s. s.inner };

    fn is_blank(&self) -> bool {
        self.inner.is_blank()
    }

    fn cast(&mut self, role: &Role) -> Result<(), Memory> {
        if let Role::Replay(me) = role {
            let share = self.number.wrapping_mul(u64::from(me.0));
            self.sum.fetch_add(share, Ordering::SeqCst);
        }
        self.inner.cast(role)
    }

    fn turn(&mut self, answer: Answer) -> Call {
        self.inner.turn(answer)
    }
}

// Makes contexts with the numbers 1, 10, 100 and 1,000.
fn numbered_crew(alloc: Global, sum: &Arc<AtomicU64>) -> Result<Vec<Box<dyn Actor + Send>>, Fail> {
    let mut crew: Vec<Box<dyn Actor + Send>> = Vec::new(alloc);
    for number in [1, 10, 100, 1000] {
        let inner = PlainContext::new(alloc);
        let sum = sum.clone()?;
        crew.push(Box::new(alloc, Numbered { inner, number, sum })?)?;
    }
    Ok(crew)
}

// Makes a job in which two actors begin, and one of them creates a third.
fn creating_job(alloc: Global) -> Result<Case, Fail> {
    let mut case = Case::new(alloc)?;
    case.take(alloc, "job", "p replay p d s")?;
    case.take(alloc, "over", "FAST LAST_LATER")?;
    case.take(alloc, "script", "p0 create p2 | p0 create p2")?;
    Ok(case)
}

// Returns the exit status of that job by numbered contexts, and how many of them are left.
fn numbered_run<R: Threads + Sync>(
    rt: &R,
    alloc: Global,
    sum: &Arc<AtomicU64>,
) -> Result<(u8, usize), Fail> {
    let case = creating_job(alloc)?;
    let mut crew = blank_crew(numbered_crew(alloc, sum)?)?;
    let status = done_by(rt, alloc, &case, &mut crew)?.status;
    Ok((status, crew.len()))
}

#[test]
fn actors_take_contexts_in_their_order(rt: HostRuntime) -> Result<(), Fail> {
    let sum = Arc::new(rt.alloc(), AtomicU64::new(0))?;
    assert_eq!(rt; numbered_run(&rt, rt.alloc(), &sum)?, (0, 1));
    assert_eq!(rt; sum.load(Ordering::SeqCst), 321);
    Ok(())
}

#[test]
fn bytes_that_are_no_text_name_nobody(rt: HostRuntime) -> Result<(), Fail> {
    let platform = read_platform(rt.alloc(), b"")?;
    let deployment = read_deployment(rt.alloc(), b"", &platform)?;
    assert!(rt; deployment.actor(b"\xff").is_none());
    assert!(rt; deployment.replay_actor(b"\xff").is_none());
    Ok(())
}
