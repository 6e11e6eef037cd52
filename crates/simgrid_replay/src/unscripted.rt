//! A run of the engine without a script over an actor that replays: the program refuses one, and no job leads to it.
ghost use Rattle.std.specs.Prelude.{◌≡◌, ◌≢◌, ◌≤◌, IfOk, IsTrue};
ghost use Rattle.sg_base.specs.Ledgers.{IsBlankOf};
ghost use Rattle.sg_edge.specs.declared.files.Stage.TheVariants.{Fresh};
ghost use Rattle.sg_route.specs.Roads.{roads_of};
ghost use Rattle.sg_platform_rows.specs.Deployment.{started_number};

use sg_actor::{Actor, PlainContext, all_blank};
use sg_base::{Memory, Steps};
use sg_edge::{Files, MemFiles, MemSinks, Part, Sinks, Stream};
use sg_engine::{Ended, Setup, Show, run};
use sg_platform::{read_deployment, read_platform};
use sg_platform_rows::{Deployment, PlatformText};
use sg_route::Router;
use sg_zones::Zones;
use std::alloc::Global;
use std::marker::Brand;
use std::process::Abort;
use std::sync::ledger::{Blank, Ledger};
use std::test::Fail;
use std::thread::Threads;

const PLATFORM: &[u8] = b"zone = [{id = 'z', routing = 'Full'}]
host = [{id = 'h1', zone = 'z', speed = '1Gf'}]
";

const DEPLOYMENT: &[u8] = b"actor = [{name = 'p0', host = 'h1', function = 'replay'}]";

// Returns the routes of a platform.
fn router(alloc: Global, platform: &PlatformText) -> Result<Router, Memory>
    ensures { IfOk result (λ router. router ≡ roads_of platform.now) }
{
    match Zones::build(alloc, platform) {
        Ok(zones) => Router::build(alloc, platform, &zones),
        Err(_) => Err(Memory),
    }
}

// Makes a setup of one actor and no script.
fn setup(alloc: Global) -> Result<Setup, Memory> {
    let platform = match read_platform(alloc, PLATFORM) {
        Ok(platform) => platform,
        Err(_) => return Err(Memory),
    };
    let router = router(alloc, &platform)?;
    match read_deployment(alloc, DEPLOYMENT, &platform) {
        Ok(deployment) => Ok(Setup::new(platform, deployment, router, false)),
        Err(_) => Err(Memory),
    }
}

// Returns whether so many contexts are one for each actor.
fn are_enough(deployment: &Deployment, contexts: usize) -> bool
    ensures { IsTrue result → started_number deployment.now ≤ contexts }
{
    if contexts < deployment.actors().len() {
        return false;
    }
    true
}

// Makes a run of five events that counts its own steps.
fn run_counted<R: Threads + Sync + Abort, F: Files, O: Sinks, L: Ledger>(
    rt: &R,
    alloc: Global,
    setup: &mut Setup,
    files: &mut F,
    crew: &mut Vec<Box<dyn Actor + Send>>,
    out: &mut O,
    blank: Blank,
) -> Ended
    requires begun { IsTrue setup.old.script → (F.shows files.old Part.Script).stage ≢ Fresh }
    requires sound { O.faults out.old ≡ 0 }
    requires ledger { IsBlankOf L.name L.parts blank }
{
    let mut steps = Steps::<L>::new(blank);
    assert!(rt; are_enough(&setup.deployment, crew.len()));
    assert!(rt; all_blank(crew.as_slice()));
    run(
        rt,
        alloc,
        setup,
        files,
        crew,
        1,
        5,
        Show::All,
        out,
        &mut steps,
    )
}

// Makes a script part that was begun.
fn begun(alloc: Global) -> Result<MemFiles, Fail>
    ensures { IfOk result (λ files. files.script.stage ≢ Fresh) }
{
    let mut files = MemFiles::new(alloc, None, None, Some(b""), &[])?;
    match files.begin(Part::Script, "s") {
        Ok(()) => Ok(files),
        Err(_) => Err(Fail::new("the script was not begun")),
    }
}

// Makes a context pool of one context.
fn crew_of_one(alloc: Global) -> Result<Vec<Box<dyn Actor + Send>>, Memory> {
    let mut crew: Vec<Box<dyn Actor + Send>> = Vec::new(alloc);
    crew.push(Box::new(alloc, PlainContext::new(alloc))?)?;
    Ok(crew)
}

// Returns how a run of this setup with these contexts ends, and what it writes.
fn ended_by<R: Threads + Sync + Abort>(
    rt: &R,
    alloc: Global,
    setup: &mut Setup,
    crew: &mut Vec<Box<dyn Actor + Send>>,
) -> Result<(Ended, MemSinks), Fail> {
    let mut files = begun(alloc)?;
    let mut out = MemSinks::new(alloc, 1000, 1000, &[], 7)?;
    let ended = run_counted::<R, MemFiles, MemSinks, Brand>(
        rt,
        alloc,
        setup,
        &mut files,
        crew,
        &mut out,
        Blank::new(1),
    );
    Ok((ended, out))
}

// Returns how the run ends, and what it writes.
fn ended<R: Threads + Sync + Abort>(rt: &R, alloc: Global) -> Result<(Ended, MemSinks), Fail> {
    let mut setup = setup(alloc)?;
    let mut crew = crew_of_one(alloc)?;
    ended_by(rt, alloc, &mut setup, &mut crew)
}

#[test]
fn an_actor_without_a_script_asks_until_the_budget_is_used(rt: HostRuntime) -> Result<(), Fail> {
    let (ended, out) = ended(&rt, rt.alloc())?;
    assert!(rt; matches!(ended, Ended::Budget));
    assert_eq!(rt;
        out.held(Stream::Out),
        "budget of 5 events used at 0.000000000\n".as_bytes()
    );
    assert_eq!(rt; out.held(Stream::Err), "".as_bytes());
    Ok(())
}
