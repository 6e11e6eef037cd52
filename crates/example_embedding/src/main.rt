//! A program that embeds the library: its texts and its output are in memory, and it opens no file.
//! To use it, copy it, and put your own texts in the place of these, or your own `Files` and `Sinks` in the place of
//! `MemFiles` and `MemSinks`.
//! It is entered by `main`; `simulate` calls `run` of `sg_engine`.
//! It stands on `sg_platform`, `sg_platform_rows`, `sg_zones` and `sg_route` for the platform and the deployment, on `sg_edge`
//! for what is read and written, on `sg_actor` for the contexts, on `sg_base` for the counter of steps, on `sg_engine`
//! for the run, and on `anyhow` for errors.
#![tactic(auto)]

ghost use Rattle.std.specs.Prelude.{◌≡◌, ◌≢◌, ◌≤◌, IfOk, IsTrue};
ghost use Rattle.sg_base.specs.Ledgers.{IsBlankOf};
ghost use Rattle.sg_edge.specs.declared.files.Stage.TheVariants.{Fresh};
ghost use Rattle.sg_edge.specs.MemFiles.{mem_view};
ghost use Rattle.sg_edge.specs.MemSinks.{mem_faults};
ghost use Rattle.sg_platform_rows.specs.Deployment.{started_number};

use anyhow::{Result, bail, ensure};
use sg_actor::{Actor, PlainContext, all_blank};
use sg_base::Steps;
use sg_edge::{Files, MemFiles, MemSinks, Part, Stream};
use sg_engine::{Ended, Setup, Show, run};
use sg_platform::{read_deployment, read_platform};
use sg_platform_rows::Deployment;
use sg_route::Router;
use sg_zones::Zones;
use std::alloc::Global;
use std::marker::Brand;
use std::str;
use std::sync::ledger::{Blank, Ledger};
use std::thread::Threads;

const PLATFORM: &[u8] = b"zone = [{id = 'z', routing = 'Full'}]
host = [{id = 'h1', zone = 'z', speed = '1Gf'}, {id = 'h2', zone = 'z', speed = '2Gf'}]
link = [{id = 'l', bandwidth = '125MBps', latency = '1ms'}]
route = [{src = 'h1', dst = 'h2', links = ['l']}]
";

const DEPLOYMENT: &[u8] = b"actor = [
    {name = 'boss', host = 'h1', function = 'replay'},
    {name = 'worker', host = 'h2', function = 'replay'},
]
";

const SCRIPT: &[u8] = b"boss send worker 1e6
worker recv boss
worker compute 4e9
";

/// Reads the platform and the deployment, and finds the routes between the hosts.
fn setup(alloc: Global) -> Result<Setup> {
    let platform = read_platform(alloc, PLATFORM)?;
    let deployment = read_deployment(alloc, DEPLOYMENT, &platform)?;
    let zones = Zones::build(alloc, &platform)?;
    let Ok(router) = Router::build(alloc, &platform, &zones) else {
        bail!("out of memory");
    };
    Ok(Setup::new(platform, deployment, router, true))
}

/// Opens the script. It has no name of its own, so any name opens it.
fn script(alloc: Global) -> Result<MemFiles>
    ensures { IfOk result (λ files. (mem_view files Part.Script).stage ≢ Fresh) }
{
    let Ok(mut files) = MemFiles::new(alloc, None, None, Some(SCRIPT), &[]) else {
        bail!("out of memory");
    };
    match files.begin(Part::Script, "script") {
        Ok(()) => Ok(files),
        Err(_) => bail!("no script"),
    }
}

/// Returns whether so many contexts are enough for the actors.
fn are_enough(deployment: &Deployment, contexts: usize) -> bool
    ensures { IsTrue result → started_number deployment.now ≤ contexts }
{
    if contexts < deployment.actors().len() {
        return false;
    }
    true
}

/// Runs the setup on one thread for at most 1,000,000 events, and writes its lines to `out`. Each actor that starts
/// takes a context of `crew`. The counter of steps begins with `blank`.
fn simulate<R: Threads + Sync, L: Ledger>(
    rt: &R,
    alloc: Global,
    setup: &mut Setup,
    crew: &mut Vec<Box<dyn Actor + Send>>,
    out: &mut MemSinks,
    blank: Blank,
) -> Result<Ended>
    requires sound { mem_faults out.old ≡ 0 }
    requires ledger { IsBlankOf L.name L.parts blank }
{
    let mut files = script(alloc)?;
    let mut steps = Steps::<L>::new(blank);
    ensure!(
        are_enough(&setup.deployment, crew.len()),
        "too few contexts"
    );
    ensure!(all_blank(crew.as_slice()), "a context was used before");
    Ok(run(
        rt,
        alloc,
        setup,
        &mut files,
        crew,
        1,
        1_000_000,
        Show::All,
        out,
        &mut steps,
    ))
}

fn main(rt: HostRuntime) -> Result<()> {
    let alloc = rt.alloc();
    let mut setup = setup(alloc)?;
    // A context for each actor. `main` owns them, and the run borrows them.
    let mut crew: Vec<Box<dyn Actor + Send>> = Vec::new(alloc);
    for _actor in setup.deployment.actors() {
        crew.push(Box::new(alloc, PlainContext::new(alloc))?)?;
    }
    let Ok(mut out) = MemSinks::new(alloc, 4096, 4096, &[], 4096) else {
        bail!("out of memory");
    };
    let blank = Blank::new(1);
    let ended = simulate::<HostRuntime, Brand>(&rt, alloc, &mut setup, &mut crew, &mut out, blank)?;
    print!(rt; "{}", str::from_utf8(out.held(Stream::Out))?)?;
    ensure!(
        matches!(ended, Ended::Completed),
        "the run did not complete"
    );
    Ok(())
}
