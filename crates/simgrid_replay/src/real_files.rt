//! The real inputs: calls are passed on to std, and no contract can say which bytes they give.
ghost use Rattle.std.specs.Prelude.{◌≡◌, ◌==◌, ◌<◌, ◌≤◌, if◌then◌else◌, length, take, IfOk, OnOk, OnErr};
ghost use Rattle.std.specs.Io.KnownBytes.{ReadConsumes};
ghost use Rattle.sg_edge.specs.declared.files.Stage.TheVariants.{Fresh, Begun, Over, Broken};
ghost use Rattle.sg_edge.specs.Files.{Begins, Breaks, Takes};
ghost use Rattle.simgrid_replay.specs.kept.RealFiles.{is_input as is_input_spec};

use sg_edge::{Failed, Files, Part, Stage};
use std::fs::{self, File};
use std::io::Read;

/// Where a part is read from.
#[derive(Drop)]
enum Origin {
    /// From nowhere: it isn't open.
    Closed,
    Opened(File),
    /// From standard input.
    Input,
}

// Returns whether a part of this name is standard input: the script alone may be.
fn is_input(part: Part, name: &str) -> bool
    ensures { result ≡ is_input_spec part name.now }
{
    match part {
        Part::Platform | Part::Deployment => false,
        Part::Script => name == "-",
    }
}

impl Origin {
    ghost use Rattle.simgrid_replay.specs.kept.RealFiles.{comes_from_input, is_input};

    // Opens what a part of this name is read from.
    fn open(rt: &HostRuntime, part: Part, name: &str) -> Result<Origin, Failed>
        ensures { IfOk result (λ origin. comes_from_input origin ≡ is_input part name.now) }
    {
        if is_input(part, name) {
            return Ok(Origin::Input);
        }
        match fs::open(rt, name) {
            Ok(file) => Ok(Origin::Opened(file)),
            Err(_) => Err(Failed),
        }
    }
}

// Passes a read on to a reader.
fn read_from<R: Read>(from: &mut R, buf: &mut [u8]) -> Result<usize, Failed>
    ensures count { IfOk result (λ n. n ≤ length buf.new) }
    ensures bytes { ReadConsumes (R.remaining from.old) (R.remaining from.new) result buf.new }
{
    match from.read(buf) {
        Ok(n) => Ok(n),
        Err(_) => Err(Failed),
    }
}

// Returns the stage of a part after a read.
fn stage_after(got: Result<usize, Failed>) -> Stage
    ensures read { IfOk got (λ n. result ≡ (if n == 0 then Over else Begun)) }
    ensures failed { OnErr got (result ≡ Broken) }
{
    match got {
        Ok(0) => Stage::Over,
        Ok(_) => Stage::Begun,
        Err(Failed) => Stage::Broken,
    }
}

/// One real part.
#[derive(Drop)]
pub struct RealPart {
    origin: Origin,
    pub stage: Stage,
}

impl RealPart {
    ghost use Rattle.simgrid_replay.specs.kept.RealFiles.{real_view};

    fn new() -> RealPart
        ensures { result.stage ≡ Fresh }
    {
        RealPart {
            origin: Origin::Closed,
            stage: Stage::Fresh,
        }
    }

    fn begin(&mut self, rt: &HostRuntime, part: Part, name: &str) -> Result<(), Failed>
        requires { self.old.stage ≡ Fresh }
        ensures begun { OnOk result (Begins name.now (real_view self.old) (real_view self.new)) }
        ensures failed { OnErr result (Breaks (real_view self.old) (real_view self.new)) }
    {
        match Origin::open(rt, part, name) {
            Ok(origin) => {
                self.origin = origin;
                self.stage = Stage::Begun;
                Ok(())
            }
            Err(Failed) => {
                self.stage = Stage::Broken;
                Err(Failed)
            }
        }
    }

    fn read(&mut self, rt: &HostRuntime, buf: &mut [u8]) -> Result<usize, Failed>
        requires begun { self.old.stage ≡ Begun }
        requires room { 0 < length buf.old }
        ensures count { IfOk result (λ n. n ≤ length buf.new) }
        ensures took { IfOk result (λ n.
            Takes (take n buf.new) (real_view self.old) (real_view self.new)) }
        ensures failed { OnErr result (Breaks (real_view self.old) (real_view self.new)) }
    {
        let got = match &mut self.origin {
            Origin::Closed => Err(Failed),
            Origin::Opened(file) => read_from(file, buf),
            Origin::Input => read_from(&mut rt.stdin(), buf),
        };
        self.stage = stage_after(got);
        got
    }
}

/// Three files, of which the script may be standard input.
#[derive(Drop)]
pub struct RealFiles {
    rt: HostRuntime,
    platform: RealPart,
    deployment: RealPart,
    script: RealPart,
}

impl RealFiles {
    ghost use Rattle.simgrid_replay.specs.kept.RealFiles.{real_files};

    /// Makes three parts that aren't opened yet.
    pub fn new(rt: HostRuntime) -> RealFiles
        ensures { (part : Part) → (real_files result part).stage ≡ Fresh }
    {
        RealFiles {
            rt,
            platform: RealPart::new(),
            deployment: RealPart::new(),
            script: RealPart::new(),
        }
    }
}

impl Files for RealFiles {
    ghost use Rattle.simgrid_replay.specs.kept.RealFiles.{real_files, real_over, real_unnamed};

    ghost shows = { real_files };

    ghost unnamed = { real_unnamed };

    ghost nothing_left = { real_over };

    fn begin(&mut self, part: Part, name: &str) -> Result<(), Failed> {
        match part {
            Part::Platform => self.platform.begin(&self.rt, part, name),
            Part::Deployment => self.deployment.begin(&self.rt, part, name),
            Part::Script => self.script.begin(&self.rt, part, name),
        }
    }

    fn read(&mut self, part: Part, buf: &mut [u8]) -> Result<usize, Failed> {
        match part {
            Part::Platform => self.platform.read(&self.rt, buf),
            Part::Deployment => self.deployment.read(&self.rt, buf),
            Part::Script => self.script.read(&self.rt, buf),
        }
    }

    fn stage(&self, part: Part) -> Stage {
        match part {
            Part::Platform => self.platform.stage,
            Part::Deployment => self.deployment.stage,
            Part::Script => self.script.stage,
        }
    }
}
