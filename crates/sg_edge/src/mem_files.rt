//! Three input streams in memory, with calls that fail at given numbers.
ghost use Rattle.std.specs.Prelude.{◌≡◌, ◌+◌, ◌<◌, ◌≤◌, length, take, not, is_ok, IfOk, MatchResult, OnOk, OnErr};
ghost use Rattle.std.specs.Option.{option_copied};
ghost use Rattle.sg_edge.specs.declared.files.Stage.TheVariants.{Fresh, Begun};
ghost use Rattle.sg_edge.specs.Files.{Begins, Breaks, Takes, Only};
ghost use Rattle.sg_edge.specs.kept.Parts.{part_steps};

use crate::failing_calls::is_among;
use crate::files::{Failed, Files, Part, Stage};
use crate::mem_part::MemPart;
use sg_base::Memory;
use std::alloc::Global;

/// Three input streams in memory, some of them maybe missing, with calls that fail at given numbers.
///
/// A call fails if and only if its number is among those to fail, or it begins a missing input stream. Calls of `begin`
/// and `read` are counted together from 1. At first each stream can be begun under any name, and reports none. One that
/// `rename` gave a name can be begun under that alone, and reports it. A read gives as many bytes as remain, the buffer
/// holds, and one read of that stream gives.
#[derive(Drop)]
pub struct MemFiles {
    platform: MemPart,
    deployment: MemPart,
    script: MemPart,
    failing: Vec<u64>,
    calls: u128,
    // Each call takes a byte or moves a stage on, so the count of calls can't wrap.
    ghost few: { calls ≤ part_steps platform + part_steps deployment + part_steps script },
}

impl MemFiles {
    ghost use Rattle.sg_edge.specs.MemFiles.{calls_of, failing_of, mem_left, mem_view, Renames, SetsPiece, StartsAs};

    /// Makes input streams with these bytes, or none, and the numbers of the calls that are to fail.
    pub fn new(
        alloc: Global,
        platform: Option<&[u8]>,
        deployment: Option<&[u8]>,
        script: Option<&[u8]>,
        failing: &[u64],
    ) -> Result<MemFiles, Memory>
        ensures platform { IfOk result (StartsAs Part.Platform (option_copied platform.entry)) }
        ensures deployment { IfOk result
            (StartsAs Part.Deployment (option_copied deployment.entry)) }
        ensures script { IfOk result (StartsAs Part.Script (option_copied script.entry)) }
        ensures failing { IfOk result (λ m. failing_of m ≡ failing.now) }
        ensures calls { IfOk result (λ m. calls_of m ≡ 0) }
    {
        Ok(MemFiles {
            platform: MemPart::new(alloc, platform)?,
            deployment: MemPart::new(alloc, deployment)?,
            script: MemPart::new(alloc, script)?,
            failing: Vec::from_slice(alloc, failing)?,
            calls: 0,
        })
    }

    /// Gives an input stream that isn't begun a name, under which alone it can be begun. After `Memory` it has its old
    /// one, or none.
    pub fn rename(&mut self, alloc: Global, part: Part, name: &str) -> Result<(), Memory>
        requires { (mem_view self.old part).stage ≡ Fresh }
        ensures { MatchResult result (λ _. Renames part name.now self.old self.new)
            (λ _. self.new ≡ self.old) }
    {
        let name = Some(String::from_str(alloc, name)?);
        match part {
            Part::Platform => self.platform.name = name,
            Part::Deployment => self.deployment.name = name,
            Part::Script => self.script.name = name,
        }
        Ok(())
    }

    /// Sets the greatest count that one read of an input stream gives. At first there is none.
    pub fn pieces(&mut self, part: Part, n: usize)
        requires { 0 < n }
        ensures { SetsPiece part n self.old self.new }
    {
        match part {
            Part::Platform => self.platform.piece = n,
            Part::Deployment => self.deployment.piece = n,
            Part::Script => self.script.piece = n,
        }
    }

    /// Returns the bytes of an input stream that were not taken.
    pub fn left(&self, part: Part) -> &[u8]
        ensures { result.now ≡ mem_left self.now part }
    {
        match part {
            Part::Platform => &self.platform.bytes[self.platform.taken..],
            Part::Deployment => &self.deployment.bytes[self.deployment.taken..],
            Part::Script => &self.script.bytes[self.script.taken..],
        }
    }
}

impl Files for MemFiles {
    ghost use Rattle.sg_edge.specs.MemFiles.{mem_view, mem_over, mem_unnamed, call_fails, can_begin, read_count, CountsCall};

    ghost shows = { mem_view };

    ghost unnamed = { mem_unnamed };

    ghost nothing_left = { mem_over };

    fn begin(&mut self, part: Part, name: &str) -> Result<(), Failed>
        requires { (mem_view self.old part).stage ≡ Fresh }
        ensures begun { OnOk result
            (Begins name.now (mem_view self.old part) (mem_view self.new part)) }
        ensures failed { OnErr result (Breaks (mem_view self.old part) (mem_view self.new part)) }
        ensures others { Only part (mem_view self.old) (mem_view self.new) }
        ensures exact { is_ok result ≡ can_begin self.old part name.now }
        ensures counted { CountsCall self.old self.new }
    {
        let call = self.calls + 1;
        let fails = is_among(&self.failing, call);
        self.calls = call;
        match part {
            Part::Platform => self.platform.begin(fails, name),
            Part::Deployment => self.deployment.begin(fails, name),
            Part::Script => self.script.begin(fails, name),
        }
    }

    fn read(&mut self, part: Part, buf: &mut [u8]) -> Result<usize, Failed>
        requires begun { (mem_view self.old part).stage ≡ Begun }
        requires room { 0 < length buf.old }
        ensures count { IfOk result (λ n. n ≤ length buf.new) }
        ensures most { IfOk result (λ n. n ≡ read_count self.old part (length buf.old)) }
        ensures took { IfOk result
            (λ n. Takes (take n buf.new) (mem_view self.old part) (mem_view self.new part)) }
        ensures failed { OnErr result (Breaks (mem_view self.old part) (mem_view self.new part)) }
        ensures others { Only part (mem_view self.old) (mem_view self.new) }
        ensures exact { is_ok result ≡ not (call_fails self.old) }
        ensures counted { CountsCall self.old self.new }
    {
        let call = self.calls + 1;
        let fails = is_among(&self.failing, call);
        self.calls = call;
        match part {
            Part::Platform => self.platform.read(fails, buf),
            Part::Deployment => self.deployment.read(fails, buf),
            Part::Script => self.script.read(fails, buf),
        }
    }

    fn stage(&self, part: Part) -> Stage {
        match part {
            Part::Platform => self.platform.stage,
            Part::Deployment => self.deployment.stage,
            Part::Script => self.script.stage,
        }
    }
}
