//! Three input streams in memory that never fail.
ghost use Rattle.std.specs.Prelude.{◌≡◌, ◌<◌, ◌≤◌, length, take, min, IsOk, IfOk, OnOk, OnErr};
ghost use Rattle.sg_edge.specs.declared.files.Stage.TheVariants.{Fresh, Begun};
ghost use Rattle.sg_edge.specs.Files.{Begins, Breaks, Takes, Only};
ghost use Rattle.sg_edge.specs.kept.Parts.{IsSurePart};

use crate::files::{Failed, Files, Part, Stage};
use crate::mem_part::MemPart;
use sg_base::Memory;
use std::alloc::Global;

/// Three input streams in memory, none of them missing. No call of them ever fails: each can be begun under any name,
/// and reports none.
#[derive(Drop)]
pub struct SureFiles {
    platform: MemPart,
    deployment: MemPart,
    script: MemPart,
    ghost platform_sure: { IsSurePart platform },
    ghost deployment_sure: { IsSurePart deployment },
    ghost script_sure: { IsSurePart script },
}

impl SureFiles {
    ghost use Rattle.sg_edge.specs.Files.{fresh_view};
    ghost use Rattle.sg_edge.specs.SureFiles.{sure_view};

    /// Makes input streams with these bytes.
    pub fn new(
        alloc: Global,
        platform: &[u8],
        deployment: &[u8],
        script: &[u8],
    ) -> Result<SureFiles, Memory>
        ensures platform { IfOk result
            (λ m. sure_view m Part.Platform ≡ fresh_view platform.now) }
        ensures deployment { IfOk result
            (λ m. sure_view m Part.Deployment ≡ fresh_view deployment.now) }
        ensures script { IfOk result
            (λ m. sure_view m Part.Script ≡ fresh_view script.now) }
    {
        Ok(SureFiles {
            platform: MemPart::new(alloc, Some(platform))?,
            deployment: MemPart::new(alloc, Some(deployment))?,
            script: MemPart::new(alloc, Some(script))?,
        })
    }
}

impl Files for SureFiles {
    ghost use Rattle.sg_edge.specs.SureFiles.{sure_left, sure_view, sure_over, sure_unnamed};

    ghost shows = { sure_view };

    ghost unnamed = { sure_unnamed };

    ghost nothing_left = { sure_over };

    fn begin(&mut self, part: Part, name: &str) -> Result<(), Failed>
        requires { (sure_view self.old part).stage ≡ Fresh }
        ensures begun { OnOk result
            (Begins name.now (sure_view self.old part) (sure_view self.new part)) }
        ensures failed { OnErr result (Breaks (sure_view self.old part) (sure_view self.new part)) }
        ensures others { Only part (sure_view self.old) (sure_view self.new) }
        ensures sure { IsOk result }
    {
        match part {
            Part::Platform => self.platform.begin(false, name),
            Part::Deployment => self.deployment.begin(false, name),
            Part::Script => self.script.begin(false, name),
        }
    }

    fn read(&mut self, part: Part, buf: &mut [u8]) -> Result<usize, Failed>
        requires begun { (sure_view self.old part).stage ≡ Begun }
        requires room { 0 < length buf.old }
        ensures count { IfOk result (λ n. n ≤ length buf.new) }
        ensures most { IfOk result
            (λ n. n ≡ min (length buf.old) (length (sure_left self.old part))) }
        ensures took { IfOk result
            (λ n. Takes (take n buf.new) (sure_view self.old part) (sure_view self.new part)) }
        ensures failed { OnErr result (Breaks (sure_view self.old part) (sure_view self.new part)) }
        ensures others { Only part (sure_view self.old) (sure_view self.new) }
        ensures sure { IsOk result }
    {
        match part {
            Part::Platform => self.platform.read(false, buf),
            Part::Deployment => self.deployment.read(false, buf),
            Part::Script => self.script.read(false, buf),
        }
    }

    fn stage(&self, part: Part) -> Stage {
        match part {
            Part::Platform => self.platform.stage,
            Part::Deployment => self.deployment.stage,
            Part::Script => self.script.stage,
        }
    }
}
