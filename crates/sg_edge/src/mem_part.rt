//! One input stream in memory.
ghost use Rattle.std.specs.Prelude.{◌≡◌, ◌+◌, ◌<◌, ◌≤◌, ◌&&◌, length, take, not, is_ok, false, IfOk, OnOk, OnErr};
ghost use Rattle.std.specs.Option.{option_copied};
ghost use Rattle.sg_edge.specs.declared.files.Stage.TheVariants.{Fresh, Begun, Over};
ghost use Rattle.sg_edge.specs.Files.{Begins, Breaks, Takes};

use crate::files::{Failed, Stage};
use sg_base::Memory;
use std::alloc::Global;

/// The bytes of an input stream and its name, if it was given one, whether there is such an input stream at all, the
/// most bytes that one read takes, how many were taken, and whether it was begun.
#[derive(Drop)]
pub struct MemPart {
    pub bytes: Vec<u8>,
    pub name: Option<String>,
    pub there: bool,
    pub piece: usize,
    pub begun: bool,
    pub taken: usize,
    pub stage: Stage,
    ghost some: { 0 < piece },
    ghost in_range: { taken ≤ length bytes.items },
    ghost unbegun: { stage ≡ Fresh → begun ≡ false },
    ghost ended: { stage ≡ Over → taken ≡ length bytes.items },
}

impl MemPart {
    ghost use Rattle.sg_edge.specs.kept.Parts.{CanRead, part_name, part_read, part_steps, part_view, takes_name, IsFreshPart, KeepsPart};

    pub fn new(alloc: Global, bytes: Option<&[u8]>) -> Result<MemPart, Memory>
        ensures { IfOk result (IsFreshPart (option_copied bytes.entry)) }
    {
        let (there, items) = match bytes {
            Some(bytes) => (true, Vec::from_slice(alloc, bytes)?),
            None => (false, Vec::new(alloc)),
        };
        Ok(MemPart {
            bytes: items,
            name: None,
            there,
            piece: usize::MAX,
            begun: false,
            taken: 0,
            stage: Stage::Fresh,
        })
    }

    fn takes_name(&self, name: &str) -> bool
        ensures { result ≡ takes_name (part_name self.now) name.now }
    {
        match &self.name {
            Some(own) => own.as_str() == name,
            None => true,
        }
    }

    pub fn begin(&mut self, fails: bool, name: &str) -> Result<(), Failed>
        requires { self.old.stage ≡ Fresh }
        ensures begun { OnOk result
            (Begins name.now (part_view self.old) (part_view self.new)) }
        ensures failed { OnErr result (Breaks (part_view self.old) (part_view self.new)) }
        ensures exact { is_ok result
            ≡ (self.old.there && (takes_name (part_name self.old) name.now && not fails)) }
        ensures rest { KeepsPart self.old self.new }
        ensures steps { part_steps self.old + 1 ≤ part_steps self.new }
    {
        if fails || !self.there || !self.takes_name(name) {
            self.stage = Stage::Broken;
            return Err(Failed);
        }
        self.stage = Stage::Begun;
        self.begun = true;
        Ok(())
    }

    pub fn read(&mut self, fails: bool, buf: &mut [u8]) -> Result<usize, Failed>
        requires { CanRead self.old (length buf.old) }
        ensures most { IfOk result (λ n. n ≡ part_read self.old (length buf.old)) }
        ensures took { IfOk result
            (λ n. Takes (take n buf.new) (part_view self.old) (part_view self.new)) }
        ensures failed { OnErr result (Breaks (part_view self.old) (part_view self.new)) }
        ensures exact { is_ok result ≡ not fails }
        ensures rest { KeepsPart self.old self.new }
        ensures steps { part_steps self.old + 1 ≤ part_steps self.new }
    {
        if fails {
            self.stage = Stage::Broken;
            return Err(Failed);
        }
        let most = buf.len().min(self.piece);
        let n = most.min(self.bytes.len() - self.taken);
        let end = self.taken + n;
        buf[..n].copy_from_slice(&self.bytes[self.taken..end]);
        self.taken = end;
        if n == 0 {
            self.stage = Stage::Over;
        }
        Ok(n)
    }
}
