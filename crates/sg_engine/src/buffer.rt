//! Lines that wait to be written together.
ghost use Rattle.std.specs.Prelude.{◌≡◌, ◌≤◌, ◌+◌, ◌++◌, [], List, ℕ, length, IfOk, OnOk};
ghost use Rattle.sg_trace.specs.Ending.{IsLastOf, ending_of};
ghost use Rattle.sg_trace.specs.Line.{IsOfDeployment, line_of};
ghost use Rattle.sg_engine.specs.declared.buffer.TheConstants.{LINE, ROOM};
ghost use Rattle.sg_engine.specs.kept.Writing.{Writes, Puts};

use crate::output::Output;
use crate::plan::Plan;
use arrayvec::ArrayString;
use sg_base::{Memory, Record};
use sg_edge::{Failed, Sinks, Stream};
use sg_trace::{Last, push_ending, push_line};
use std::alloc::Global;
use std::marker::Model;

/// How many bytes wait at most.
const ROOM: usize = 65536;

/// How many bytes a line has at most.
const LINE: usize = 512;

/// Lines with their newlines, which wait to be written together.
type Lines = ArrayString<65536>;

/// Lines for Out that wait, so that those of one scheduling round or time advance take one write. None waits from
/// one to the next. It takes no memory once it is made.
#[derive(Drop)]
pub struct Buffer {
    lines: Box<Lines>,
}

impl Model for Buffer {
    ghost Value = { List ℕ };

    ghost view = { λ b. b.lines.value.bytes };
}

impl Buffer {
    /// Makes an empty buffer.
    pub fn new(alloc: Global) -> Result<Buffer, Memory>
        ensures { IfOk result (λ buffer. buffer ≡ []) }
    {
        let lines = Box::new(alloc, Lines::new())?;
        Ok(Buffer { lines })
    }

    // Writes what waits if there may be no room for a line.
    fn make_room<O: Sinks>(&mut self, out: &mut Output<'_, O>) -> Result<(), Failed>
        ensures puts { Puts O.contents O.faults self.old self.new result out.old.sink
            out.new.sink }
        ensures room { OnOk result (length self.new + LINE ≤ ROOM) }
    {
        if self.lines.len() + LINE > ROOM {
            self.flush(out)
        } else {
            Ok(())
        }
    }

    /// Adds the trace line of a record. If there may be no room for it, what waits is written first.
    pub fn put_line<O: Sinks>(
        &mut self,
        answered: &Record,
        plan: &Plan<'_>,
        out: &mut Output<'_, O>,
    ) -> Result<(), Failed>
        requires { IsOfDeployment plan.now.deployment.now answered.now }
        ensures { Puts O.contents O.faults
            (self.old ++ line_of answered.now plan.now.platform.now plan.now.deployment.now)
            self.new result out.old.sink out.new.sink }
    {
        self.make_room(out)?;
        push_line(&mut *self.lines, answered, plan.platform, plan.deployment);
        Ok(())
    }

    /// Adds a line that reports how the run ended. If there may be no room for it, what waits is written first.
    pub fn put_ending<O: Sinks>(
        &mut self,
        last: &Last,
        plan: &Plan<'_>,
        out: &mut Output<'_, O>,
    ) -> Result<(), Failed>
        requires { IsLastOf plan.now.platform.now plan.now.deployment.now last.now }
        ensures { Puts O.contents O.faults (self.old
            ++ ending_of last.now plan.now.platform.now plan.now.deployment.now) self.new
            result out.old.sink out.new.sink }
    {
        self.make_room(out)?;
        push_ending(&mut *self.lines, last, plan.platform, plan.deployment);
        Ok(())
    }

    /// Writes what waits.
    pub fn flush<O: Sinks>(&mut self, out: &mut Output<'_, O>) -> Result<(), Failed>
        ensures writes { Writes O.contents O.faults self.old result out.old.sink out.new.sink }
        ensures empty { OnOk result (self.new ≡ []) }
    {
        out.append(Stream::Out, self.lines.as_str().as_bytes())?;
        self.lines.clear();
        Ok(())
    }
}
