//! A script of which lines are read when an actor asks for one.
ghost use Rattle.std.specs.Prelude.{◌≡◌, ◌≢◌, ◌<◌, ◌≤◌, ◌+◌, ℕ, ⊤, List, [], length, take, drop, IfOk, IfSome, MatchOption, Ok, Some, true};
ghost use Rattle.sg_base.specs.Limits.{Extent, IsAction};
ghost use Rattle.sg_edge.specs.declared.files.Stage.TheVariants.{Fresh, Begun};
ghost use Rattle.sg_edge.specs.Files.{Only};
ghost use Rattle.sg_platform_rows.specs.Deployment.{extent_of};
ghost use Rattle.sg_script.specs.Answer.{judgement_of};
ghost use Rattle.sg_script.specs.Known.{known_in, actors_in};
ghost use Rattle.sg_script.specs.declared.operation.Operation.TheVariants.{Alone};
ghost use Rattle.sg_script.specs.Operation.{IsOperation};
ghost use Rattle.sg_script.specs.Line.{KeepsLimits};

use crate::fault::ScriptFault;
use crate::front::{Front, front_of};
use crate::judging::judge;
use crate::line::Entry;
use crate::operation::Operation;
use crate::pending::{PIECE, Pending};
use crate::queues::Queues;
use sg_base::{Action, ActorId, Memory};
use sg_edge::{Failed, Files, Part};
use sg_platform_rows::Deployment;
use std::alloc::Global;

// The answer to an actor that fetches its next line.
type Answer = Result<Option<Action>, ScriptFault>;

// Returns what a line of this actor asks for, if it is an action alone.
fn own_action(entry: Entry, actor: ActorId) -> Option<Action>
    ensures { MatchOption result ⊤
        (λ action. (entry.actor.0 ≡ actor.0) × (entry.operation ≡ Alone action)) }
{
    match entry.operation {
        Operation::Alone(action) if entry.actor.0 == actor.0 => Some(action),
        _ => None,
    }
}

/// A script that is read as far as the fetches of lines need it.
///
/// It keeps the lines that were read and may have actions left, how many lines there were, and the bytes after them.
/// These are judged when they are reached, so a bad line and a failed read are reported again to each fetch that needs
/// more.
#[derive(Drop)]
pub struct Script {
    queues: Queues,
    pending: Pending,
    before: u64,
    ghost few: { before ≤ 100000000 },
    ghost some: { 0 < length queues },
}

impl Script {
    ghost use Rattle.sg_edge.specs.declared.files.Stage.{Stage};
    ghost use Rattle.sg_script.specs.Frugal.{Frugal};
    ghost use Rattle.sg_script.specs.Known.{ScriptNames};
    ghost use Rattle.sg_script.specs.Stands.{AreLimited, IsLimited, IsRead, LeadsFetch, BreaksOnFailure, actors_of, kept_of, Stands};
    ghost use Rattle.sg_script.specs.kept.Asks.{CanPass, IsAnswered, IsAtFront, IsIdle, IsReady, KeepsLimitsIf, MayRead};
    ghost use Rattle.sg_script.specs.kept.Steps.{LineIs, LineTells, Pops, ReadIs, StepIs};

    /// Makes a script of which nothing was read, for so many actors.
    #[tactic(auto, using(crate::proofs::LimitLemmas::limited_none, crate::proofs::Asking::new_stands))]
    pub fn new(alloc: Global, actors: u32) -> Result<Script, Memory>
        ensures actors { IfOk result (λ s. actors_of s ≡ actors) }
        ensures stands { IfOk result
            (λ s. (known : ScriptNames) (stage : Stage)
            → Stands known [] stage [] (kept_of s)) }
        ensures waiting { IfOk result (λ s. (extent : Extent) → AreLimited extent (kept_of s)) }
    {
        Ok(Script {
            queues: Queues::new(alloc, actors as usize + 1)?,
            pending: Pending::new(alloc)?,
            before: 0,
        })
    }

    // Lets the line go that took so many bytes.
    fn pass(&mut self, end: usize)
        requires { CanPass end (kept_of self.old) }
        ensures queues { self.new.queues ≡ self.old.queues }
        ensures pending { self.new.pending ≡ drop end self.old.pending }
        ensures lines { self.new.before ≡ self.old.before + 1 }
    {
        self.pending.advance(end);
        self.before += 1;
    }

    // Lets the line go into its actor's queue. Without memory it stays.
    #[tactic(auto, using(crate::proofs::LimitLemmas::limited_same, crate::proofs::LimitLemmas::limited_more))]
    fn take_entry(&mut self, entry: Entry, end: usize) -> Option<ScriptFault>
        requires pass { CanPass end (kept_of self.old) }
        requires within { entry.actor.0 < length self.old.queues }
        ensures line { LineIs (Ok (Some entry)) end result (kept_of self.old)
            (kept_of self.new) }
        ensures waiting { (extent : Extent) → IsOperation extent entry.operation → AreLimited extent
            (kept_of self.old) → AreLimited extent (kept_of self.new) }
    {
        match self.queues.push(entry.actor, entry.operation) {
            Ok(()) => {
                self.pass(end);
                None
            }
            Err(Memory) => Some(ScriptFault::Memory),
        }
    }

    // Takes the first action that waits for the actor.
    fn take_waiting(&mut self, actor: ActorId, deployment: &Deployment) -> Option<Action>
        requires { IsReady deployment.now actor.0 (kept_of self.old) }
        ensures pops { Pops (known_in deployment.now) actor.0 result (kept_of self.old)
            (kept_of self.new) }
        ensures limited { IfSome result (IsAction (extent_of deployment.now)) }
        ensures waiting { AreLimited (extent_of deployment.now) (kept_of self.new) }
    {
        self.queues.pop(actor, deployment.members())
    }

    // Takes a good line, if no action waits for the actor that fetches; the answer is the first one that then waits for
    // it, if one does. An action alone of that actor never enters its queue, and after a line of another one none
    // waits.
    #[tactic(auto, using(crate::proofs::LimitLemmas::limited_same))]
    fn answer_by_entry(
        &mut self,
        entry: Entry,
        end: usize,
        actor: ActorId,
        deployment: &Deployment,
    ) -> Option<Answer>
        requires pass { CanPass end (kept_of self.old) }
        requires limits { KeepsLimits (extent_of deployment.now) (Ok (Some entry)) }
        requires idle { IsIdle deployment.now actor.0 (kept_of self.old) }
        ensures line { LineTells (known_in deployment.now) (Ok (Some entry)) end actor.0 result
            (kept_of self.old) (kept_of self.new) }
        ensures limits { KeepsLimitsIf deployment.now result (kept_of self.new) }
    {
        if let Some(action) = own_action(entry, actor) {
            self.pass(end);
            return Some(Ok(Some(action)));
        }
        if let Some(fault) = self.take_entry(entry, end) {
            return Some(Err(fault));
        }
        if entry.actor.0 != actor.0 {
            return None;
        }
        match self.take_waiting(actor, deployment) {
            Some(action) => Some(Ok(Some(action))),
            None => None,
        }
    }

    // Takes the line at the front, which has `len` bytes and takes `end`, if no action waits for the actor that
    // fetches; the answer is the first one that then waits for it, if one does.
    #[tactic(auto, using(crate::proofs::LimitLemmas::limited_same, crate::proofs::PlainLemmas::plain_line))]
    fn answer_by_line(
        &mut self,
        len: usize,
        end: usize,
        actor: ActorId,
        deployment: &Deployment,
    ) -> Option<Answer>
        requires front { IsAtFront len end (kept_of self.old) }
        requires idle { IsIdle deployment.now actor.0 (kept_of self.old) }
        ensures line { LineTells (known_in deployment.now)
            (judgement_of (known_in deployment.now) (self.old.before + 1)
            (take len self.old.pending)) end actor.0 result (kept_of self.old) (kept_of self.new) }
        ensures limits { KeepsLimitsIf deployment.now result (kept_of self.new) }
    {
        let plain = self.pending.is_plain();
        match judge(&self.pending.bytes()[..len], self.before, plain, deployment) {
            Err(kind) => Some(Err(ScriptFault::Line(self.before + 1, kind))),
            Ok(None) => {
                self.pass(end);
                None
            }
            Ok(Some(entry)) => self.answer_by_entry(entry, end, actor, deployment),
        }
    }

    // Reads one piece. If that fails the part is broken, which the next step sees.
    fn read_piece<F: Files>(&mut self, files: &mut F)
        requires begun { (F.shows files.old Part.Script).stage ≡ Begun }
        requires short { length self.old.pending ≤ 4096 }
        ensures read { ReadIs (F.shows files.old Part.Script) (F.shows files.new Part.Script)
            (kept_of self.old) (kept_of self.new) }
        ensures others { Only Part.Script (F.shows files.old) (F.shows files.new) }
    {
        let mut piece = [0u8; PIECE];
        match files.read(Part::Script, &mut piece) {
            Ok(n) => self.pending.add(&piece[..n]),
            Err(Failed) => {}
        }
    }

    // Takes a line or reads a piece; returns the answer, if the actor has it now.
    #[tactic(auto, using(crate::proofs::LimitLemmas::limited_same))]
    fn step<F: Files>(
        &mut self,
        actor: ActorId,
        deployment: &Deployment,
        files: &mut F,
    ) -> Option<Answer>
        requires { MayRead deployment.now actor.0 (F.shows files.old Part.Script)
            (kept_of self.old) }
        ensures step { StepIs (known_in deployment.now) actor.0 result
            (F.shows files.old Part.Script) (F.shows files.new Part.Script) (kept_of self.old)
            (kept_of self.new) }
        ensures limits { KeepsLimitsIf deployment.now result (kept_of self.new) }
        ensures others { Only Part.Script (F.shows files.old) (F.shows files.new) }
    {
        let front = front_of(self.pending.bytes(), self.before, files.stage(Part::Script));
        match front {
            Front::Line { len, end } => self.answer_by_line(len, end, actor, deployment),
            Front::Unread => {
                self.read_piece(files);
                None
            }
            Front::End => Some(Ok(None)),
            Front::Broken => Some(Err(ScriptFault::Read)),
        }
    }

    // Reads on until the actor has an answer.
    fn read_on<F: Files>(
        &mut self,
        actor: ActorId,
        deployment: &Deployment,
        files: &mut F,
    ) -> Result<Option<Action>, ScriptFault>
        requires { MayRead deployment.now actor.0 (F.shows files.old Part.Script)
            (kept_of self.old) }
        ensures { IsAnswered deployment.now actor.0 result (F.shows files.old)
            (F.shows files.new) (kept_of self.old) (kept_of self.new) }
    {
        loop {
            match self.step(actor, deployment, files) {
                Some(answer) => return answer,
                None => {}
            }
        }
    }

    // Returns the first action that waits for the actor, or what reading on gives.
    #[tactic(auto, using(crate::proofs::Steps::popped_length))]
    fn answer<F: Files>(
        &mut self,
        actor: ActorId,
        deployment: &Deployment,
        files: &mut F,
    ) -> Result<Option<Action>, ScriptFault>
        requires begun { (F.shows files.old Part.Script).stage ≢ Fresh }
        requires ready { IsReady deployment.now actor.0 (kept_of self.old) }
        ensures { IsAnswered deployment.now actor.0 result (F.shows files.old)
            (F.shows files.new) (kept_of self.old) (kept_of self.new) }
    {
        match self.take_waiting(actor, deployment) {
            Some(action) => Ok(Some(action)),
            None => self.read_on(actor, deployment, files),
        }
    }

    /// Returns the next action of the actor's lines, or `None` if there is no further one. The line of a collective
    /// gives all that the actor does for it, one action after the other.
    ///
    /// The answer is that of the whole script. It reads on in pieces of at most 4,096 bytes, each only if the answer
    /// isn't there yet. After `Memory` no byte that was taken is lost, and the call can be made again. `Line` and
    /// `Read` are returned again to each call that needs more than what was read.
    ///
    /// It is to be given the same deployment and files each time: the actions that wait are those of that deployment.
    pub fn next_of<F: Files>(
        &mut self,
        actor: ActorId,
        deployment: &Deployment,
        files: &mut F,
    ) -> Result<Option<Action>, ScriptFault>
        requires begun { (F.shows files.old Part.Script).stage ≢ Fresh }
        requires actors { actors_in deployment.now ≡ actors_of self.old }
        requires actor { actor.0 ≤ actors_of self.old }
        requires waiting { AreLimited (extent_of deployment.now) (kept_of self.old) }
        ensures fetched { LeadsFetch (known_in deployment.now) actor.0 result
            (F.shows files.old Part.Script) (F.shows files.new Part.Script) (kept_of self.old)
            (kept_of self.new) }
        ensures limited { IsLimited (extent_of deployment.now) result }
        ensures waiting { AreLimited (extent_of deployment.now) (kept_of self.new) }
        ensures frugal { Frugal (known_in deployment.now) actor.0 (F.shows files.old Part.Script)
            (F.shows files.new Part.Script) (kept_of self.old) }
        ensures read { IsRead result (F.shows files.new Part.Script) }
        ensures part { BreaksOnFailure Part.Script (F.shows files.old) (F.shows files.new) }
        ensures actors { actors_of self.new ≡ actors_of self.old }
        ensures others { Only Part.Script (F.shows files.old) (F.shows files.new) }
    {
        self.answer(actor, deployment, files)
    }
}
