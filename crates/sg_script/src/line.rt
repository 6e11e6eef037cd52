//! What one line of a script says.
ghost use Rattle.std.specs.Prelude.{◌≡◌, IfOk, IsTrue, Ok, true};
ghost use Rattle.std.specs.List.{list_all};
ghost use Rattle.sg_platform_rows.specs.Deployment.{extent_of};
ghost use Rattle.sg_script.specs.Known.{known_in};
ghost use Rattle.sg_script.specs.Line.{entry_of, is_plain, KeepsLimits, line_judgement, text_judgement, without_return};
ghost use Rattle.sg_script.specs.Operation.{IsOperation};
ghost use Rattle.sg_script.specs.Words.{words};
ghost use Rattle.sg_script.specs.kept.Asks.{IsJudged, IsSaid};
ghost use Rattle.sg_script.specs.kept.Verbs.{operation_in, operation_of};
ghost use Rattle.sg_script.specs.declared.operation.Operation.TheVariants.{Alone, Together};
ghost use Rattle.sg_script.specs.declared.verbs.Verb.TheVariants.{ISend, Send};

use crate::arguments::{
    actor, bare, computing, one_actor, one_amount, one_mutex, one_semaphore, one_time, receiving,
    sending, two_amounts,
};
use crate::fault::LineFault;
use crate::operation::Operation;
use crate::verbs::{Verb, read_verb};
use crate::words::next_word;
use sg_base::{Action, ActorId};
use sg_collectives::Collective;
use sg_platform_rows::Deployment;

/// The most bytes of a line, its newline not counted.
pub const LONGEST_LINE: usize = 4096;

/// A good line: whose it is, and what it asks for.
#[derive(Clone, Copy)]
pub struct Entry {
    pub actor: ActorId,
    pub operation: Operation,
}

fn alone(action: Action) -> Result<Operation, LineFault>
    ensures { result ≡ Ok (Alone action) }
{
    Ok(Operation::Alone(action))
}

fn together(collective: Collective) -> Result<Operation, LineFault>
    ensures { result ≡ Ok (Together collective) }
{
    Ok(Operation::Together(collective))
}

fn send(text: &[u8], deployment: &Deployment) -> Result<Operation, LineFault>
    ensures said { result ≡ operation_of (known_in deployment.now) Send (words text.now) }
    ensures limits { IfOk result (IsOperation (extent_of deployment.now)) }
{
    let (to, bytes, rate) = sending(text, deployment)?;
    alone(Action::Send(to, bytes, rate))
}

fn isend(text: &[u8], deployment: &Deployment) -> Result<Operation, LineFault>
    ensures said { result ≡ operation_of (known_in deployment.now) ISend (words text.now) }
    ensures limits { IfOk result (IsOperation (extent_of deployment.now)) }
{
    let (to, bytes, rate) = sending(text, deployment)?;
    alone(Action::ISend(to, bytes, rate))
}

// Reads what a verb asks for with the arguments that stand in this text.
fn read_operation(verb: Verb, text: &[u8], deployment: &Deployment) -> Result<Operation, LineFault>
    ensures said { result ≡ operation_of (known_in deployment.now) verb (words text.now) }
    ensures limits { IfOk result (IsOperation (extent_of deployment.now)) }
{
    match verb {
        Verb::Compute => {
            let (flops, priority) = computing(text)?;
            alone(Action::Compute(flops, priority))
        }
        Verb::Sleep => alone(Action::Sleep(one_time(text)?)),
        Verb::Send => send(text, deployment),
        Verb::ISend => isend(text, deployment),
        Verb::Recv => alone(Action::Recv(receiving(text, deployment)?)),
        Verb::IRecv => alone(Action::IRecv(receiving(text, deployment)?)),
        Verb::Wait => bare(Action::Wait, text),
        Verb::Barrier => bare(Action::Barrier, text),
        Verb::Yield => bare(Action::Yield, text),
        Verb::Lock => alone(Action::Lock(one_mutex(text, deployment)?)),
        Verb::Unlock => alone(Action::Unlock(one_mutex(text, deployment)?)),
        Verb::Acquire => alone(Action::Acquire(one_semaphore(text, deployment)?)),
        Verb::Release => alone(Action::Release(one_semaphore(text, deployment)?)),
        Verb::Create => alone(Action::Create(one_actor(text, deployment)?)),
        Verb::Join => alone(Action::Join(one_actor(text, deployment)?)),
        Verb::Kill => alone(Action::Kill(one_actor(text, deployment)?)),
        Verb::Suspend => alone(Action::Suspend(one_actor(text, deployment)?)),
        Verb::Resume => alone(Action::Resume(one_actor(text, deployment)?)),
        Verb::Bcast => {
            let bytes = one_amount(text)?;
            together(Collective::Bcast { bytes })
        }
        Verb::Reduce => {
            let (bytes, flops) = two_amounts(text)?;
            together(Collective::Reduce { bytes, flops })
        }
        Verb::Allreduce => {
            let (bytes, flops) = two_amounts(text)?;
            together(Collective::Allreduce { bytes, flops })
        }
        Verb::Alltoall => {
            let bytes = one_amount(text)?;
            together(Collective::Alltoall { bytes })
        }
    }
}

// Reads what the action of a word asks for with the arguments that stand in this text.
fn read_action(word: &[u8], text: &[u8], deployment: &Deployment) -> Result<Operation, LineFault>
    ensures { IsSaid deployment.now
        (operation_in (known_in deployment.now) word.now (words text.now)) result }
{
    match read_verb(word) {
        Some(verb) => read_operation(verb, text, deployment),
        None => Err(LineFault::UnknownAction),
    }
}

// Reads the entry of a first word and the text after it.
fn read_entry(name: &[u8], text: &[u8], deployment: &Deployment) -> Result<Option<Entry>, LineFault>
    ensures { IsJudged deployment.now
        (entry_of (known_in deployment.now) name.now (words text.now)) result }
{
    let actor = actor(name, deployment)?;
    let Some((word, rest)) = next_word(text) else {
        return Err(LineFault::UnknownAction);
    };
    let operation = read_action(word, rest, deployment)?;
    Ok(Some(Entry { actor, operation }))
}

fn is_ascii(text: &[u8]) -> bool
    ensures { result ≡ list_all is_plain text.now }
{
    text.iter()
        .all(|b| *b == b'\t' || (b' '..=b'~').contains(b))
}

// Returns whether all bytes are plain, which may be known already.
fn all_plain(text: &[u8], plain: bool) -> bool
    requires { IsTrue plain → list_all is_plain text.now ≡ true }
    ensures { result ≡ list_all is_plain text.now }
{
    plain || is_ascii(text)
}

fn without_end(line: &[u8]) -> &[u8]
    ensures { result.now ≡ without_return line.entry.now }
{
    match line.last() {
        Some(b'\r') => &line[..line.len() - 1],
        _ => line,
    }
}

fn read_text(text: &[u8], plain: bool, deployment: &Deployment) -> Result<Option<Entry>, LineFault>
    requires { IsTrue plain → list_all is_plain text.now ≡ true }
    ensures { IsJudged deployment.now (text_judgement (known_in deployment.now) text.now) result }
{
    let Some((first, rest)) = next_word(text) else {
        return Ok(None);
    };
    if let [b'#', ..] = first {
        return Ok(None);
    }
    if !all_plain(text, plain) {
        return Err(LineFault::NotAscii);
    }
    read_entry(first, rest, deployment)
}

/// Does what `read_line` does; it may be known that the bytes are plain.
#[tactic(auto, using(crate::proofs::PlainLemmas::plain_without))]
pub fn read_known_line(
    line: &[u8],
    plain: bool,
    deployment: &Deployment,
) -> Result<Option<Entry>, LineFault>
    requires { IsTrue plain → list_all is_plain line.now ≡ true }
    ensures { IsJudged deployment.now (line_judgement (known_in deployment.now) line.now) result }
{
    if line.len() > LONGEST_LINE {
        return Err(LineFault::TooLong);
    }
    read_text(without_end(line), plain, deployment)
}

/// Reads what a line says, without its newline: `None` if it is skipped.
///
/// Words are separated by blanks, which are spaces and tabs; one carriage return at the end is dropped. A line of
/// blanks alone, or whose first word begins with `#`, is skipped. Else its words are the name of a replay actor, an
/// action and the arguments of the action. It takes no memory.
pub fn read_line(line: &[u8], deployment: &Deployment) -> Result<Option<Entry>, LineFault>
    ensures said { result ≡ line_judgement (known_in deployment.now) line.now }
    ensures limits { KeepsLimits (extent_of deployment.now) result }
{
    read_known_line(line, false, deployment)
}
