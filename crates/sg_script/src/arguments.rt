//! The arguments of an action.
ghost use Rattle.std.specs.Prelude.{◌≡◌, IfOk, Ok};
ghost use Rattle.std.specs.Result.{result_ok};
ghost use Rattle.sg_base.specs.Limits.{IsActorIn, IsAmount, IsMutexIn, IsPriority, IsRate, IsSemaphoreIn, IsTime};
ghost use Rattle.sg_platform_rows.specs.Deployment.{extent_of};
ghost use Rattle.sg_script.specs.Known.{known_in};
ghost use Rattle.sg_script.specs.Line.{actor_in, alone, both, computing_of, from_one_to, no_words, one_of, rate_in, receiving_of, script_amount, sending_of, then_go};
ghost use Rattle.sg_script.specs.declared.fault.LineFault.TheVariants.{BadAmount, UnknownActor, UnknownObject};
ghost use Rattle.sg_units.specs.Amount.{amount_of, time_of};
ghost use Rattle.sg_script.specs.Words.{words};

use crate::fault::LineFault;
use crate::operation::Operation;
use crate::words::{Arguments, cut_arguments, none, one};
use sg_base::{Action, ActorId};
use sg_platform_rows::Deployment;
use sg_units::{read_amount, read_bandwidth, read_time};

pub fn amount(text: &[u8]) -> Result<u64, LineFault>
    ensures value { result ≡ script_amount text.now }
    ensures limit { IfOk result IsAmount }
{
    match read_amount(text) {
        Ok(n) => Ok(n),
        Err(_) => Err(LineFault::BadAmount),
    }
}

/// Reads a priority of an execution: an amount from 1 to 1,000.
pub fn priority(text: &[u8]) -> Result<u32, LineFault>
    ensures value { result ≡ then_go (script_amount text.now) (from_one_to 1000) }
    ensures limit { IfOk result IsPriority }
{
    match amount(text)? {
        0 => Err(LineFault::BadAmount),
        n if n > 1000 => Err(LineFault::BadAmount),
        n => Ok(n as u32),
    }
}

/// Reads the most bytes a second that a message is to have: a bandwidth of at least 1.
pub fn rate(text: &[u8]) -> Result<u64, LineFault>
    ensures value { result ≡ rate_in text.now }
    ensures limit { IfOk result IsRate }
{
    match read_bandwidth(text) {
        Ok(0) | Err(_) => Err(LineFault::BadAmount),
        Ok(n) => Ok(n),
    }
}

/// Reads the replay actor of that name.
#[tactic(auto, using(crate::proofs::KnownLemmas::actor_exists))]
pub fn actor(name: &[u8], deployment: &Deployment) -> Result<ActorId, LineFault>
    ensures named { result ≡ actor_in (known_in deployment.now) name.now }
    ensures exists { IfOk result (IsActorIn (extent_of deployment.now)) }
{
    match deployment.replay_actor(name) {
        Some(actor) => Ok(actor),
        None => Err(LineFault::UnknownActor),
    }
}

/// Reads the only argument as an amount.
#[tactic(auto, using(crate::proofs::Actions::one_is, crate::proofs::Actions::one_fails))]
pub fn one_amount(text: &[u8]) -> Result<u64, LineFault>
    ensures value { result
        ≡ one_of (λ word. result_ok (amount_of word)) BadAmount (words text.now) }
    ensures limit { IfOk result IsAmount }
{
    amount(one(text)?)
}

/// Reads the only argument as a time.
#[tactic(auto, using(crate::proofs::Actions::one_is, crate::proofs::Actions::one_fails))]
pub fn one_time(text: &[u8]) -> Result<u64, LineFault>
    ensures value { result ≡ one_of (λ word. result_ok (time_of word)) BadAmount (words text.now) }
    ensures limit { IfOk result IsTime }
{
    match read_time(one(text)?) {
        Ok(n) => Ok(n),
        Err(_) => Err(LineFault::BadAmount),
    }
}

/// Reads the actor that the only argument names, whatever it does.
#[tactic(auto, using(crate::proofs::KnownLemmas::anyone_exists, crate::proofs::Actions::one_is, crate::proofs::Actions::one_fails))]
pub fn one_actor(text: &[u8], deployment: &Deployment) -> Result<ActorId, LineFault>
    ensures named { result ≡ one_of (known_in deployment.now).anyone UnknownActor (words text.now) }
    ensures exists { IfOk result (IsActorIn (extent_of deployment.now)) }
{
    match deployment.actor(one(text)?) {
        Some(actor) => Ok(actor),
        None => Err(LineFault::UnknownActor),
    }
}

/// Reads the number of the mutex that the only argument names.
#[tactic(auto, using(crate::proofs::KnownLemmas::mutex_exists, crate::proofs::Actions::one_is, crate::proofs::Actions::one_fails))]
pub fn one_mutex(text: &[u8], deployment: &Deployment) -> Result<u32, LineFault>
    ensures named { result ≡ one_of (known_in deployment.now).mutex UnknownObject (words text.now) }
    ensures exists { IfOk result (IsMutexIn (extent_of deployment.now)) }
{
    match deployment.mutex_named(one(text)?) {
        Some(number) => Ok(number),
        None => Err(LineFault::UnknownObject),
    }
}

/// Reads the number of the semaphore that the only argument names.
#[tactic(auto, using(crate::proofs::KnownLemmas::semaphore_exists, crate::proofs::Actions::one_is, crate::proofs::Actions::one_fails))]
pub fn one_semaphore(text: &[u8], deployment: &Deployment) -> Result<u32, LineFault>
    ensures named { result
        ≡ one_of (known_in deployment.now).semaphore UnknownObject (words text.now) }
    ensures exists { IfOk result (IsSemaphoreIn (extent_of deployment.now)) }
{
    match deployment.semaphore_named(one(text)?) {
        Some(number) => Ok(number),
        None => Err(LineFault::UnknownObject),
    }
}

/// Reads an amount, and a priority, which is 1 if not given.
pub fn computing(text: &[u8]) -> Result<(u64, u32), LineFault>
    ensures said { result ≡ computing_of (words text.now) }
    ensures limits { IfOk result (λ both. IsAmount both.0 × IsPriority both.1) }
{
    match cut_arguments(text) {
        Arguments::One(flops) => Ok((amount(flops)?, 1)),
        Arguments::Two(flops, second) => Ok((amount(flops)?, priority(second)?)),
        Arguments::Zero => Err(LineFault::ArgumentCount),
        Arguments::Three(_, _, _) => Err(LineFault::ArgumentCount),
        Arguments::More => Err(LineFault::ArgumentCount),
    }
}

/// Reads a peer, an amount, and a rate, which is 0 if not given.
pub fn sending(text: &[u8], deployment: &Deployment) -> Result<(ActorId, u64, u64), LineFault>
    ensures said { result ≡ sending_of (known_in deployment.now) (words text.now) }
    ensures limits { IfOk result
        (λ all. IsActorIn (extent_of deployment.now) all.0 × IsAmount all.1 × IsRate all.2) }
{
    match cut_arguments(text) {
        Arguments::Two(name, bytes) => {
            let to = actor(name, deployment)?;
            Ok((to, amount(bytes)?, 0))
        }
        Arguments::Three(name, bytes, most) => {
            let to = actor(name, deployment)?;
            Ok((to, amount(bytes)?, rate(most)?))
        }
        Arguments::Zero => Err(LineFault::ArgumentCount),
        Arguments::One(_) => Err(LineFault::ArgumentCount),
        Arguments::More => Err(LineFault::ArgumentCount),
    }
}

/// Reads a peer, and an amount if there is one, which has no effect.
pub fn receiving(text: &[u8], deployment: &Deployment) -> Result<ActorId, LineFault>
    ensures said { result ≡ receiving_of (known_in deployment.now) (words text.now) }
    ensures exists { IfOk result (IsActorIn (extent_of deployment.now)) }
{
    match cut_arguments(text) {
        Arguments::One(name) => actor(name, deployment),
        Arguments::Two(name, bytes) => {
            let peer = actor(name, deployment)?;
            amount(bytes)?;
            Ok(peer)
        }
        Arguments::Zero => Err(LineFault::ArgumentCount),
        Arguments::Three(_, _, _) => Err(LineFault::ArgumentCount),
        Arguments::More => Err(LineFault::ArgumentCount),
    }
}

/// Reads two amounts.
pub fn two_amounts(text: &[u8]) -> Result<(u64, u64), LineFault>
    ensures said { result ≡ both script_amount script_amount (words text.now) }
    ensures limits { IfOk result (λ both. IsAmount both.0 × IsAmount both.1) }
{
    match cut_arguments(text) {
        Arguments::Two(one, two) => Ok((amount(one)?, amount(two)?)),
        Arguments::Zero => Err(LineFault::ArgumentCount),
        Arguments::One(_) => Err(LineFault::ArgumentCount),
        Arguments::Three(_, _, _) => Err(LineFault::ArgumentCount),
        Arguments::More => Err(LineFault::ArgumentCount),
    }
}

/// Reads an action without arguments.
pub fn bare(action: Action, text: &[u8]) -> Result<Operation, LineFault>
    ensures { result ≡ alone (λ _. action) no_words (words text.now) }
{
    none(text)?;
    Ok(Operation::Alone(action))
}
