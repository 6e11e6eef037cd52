//! The texts of calls.
ghost use Rattle.std.specs.Prelude.{◌≡◌, ◌≤◌, ◌++◌, [], codes, decimal, false, length, true};
ghost use Rattle.std.specs.Option.{option_map_or};
ghost use Rattle.sg_base.specs.Limits.{IsBoxIn, IsCall};
ghost use Rattle.sg_base.specs.Lines.{HasLine};
ghost use Rattle.sg_platform_rows.specs.Deployment.{extent_of};
ghost use Rattle.sg_trace.specs.Call.{call_text, peer_name};
ghost use Rattle.sg_trace.specs.kept.Room.{HasRoom, GrowsBy};

use crate::names::{Name, actor_name, mutex_name, push_name, semaphore_name};
use crate::pieces::push_number;
use arrayvec::ArrayString;
use sg_base::{BoxId, Call};
use sg_platform_rows::Deployment;

// Returns the name of whom a sender names.
fn receiver_name(deployment: &Deployment, mailbox: BoxId) -> Name<'_>
    requires { IsBoxIn (extent_of deployment.now) mailbox }
    ensures { result.text.now ≡ peer_name true deployment.now mailbox }
{
    let receiver = match mailbox {
        BoxId::Pair(_, to) => to,
        BoxId::Named(actor) => actor,
    };
    actor_name(deployment, receiver)
}

// Returns the name of whom a receiver names.
fn sender_name(deployment: &Deployment, mailbox: BoxId) -> Name<'_>
    requires { IsBoxIn (extent_of deployment.now) mailbox }
    ensures { result.text.now ≡ peer_name false deployment.now mailbox }
{
    let sender = match mailbox {
        BoxId::Pair(from, _) => from,
        BoxId::Named(actor) => actor,
    };
    actor_name(deployment, sender)
}

fn push_word<const N: usize>(lines: &mut ArrayString<N>, word: &str, name: Name<'_>)
    requires word { length word.now ≤ 8 }
    requires room { HasRoom N lines.old 72 }
    ensures bytes { lines.new.bytes ≡ lines.old.bytes ++ (word.now ++ name.entry.text.now) }
    ensures len { GrowsBy lines.old lines.new 72 }
{
    lines.push_str(word);
    push_name(lines, name);
}

fn push_sent<const N: usize>(lines: &mut ArrayString<N>, word: &str, receiver: Name<'_>, bytes: u64)
    requires word { length word.now ≤ 8 }
    requires room { HasRoom N lines.old 112 }
    ensures bytes { lines.new.bytes
        ≡ lines.old.bytes ++ (word.now ++ receiver.entry.text.now ++ codes " " ++ decimal bytes) }
    ensures len { GrowsBy lines.old lines.new 93 }
{
    push_word(lines, word, receiver);
    lines.push_str(" ");
    push_number(lines, bytes);
}

/// Adds the bytes that a receive brought, if it has completed.
fn push_brought<const N: usize>(lines: &mut ArrayString<N>, brought: Option<u64>)
    requires room { HasRoom N lines.old 33 }
    ensures bytes { lines.new.bytes
        ≡ lines.old.bytes ++ option_map_or (λ bytes. codes " " ++ decimal bytes) brought [] }
    ensures len { GrowsBy lines.old lines.new 21 }
{
    match brought {
        Some(bytes) => {
            lines.push_str(" ");
            push_number(lines, bytes);
        }
        None => {}
    }
}

/// Adds the text of a call, and for a completed receive the bytes that it brought.
pub fn push_call<const N: usize>(
    lines: &mut ArrayString<N>,
    deployment: &Deployment,
    call: Call,
    brought: Option<u64>,
)
    requires told { HasLine call }
    requires call { IsCall (extent_of deployment.now) call }
    requires room { HasRoom N lines.old 112 }
    ensures bytes { lines.new.bytes ≡ lines.old.bytes ++ call_text deployment.now brought call }
    ensures len { GrowsBy lines.old lines.new 93 }
{
    match call {
        Call::Compute(flops, _) => {
            lines.push_str("compute ");
            push_number(lines, flops);
        }
        Call::Sleep(_) => lines.push_str("sleep"),
        Call::Send(to, bytes, ..) => push_sent(
            lines,
            "send ",
            receiver_name(deployment, to),
            bytes,
        ),
        Call::Recv(from) => {
            push_word(lines, "recv ", sender_name(deployment, from));
            push_brought(lines, brought);
        }
        Call::ISend(to, bytes, ..) => {
            push_sent(lines, "isend ", receiver_name(deployment, to), bytes);
        }
        Call::IRecv(from) => push_word(lines, "irecv ", sender_name(deployment, from)),
        Call::Wait => lines.push_str("wait"),
        Call::Lock(mutex) => push_word(lines, "lock ", mutex_name(deployment, mutex)),
        Call::Unlock(mutex) => push_word(lines, "unlock ", mutex_name(deployment, mutex)),
        Call::Acquire(semaphore) => {
            push_word(lines, "acquire ", semaphore_name(deployment, semaphore));
        }
        Call::Release(semaphore) => {
            push_word(lines, "release ", semaphore_name(deployment, semaphore));
        }
        Call::Barrier => lines.push_str("barrier"),
        Call::Create(actor) => push_word(lines, "create ", actor_name(deployment, actor)),
        Call::Join(actor) => push_word(lines, "join ", actor_name(deployment, actor)),
        Call::Kill(actor) => push_word(lines, "kill ", actor_name(deployment, actor)),
        Call::Suspend(actor) => push_word(lines, "suspend ", actor_name(deployment, actor)),
        Call::Resume(actor) => push_word(lines, "resume ", actor_name(deployment, actor)),
        Call::Yield => lines.push_str("yield"),
        Call::Ask | Call::Exit => unreachable!(),
    }
}
