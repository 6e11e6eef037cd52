//! The actions of a script by their words.
ghost use Rattle.std.specs.Prelude.{◌≡◌, bytes_eq};
ghost use Rattle.sg_script.specs.kept.Verbs.{rarer_verb_of, verb_of};

/// An action without its arguments.
#[derive(Clone, Copy)]
pub enum Verb {
    Compute,
    Sleep,
    Send,
    ISend,
    Recv,
    IRecv,
    Wait,
    Barrier,
    Yield,
    Lock,
    Unlock,
    Acquire,
    Release,
    Create,
    Join,
    Kill,
    Suspend,
    Resume,
    Bcast,
    Reduce,
    Allreduce,
    Alltoall,
}

// Returns whether a word is that of a verb. Where the verb is constant, this makes no call; `==` makes one at a word of
// four bytes or more.
#[inline(always)]
#[tactic(auto, using(crate::proofs::WordLemmas::same_word, crate::proofs::WordLemmas::other_length))]
fn is_verb(word: &[u8], verb: &[u8]) -> bool
    ensures { result ≡ bytes_eq verb.now word.now }
{
    word.len() == verb.len() && word.starts_with(verb)
}

// Returns the action of a word that is none of the usual ones.
fn read_rarer_verb(word: &[u8]) -> Option<Verb>
    ensures { result ≡ rarer_verb_of word.now }
{
    if is_verb(word, b"acquire") {
        return Some(Verb::Acquire);
    }
    if is_verb(word, b"release") {
        return Some(Verb::Release);
    }
    if is_verb(word, b"create") {
        return Some(Verb::Create);
    }
    if is_verb(word, b"join") {
        return Some(Verb::Join);
    }
    if is_verb(word, b"kill") {
        return Some(Verb::Kill);
    }
    if is_verb(word, b"suspend") {
        return Some(Verb::Suspend);
    }
    if is_verb(word, b"resume") {
        return Some(Verb::Resume);
    }
    if is_verb(word, b"bcast") {
        return Some(Verb::Bcast);
    }
    if is_verb(word, b"reduce") {
        return Some(Verb::Reduce);
    }
    if is_verb(word, b"allreduce") {
        return Some(Verb::Allreduce);
    }
    if is_verb(word, b"alltoall") {
        return Some(Verb::Alltoall);
    }
    None
}

/// Returns the action of that word.
pub fn read_verb(word: &[u8]) -> Option<Verb>
    ensures { result ≡ verb_of word.now }
{
    if is_verb(word, b"compute") {
        return Some(Verb::Compute);
    }
    if is_verb(word, b"sleep") {
        return Some(Verb::Sleep);
    }
    if is_verb(word, b"send") {
        return Some(Verb::Send);
    }
    if is_verb(word, b"isend") {
        return Some(Verb::ISend);
    }
    if is_verb(word, b"recv") {
        return Some(Verb::Recv);
    }
    if is_verb(word, b"irecv") {
        return Some(Verb::IRecv);
    }
    if is_verb(word, b"wait") {
        return Some(Verb::Wait);
    }
    if is_verb(word, b"barrier") {
        return Some(Verb::Barrier);
    }
    if is_verb(word, b"yield") {
        return Some(Verb::Yield);
    }
    if is_verb(word, b"lock") {
        return Some(Verb::Lock);
    }
    if is_verb(word, b"unlock") {
        return Some(Verb::Unlock);
    }
    read_rarer_verb(word)
}
