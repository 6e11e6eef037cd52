//! The line at the front of bytes that were read.
ghost use Rattle.std.specs.Prelude.{ℕ, ◌≡◌, ◌≢◌, ◌≤◌, ◌<◌, length, true, None};
ghost use Rattle.std.specs.List.{position};
ghost use Rattle.sg_edge.specs.declared.files.Stage.TheVariants.{Fresh, Over};
ghost use Rattle.sg_script.specs.Answer.{is_newline, is_last_line};
ghost use Rattle.sg_script.specs.kept.Front.{FrontIs, IsUnbroken};

use crate::judging::MOST_LINES;
use crate::line::LONGEST_LINE;
use memchr::memchr;
use sg_edge::Stage;

/// What stands at the front of bytes that were read.
#[derive(Clone, Copy)]
pub enum Front {
    /// A line of `len` bytes that takes `end` bytes with its newline; or the beginning of one that is bad however it
    /// continues.
    Line { len: usize, end: usize },
    /// A part of a line, or nothing; more may come.
    Unread,
    /// Nothing, and nothing more comes.
    End,
    /// A part of a line, or nothing, before a read that failed.
    Broken,
}

// Returns the place of the first newline, which is sought in many bytes at a time.
#[tactic(auto, using(crate::proofs::Searching::first_newline))]
fn newline_at(bytes: &[u8]) -> Option<usize>
    ensures { result ≡ position is_newline bytes.now }
{
    memchr(b'\n', bytes)
}

// Returns whether these bytes make a bad line, however it continues.
fn is_bad(bytes: &[u8], before: u64) -> bool
    ensures { result ≡ is_last_line true before bytes.now }
{
    bytes.len() > LONGEST_LINE || (!bytes.is_empty() && before == MOST_LINES)
}

// Returns what follows the last newline, if no more is to come.
#[tactic(auto, using(crate::proofs::FrontLemmas::leads_last, crate::proofs::PlainLemmas::unbroken_none))]
fn last_line(bytes: &[u8]) -> Front
    requires { position is_newline bytes.now ≡ None }
    ensures front { (before : ℕ) → FrontIs Over before bytes.now result }
    ensures unbroken { IsUnbroken bytes.now result }
{
    let len = bytes.len();
    if len == 0 {
        return Front::End;
    }
    Front::Line { len, end: len }
}

// Returns what follows the last newline.
#[tactic(auto, using(crate::proofs::FrontLemmas::leads_bad, crate::proofs::FrontLemmas::is_short, crate::proofs::PlainLemmas::unbroken_none))]
fn behind_newlines(bytes: &[u8], before: u64, stage: Stage) -> Front
    requires begun { stage ≢ Fresh }
    requires newline { position is_newline bytes.now ≡ None }
    ensures front { FrontIs stage before bytes.now result }
    ensures unbroken { IsUnbroken bytes.now result }
{
    let len = bytes.len();
    if is_bad(bytes, before) {
        return Front::Line { len, end: len };
    }
    match stage {
        Stage::Fresh | Stage::Begun => Front::Unread,
        Stage::Broken => Front::Broken,
        Stage::Over => last_line(bytes),
    }
}

/// Returns what stands at the front of these bytes, before which so many lines were.
#[tactic(auto, using(crate::proofs::FrontLemmas::leads_newline, crate::proofs::FrontLemmas::below, crate::proofs::PlainLemmas::unbroken_some))]
pub fn front_of(bytes: &[u8], before: u64, stage: Stage) -> Front
    requires { stage ≢ Fresh }
    ensures front { FrontIs stage before bytes.now result }
    ensures unbroken { IsUnbroken bytes.now result }
{
    match newline_at(bytes) {
        Some(len) => Front::Line { len, end: len + 1 },
        None => behind_newlines(bytes, before, stage),
    }
}
