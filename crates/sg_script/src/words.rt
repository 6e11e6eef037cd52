//! The words of a line.
ghost use Rattle.std.specs.Prelude.{◌≡◌, ◌∷◌, ◌<◌, [], length, IfSome, MatchOption, MatchResult, Ok, Err};
ghost use Rattle.std.specs.List.{position, slice_split};
ghost use Rattle.sg_script.specs.Words.{is_blank, words};
ghost use Rattle.sg_script.specs.Line.{no_words};
ghost use Rattle.sg_script.specs.kept.Arguments.{AreArguments, one_word};

use crate::fault::LineFault;

// Returns the place of the first blank. Most bytes are above both blanks, and need one comparison.
fn blank_at(text: &[u8]) -> Option<usize>
    ensures { result ≡ position is_blank text.now }
{
    text.iter()
        .position(|b| *b <= b' ' && (*b == b' ' || *b == b'\t'))
}

// Returns what stands before the first blank and after it.
#[tactic(auto, using(std::proofs::lemmas::Grind::common_steps, crate::proofs::Splits::split_some, crate::proofs::Splits::split_none, crate::proofs::Splits::some_below))]
fn cut(text: &[u8]) -> Option<(&[u8], &[u8])>
    ensures cut { MatchOption result (slice_split is_blank text.now ≡ text.now ∷ [])
        (λ both. slice_split is_blank text.now ≡ both.0.now ∷ slice_split is_blank both.1.now) }
    ensures shorter { IfSome result (λ both. length both.1.now < length text.now) }
{
    match blank_at(text) {
        Some(i) => Some((&text[..i], &text[i + 1..])),
        None => None,
    }
}

/// Returns the first word, and what follows it.
#[tactic(auto, using(crate::proofs::WordLemmas::words_lead, crate::proofs::WordLemmas::words_kept, crate::proofs::WordLemmas::words_whole))]
pub fn next_word(text: &[u8]) -> Option<(&[u8], &[u8])>
    ensures { MatchOption result (words text.now ≡ [])
        (λ found. words text.now ≡ found.0.now ∷ words found.1.now) }
{
    let mut rest = text;
    while let Some((word, more)) = cut(rest) {
        if !word.is_empty() {
            return Some((word, more));
        }
        rest = more;
    }
    if rest.is_empty() {
        None
    } else {
        Some((rest, &[]))
    }
}

/// The words of a text, as far as an action can have arguments.
#[derive(Clone, Copy)]
pub enum Arguments<'a> {
    Zero,
    One(&'a [u8]),
    Two(&'a [u8], &'a [u8]),
    Three(&'a [u8], &'a [u8], &'a [u8]),
    /// More than three.
    More,
}

/// Returns the words of a text, in one walk.
pub fn cut_arguments(text: &[u8]) -> Arguments<'_>
    ensures { AreArguments result (words text.entry.now) }
{
    let Some((first, text)) = next_word(text) else {
        return Arguments::Zero;
    };
    let Some((second, text)) = next_word(text) else {
        return Arguments::One(first);
    };
    let Some((third, text)) = next_word(text) else {
        return Arguments::Two(first, second);
    };
    match next_word(text) {
        None => Arguments::Three(first, second, third),
        Some(_) => Arguments::More,
    }
}

/// No word.
pub fn none(text: &[u8]) -> Result<(), LineFault>
    ensures { result ≡ no_words (words text.now) }
{
    match next_word(text) {
        Some(_) => Err(LineFault::ArgumentCount),
        None => Ok(()),
    }
}

/// Returns the only word.
pub fn one(text: &[u8]) -> Result<&[u8], LineFault>
    ensures { MatchResult result (λ word. one_word (words text.entry.now) ≡ Ok word.now)
        (λ e. one_word (words text.entry.now) ≡ Err e) }
{
    match next_word(text) {
        Some((word, rest)) => match next_word(rest) {
            Some(_) => Err(LineFault::ArgumentCount),
            None => Ok(word),
        },
        None => Err(LineFault::ArgumentCount),
    }
}
