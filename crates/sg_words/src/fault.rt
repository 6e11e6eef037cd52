//! Why words are no job.
ghost use Rattle.std.specs.Prelude.{◌≡◌};
ghost use Rattle.sg_words.specs.declared.fault.WordsFault.TheVariants.{Memory as no_memory};

use clap::error::ErrorKind;
use sg_base::{Memory, Text};
use std::alloc::{AllocError, AllocFailed};

/// Why there is no job.
#[derive(Drop)]
pub enum WordsFault {
    /// Help or the version was asked for: the text.
    Help(Text),
    /// The command line is invalid: why, and the text for the user.
    Bad(ErrorKind, Text),
    /// There was no memory.
    Memory,
}

impl From<Memory> for WordsFault {
    ghost from_gives = { λ _ e. e ≡ no_memory };

    fn from(_: Memory) -> WordsFault {
        WordsFault::Memory
    }
}

impl From<AllocError> for WordsFault {
    ghost from_gives = { λ _ e. e ≡ no_memory };

    fn from(_: AllocError) -> WordsFault {
        WordsFault::Memory
    }
}

impl<T: Drop> From<AllocFailed<T>> for WordsFault {
    ghost from_gives = { λ _ e. e ≡ no_memory };

    fn from(_: AllocFailed<T>) -> WordsFault {
        WordsFault::Memory
    }
}
