//! The command line: its definition, and the job that words ask for.
//! One enters by `read_words`, which gives a `Job` or a `WordsFault`.
//! It stands on `sg_base`, and on clap.
#![tactic(auto)]

mod definition;
mod fault;
mod help;
mod job;
mod laws;
mod reading;
mod words;

pub use fault::WordsFault;
pub use job::{Command, Job};
pub use laws::accepted_words_have_a_job;
pub use words::read_words;
