//! The lines on standard output: those of the trace, and those that report how a run ended. Nothing here takes memory.
//! One enters by `line`, for an answered call, and `ending_lines`; `push_line` and `push_ending` append the same to a text.
//! It stands on `sg_units` for dates, and on `sg_platform_rows` for names.
#![tactic(auto)]

mod calls;
mod last;
mod lines;
mod names;
mod pieces;

pub use last::Last;
pub use lines::{ending_lines, line, push_ending, push_line};
