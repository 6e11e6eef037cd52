//! How much of a run is written.

/// What is written of a run that isn't refused.
#[derive(Clone, Copy)]
pub enum Show {
    /// A trace line for each record, and the lines of the end.
    All,
    /// The lines of the end.
    Quiet,
    /// The lines of the end; if all actors have ended, a line before them says how many there were, and how many
    /// events.
    Summary,
}
