//! A law of command lines, the contract of a function that does nothing.
ghost use Rattle.sg_words.specs.CommandLine.{AcceptedWordsHaveJobs};

/// Words of which none is refused ask for a job, so each command line is one or the other: it asks for a job, or help,
/// the version or a refusal is printed.
pub fn accepted_words_have_a_job()
    ensures { AcceptedWordsHaveJobs }
{}
