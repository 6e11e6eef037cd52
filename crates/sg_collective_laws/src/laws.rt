//! Laws of runs with collectives.
ghost use Rattle.sg_collective_laws.specs.Laws.{AnswersMakeRuns, CollectivesAnswer, CollectivesRun, CollectivesWrite, TextsHaveNames};

/// Runs whose scripts answer alike, except for the number of a bad line, are the same, except for that number.
pub fn answers_make_runs()
    ensures { AnswersMakeRuns }
{}

/// A script answers each fetch as does the one in which each collective line is replaced by the lines of its expansion,
/// except for the number of a bad line.
pub fn collectives_answer()
    ensures { CollectivesAnswer }
{}

/// The run of a script is that of the one in which each collective line is replaced by the lines of its expansion: its
/// world with the date and the count of events, its records and its end, except for the number of a bad line.
pub fn collectives_run()
    ensures { CollectivesRun }
{}

/// And it writes the same trace lines and last lines, and takes as many contexts.
pub fn collectives_write()
    ensures { CollectivesWrite }
{}

/// The names of a deployment that a text describes are spelled as names, and each stands for one actor, so that the laws
/// hold on it.
pub fn texts_have_names()
    ensures { TextsHaveNames }
{}
