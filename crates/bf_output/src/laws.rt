//! Laws of what the program answers, each on a function that does nothing.
ghost use Rattle.bf_output.specs.Laws as laws;
ghost use Rattle.bf_output.specs.Logged as logged;
ghost use Rattle.bf_output.specs.Returning as returning;

/// What is given with the files of a shelf and the bytes of a stream has at most one output, where no commit is
/// tested, no trace is asked for, and nothing cuts it short: a status, and the text that is written.
pub fn one_output()
    ensures { laws.HasOneOutput }
{}

/// All that may be given with the files of a shelf and the bytes of a stream has an output, whatever the tester
/// answers later; a trace is told where there is one.
pub fn some_output()
    ensures { laws.HasSomeOutput }
{}

/// Where outcomes are told, all runs whose tests do not fail tell the same log and answer, whatever the answers,
/// the workers and the legs were.
pub fn one_run()
    ensures { laws.HasOneRun }
{}

/// The log of every run gives the state of the run back: it is read and replayed, and one ask further is the state
/// in which the run ended, with the entries that were told on the way. Behind a file that is replayed, the log is
/// the file, with an LF at its end, and the lines that are printed.
pub fn logs_give_back()
    ensures { returning.LogsGiveBack }
{}

/// Every run without a leg that no replayed log began goes on from its beginning: from the state that the lines of its
/// start and of its skips lead to, it prints all of its own lines.
pub fn runs_go_on_from_starts()
    ensures { returning.RunsGoOnFromStarts }
{}

/// It goes on from the parts of its log too that hold the start and the skips and end with a command line behind them:
/// from the state that such a part leads to, it prints the rest of the log and ends alike.
pub fn runs_go_on_from_parts()
    ensures { returning.RunsGoOnFromParts }
{}

/// The log that a run by tests tells gives the state of the run back, and the run goes on from its beginning and from the
/// parts of its log, whatever command stands before its words: `run`, `checkout run` and `journal run` tell it alike.
pub fn told_runs_give_back()
    ensures { logged.ToldRunsGiveBack }
{}

/// What `simulate` and `run` tell of a search that came to its end is its log, with how it ended: the whole log gives the state
/// of that search back, behind the file that is replayed where there is one, and without such a file the search goes on
/// from its beginning and from the parts of its log.
pub fn searches_are_logged()
    ensures { laws.AreSearchesLogged }
{}
