//! The laws of the logs of a history.
ghost use Rattle.bf_replay.specs.Laws as laws;

/// Every history that a stream loads has a name for each commit, of 20 bytes, which leads back to it, and each
/// subject is one line.
pub fn histories_are_kept()
    ensures { laws.HistoriesAreKept }
{}

/// A log over such a history is read and replayed as it was meant.
pub fn histories_are_replayable()
    ensures { laws.HistoriesAreReplayable }
{}

/// The log of a run gives the state of the run back.
pub fn logs_give_the_state_back()
    ensures { laws.LogsGiveTheStateBack }
{}

/// A file of a log and the lines that a run prints behind it give the state of the run back.
pub fn files_give_the_state_back()
    ensures { laws.FilesGiveTheStateBack }
{}

/// A run goes on from a part of its printed text that ends with a command line: it prints the rest.
pub fn runs_go_on_from_texts()
    ensures { laws.RunsGoOnFromTexts }
{}
