//! Laws about logs. A function here does nothing: its contract is the law.
ghost use Rattle.bf_log.specs.Laws as laws;

/// The entries of a run tell its state and, with their warnings in place, themselves.
pub fn entries_tell_the_state()
    ensures { laws.EntriesTellTheState }
{}

/// Reading the lines of entries gives their command lines and no others.
pub fn logs_are_read_back()
    ensures { laws.LogsAreReadBack }
{}

/// The log of a run gives the state of the run back.
pub fn logs_give_the_state_back()
    ensures { laws.LogsGiveTheStateBack }
{}

/// A run goes on from a part of its log that ends with a mark.
pub fn runs_go_on_from_logs()
    ensures { laws.RunsGoOnFromLogs }
{}

/// A file of a log and the lines that a run prints behind it give the state of the run back.
pub fn files_give_the_state_back()
    ensures { laws.FilesGiveTheStateBack }
{}

/// Later entries are written from what is known after the earlier ones.
pub fn logs_join()
    ensures { laws.LogsJoin }
{}

/// A front of the lines of a run that ends with a command line is the log of the entries up to a mark.
pub fn logs_are_cut_at_marks()
    ensures { laws.LogsAreCutAtMarks }
{}

/// A run goes on from a part of its printed text that ends with a command line: it prints the rest.
pub fn runs_go_on_from_texts()
    ensures { laws.RunsGoOnFromTexts }
{}
