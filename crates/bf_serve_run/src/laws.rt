//! Laws of requests that are served. A function here does nothing: its contract is the law.
ghost use Rattle.bf_serve_run.specs.Laws as laws;

/// Where the shelf tells its files and does not fail, the replies to requests are the output of the server's definition, and
/// so a function of the history, the files and the requests.
pub fn replies_are_the_output()
    ensures { laws.RepliesAreTheOutput }
{}
