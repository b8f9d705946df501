//! What `benches/bench.py` times. The words are tasks, done one behind the other, each with what it wants:
//!
//! - `weights SHAPE COMMITS`: all candidates between the first commit and the last of a generated history
//!   are weighed; told are their number, and the sum of their weights;
//! - `farm TASK SHAPE COMMITS WORKERS`: what workers do in a search between these, as [`farm::Task`] says;
//! - `forest DIRECTORIES SUBDIRECTORIES FILES EDITS`: a tree of generated files, each directory with so many
//!   directories and each of those with so many files, is edited a file at a time; told is its last name;
//! - `stream`: the commands of a git fast-import stream on the standard input are counted;
//! - `import`, `contents`: such a stream is imported, without and with its contents, which are counted.
//!
//! A shape is `line`, `mixed` or `merges`.
#![tactic(auto)]

mod contents;
mod farm;
mod forest;
mod history;
mod stream;
mod tasks;
mod weights;

use bf_io::StdSource;
use std::env;

fn main(rt: HostRuntime) -> anyhow::Result<()> {
    let mut words = Vec::new(rt.alloc());
    for word in env::args(&rt)?.skip(1) {
        words.push(word)?;
    }
    let mut source = StdSource::new(rt.reader());
    let mut at = 0usize;
    for _ in 0..words.len() {
        if at >= words.len() {
            break;
        }
        let told = tasks::done(rt.alloc(), &mut source, &words[at..])?;
        println!(rt; "{}", told.text)?;
        at = at.saturating_add(told.words);
    }
    Ok(())
}
