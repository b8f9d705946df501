//! The door of every command: the stream, and the file of the shelf that words name, or the refusal. And how a search
//! begins: with the ends that words name or with a log that is replayed, and with the commits that are skipped.
//!
//! It stands on `bf_answers`, in whose words it says what is refused, and on `bf_names` and `bf_replay`, which say what
//! a name means and where a log leads. `begin` meets the definition `begun_with_skips` of `bf_output`.
#![tactic(auto)]

mod beginning;
mod door;
mod file;
mod named;
mod ready;
mod skips;

pub use beginning::{begin, between_ends};
pub use door::{FileLine, Opened, OpenedText, open, open_search, open_text};
pub use file::{LogFile, LogText, lent, load_file, replay_file};
pub use ready::{start, told};
