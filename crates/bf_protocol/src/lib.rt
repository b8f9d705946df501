//! The lines of requests, events and replies: those of requests are taken apart, and those of events and replies are
//! written. What a request does to a search is another crate's; here is no history and no state.
#![tactic(auto)]

mod events;
mod lines;
mod parts;
mod replies;
mod request;

pub use events::{put_answer, put_end, put_left, put_log, put_needless};
pub use parts::words_of_line;
pub use replies::{
    put_certificate, put_done, put_over, put_ready, put_refusal, put_refused_line, put_started,
    put_test, put_wait, put_wanted,
};
pub use request::{Asked, Refusal, asked_by};
