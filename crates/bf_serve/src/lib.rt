//! Searches for a scheduler outside: each line of its requests is answered, and no test is made here.
//!
//! A [`Session`] has the searches that were begun over one history. It answers one request after the other: what is
//! told of a search before the reply, and the reply. What each request is answered, and what it leaves, is defined
//! in `specs/Serving.antt`.
#![tactic(auto)]

mod begin;
mod certificate;
mod ending;
mod laws;
mod learn;
mod news;
mod opening;
mod pick;
mod post;
mod reading;
mod remaining;
mod session;
mod standing;
mod starting;
mod wanted;

pub use opening::Opening;
pub use remaining::Remaining;
pub use session::{Lull, Session};
