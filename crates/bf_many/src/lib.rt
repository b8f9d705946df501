//! Several searches over one history, whose commits the same workers test.
//!
//! [`ManyCore`] has a farm machine for each search, and says which search a worker helps next: of those
//! with a place to test, the one that has the fewest workers. [`run_shared`] lets workers test in threads
//! until every search has ended or no worker can go on.
#![tactic(auto)]

mod absorb;
mod answers;
mod board;
mod held;
mod laws;
mod many;
mod next;
mod replay;
mod run;
mod search;
mod share;
mod wanted;
mod worker;

pub use answers::{Held, ManyEvent, ManyPick};
pub use laws::{searches_run_alone, the_fewest_claims_go_before, workers_have_one_claim};
pub use many::ManyCore;
pub use run::{ManyCase, Shared, run_shared};
pub use search::ReadySearch;
