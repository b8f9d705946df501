//! What the program answers to `certify`, `checkout` and `journal`, which stand before the words of a search, and to `check`
//! and `many`, which have words of their own: in specs/ the definitions of their texts, command by command. What `serve`
//! answers is defined in `bf_serve_run`.
#![tactic(auto)]

mod names;
mod order;

pub use names::{asks_original_names, limits_asked};
pub use order::{Order, order_of, read_words_for};
