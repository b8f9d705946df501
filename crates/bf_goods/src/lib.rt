//! The good places of a search, each once.
#![tactic(auto)]

mod goods;

pub use goods::Goods;
