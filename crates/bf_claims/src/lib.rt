//! Answers: files that claim by which tests a certificate stands, and the certificate, read line by line.
#![tactic(auto)]

mod claim;
mod form;
mod goods;
mod head;
mod kind;
pub mod laws;
mod line;
mod read;
mod sum;

pub use read::read_file;
