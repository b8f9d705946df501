//! Certificates of a first bad commit, which whoever trusts the good commits can check by the history alone.
#![tactic(auto)]

mod cert;
mod children;
mod edges;
mod fault;
pub mod laws;
mod leading;
mod line;
mod make;
mod parse;
mod read;
mod reader;
mod write;

pub use cert::{Cert, CertStep, Steps};
pub use fault::CertFault;
pub use make::make_cert;
pub use read::read_cert;
pub use write::write_cert;
