//! A directory that is being made: its entries so far, and what is still to be taken.

use crate::nodes::Numbers;
use crate::slots::Rest;
use bf_io::Bytes;

/// A directory that is being made. While a directory in it is made, it waits for that.
#[derive(Debug, Drop)]
pub(crate) struct OpenDirectory<'a> {
    /// The numbers of the entries so far, in order of their keys.
    pub(crate) numbers: Numbers,
    /// The key of the directory in it that is made now.
    pub(crate) inside: Bytes,
    /// What is still to be taken.
    pub(crate) rest: Rest<'a>,
}
