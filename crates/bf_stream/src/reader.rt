//! The reader of commands.
use crate::Cursor;

/// Reads the commands of a stream from a source, in windows of 64 KiB. It borrows the source as long
/// as it lives, and the bytes that it has read are gone from the source.
#[derive(Drop)]
pub struct Reader<'a, S> {
    pub(crate) cursor: Cursor<'a, S>,
    pub(crate) over: bool,
}
