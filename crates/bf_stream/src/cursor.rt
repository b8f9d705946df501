//! The cursor. Its methods stand in other files, since definitions on it are read behind its ghost field.
ghost use Rattle.bf_grammar.specs.Limits.{IsWithin};

use crate::window::Window;
use bf_grammar::Limits;
use std::alloc::Global;

/// A place in a stream that is read from a source, in windows of 64 KiB. It borrows the source as long as it
/// lives, and the bytes that it has read are gone from the source.
#[derive(Drop)]
pub struct Cursor<'a, S> {
    pub(crate) window: Window,
    pub(crate) source: &'a mut S,
    pub(crate) limits: Limits,
    pub(crate) alloc: Global,
    ghost within: { IsWithin limits },
}
