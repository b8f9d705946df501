//! The handles that a tester may use.
use std::process::{Processes, SystemProcess};
use std::sync::Wait;
use std::thread::Threads;
use std::time::Clock;

/// A runtime under which commits are tested, perhaps by several threads that share it: it starts
/// threads and programs, waits for them, sleeps between looks at them, and writes to the standard error.
pub trait Host: Threads + Wait + Processes<Started = SystemProcess> + Clock + Eprint + Sync {}

impl<R: Threads + Wait + Processes<Started = SystemProcess> + Clock + Eprint + Sync> Host for R {}
