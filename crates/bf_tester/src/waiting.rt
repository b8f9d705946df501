//! Waits for the end of a command, and ends it where nobody waits for its test any more.
ghost use Rattle.std.specs.Prelude.{◌≡◌, Some, IfOk, IfSome};
ghost use Rattle.std.specs.Process.{child_status};
ghost use Rattle.bf_io.specs.Causes.{raised};
ghost use Rattle.bf_tester.specs.Waits.{LooksOn, is_withdrawn};

use crate::process::RunFault;
use crate::stop::StopView;
use std::alloc::Global;
use std::process::{Child, Command, ExitStatus, OpenProcess, Processes, Stdio};
use std::sync::Wait;
use std::time::{Clock, Duration};
use std::{io, thread};

/// The milliseconds that a command has to end once it was asked to. A wrapper that ends what it has started and then
/// cleans a folder needs some seconds; only a command that does not end takes them all.
const GRACE: u64 = 10_000;

/// Pauses between looks. Each is a tenth of what was waited so far, of 1 to 50 milliseconds, so that a wait is
/// over soon after its end, however short it was, and a long one takes the processor 20 times a second.
#[derive(Drop)]
struct Pauses {
    /// The milliseconds of all pauses so far, up to the last value of 64 bits.
    waited: u64,
}

impl Pauses {
    fn new() -> Pauses {
        Pauses { waited: 0 }
    }

    /// Whether there were so many milliseconds of pauses.
    fn are_over(&self, most: u64) -> bool {
        self.waited >= most
    }

    /// Lets one pause go by.
    fn pause<R: Clock>(&mut self, rt: &R) {
        let length = (self.waited / 10).clamp(1, 50);
        self.waited = self.waited.saturating_add(length);
        thread::sleep(rt, Duration::from_millis(length));
    }

    /// Looks at the flag once, and returns whether it is raised. Where it is not, one pause goes by.
    #[tactic(auto, using(crate::proofs::Looking::looks_once))]
    fn look<R: Clock>(&mut self, rt: &R, stop: &mut StopView<'_>) -> bool
        ensures once { stop.new.looks ≡ raised stop.old.looks }
        ensures looks { LooksOn stop.old stop.new result }
    {
        let raised = stop.raised();
        if !raised {
            self.pause(rt);
        }
        raised
    }
}

/// Waits for the end of a child, whatever a flag says.
pub(crate) fn wait_alone<P: OpenProcess>(child: &mut Child<P>) -> Result<ExitStatus, RunFault>
    ensures { IfOk result (λ status. child_status child.new ≡ Some status) }
{
    match child.wait() {
        Ok(status) => Ok(status),
        Err(_) => Err(RunFault::Failed(None)),
    }
}

/// Waits for the end of a child, and looks at the flag after each look at the child. Where a look finds it raised the
/// child is ended, and there is no status.
#[tactic(auto, using(crate::proofs::Looking::looks_at_none, crate::proofs::Looking::looks_further))]
pub(crate) fn wait_for<R: Wait + Processes + Clock>(
    rt: &R,
    alloc: Global,
    child: &mut Child<R::Started>,
    stop: &mut StopView<'_>,
) -> Result<Option<ExitStatus>, RunFault>
    ensures looks { LooksOn stop.old stop.new (is_withdrawn result) }
    ensures status { IfOk result (λ ended. IfSome ended (λ status.
        child_status child.new ≡ Some status)) }
{
    let mut pauses = Pauses::new();
    for _ in rt.forever() {
        match child.try_wait() {
            Ok(None) => {}
            Ok(Some(status)) => return Ok(Some(status)),
            Err(_) => return Err(RunFault::Failed(None)),
        }
        if pauses.look(rt, stop) {
            end(rt, alloc, child);
            return Ok(None);
        }
    }
    unreachable!()
}

/// Ends a child: it is asked to end, and after a while it is killed. The child alone is told, and not what it has
/// started. Where the system does not refuse the child was waited for then.
fn end<R: Processes + Clock>(rt: &R, alloc: Global, child: &mut Child<R::Started>) {
    if ask_to_end(rt, alloc, child.id()).is_ok() && has_ended_soon(rt, child) {
        return;
    }
    let _ = child.kill();
    let _ = child.wait();
}

/// Sends SIGTERM to a child of this number, by the shell, which has `kill` wherever there is one.
fn ask_to_end<R: Processes>(rt: &R, alloc: Global, child: u32) -> io::Result<ExitStatus> {
    let line = format!(in alloc; "kill -TERM {child}")?;
    let mut command = Command::new(alloc, "sh")?;
    command.arg("-c")?.arg(line.as_str())?;
    command
        .stdin(Stdio::null())
        .stdout(Stdio::null())
        .stderr(Stdio::null());
    command.status(rt)
}

/// Whether a child ends before its time to do so is over, or the system does not tell.
fn has_ended_soon<R: Clock, P: OpenProcess>(rt: &R, child: &mut Child<P>) -> bool {
    let mut pauses = Pauses::new();
    for _ in 0..GRACE {
        if pauses.are_over(GRACE) {
            return false;
        }
        match child.try_wait() {
            Ok(None) => pauses.pause(rt),
            _ => return true,
        }
    }
    false
}
