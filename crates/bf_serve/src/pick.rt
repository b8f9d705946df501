//! A worker looks for work.
ghost use Rattle.std.specs.Prelude.{◌≡◌, OnOk};
ghost use Rattle.bf_log.specs.Lines.{Adds};
ghost use Rattle.bf_output.specs.Beginning.{commits_of};
ghost use Rattle.bf_protocol.specs.Events.{Test, reply_text};
ghost use Rattle.bf_serve.specs.Serving as serving;
ghost use Rattle.bf_serve.specs.Steps.{IsServing, Serves, reply_of, searches_in};
ghost use Rattle.bf_terms.specs.Texts.{hex_of};

use crate::session::{Lull, Session};
use bf_import::History;
use bf_io::Bytes;
use bf_many::ManyPick;
use bf_oid::oid_hex;
use bf_protocol::{Refusal, put_over, put_refusal, put_test, put_wait};
use std::alloc::AllocError;

impl<'r> Session<'r> {
    /// A worker looks for work.
    pub(crate) fn pick(&mut self, worker: u32, out: &mut Bytes) -> Result<(), AllocError>
        requires { IsServing self.old }
        ensures { let pick = serving.pick_turn (commits_of self.old.history.now) in
            OnOk result
            (Serves (pick (searches_in self.old) worker) self.old self.new out.old out.new) }
    {
        if self.many.is_busy(worker) {
            return put_refusal(out, Refusal::WorkerHasATest);
        }
        if let Some(lull) = self.lull {
            return put_lull(out, lull);
        }
        match self.many.pick(worker)? {
            ManyPick::Work { search, place } => put_task(out, self.history, search + 1, place),
            ManyPick::NotYet => self.rest(Lull::Wait, out),
            ManyPick::Ended => self.rest(Lull::Over, out),
        }
    }

    /// Adds the reply of a lull, and notes it.
    fn rest(&mut self, lull: Lull, out: &mut Bytes) -> Result<(), AllocError>
        ensures session { self.new ≡ record self.old { lull = Some lull } }
        ensures text { Adds out.old out.new result (reply_text (reply_of lull)) }
    {
        self.lull = Some(lull);
        put_lull(out, lull)
    }
}

/// Adds the reply of a lull.
fn put_lull(out: &mut Bytes, lull: Lull) -> Result<(), AllocError>
    ensures { Adds out.old out.new result (reply_text (reply_of lull)) }
{
    match lull {
        Lull::Wait => put_wait(out),
        Lull::Over => put_over(out),
    }
}

/// Adds the reply that gives a place to test.
fn put_task(out: &mut Bytes, history: &History, number: u32, place: u32) -> Result<(), AllocError>
    ensures { let digits = hex_of (commits_of history.now) place in
        Adds out.old out.new result (reply_text (Test number digits)) }
{
    match history.names().get(place as usize) {
        Some(name) => {
            let mut digits = [0u8; 40];
            oid_hex(*name, &mut digits);
            put_test(out, number, &digits)
        }
        None => put_test(out, number, b""),
    }
}
