//! The certificate of a search.
ghost use Rattle.std.specs.Prelude.{◌≡◌, ◌≤◌, OnOk};
ghost use Rattle.bf_serve.specs.Serving as serving;
ghost use Rattle.bf_serve.specs.Steps.{IsServing, Serves, searches_in};

use crate::session::Session;
use bf_cert::{make_cert, write_cert};
use bf_io::Bytes;
use bf_protocol::{Refusal, put_certificate, put_refusal};
use bf_search::Ending;
use std::alloc::AllocError;

impl<'r> Session<'r> {
    /// The certificate of the search of a number, where it ended with the first bad commit.
    pub(crate) fn certificate(&mut self, number: u32, out: &mut Bytes) -> Result<(), AllocError>
        requires serving { IsServing self.old }
        requires number { 1 ≤ number }
        ensures { let cert = serving.certificate_turn self.old.history.now (searches_in self.old) in
            OnOk result (Serves (cert number) self.old self.new out.old out.new) }
    {
        if number as usize > self.openings.len() {
            return put_refusal(out, Refusal::NoSuchSearch);
        }
        let core = self.many.core(number - 1);
        let Some(Ending::FirstBad(_)) = core.ending() else {
            return put_refusal(out, Refusal::NoCertificate);
        };
        let state = core.state();
        // What the length tells is needed: there is a place for each commit.
        let _len = state.len();
        let cert = make_cert(self.reach, state)?;
        let mut text = Bytes::new(self.alloc);
        write_cert(self.history, &cert, &mut text)?;
        put_certificate(out, number, text.as_slice())
    }
}
