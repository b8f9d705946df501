//! What answers each request.
ghost use Rattle.bf_serve.specs.Steps.{IsServing};
ghost use Rattle.bf_serve_run.specs.Serving.{Says};

use bf_io::{Bytes, Shelf};
use bf_lines::Answers;
use bf_protocol::{Refusal, put_refusal};
use bf_serve::Session;
use std::alloc::AllocError;

/// A session that answers the lines of an input, and loads what they name from the shelf beside it.
#[derive(Drop)]
pub(crate) struct Server<'r> {
    pub session: Session<'r>,
}

impl<F: Shelf> Answers<F> for Server<'_> {
    ghost says = { Says F.Shelf };

    ghost is_ready = { λ server. IsServing server.session };

    ghost faults = { F.faults };

    fn answer(&mut self, shelf: &mut F, line: &[u8], text: &mut Bytes) -> Result<(), AllocError> {
        self.session.answer(line, shelf, text)
    }

    fn answer_long(&mut self, _shelf: &mut F, text: &mut Bytes) -> Result<(), AllocError> {
        put_refusal(text, Refusal::LineTooLong)
    }
}
