//! The standard input, of which it is known whether it was read to its end.
ghost use Rattle.std.specs.Prelude.{◌≡◌, ◌<◌, length};
ghost use Rattle.std.specs.Io.{ReadsAtMost};
ghost use Rattle.bf_io.specs.Causes.{HasCause};
ghost use Rattle.bf_io.specs.Told.{ReadTakes};

use bf_io::{Failed, Source};

/// A source over another one. A stream that ends with its line `done` is not read to the end: nothing behind that line
/// is asked for.
#[derive(Drop)]
pub(crate) struct Watched<S: Source + Drop> {
    inner: S,
    has_ended: bool,
}

impl<S: Source + Drop> Watched<S> {
    /// A source over one that was not read.
    pub(crate) fn new(inner: S) -> Watched<S> {
        Watched {
            inner,
            has_ended: false,
        }
    }

    /// Whether a read has found the end.
    pub(crate) fn has_ended(&self) -> bool {
        self.has_ended
    }
}

impl<S: Source + Drop> Source for Watched<S> {
    ghost left = { λ s. S.left s.inner };

    ghost faults = { λ s. S.faults s.inner };

    fn read(&mut self, buf: &mut [u8]) -> Result<usize, Failed> {
        let answer = self.inner.read(buf);
        if let Ok(0) = answer {
            self.has_ended = true;
        }
        answer
    }
}
