//! What answers each line with the one before it.
use bf_io::Bytes;
use bf_lines::Answers;
use std::alloc::{AllocError, Global};

/// Replies to each line with the one before it, and an LF. A line that is too long is told as `long`.
#[derive(Drop)]
pub(crate) struct Late {
    alloc: Global,
    before: Bytes,
}

impl Late {
    pub(crate) fn new(alloc: Global) -> Late {
        Late {
            alloc,
            before: Bytes::new(alloc),
        }
    }

    /// Replies with what stood before, and keeps this for the next one.
    fn tell(&mut self, next: &[u8], text: &mut Bytes) -> Result<(), AllocError> {
        let next = Bytes::from_slice(self.alloc, next)?;
        text.append(self.before.as_slice())?;
        text.push(b'\n')?;
        self.before = next;
        Ok(())
    }
}

// What it replies is compared by the tests, and nothing is said of it here. It counts its replies beside it.
impl Answers<u64> for Late {
    ghost says = { λ _ _ _ _. Unit {0} };

    ghost is_ready = { λ _. Unit {0} };

    ghost faults = { λ _. 0 };

    fn answer(
        &mut self,
        replies: &mut u64,
        line: &[u8],
        text: &mut Bytes,
    ) -> Result<(), AllocError> {
        *replies = replies.saturating_add(1);
        self.tell(line, text)
    }

    fn answer_long(&mut self, replies: &mut u64, text: &mut Bytes) -> Result<(), AllocError> {
        *replies = replies.saturating_add(1);
        self.tell(b"long", text)
    }
}
