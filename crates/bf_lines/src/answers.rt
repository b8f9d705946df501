//! The trait of what answers requests.
ghost use Rattle.std.specs.Prelude.{◌≡◌, ℕ, ◌<◌, ◌≤◌, List, [], length, OnOk};

use bf_io::Bytes;
use std::alloc::AllocError;

/// What answers requests, one after the other. It may ask what stands beside it, as files.
pub trait Answers<B> {
    // From one state to another, its own and of what stands beside it, a line gets this reply.
    ghost says: { Self × B → Self × B → List ℕ → List ℕ → Type 0 };

    // Whether a request may be asked.
    ghost is_ready: { Self → Type 0 };

    // The faults that what stands beside it has had so far.
    ghost faults: { B → ℕ };

    /// Answers a line, which has no LF: puts the reply into `text`, which is empty. After want of memory nothing may be
    /// asked, and nothing is said of what is left.
    fn answer(&mut self, beside: &mut B, line: &[u8], text: &mut Bytes) -> Result<(), AllocError>
        requires ready { is_ready self.old }
        requires short { length line.now ≤ 65535 }
        requires empty { text.old ≡ [] }
        ensures reply { OnOk result
            (says (self.old, beside.old) (self.new, beside.new) line.now text.new) }
        ensures ready { OnOk result (is_ready self.new) }
        ensures later { faults beside.old ≤ faults beside.new };

    /// Answers a line of more bytes, which was passed over: each such line has the same reply.
    fn answer_long(&mut self, beside: &mut B, text: &mut Bytes) -> Result<(), AllocError>
        requires ready { is_ready self.old }
        requires empty { text.old ≡ [] }
        ensures reply { OnOk result ((line : List ℕ) → 65535 < length line →
            says (self.old, beside.old) (self.new, beside.new) line text.new) }
        ensures ready { OnOk result (is_ready self.new) }
        ensures later { faults beside.old ≤ faults beside.new };
}
