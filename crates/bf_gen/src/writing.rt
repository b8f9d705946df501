//! A whole stream.
ghost use Rattle.std.specs.Prelude.{◌≡◌, OnOk, OnErr};
ghost use Rattle.bf_io.specs.Causes.{FailsOnlyAt};
ghost use Rattle.bf_gen.specs.Streams.{GainsFront, GainsStream};

use crate::commits::put_commits;
use crate::numbers::first_state;
use bf_io::{Bytes, Sink, SinkFault, write_whole};
use std::alloc::Global;

// How many commits are written at once: about 50 KB.
const AT_ONCE: u32 = 512;

/// Writes the stream that a number gives, with so many commits.
///
/// After an error some front of the stream was written. `Failed` comes only where the sink's count of
/// faults rose.
pub fn generate<K: Sink>(
    alloc: Global,
    number: u64,
    commits: u32,
    sink: &mut K,
) -> Result<(), SinkFault>
    ensures whole { OnOk result (GainsStream number commits (K.held sink.old) (K.held sink.new)) }
    ensures front { OnErr result (GainsFront number commits (K.held sink.old) (K.held sink.new)) }
    ensures cause { FailsOnlyAt SinkFault.Failed (K.faults sink.old) (K.faults sink.new) result }
{
    let mut text = Bytes::new(alloc);
    let mut state = first_state(number);
    let mut done = 0;
    while done < commits {
        let end = commits.min(done.saturating_add(AT_ONCE));
        text.clear();
        state = put_commits(&mut text, state, done, end)?;
        write_whole(sink, text.as_slice())?;
        done = end;
    }
    Ok(())
}
