//! The lines of the commits.
ghost use Rattle.std.specs.Prelude.{◌≡◌, ◌≤◌, ◌+◌, ◌-◌, ◌++◌, length, codes, OnOk, IfOk};
ghost use Rattle.std.specs.Fmt.{decimal};
ghost use Rattle.std.specs.List.{flat_map};
ghost use Rattle.bf_gen.specs.Streams as streams;
ghost use Rattle.bf_gen.specs.Steps as steps;

use crate::numbers::{first_parent, next_state, second_parent};
use bf_io::{Bytes, put_decimal};
use itoa::Buffer;
use std::alloc::AllocError;

// Adds a line.
fn put_text(text: &mut Bytes, line: &[u8]) -> Result<(), AllocError>
    ensures { OnOk result (text.new ≡ text.old ++ (line.now ++ codes "\n")) }
{
    text.append(line)?;
    text.push(b'\n')
}

// Adds a line that ends with a number.
fn put_line(text: &mut Bytes, before: &[u8], number: u64) -> Result<(), AllocError>
    ensures { OnOk result (text.new ≡ text.old ++ ((before.now ++ decimal number) ++ codes "\n")) }
{
    text.append(before)?;
    put_decimal(text, number)?;
    text.push(b'\n')
}

// Adds a line with a number in it.
fn put_between(text: &mut Bytes, before: &[u8], number: u64, after: &[u8]) -> Result<(), AllocError>
    ensures { OnOk result
        (text.new ≡ text.old ++ ((before.now ++ decimal number ++ after.now) ++ codes "\n")) }
{
    text.append(before)?;
    put_decimal(text, number)?;
    text.append(after)?;
    text.push(b'\n')
}

// The length of the message `c<commit>` with its LF.
fn message_length(commit: u32) -> u64
    ensures { result ≡ length (codes "c" ++ decimal commit) + 1 }
{
    Buffer::new().format(commit).len() as u64 + 2
}

// Adds the lines of the parents.
fn put_parents(text: &mut Bytes, state: u32, commit: u32) -> Result<(), AllocError>
    ensures { OnOk result (text.new ≡ text.old
        ++ flat_map (λ line. line ++ codes "\n") (streams.parent_lines state commit)) }
{
    if commit == 0 {
        return Ok(());
    }
    put_line(text, b"from :", u64::from(first_parent(state, commit)) + 1)?;
    match second_parent(state, commit) {
        None => Ok(()),
        Some(parent) => put_line(text, b"merge :", u64::from(parent) + 1),
    }
}

// Adds the lines of a commit.
fn put_commit(text: &mut Bytes, state: u32, commit: u32) -> Result<(), AllocError>
    ensures { OnOk result (text.new ≡ text.old ++ streams.commit_text state commit) }
{
    put_text(text, b"commit refs/heads/main")?;
    put_line(text, b"mark :", u64::from(commit) + 1)?;
    put_between(text, b"committer gen <gen> ", u64::from(commit), b" +0000")?;
    put_line(text, b"data ", message_length(commit))?;
    put_line(text, b"c", u64::from(commit))?;
    put_parents(text, state, commit)
}

/// Adds the lines of commits from one on, and returns the state of the one after them.
pub(crate) fn put_commits(
    text: &mut Bytes,
    mut state: u32,
    first: u32,
    end: u32,
) -> Result<u32, AllocError>
    requires { first ≤ end }
    ensures text { OnOk result (text.new ≡ text.old ++ steps.commits_between state first end) }
    ensures state { IfOk result (λ after. after ≡ steps.states_on state (end - first)) }
{
    for commit in first..end {
        put_commit(text, state, commit)?;
        state = next_state(state);
    }
    Ok(state)
}
