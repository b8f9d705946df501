//! The numbers from which a stream is made, and the parents that they give.
ghost use Rattle.std.specs.Prelude.{◌≡◌, ◌<◌, ◌^◌};
ghost use Rattle.bf_gen.specs.Streams as streams;

/// The state of the first commit.
#[tactic(auto, unfolding(crate::specs::Streams::state_of))]
pub(crate) fn first_state(number: u64) -> u32
    ensures { result ≡ streams.state_of number 0 }
{
    (number % (1 << 31)) as u32
}

/// The state of the commit after one.
#[tactic(auto, unfolding(crate::specs::Streams::next_state))]
pub(crate) fn next_state(state: u32) -> u32
    ensures { result ≡ streams.next_state state }
{
    ((1_103_515_245 * u64::from(state) + 12_345) % (1 << 31)) as u32
}

/// The first parent of a commit that is not the first.
#[tactic(auto, unfolding(crate::specs::Streams::first_parent))]
pub(crate) fn first_parent(state: u32, commit: u32) -> u32
    ensures { result ≡ streams.first_parent state commit }
{
    if state / 65_536 % 4 == 0 {
        commit.saturating_sub(3)
    } else {
        commit.saturating_sub(1)
    }
}

/// The second parent of a commit, where it is a merge.
#[tactic(auto, unfolding(crate::specs::Streams::second_parent))]
pub(crate) fn second_parent(state: u32, commit: u32) -> Option<u32>
    ensures { result ≡ streams.second_parent state commit }
{
    if commit >= 2 && state / 65_536 % 3 == 0 && first_parent(state, commit) != commit - 2 {
        Some(commit - 2)
    } else {
        None
    }
}
