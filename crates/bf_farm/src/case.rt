//! What a run of tests starts from.
use bf_oid::Oid;
use bf_reach::Reach;
use bf_spec::Table;
use bf_state::State;

/// What a run of tests starts from. There is one name for each place of the graph.
#[derive(Drop)]
pub struct Case<'r> {
    /// The graph of the commits.
    pub reach: &'r Reach,
    /// The names of the commits, by place.
    pub names: &'r [Oid],
    /// The search to go on with. Both of its ends are known.
    pub state: State,
    /// The outcomes by place, where they are known.
    pub table: Table,
    /// The run ends after so many marks; where this is 0 their number does not end it.
    pub leg: u32,
}
