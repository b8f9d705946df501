//! What serves to look many names of one history up.
ghost use Rattle.bf_history.specs.Meanings.{History};
ghost use Rattle.bf_names.specs.Leaps.{IsIndexOf};

use crate::leap::Leaps;
use crate::order::NameOrder;

/// What serves to look many names of one history up, each part of which is made once, and only where it is
/// wanted.
#[derive(Debug, Drop)]
pub struct NameIndex {
    /// The order of the names, in which an abbreviation is found by binary search.
    pub order: Option<NameOrder>,
    /// The leaps along first parents, by which `~<n>` is found.
    pub leaps: Option<Leaps>,
}

impl NameIndex {
    /// No part of it. It takes no memory.
    pub fn none() -> NameIndex
        ensures { (history : History) → IsIndexOf history result }
    {
        NameIndex {
            order: None,
            leaps: None,
        }
    }
}
