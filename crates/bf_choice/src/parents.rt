//! How many different parents a candidate has.
ghost use Rattle.std.specs.Prelude.{◌≡◌, ◌==◌};
ghost use Rattle.std.specs.List.{list_all};
ghost use Rattle.bf_choice.specs.Sizes.{parentage_of};

/// The parents of a candidate, where one that is repeated counts once.
#[derive(Clone, Copy, Debug, PartialEq, Eq)]
pub(crate) enum Parentage {
    /// It has none.
    Root,
    /// It has this one alone.
    Single(u32),
    /// It has several.
    Merge,
}

/// What these parents make of their child.
pub(crate) fn parentage_of(parents: &[u32]) -> Parentage
    ensures { result ≡ parentage_of parents.now }
{
    match parents {
        [] => Parentage::Root,
        [first, others @ ..] => {
            if all_are(others, *first) {
                Parentage::Single(*first)
            } else {
                Parentage::Merge
            }
        }
    }
}

fn all_are(parents: &[u32], only: u32) -> bool
    ensures { result ≡ list_all (λ parent. parent == only) parents.now }
{
    parents.iter().all(|parent| *parent == only)
}
