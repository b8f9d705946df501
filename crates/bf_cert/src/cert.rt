//! What a certificate says.
use bf_graph::Places;
use bf_io::List;

/// A step of a certificate, from a commit that is listed to one of its parents.
#[derive(Clone, Copy, PartialEq, Eq, Debug)]
pub struct CertStep {
    /// The parent, which is listed from then on.
    pub place: u32,
    /// The commit that it is a parent of.
    pub from: u32,
}

/// The steps of a certificate, in order.
pub type Steps = List<CertStep>;

/// A certificate that a commit is the first bad one: good commits, and steps that lead from them to each
/// of its parents, or to its first one where first parents are followed alone, so that each of these is an
/// ancestor of a good commit.
#[derive(Debug, Drop)]
pub struct Cert {
    /// The place of the first bad commit.
    pub bad: u32,
    /// Whether its first parent alone has to be reached.
    pub first_parent: bool,
    /// The good places.
    pub goods: Places,
    /// The steps.
    pub steps: Steps,
}
