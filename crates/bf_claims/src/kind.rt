//! The kinds of the lines that stand before the certificate.
ghost use Rattle.std.specs.Prelude.{◌≡◌};
ghost use Rattle.bf_claims.specs.Kinds as kinds;

/// What a line tells, by its first word.
#[derive(Clone, Copy)]
pub(crate) enum Kind {
    /// A word of the command.
    Word,
    /// The folder that the command was run in.
    Folder,
    /// The word for the bad side.
    TermNew,
    /// The word for the good side.
    TermOld,
    /// How a commit was built.
    Build,
    /// How many failures are tried again.
    Retry,
    /// How often a commit was tested.
    Repeat,
    /// When the answer was found.
    Made,
    /// On what machine it was found.
    Machine,
    /// An option of the search.
    Choice,
    /// The commit that was called bad.
    CalledBad,
    /// A commit that was called good.
    CalledGood,
    /// The outcome of a test.
    Outcome,
    /// An outcome that contradicts the answer.
    Against,
    /// A commit that was tested again.
    Confirmed,
}

/// The kind of the lines that begin with a word.
#[tactic(auto, unfolding(crate::specs::Kinds::kind_named))]
pub(crate) fn kind_named(word: &[u8]) -> Option<Kind>
    ensures { result ≡ kinds.kind_named word.now }
{
    command_kind(word)
        .or(manner_kind(word))
        .or(commit_kind(word))
}

/// The kind of the lines on the command.
#[tactic(auto, unfolding(crate::specs::Kinds::command_kind))]
fn command_kind(word: &[u8]) -> Option<Kind>
    ensures { result ≡ kinds.command_kind word.now }
{
    match word {
        b"word" => Some(Kind::Word),
        b"folder" => Some(Kind::Folder),
        b"term-new" => Some(Kind::TermNew),
        b"term-old" => Some(Kind::TermOld),
        b"build" => Some(Kind::Build),
        _ => None,
    }
}

/// The kind of the lines on how it was tested.
#[tactic(auto, unfolding(crate::specs::Kinds::manner_kind))]
fn manner_kind(word: &[u8]) -> Option<Kind>
    ensures { result ≡ kinds.manner_kind word.now }
{
    match word {
        b"retry" => Some(Kind::Retry),
        b"repeat" => Some(Kind::Repeat),
        b"made" => Some(Kind::Made),
        b"machine" => Some(Kind::Machine),
        b"option" => Some(Kind::Choice),
        _ => None,
    }
}

/// The kind of the lines that name a commit.
#[tactic(auto, unfolding(crate::specs::Kinds::commit_kind))]
fn commit_kind(word: &[u8]) -> Option<Kind>
    ensures { result ≡ kinds.commit_kind word.now }
{
    match word {
        b"called-bad" => Some(Kind::CalledBad),
        b"called-good" => Some(Kind::CalledGood),
        b"outcome" => Some(Kind::Outcome),
        b"against" => Some(Kind::Against),
        b"confirmed" => Some(Kind::Confirmed),
        _ => None,
    }
}

impl Kind {
    /// The rank of its lines in the order of lines, from 1.
    pub(crate) fn rank(self) -> u8
        ensures { result ≡ kinds.rank_of self }
    {
        match self {
            Kind::Word => 1,
            Kind::Folder => 2,
            Kind::TermNew => 3,
            Kind::TermOld => 4,
            Kind::Build => 5,
            Kind::Retry => 6,
            Kind::Repeat => 7,
            Kind::Made => 8,
            Kind::Machine => 9,
            Kind::Choice => 10,
            Kind::CalledBad => 11,
            Kind::CalledGood => 12,
            Kind::Outcome => 13,
            Kind::Against => 14,
            Kind::Confirmed => 15,
        }
    }

    /// Whether there may be several lines of this kind.
    fn is_repeated(self) -> bool
        ensures { result ≡ kinds.is_repeated self }
    {
        matches!(
            self,
            Kind::Word
                | Kind::Choice
                | Kind::CalledGood
                | Kind::Outcome
                | Kind::Against
                | Kind::Confirmed
        )
    }

    /// Whether a line of this kind may stand behind one of this rank: lines stand in their order, and none
    /// of those that an answer has to have is passed over.
    #[tactic(auto, unfolding(crate::specs::Kinds::may_follow))]
    pub(crate) fn may_follow(self, last: u8) -> bool
        ensures { result ≡ kinds.may_follow last self }
    {
        let rank = self.rank();
        if last == rank {
            self.is_repeated()
        } else {
            last < rank && rank <= needed_behind(last)
        }
    }
}

/// The rank of the next line that an answer has to have, behind one of this rank.
fn needed_behind(last: u8) -> u8
    ensures { result ≡ kinds.needed_behind last }
{
    if last < 1 {
        1
    } else if last < 11 {
        11
    } else if last < 12 {
        12
    } else {
        15
    }
}

/// Whether the certificate may stand behind a line of this rank: each line that an answer has to have was
/// read.
pub(crate) fn is_last(rank: u8) -> bool
    ensures { result ≡ kinds.is_last rank }
{
    rank >= 12
}
