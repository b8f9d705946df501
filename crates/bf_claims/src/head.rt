//! What the lines that stand before the certificate have claimed.
ghost use Rattle.std.specs.Prelude.{◌≡◌, ◌+◌, ◌^◌, ◌<◌, ◌≤◌, length, All, IfOk, IfSome};
ghost use Rattle.bf_cert.specs.Reading.{Gives};
ghost use Rattle.bf_claims.specs.Heads as heads;
ghost use Rattle.bf_claims.specs.Heads.{IsHead};
ghost use Rattle.bf_claims.specs.Claims.{IsClaimWithin};

use crate::claim::{Claim, claim_of};
use crate::goods::strange;
use crate::line::{kind_in, without_end};
use bf_cert::{Cert, CertFault};
use bf_import::History;
use bf_reach::Row;
use std::alloc::{AllocError, Global};

/// What the lines so far have claimed, and which may follow.
#[derive(Drop)]
pub(crate) struct Head {
    /// The rank of the last line.
    pub(crate) rank: u8,
    /// By place, whether something was claimed of it.
    pub(crate) named: Row,
    /// By place, whether it was bad.
    pub(crate) bad: Row,
    /// By place, whether it was good.
    pub(crate) good: Row,
    /// By place, whether it was tested again.
    pub(crate) again: Row,
}

impl Head {
    /// No line, over so many commits.
    pub(crate) fn new(alloc: Global, len: u32) -> Result<Head, AllocError>
        ensures { IfOk result (λ head. head ≡ heads.no_head len) }
    {
        Ok(Head {
            rank: 0,
            named: Row::new(alloc, len)?,
            bad: Row::new(alloc, len)?,
            good: Row::new(alloc, len)?,
            again: Row::new(alloc, len)?,
        })
    }

    /// With one line more; none where it may not stand there.
    #[tactic(auto, unfolding(crate::specs::Heads::take_line))]
    pub(crate) fn take_line(self, history: &History, line: &[u8]) -> Option<Head>
        requires { IsHead (length history.now.parents) self }
        ensures value { result ≡ heads.take_line history.now.names self line.now }
        ensures rows { IfSome result (IsHead (length history.now.parents)) }
    {
        let (kind, text) = kind_in(without_end(line)?)?;
        if !kind.may_follow(self.rank) {
            return None;
        }
        let claim = claim_of(history, kind, text)?;
        self.ranked(kind.rank()).take_claim(claim)
    }

    /// With this rank.
    fn ranked(self, rank: u8) -> Head
        ensures { result ≡ record self { rank = rank } }
    {
        Head { rank, ..self }
    }

    /// With this claim; none where something was claimed of its commit.
    fn take_claim(self, claim: Claim) -> Option<Head>
        requires rows { IsHead (length self.named) self }
        requires claim { IsClaimWithin (length self.named) claim }
        ensures value { result ≡ heads.take_claim self claim }
        ensures rows { IfSome result (IsHead (length self.named)) }
    {
        match claim {
            Claim::Nothing => Some(self),
            Claim::Bad(place) => {
                let mut head = self.name(place)?;
                head.bad.set(place, true);
                Some(head)
            }
            Claim::Good(place) => {
                let mut head = self.name(place)?;
                head.good.set(place, true);
                Some(head)
            }
            Claim::Skipped(place) => self.name(place),
            Claim::StillBad(place) if self.bad.get(place) => self.test_again(place),
            Claim::StillGood(place) if !self.bad.get(place) => self.test_again(place),
            Claim::StillBad(_) | Claim::StillGood(_) => None,
        }
    }

    /// With a commit of which something is claimed; none where something was.
    fn name(mut self, place: u32) -> Option<Head>
        requires rows { IsHead (length self.named) self }
        requires place { place < length self.named }
        ensures value { result ≡ heads.with_name self place }
        ensures rows { IfSome result (IsHead (length self.named)) }
    {
        if self.named.get(place) {
            return None;
        }
        self.named.set(place, true);
        Some(self)
    }

    /// With a commit that was tested again; none where it was told before.
    fn test_again(mut self, place: u32) -> Option<Head>
        requires rows { IsHead (length self.named) self }
        requires place { place < length self.named }
        ensures value { result ≡ heads.with_again place self }
        ensures rows { IfSome result (IsHead (length self.named)) }
    {
        if self.again.get(place) {
            return None;
        }
        self.again.set(place, true);
        Some(self)
    }

    /// The certificate that stands behind so many lines, where the head claims the same of its commits.
    #[tactic(auto, unfolding(crate::specs::Heads::judged))]
    pub(crate) fn judge(self, cert: Cert, before: u32) -> Result<Cert, CertFault>
        requires rows { IsHead (length self.named) self }
        requires bad { cert.bad < length self.named }
        requires goods { All (λ good. good < length self.named) cert.goods }
        requires room { before + 4 + length cert.goods < 2 ^ 32 }
        ensures read { Gives result (heads.judged self before cert) }
        ensures same { IfOk result (λ found. found ≡ cert) }
    {
        if !self.bad.get(cert.bad) {
            return Err(CertFault::Line { line: before + 2 });
        }
        match strange(self.good, cert.goods.as_slice()) {
            None => Ok(cert),
            Some(index) => {
                let front = if cert.first_parent { 4 } else { 3 };
                let line = before + front + index as u32;
                Err(CertFault::Line { line })
            }
        }
    }
}
