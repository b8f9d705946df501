//! The terms of a search.
ghost use Rattle.std.specs.Prelude.{◌≡◌, codes, Some, None, Err, IfSome, IfNone, IfOk, IsOkUnless};
ghost use Rattle.bf_terms.specs.Texts.{standard_sides};
ghost use Rattle.bf_terms.specs.Words.{term_fault};
ghost use Rattle.bf_terms.specs.declared.terms.TermFault.TheVariants as faults;

use crate::words::{is_new_term, is_old_term};
use bf_io::Bytes;
use std::alloc::{AllocError, Global};
use std::marker::Model;
use thiserror::Error;

/// Why two words are no terms of a search.
#[derive(Clone, Copy, Debug, PartialEq, Eq, Error)]
pub enum TermFault {
    /// The new term is no term, or is `good` or `old`.
    #[error("the new term may not be used")]
    New,
    /// The new term may be used, and the old one is no term, or is `bad` or `new`.
    #[error("the old term may not be used")]
    Old,
    /// Both may be used, and they are the same.
    #[error("the terms are the same")]
    Same,
    /// Memory ran out.
    #[error("out of memory")]
    NoMemory,
}

impl From<AllocError> for TermFault {
    ghost from_gives = { λ _ e. e ≡ faults.NoMemory };

    fn from(_: AllocError) -> TermFault {
        TermFault::NoMemory
    }
}

/// The words for the two sides of a search: the new one for commits that have what is searched for,
/// and the old one for those that don't (git-bisect(1), "Alternate terms").
///
/// [`Terms::read`] takes the terms of each value. Contracts see the two words.
#[derive(Debug, Drop)]
pub struct Terms {
    new: Bytes,
    old: Bytes,
}

impl Model for Terms {
    ghost use Rattle.std.specs.Prelude.{◌≡◌, None};
    ghost use Rattle.bf_terms.specs.Texts.{Sides};

    ghost Value = { Sides };

    ghost use Rattle.bf_terms.specs.Words.{term_fault};

    ghost view = { λ terms. record { new = terms.new; old = terms.old } };

    ghost invariant = { λ terms. term_fault terms.new terms.old ≡ None };
}

impl Terms {
    /// The terms `bad` and `good`.
    pub fn standard(alloc: Global) -> Result<Terms, AllocError>
        ensures { IfOk result (λ terms. terms ≡ standard_sides) }
    {
        Ok(Terms {
            new: Bytes::from_slice(alloc, b"bad")?,
            old: Bytes::from_slice(alloc, b"good")?,
        })
    }

    /// The terms that two words give. A term has 1 to 40 ASCII letters, digits or `-`, does not start
    /// with `-`, and is no command of git bisect.
    pub fn read(alloc: Global, new: &[u8], old: &[u8]) -> Result<Terms, TermFault>
        ensures refused { IfSome (term_fault new.now old.now) (λ fault. result ≡ Err fault) }
        ensures taken { IfNone (term_fault new.now old.now) (IsOkUnless result faults.NoMemory) }
        ensures terms { IfOk result (λ terms. terms ≡ record { new = new.now; old = old.now }) }
    {
        if !is_new_term(new) {
            return Err(TermFault::New);
        }
        if !is_old_term(old) {
            return Err(TermFault::Old);
        }
        if new == old {
            return Err(TermFault::Same);
        }
        Ok(Terms {
            new: Bytes::from_slice(alloc, new)?,
            old: Bytes::from_slice(alloc, old)?,
        })
    }

    /// The word for the bad side.
    pub fn new_term(&self) -> &[u8]
        ensures term { result.now ≡ self.now.new }
        ensures taken { term_fault self.now.new self.now.old ≡ None }
    {
        self.new.as_slice()
    }

    /// The word for the good side.
    pub fn old_term(&self) -> &[u8]
        ensures term { result.now ≡ self.now.old }
        ensures taken { term_fault self.now.new self.now.old ≡ None }
    {
        self.old.as_slice()
    }

    /// Equal terms.
    pub fn try_clone(&self) -> Result<Terms, AllocError>
        ensures { IfOk result (λ copy. copy ≡ self.now) }
    {
        Ok(Terms {
            new: self.new.try_clone()?,
            old: self.old.try_clone()?,
        })
    }
}
