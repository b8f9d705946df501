//! What is known of the ends of a search.
ghost use Rattle.std.specs.Prelude.{◌≡◌, IfOk, OnOk, OnErr};
ghost use Rattle.bf_log.specs.Written.{known_after_all};
ghost use Rattle.bf_terms.specs.Texts as texts;
ghost use Rattle.bf_log.specs.Labels.{sides_of};
ghost use Rattle.bf_log.specs.Lines.{Adds};

use crate::answer::put_waiting;
use crate::label::Sides;
use bf_goods::Goods;
use bf_io::Bytes;
use bf_search::{Entry, Mark};
use std::alloc::{AllocError, Global};
use std::marker::Model;

/// Which ends of a search are known: whether a bad commit is, and the good ones, each once.
#[derive(Drop)]
pub struct Known {
    bad: bool,
    goods: Goods,
}

impl Model for Known {
    ghost use Rattle.bf_terms.specs.Texts as texts;

    ghost Value = { texts.Known };

    ghost view = { λ k. record { bad = k.bad; goods = k.goods } };
}

impl Known {
    /// Neither end is known. It takes no memory.
    pub fn nothing(alloc: Global) -> Known
        ensures { result ≡ texts.nothing_known }
    {
        Known {
            bad: false,
            goods: Goods::new(alloc),
        }
    }

    /// Notes which ends these entries make known. After an error all is as before.
    pub fn learn_all(&mut self, entries: &[Entry]) -> Result<(), AllocError>
        ensures ok { OnOk result (self.new ≡ known_after_all self.old entries.now) }
        ensures err { OnErr result (self.new ≡ self.old) }
    {
        let mut known = self.try_clone()?;
        for entry in entries {
            known.learn(entry)?;
        }
        *self = known;
        Ok(())
    }

    /// Notes which ends an entry makes known.
    pub(crate) fn learn(&mut self, entry: &Entry) -> Result<(), AllocError>
        ensures { OnOk result (self.new ≡ texts.known_after self.old entry.now) }
    {
        match entry {
            Entry::Start { bad, goods, .. } => {
                self.bad = bad.is_some();
                self.goods = Goods::each_once(goods.allocator(), goods.as_slice())?;
            }
            Entry::Marked {
                mark: Mark::Bad,
                ..
            } => self.bad = true,
            Entry::Marked {
                mark: Mark::Good,
                place,
            } => self.goods.add(*place)?,
            _ => {}
        }
        Ok(())
    }

    /// What is known, once more.
    pub fn try_clone(&self) -> Result<Known, AllocError>
        ensures { IfOk result (λ copy. copy ≡ self.now) }
    {
        Ok(Known {
            bad: self.bad,
            goods: self.goods.try_clone()?,
        })
    }

    /// Adds the status line of an entry, where an end is not known after it.
    pub(crate) fn put_status(
        &self,
        out: &mut Bytes,
        sides: Sides<'_>,
        entry: &Entry,
    ) -> Result<(), AllocError>
        ensures { Adds out.old out.new result
            (texts.status_line (sides_of sides.entry) self.now entry.now) }
    {
        if !has_status(entry) || (self.bad && !self.goods.is_empty()) {
            return Ok(());
        }
        out.append(b"# status: ")?;
        put_waiting(out, sides, self.bad, self.goods.len() as u64)?;
        out.append(b"\n")
    }
}

/// Whether an entry may have a status line.
fn has_status(entry: &Entry) -> bool
    ensures { result ≡ texts.has_status entry.now }
{
    match entry {
        Entry::Start { .. } | Entry::Marked { .. } => true,
        _ => false,
    }
}
