//! A certificate as far as it was read.
ghost use Rattle.std.specs.Prelude.{◌≡◌, ◌<◌, ◌++◌, ◌∷◌, [], length, Some, All, IfOk, IfErr, OnOk};
ghost use Rattle.std.specs.List.{list_all};
ghost use Rattle.bf_search.specs.Candidates.{is_in};
ghost use Rattle.bf_cert.specs.Certificates.{IsWithin};
ghost use Rattle.bf_cert.specs.Lines.{IsLineWithin};
ghost use Rattle.bf_cert.specs.Reading as reading;
ghost use Rattle.bf_cert.specs.Reading.{opened, take_line, RefusesLine};

use crate::cert::{Cert, CertStep, Steps};
use crate::edges::Edges;
use crate::fault::{CertFault, LineFault};
use crate::line::CertLine;
use crate::make::parents_in_mode;
use bf_graph::Places;
use bf_reach::Row;
use std::alloc::{AllocError, Global};
use std::marker::Model;

/// What the next line of a certificate may be.
#[derive(Clone, Copy)]
pub(crate) enum Wants {
    /// The mode, or what may follow it.
    Mode,
    /// A good place, or what may follow the good places.
    Goods,
    /// A step, or the end.
    Steps,
    /// Nothing, behind the end.
    Nothing,
}

/// A certificate whose bad place was read, and some of its further lines.
#[derive(Drop)]
pub(crate) struct Reader {
    wants: Wants,
    bad: u32,
    first_parent: bool,
    goods: Places,
    steps: Steps,
    /// By place, whether it is listed.
    listed: Row,
}

impl Model for Reader {
    ghost use Rattle.std.specs.Prelude.{length};
    ghost use Rattle.bf_cert.specs.Reading.{Reading, IsReader};

    ghost Value = { Reading };

    ghost view = { λ r. record {
      len = length r.listed;
      wants = r.wants;
      cert = record {
        bad = r.bad;
        first_parent = r.first_parent;
        goods = r.goods;
        steps = r.steps;
      };
    } };

    ghost invariant = { λ r. IsReader r.listed (record {
      bad = r.bad;
      first_parent = r.first_parent;
      goods = r.goods;
      steps = r.steps;
    }) };
}

impl Reader {
    /// Of a certificate of this bad place nothing else was read, over so many commits.
    pub(crate) fn open(alloc: Global, len: u32, bad: u32) -> Result<Reader, AllocError>
        requires { bad < len }
        ensures { IfOk result (λ reader. reader ≡ opened len bad) }
    {
        Ok(Reader {
            wants: Wants::Mode,
            bad,
            first_parent: false,
            goods: Places::new(alloc),
            steps: Steps::new(alloc),
            listed: Row::new(alloc, len)?,
        })
    }

    /// The number of commits.
    pub(crate) fn len(&self) -> u32
        ensures len { result ≡ self.now.len }
        ensures within { IsWithin self.now.len self.now.cert }
    {
        self.listed.len()
    }

    /// Takes the next line, where it may stand here.
    #[tactic(auto, unfolding(crate::specs::Reading::take_line))]
    pub(crate) fn take(&mut self, graph: &Edges<'_>, line: CertLine) -> Result<(), LineFault>
        requires len { length graph.now ≡ self.old.len }
        requires line { IsLineWithin self.old.len line }
        ensures taken { OnOk result (take_line graph.now self.old line ≡ Some self.new) }
        ensures refused { RefusesLine result (take_line graph.now self.old line) }
    {
        match self.wants {
            Wants::Mode => self.take_mode(graph, line),
            Wants::Goods => self.take_good(graph, line),
            Wants::Steps => self.take_step(graph, line),
            Wants::Nothing => Err(LineFault::OutOfPlace),
        }
    }

    /// The certificate, where its end was read; else the line of this number is at fault.
    pub(crate) fn finish(self, line: u32) -> Result<Cert, CertFault>
        ensures whole { IfOk result (λ cert. reading.at_end line self.wants self.cert ≡ Ok cert) }
        ensures within { IfOk result (IsWithin self.len) }
        ensures refused { IfErr result
            (λ fault. reading.IsRefusal fault (reading.at_end line self.wants self.cert)) }
    {
        match self.wants {
            Wants::Nothing => Ok(Cert {
                bad: self.bad,
                first_parent: self.first_parent,
                goods: self.goods,
                steps: self.steps,
            }),
            _ => Err(CertFault::Line { line }),
        }
    }

    fn take_mode(&mut self, graph: &Edges<'_>, line: CertLine) -> Result<(), LineFault>
        requires len { length graph.now ≡ self.old.len }
        requires line { IsLineWithin self.old.len line }
        ensures taken { OnOk result (reading.take_mode graph.now self.old line ≡ Some self.new) }
        ensures refused { RefusesLine result (reading.take_mode graph.now self.old line) }
    {
        match line {
            CertLine::FirstParent => {
                self.first_parent = true;
                self.wants = Wants::Goods;
                Ok(())
            }
            _ => self.take_good(graph, line),
        }
    }

    fn take_good(&mut self, graph: &Edges<'_>, line: CertLine) -> Result<(), LineFault>
        requires len { length graph.now ≡ self.old.len }
        requires line { IsLineWithin self.old.len line }
        ensures taken { OnOk result (reading.take_good graph.now self.old line ≡ Some self.new) }
        ensures refused { RefusesLine result (reading.take_good graph.now self.old line) }
    {
        match line {
            CertLine::Good(place) => {
                self.add_good(place)?;
                Ok(())
            }
            _ => self.take_step(graph, line),
        }
    }

    fn take_step(&mut self, graph: &Edges<'_>, line: CertLine) -> Result<(), LineFault>
        requires len { length graph.now ≡ self.old.len }
        requires line { IsLineWithin self.old.len line }
        ensures taken { OnOk result (reading.take_step graph.now self.old line ≡ Some self.new) }
        ensures refused { RefusesLine result (reading.take_step graph.now self.old line) }
    {
        match line {
            CertLine::Reach(step) if self.is_step(graph, step) => {
                self.add_step(step)?;
                Ok(())
            }
            CertLine::End if self.reaches_parents(graph) => {
                self.wants = Wants::Nothing;
                Ok(())
            }
            _ => Err(LineFault::OutOfPlace),
        }
    }

    fn add_good(&mut self, place: u32) -> Result<(), AllocError>
        requires { place < self.old.len }
        ensures { OnOk result (self.new ≡ record self.old {
          wants = Wants.Goods;
          cert = record self.old.cert { goods = self.old.cert.goods ++ place ∷ [] };
        }) }
    {
        self.goods.push(place)?;
        self.listed.set(place, true);
        self.wants = Wants::Goods;
        Ok(())
    }

    fn add_step(&mut self, step: CertStep) -> Result<(), AllocError>
        requires place { step.place < self.old.len }
        requires from { step.from < self.old.len }
        ensures { OnOk result (self.new ≡ record self.old {
          wants = Wants.Steps;
          cert = record self.old.cert { steps = self.old.cert.steps ++ step ∷ [] };
        }) }
    {
        self.steps.push(step)?;
        self.listed.set(step.place, true);
        self.wants = Wants::Steps;
        Ok(())
    }

    /// Whether a step leads from a listed place to one of its parents.
    fn is_step(&self, graph: &Edges<'_>, step: CertStep) -> bool
        requires len { length graph.now ≡ self.now.len }
        requires from { step.from < self.now.len }
        ensures { result ≡ reading.is_step graph.now (reading.listed self.now) step }
    {
        self.listed.get(step.from) && graph.has_parent(step.from, step.place)
    }

    /// Whether each parent that the certificate has to reach is listed.
    fn reaches_parents(&self, graph: &Edges<'_>) -> bool
        requires len { length graph.now ≡ self.now.len }
        ensures { result ≡ reading.reaches_parents graph.now self.now }
    {
        are_in(
            parents_in_mode(graph.graph(), self.bad, self.first_parent),
            &self.listed,
        )
    }
}

/// Whether all of these places are in a row.
fn are_in(places: &[u32], row: &Row) -> bool
    requires { All (λ p. p < length row.now) places.now }
    ensures { result ≡ list_all (is_in row.now) places.now }
{
    places.iter().all(|place| row.get(*place))
}
