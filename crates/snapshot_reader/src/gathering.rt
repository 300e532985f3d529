//! The facts of a line under an ontology, or the first name at fault.

ghost use Rattle.std.specs.Prelude.{◌≡◌, ◌++◌, ◌∷◌, [], List, OnOk, ◌<◌, ◌^◌};
ghost use Rattle.dl_syntax.specs.Ontology.{Declared};
ghost use Rattle.std.specs.List.{All};
ghost use Rattle.dl_syntax.specs.Facts.{HasNoNull};
ghost use Rattle.snapshot_reader.specs.Written as spec;
ghost use Rattle.snapshot_reader.specs.Said.{facts_say};
ghost use Rattle.snapshot_reader.specs.Answers.{Tells};
ghost use Rattle.snapshot_reader.specs.Cursor.{written_seen};

use crate::blaming::Blamed;
use crate::distinct::distinct;
use crate::facts::Written;
use crate::names::fact_of;
use crate::{Reading, SnapFault};
use dl_syntax::{Fact, Memory, Ontology, Snapshot};
use std::alloc::Global;

/// What is known of a line behind its first facts.
#[derive(Drop)]
pub(crate) struct Gathered<'a> {
    blamed: Blamed<'a>,
    count: usize,
    facts: Vec<Fact>,
}

impl<'a> Gathered<'a> {
    ghost use Rattle.snapshot_reader.specs.Gathering.{Gathers};

    /// No fact was written.
    pub(crate) fn new(alloc: Global) -> Gathered<'a>
        ensures { (o : Declared) → Gathers o [] result }
    {
        Gathered {
            blamed: Blamed::nothing(),
            count: 0,
            facts: Vec::new(alloc),
        }
    }

    /// Takes in one more fact.
    pub(crate) fn gather(
        &mut self,
        ontology: &Ontology,
        written: &Written<'a>,
    ) -> Result<(), Memory>
        requires { self.old.count < 2 ^ 63 }
        ensures { OnOk result ((done : List spec.Written) → Gathers ontology.now done self.old
            → Gathers ontology.now (done ++ written_seen written.now ∷ []) self.new) }
    {
        match fact_of(ontology, written) {
            Some(fact) => self.facts.push(fact)?,
            None => self.blamed = self.blamed.with(ontology, written),
        }
        self.count += 1;
        Ok(())
    }

    /// What a line of these facts gives.
    pub(crate) fn reading(self, alloc: Global) -> Result<Reading, SnapFault>
        requires { All HasNoNull self.facts.items }
        ensures { (o : Declared) (done : List spec.Written) → Gathers o done self.entry
            → Tells result (facts_say o done) }
    {
        match self.blamed.fault(alloc, self.count) {
            Err(fault) => Err(fault),
            Ok(()) => {
                let facts = distinct(alloc, self.facts)?;
                Ok(Reading::Facts(Snapshot::new(facts)))
            }
        }
    }
}
