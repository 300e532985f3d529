//! Names that came with the stream, by their text.

ghost use Rattle.std.specs.Prelude.{◌≡◌, ◌++◌, ◌∷◌, ◌+◌, ◌≤◌, ◌<◌, ◌↔◌, [], IsTrue, OnOk, OnErr};
ghost use Rattle.std.specs.Prelude.{length};
ghost use Rattle.std.specs.List.{All, Contains};
ghost use Rattle.dl_syntax.specs.Names.{IsDeclarable};
ghost use Rattle.dl_syntax.specs.Ontology.{IsDeclared};
ghost use Rattle.tcq_syntax.specs.Accepted.{MayFollow};
ghost use Rattle.tcq_syntax.specs.Sizes.{most_units, units};
ghost use Rattle.tcq_syntax.specs.Tcq.{IsTcq};

use dl_syntax::{Kind, Memory, Name, Ontology, is_name};
use std::alloc::Global;
use std::marker::Model;
use tcq_syntax::{Query, sizes};

/// The most individuals.
const INDIVIDUAL_LIMIT: u32 = 4096;
/// The most units of all queries.
const UNIT_LIMIT: u128 = 67_108_864;

/// Names that came with the stream, seen as their list.
#[derive(Drop)]
pub(crate) struct Arrivals {
    alloc: Global,
    names: Vec<Name>,
    /// The same names as individuals of an ontology that declares nothing else.
    known: Ontology,
}

impl Model for Arrivals {
    ghost use Rattle.std.specs.Prelude.{◌≡◌, List, ℕ};
    ghost use Rattle.dl_syntax.specs.Ontology.{with_individuals, nothing_declared};

    ghost Value = { List (List ℕ) };

    ghost view = { λ a. a.names.items };

    ghost invariant = { λ a. a.known ≡ with_individuals a.names.items nothing_declared };
}

/// Whether an ontology may declare the text.
fn is_declarable(text: &[u8]) -> bool
    ensures { IsTrue result ↔ IsDeclarable text.now }
{
    is_name(text) && text != b"some".as_slice() && text != b"inv".as_slice()
}

/// The units of the queries over so many individuals.
fn total_units(queries: &[Query], individuals: u32) -> u128
    requires small { individuals ≤ 65536 }
    requires tables { All (λ query. IsTcq query.vars query.nodes) queries.now }
    requires few { length queries.now ≤ 16 }
    ensures { result ≡ units individuals queries.now }
{
    let mut total = 0;
    for query in queries {
        total += sizes(query, individuals).units;
    }
    total
}

impl Arrivals {
    pub(crate) fn new(alloc: Global) -> Arrivals
        ensures { result ≡ [] }
    {
        Arrivals {
            alloc,
            names: Vec::new(alloc),
            known: Ontology::new(alloc),
        }
    }

    pub(crate) fn into_names(self) -> Vec<Name>
        ensures names { result.items ≡ self }
        ensures few { length result.items ≤ 4096 }
    {
        self.names
    }

    /// How many individuals there are, with those of the ontology.
    fn count_with(&self, ontology: &Ontology) -> u32
        ensures count { result ≡ length ontology.now.individuals + length self.now }
        ensures small { result ≤ 8192 }
    {
        ontology.count(Kind::Individual) + self.known.count(Kind::Individual)
    }

    /// Whether the text is one of these names.
    fn has(&self, text: &[u8]) -> bool
        ensures { IsTrue result ↔ Contains self.now text.now }
    {
        self.known.is_declared(text)
    }

    /// Whether the text is declared neither by the ontology nor among these names.
    fn is_new(&self, ontology: &Ontology, text: &[u8]) -> bool
        ensures { IsTrue result
            ↔ (¬ IsDeclared ontology.now text.now) × (¬ Contains self.now text.now) }
    {
        !ontology.is_declared(text) && !self.has(text)
    }

    /// Whether there may be one more individual than the ontology's and these.
    fn has_room(&self, ontology: &Ontology, queries: &[Query]) -> bool
        requires tables { All (λ query. IsTcq query.vars query.nodes) queries.now }
        requires few { length queries.now ≤ 16 }
        ensures { IsTrue result ↔ (length ontology.now.individuals + length self.now < 4096)
            × (units (length ontology.now.individuals + length self.now + 1) queries.now
            ≤ most_units) }
    {
        let count = self.count_with(ontology);
        count < INDIVIDUAL_LIMIT && total_units(queries, count + 1) <= UNIT_LIMIT
    }

    /// Whether the name may come behind these.
    pub(crate) fn may_take(&self, ontology: &Ontology, queries: &[Query], text: &[u8]) -> bool
        requires tables { All (λ query. IsTcq query.vars query.nodes) queries.now }
        requires few { length queries.now ≤ 16 }
        ensures { IsTrue result ↔ MayFollow ontology.now queries.now self.now text.now }
    {
        is_declarable(text) && self.is_new(ontology, text) && self.has_room(ontology, queries)
    }

    /// Puts a name last.
    pub(crate) fn push(&mut self, text: &[u8]) -> Result<(), Memory>
        requires { IsDeclarable text.now }
        ensures { OnOk result (self.new ≡ self.old ++ text.now ∷ []) }
    {
        let name = Name::new(self.alloc, text)?;
        self.names.push(name)?;
        match self.known.add_name(Kind::Individual, text) {
            Ok(_) => Ok(()),
            Err(_) => {
                self.names.pop();
                Err(Memory)
            }
        }
    }
}
