//! Clashes, prepared once for many snapshots.

ghost use Rattle.std.specs.Prelude.{◌≡◌, ◌≤◌, ◌<◌, Some, length, slice_get, IfOk};
ghost use Rattle.perfect_ref.specs.Plain.{encoded};
ghost use Rattle.perfect_ref.specs.Counting.{ReachAll, ReachMore};
ghost use Rattle.consistency.specs.Asking.{queries_of};
ghost use Rattle.std.specs.List.{All, AllZip};
ghost use Rattle.consistency.specs.Marked.{Marked};
ghost use Rattle.consistency.specs.Prepared.{IsPrepared, IsPreparedFor, IsRewriting};
ghost use Rattle.consistency.specs.Prepared.{cores_of, encoding_of};

use crate::marks::Marks;
use crate::rewriting::{Rewriting, Rewritings, rewrite_clashes};
use dl_syntax::{Clash, Cq, Fact, Inclusion, Kind, Memory, Ontology};
use perfect_ref::{RewriteFault, Rewriter};
use std::alloc::Global;
use std::marker::Model;

/// The clashes of an ontology, prepared for many snapshots: seen as the ontology's counts of
/// concepts and roles, its inclusions and its clashes, beside the rewriting of each clash's query
/// and how many queries they reach in all.
#[derive(Drop)]
pub struct Clashes {
    concepts: u32,
    roles: u32,
    inclusions: Vec<Inclusion>,
    clashes: Vec<Clash>,
    rewritings: Vec<Rewriting>,
    reached: u32,
}

impl Model for Clashes {
    ghost use Rattle.consistency.specs.Prepared.{Prepared, IsPrepared};

    ghost Value = { Prepared };

    ghost view = { λ c. record {
      concepts = c.concepts;
      roles = c.roles;
      inclusions = c.inclusions.items;
      clashes = c.clashes.items;
      rewritings = c.rewritings.items;
      reached = c.reached;
    } };

    ghost invariant = { λ c. IsPrepared (record {
      concepts = c.concepts;
      roles = c.roles;
      inclusions = c.inclusions.items;
      clashes = c.clashes.items;
      rewritings = c.rewritings.items;
      reached = c.reached;
    }) };
}

impl Clashes {
    /// How many queries those of the clashes reach in all, those with hidden roles counted too and
    /// each clash counted by itself. Takes no memory.
    pub fn reached(&self) -> u32
        ensures count { ReachAll (encoding_of self.now) (queries_of self.now.clashes) result }
        ensures reached { result ≡ self.now.reached }
    {
        self.reached
    }

    /// How many clashes there are.
    pub fn count(&self) -> usize
        ensures { result ≡ length (cores_of self.now) }
    {
        self.rewritings.len()
    }

    /// The queries that tell over a saturated snapshot whether the clash at the place is met.
    pub fn core(&self, place: usize) -> &[Cq]
        requires { place < length (cores_of self.now) }
        ensures { slice_get (cores_of self.now) place ≡ Some result.now }
    {
        self.rewritings[place].core.as_slice()
    }

    /// The marks of facts over as many concepts and roles.
    pub(crate) fn marks(&self, alloc: Global, facts: &[Fact]) -> Result<Marks, Memory>
        ensures { IfOk result (λ marks. All (Marked marks) facts.now) }
    {
        Marks::new(alloc, self.concepts, self.roles, facts)
    }

    /// The rewritings, one for each clash.
    pub(crate) fn rewritings(&self) -> &[Rewriting]
        ensures same { result.now ≡ self.now.rewritings }
        ensures sound { IsPrepared self.now }
    {
        self.rewritings.as_slice()
    }
}

// The clashes of an ontology with the rewritings of their queries.
fn assembled(alloc: Global, ontology: &Ontology, made: Rewritings) -> Result<Clashes, Memory>
    requires each { AllZip (IsRewriting (encoded ontology.now))
        ontology.now.clashes made.each.items }
    requires counted { ReachAll (encoded ontology.now)
        (queries_of ontology.now.clashes) made.reached }
    ensures made_for { IfOk result (λ clashes. IsPreparedFor clashes ontology.now) }
    ensures reached { IfOk result (λ clashes. clashes.reached ≡ made.reached) }
{
    let Rewritings { each, reached } = made;
    let inclusions = Vec::from_slice(alloc, ontology.inclusions())?;
    let clashes = Vec::from_slice(alloc, ontology.clashes())?;
    Ok(Clashes {
        concepts: ontology.count(Kind::Concept),
        roles: ontology.count(Kind::Role),
        inclusions,
        clashes,
        rewritings: each,
        reached,
    })
}

/// The clashes of the ontology, with the rewritings of their queries: a clash's query has an empty
/// head and both sides at one existential variable, or at one pair of them.
/// `TooManyRewritings` comes exactly where the clashes' queries reach more than `room` in all, each
/// clash counted by itself, so that a query which two clashes reach counts twice.
pub fn prepare(alloc: Global, ontology: &Ontology, room: u32) -> Result<Clashes, RewriteFault>
    ensures made_for { IfOk result (λ clashes. IsPreparedFor clashes ontology.now) }
    ensures count { IfOk result (λ clashes.
        ReachAll (encoded ontology.now) (queries_of ontology.now.clashes) clashes.reached) }
    ensures few { IfOk result (λ clashes. clashes.reached ≤ room) }
    ensures within { IfOk result (λ _.
        ReachMore (encoded ontology.now) (queries_of ontology.now.clashes) room → ⊥) }
    ensures many { result ≡ Err RewriteFault.TooManyRewritings →
        ReachMore (encoded ontology.now) (queries_of ontology.now.clashes) room }
{
    match Rewriter::new(alloc, ontology) {
        Ok(rewriter) => match rewrite_clashes(alloc, &rewriter, ontology.clashes(), room) {
            Ok(made) => match assembled(alloc, ontology, made) {
                Ok(clashes) => Ok(clashes),
                Err(_) => Err(RewriteFault::Memory),
            },
            Err(fault) => Err(fault),
        },
        Err(_) => Err(RewriteFault::Memory),
    }
}
