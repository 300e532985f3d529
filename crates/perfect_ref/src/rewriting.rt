//! The rewriting of a query.

ghost use Rattle.std.specs.Prelude.{◌≡◌, ◌≢◌, ◌↔◌, ◌≤◌, [], List, IsTrue, IfOk, OnOk};
ghost use Rattle.std.specs.List.{All, AllPairs, Contains};
ghost use Rattle.indexmap.specs.IndexSet.{index_set_len};
ghost use Rattle.dl_syntax.specs.declared.names.IndId.{IndId};
ghost use Rattle.dl_syntax.specs.declared.facts.Fact.{Fact};
ghost use Rattle.dl_syntax.specs.Queries.{IsQuery};
ghost use Rattle.dl_syntax.specs.Match.{Certain};
ghost use Rattle.perfect_ref.specs.Found.{Absorbs, Filters, IsCoreOf};
ghost use Rattle.perfect_ref.specs.Plain.{encoded, IsPlainAtom, IsPlain, Reachable, PlainReachable};
ghost use Rattle.perfect_ref.specs.Plain.{PlainCore, Lists, HoldsOf, HoldsOfMore};
ghost use Rattle.perfect_ref.specs.Laws.{SomeGives};
ghost use Rattle.dl_syntax.specs.Encode.{IsOverOntology, IsQueryOver};
ghost use Rattle.dl_syntax.specs.Saturation.{IsSaturated};

use crate::rules::Rules;
use crate::successors::push_with_nulls;
use dl_syntax::{Atom, Cq, Kind, Memory, Ontology, encode};
use indexmap::IndexSet;
use query_unify::normalise;
use std::alloc::Global;
use std::marker::Model;
use worklist::{ClosureFault, closure};

/// Why there is no rewriting.
#[derive(Clone, Copy, PartialEq, Eq, Debug)]
pub enum RewriteFault {
    /// More queries are reachable than there is room for.
    TooManyRewritings,
    Memory,
}

/// Rewritings of a query, and how much was reached for them.
#[derive(Debug, Drop)]
pub struct CountedRewriting {
    /// Distinct queries that name no hidden role, in an order of the call's choice.
    pub members: Vec<Cq>,
    /// How many queries are reachable, those with hidden roles counted too.
    pub reached: u32,
}

/// The rewriting of a query beside its core, and how much was reached for them.
#[derive(Debug, Drop)]
pub struct WholeAndCore {
    /// The distinct reachable queries that name no hidden role, in an order of the call's choice.
    pub whole: Vec<Cq>,
    /// Those that give the answers over facts to which nothing can be added, each once.
    pub core: Vec<Cq>,
    /// How many queries are reachable, those with hidden roles counted too.
    pub reached: u32,
}

/// What rewriting needs of an ontology, made once for many queries.
#[derive(Drop)]
pub struct Rewriter {
    roles: u32,
    rules: Rules,
}

impl Model for Rewriter {
    ghost use Rattle.perfect_ref.specs.Plain.{Encoded};

    ghost Value = { Encoded };

    ghost view = { λ r. record { roles = r.roles; inclusions = r.rules } };
}

fn is_plain_atom(roles: u32, atom: &Atom) -> bool
    ensures { IsTrue result ↔ IsPlainAtom roles atom.now }
{
    match atom {
        Atom::Concept(_, _) => true,
        Atom::Role(id, _, _) => id.0 < roles,
    }
}

/// Whether the query names no hidden role.
fn is_plain(roles: u32, cq: &Cq) -> bool
    ensures { IsTrue result ↔ IsPlain roles cq.now }
{
    for atom in cq.body.as_slice() {
        if !is_plain_atom(roles, atom) {
            return false;
        }
    }
    true
}

/// The queries of the set that name no hidden role.
fn plain_members(alloc: Global, roles: u32, found: IndexSet<Cq>) -> Result<Vec<Cq>, Memory>
    ensures { IfOk result (λ members. Filters (IsPlain roles) found.keys members.items) }
{
    let mut members = Vec::new(alloc);
    for cq in found {
        if is_plain(roles, &cq) {
            members.push(cq)?;
        }
    }
    Ok(members)
}

/// Moves the queries that name no hidden role into the set.
fn absorb_plain(roles: u32, made: &mut Vec<Cq>, core: &mut IndexSet<Cq>) -> Result<(), Memory>
    ensures emptied { OnOk result (made.new.items ≡ []) }
    ensures absorbs { OnOk result (Absorbs (λ q. Contains made.old.items q
        × IsPlain roles q) core.old.keys core.new.keys) }
{
    while let Some(cq) = made.pop() {
        if is_plain(roles, &cq) {
            core.insert(cq)?;
        }
    }
    Ok(())
}

/// The normalised query, and what the inclusions that make nulls make of the found ones, where that
/// names no hidden role.
fn core_of(
    alloc: Global,
    roles: u32,
    rules: &Rules,
    start: Cq,
    found: &[Cq],
) -> Result<IndexSet<Cq>, Memory>
    requires { All IsQuery found.now }
    ensures { IfOk result (λ core. IsCoreOf roles rules.now start found.now core.keys) }
{
    let mut core = IndexSet::new(alloc);
    let mut made = Vec::new(alloc);
    core.insert(start)?;
    for cq in found {
        push_with_nulls(rules, cq, &mut made)?;
        absorb_plain(roles, &mut made, &mut core)?;
    }
    Ok(core)
}

/// The members of the set, of which there are so many.
fn collected(alloc: Global, set: IndexSet<Cq>, count: usize) -> Result<Vec<Cq>, Memory>
    ensures { IfOk result (λ members. members.items ≡ set.keys) }
{
    let mut members = Vec::with_capacity(alloc, count)?;
    for cq in set {
        members.push(cq)?;
    }
    Ok(members)
}

/// The members of the set.
fn members_of(alloc: Global, set: IndexSet<Cq>) -> Result<Vec<Cq>, Memory>
    ensures { IfOk result (λ members. (members.items ≡ set.keys)
        × AllPairs (λ p q. p ≢ q) members.items) }
{
    let count = set.len();
    collected(alloc, set, count)
}

impl Rewriter {
    /// What rewriting needs of the ontology.
    pub fn new(alloc: Global, ontology: &Ontology) -> Result<Rewriter, Memory>
        ensures { IfOk result (λ rewriter. rewriter ≡ encoded ontology.now) }
    {
        let roles = ontology.count(Kind::Role);
        let inclusions = encode(alloc, ontology)?;
        let rules = Rules::new(alloc, inclusions)?;
        Ok(Rewriter { roles, rules })
    }

    /// The queries that finitely many steps lead to from the normalised query, each once.
    fn reach(&self, cq: &Cq, room: u32) -> Result<IndexSet<Cq>, RewriteFault>
        requires { IsQuery cq.now }
        ensures found { IfOk result (λ found. Lists (Reachable self.now cq.now) found.keys) }
        ensures few { IfOk result (λ found. index_set_len found ≤ room) }
        ensures within { IfOk result (λ _. HoldsOfMore (Reachable self.now cq.now) room → ⊥) }
        ensures many { result ≡ Err RewriteFault.TooManyRewritings
            → HoldsOfMore (Reachable self.now cq.now) room }
    {
        let alloc = self.rules.alloc();
        match normalise(alloc, cq) {
            Ok(start) => match closure(alloc, &self.rules, start, room) {
                Ok(found) => Ok(found),
                Err(ClosureFault::TooMany) => Err(RewriteFault::TooManyRewritings),
                Err(ClosureFault::Memory) => Err(RewriteFault::Memory),
            },
            Err(_) => Err(RewriteFault::Memory),
        }
    }

    /// The distinct reachable queries that name no hidden role, in an order of the call's choice.
    /// `TooManyRewritings` comes exactly where more than `room` queries are reachable, those with
    /// hidden roles counted too.
    pub fn rewrite(&self, cq: &Cq, room: u32) -> Result<Vec<Cq>, RewriteFault>
        requires { IsQuery cq.now }
        ensures members { IfOk result (λ members.
            Lists (PlainReachable self.now cq.now) members.items) }
        ensures within { IfOk result (λ _. HoldsOfMore (Reachable self.now cq.now) room → ⊥) }
        ensures many { result ≡ Err RewriteFault.TooManyRewritings
            → HoldsOfMore (Reachable self.now cq.now) room }
    {
        match self.reach(cq, room) {
            Ok(found) => match plain_members(self.rules.alloc(), self.roles, found) {
                Ok(members) => Ok(members),
                Err(_) => Err(RewriteFault::Memory),
            },
            Err(fault) => Err(fault),
        }
    }

    /// The rewriting together with the count of the reachable queries, in one pass. The refusals
    /// are those of `rewrite`.
    pub fn rewrite_counted(&self, cq: &Cq, room: u32) -> Result<CountedRewriting, RewriteFault>
        requires { IsQuery cq.now }
        ensures members { IfOk result (λ counted.
            Lists (PlainReachable self.now cq.now) counted.members.items) }
        ensures count { IfOk result (λ counted.
            HoldsOf (Reachable self.now cq.now) counted.reached) }
        ensures few { IfOk result (λ counted. counted.reached ≤ room) }
        ensures within { IfOk result (λ _. HoldsOfMore (Reachable self.now cq.now) room → ⊥) }
        ensures many { result ≡ Err RewriteFault.TooManyRewritings
            → HoldsOfMore (Reachable self.now cq.now) room }
    {
        match self.reach(cq, room) {
            Ok(found) => {
                let reached = found.len() as u32;
                match plain_members(self.rules.alloc(), self.roles, found) {
                    Ok(members) => Ok(CountedRewriting { members, reached }),
                    Err(_) => Err(RewriteFault::Memory),
                }
            }
            Err(fault) => Err(fault),
        }
    }

    /// How many queries are reachable, those with hidden roles counted too. `TooManyRewritings`
    /// comes exactly where they are more than `room`.
    pub fn reach_count(&self, cq: &Cq, room: u32) -> Result<u32, RewriteFault>
        requires { IsQuery cq.now }
        ensures count { IfOk result (λ count. HoldsOf (Reachable self.now cq.now) count) }
        ensures few { IfOk result (λ count. count ≤ room) }
        ensures within { IfOk result (λ _. HoldsOfMore (Reachable self.now cq.now) room → ⊥) }
        ensures many { result ≡ Err RewriteFault.TooManyRewritings
            → HoldsOfMore (Reachable self.now cq.now) room }
    {
        match self.reach(cq, room) {
            Ok(found) => Ok(found.len() as u32),
            Err(fault) => Err(fault),
        }
    }

    /// The normalised query, and the reachable queries without hidden roles that a replacement by
    /// an inclusion with `some` on the right makes of a reachable one, each once, beside the count
    /// of all reachable queries. Over facts to which nothing can be added they give the answers.
    /// The refusals are those of `rewrite`.
    pub fn counted_core(&self, cq: &Cq, room: u32) -> Result<CountedRewriting, RewriteFault>
        requires query { IsQuery cq.now }
        requires plain { IsPlain self.now.roles cq.now }
        ensures members { IfOk result (λ core.
            Lists (PlainCore self.now cq.now) core.members.items) }
        ensures count { IfOk result (λ core. HoldsOf (Reachable self.now cq.now) core.reached) }
        ensures few { IfOk result (λ core. core.reached ≤ room) }
        ensures within { IfOk result (λ _. HoldsOfMore (Reachable self.now cq.now) room → ⊥) }
        ensures many { result ≡ Err RewriteFault.TooManyRewritings
            → HoldsOfMore (Reachable self.now cq.now) room }
    {
        match self.reach(cq, room) {
            Ok(found) => match self.core(cq, found.as_slice()) {
                Ok(members) => {
                    let reached = found.len() as u32;
                    Ok(CountedRewriting { members, reached })
                }
                Err(_) => Err(RewriteFault::Memory),
            },
            Err(fault) => Err(fault),
        }
    }

    /// The rewriting, its core and the count of the reachable queries, in one pass. The refusals
    /// are those of `rewrite`.
    pub fn whole_and_core(&self, cq: &Cq, room: u32) -> Result<WholeAndCore, RewriteFault>
        requires query { IsQuery cq.now }
        requires plain { IsPlain self.now.roles cq.now }
        ensures whole { IfOk result (λ both.
            Lists (PlainReachable self.now cq.now) both.whole.items) }
        ensures core { IfOk result (λ both. Lists (PlainCore self.now cq.now) both.core.items) }
        ensures count { IfOk result (λ both. HoldsOf (Reachable self.now cq.now) both.reached) }
        ensures few { IfOk result (λ both. both.reached ≤ room) }
        ensures within { IfOk result (λ _. HoldsOfMore (Reachable self.now cq.now) room → ⊥) }
        ensures many { result ≡ Err RewriteFault.TooManyRewritings
            → HoldsOfMore (Reachable self.now cq.now) room }
    {
        match self.reach(cq, room) {
            Ok(found) => {
                let reached = found.len() as u32;
                match self.parts(cq, found) {
                    Ok((whole, core)) => Ok(WholeAndCore {
                        whole,
                        core,
                        reached,
                    }),
                    Err(_) => Err(RewriteFault::Memory),
                }
            }
            Err(fault) => Err(fault),
        }
    }

    /// The core alone.
    pub fn rewrite_core(&self, cq: &Cq, room: u32) -> Result<Vec<Cq>, RewriteFault>
        requires query { IsQuery cq.now }
        requires plain { IsPlain self.now.roles cq.now }
        ensures members { IfOk result (λ members. Lists (PlainCore self.now cq.now) members.items) }
        ensures within { IfOk result (λ _. HoldsOfMore (Reachable self.now cq.now) room → ⊥) }
        ensures many { result ≡ Err RewriteFault.TooManyRewritings
            → HoldsOfMore (Reachable self.now cq.now) room }
    {
        match self.counted_core(cq, room) {
            Ok(core) => Ok(core.members),
            Err(fault) => Err(fault),
        }
    }

    /// The rewriting and the core of a query whose reachable ones are found.
    fn parts(&self, cq: &Cq, found: IndexSet<Cq>) -> Result<(Vec<Cq>, Vec<Cq>), Memory>
        requires query { IsQuery cq.now }
        requires plain { IsPlain self.now.roles cq.now }
        requires found { Lists (Reachable self.now cq.now) found.keys }
        ensures whole { IfOk result (λ parts.
            Lists (PlainReachable self.now cq.now) parts.0.items) }
        ensures core { IfOk result (λ parts. Lists (PlainCore self.now cq.now) parts.1.items) }
    {
        let core = self.core(cq, found.as_slice())?;
        let whole = plain_members(self.rules.alloc(), self.roles, found)?;
        Ok((whole, core))
    }

    /// The core of a query whose reachable ones are found.
    fn core(&self, cq: &Cq, found: &[Cq]) -> Result<Vec<Cq>, Memory>
        requires query { IsQuery cq.now }
        requires plain { IsPlain self.now.roles cq.now }
        requires found { Lists (Reachable self.now cq.now) found.now }
        ensures { IfOk result (λ members. Lists (PlainCore self.now cq.now) members.items) }
    {
        let alloc = self.rules.alloc();
        let start = normalise(alloc, cq)?;
        let core = core_of(alloc, self.roles, &self.rules, start, found)?;
        members_of(alloc, core)
    }
}

/// The queries whose answers over a snapshot's facts alone are the certain answers of the query:
/// the distinct reachable ones that name no hidden role, in an order of the call's choice.
/// `TooManyRewritings` comes exactly where more than `room` queries are reachable.
pub fn rewrite(
    alloc: Global,
    ontology: &Ontology,
    cq: &Cq,
    room: u32,
) -> Result<Vec<Cq>, RewriteFault>
    requires query { IsQuery cq.now }
    requires declared { IsQueryOver ontology.now cq.now }
    ensures members { IfOk result (λ members.
        Lists (PlainReachable (encoded ontology.now) cq.now) members.items) }
    ensures answers { IfOk result (λ members. (snapshot : List Fact) (row : List IndId)
        → IsOverOntology ontology.now snapshot
        → SomeGives (Contains members.items) snapshot row
        ↔ Certain ontology.now.inclusions cq.now snapshot row) }
    ensures within { IfOk result (λ _. HoldsOfMore (Reachable (encoded ontology.now) cq.now) room
        → ⊥) }
    ensures many { result ≡ Err RewriteFault.TooManyRewritings
        → HoldsOfMore (Reachable (encoded ontology.now) cq.now) room }
{
    match Rewriter::new(alloc, ontology) {
        Ok(rewriter) => rewriter.rewrite(cq, room),
        Err(_) => Err(RewriteFault::Memory),
    }
}

/// How many queries are reachable, those with hidden roles counted too. `TooManyRewritings` comes
/// exactly where they are more than `room`.
pub fn reach_count(
    alloc: Global,
    ontology: &Ontology,
    cq: &Cq,
    room: u32,
) -> Result<u32, RewriteFault>
    requires { IsQuery cq.now }
    ensures count { IfOk result (λ count. HoldsOf (Reachable (encoded ontology.now) cq.now) count) }
    ensures within { IfOk result (λ _. HoldsOfMore (Reachable (encoded ontology.now) cq.now) room
        → ⊥) }
    ensures many { result ≡ Err RewriteFault.TooManyRewritings
        → HoldsOfMore (Reachable (encoded ontology.now) cq.now) room }
{
    match Rewriter::new(alloc, ontology) {
        Ok(rewriter) => rewriter.reach_count(cq, room),
        Err(_) => Err(RewriteFault::Memory),
    }
}

/// The queries whose answers over a saturated snapshot are the certain answers of the query: the
/// normalised one, and the reachable ones without hidden roles that a replacement by an inclusion
/// with `some` on the right makes of a reachable one, each once. The refusals are those of
/// `rewrite`.
pub fn rewrite_core(
    alloc: Global,
    ontology: &Ontology,
    cq: &Cq,
    room: u32,
) -> Result<Vec<Cq>, RewriteFault>
    requires query { IsQuery cq.now }
    requires declared { IsQueryOver ontology.now cq.now }
    ensures members { IfOk result (λ members.
        Lists (PlainCore (encoded ontology.now) cq.now) members.items) }
    ensures answers { IfOk result (λ members. (snapshot facts : List Fact) (row : List IndId)
        → IsOverOntology ontology.now snapshot → IsSaturated ontology.now snapshot facts
        → SomeGives (Contains members.items) facts row
        ↔ Certain ontology.now.inclusions cq.now snapshot row) }
    ensures within { IfOk result (λ _. HoldsOfMore (Reachable (encoded ontology.now) cq.now) room
        → ⊥) }
    ensures many { result ≡ Err RewriteFault.TooManyRewritings
        → HoldsOfMore (Reachable (encoded ontology.now) cq.now) room }
{
    match Rewriter::new(alloc, ontology) {
        Ok(rewriter) => rewriter.rewrite_core(cq, room),
        Err(_) => Err(RewriteFault::Memory),
    }
}
