//! The facts that a snapshot and an ontology give of individuals.

ghost use Rattle.std.specs.Prelude.{◌≡◌, [], IfOk, OnOk};
ghost use Rattle.dl_syntax.specs.Facts.{role_fact as fact_of_role};
ghost use Rattle.dl_syntax.specs.Saturation.{IsSaturation};
ghost use Rattle.saturate.specs.Lists.{Absorbs};
ghost use Rattle.saturate.specs.Implied.{IsMembership, IsPairing, Implies, IsImplied};
ghost use Rattle.saturate.specs.Implied.{HasAllImplied};
ghost use Rattle.saturate.specs.Sight.{Seen, IsSeenSaturation};

use crate::graph::{Graph, Place, Scope};
use crate::sight::Sight;
use crate::tables::{concept_table, role_table};
use dl_syntax::{ConceptId, Element, Fact, Inclusion, Kind, Memory, Ontology, Role, Snapshot};
use indexmap::IndexSet;
use std::alloc::Global;
use std::marker::Model;
use worklist::list_at;

/// What saturation needs of an ontology, made once for many snapshots: for each concept and role
/// what stands above it. Seen as the ontology's inclusions.
#[derive(Drop)]
pub struct Saturator {
    inclusions: Vec<Inclusion>,
    members: Vec<Vec<ConceptId>>,
    firsts: Vec<Vec<ConceptId>>,
    seconds: Vec<Vec<ConceptId>>,
    roles: Vec<Vec<Role>>,
}

impl Model for Saturator {
    ghost use Rattle.std.specs.Prelude.{List};
    ghost use Rattle.dl_syntax.specs.declared.ontology.Inclusion.{Inclusion};
    ghost use Rattle.saturate.specs.declared.graph.Place.TheVariants.{Member, First, Second};
    ghost use Rattle.saturate.specs.Above.{IsConceptTable, IsRoleTable};

    ghost Value = { List Inclusion };

    ghost view = { λ s. s.inclusions.items };

    ghost invariant = { λ s. IsConceptTable s.inclusions.items Member s.members.items
        × IsConceptTable s.inclusions.items First s.firsts.items
        × IsConceptTable s.inclusions.items Second s.seconds.items
        × IsRoleTable s.inclusions.items s.roles.items };
}

/// The fact that makes the two elements a pair of the role.
fn role_fact(role: &Role, first: Element, second: Element) -> Fact
    ensures { result ≡ fact_of_role role.now first second }
{
    if role.inverse {
        Fact::Role(role.id, second, first)
    } else {
        Fact::Role(role.id, first, second)
    }
}

/// Adds the fact, if it is looked at.
fn add(found: &mut IndexSet<Fact>, sight: &Sight, fact: Fact) -> Result<(), Memory>
    ensures { OnOk result (Absorbs (Seen sight.now (λ other. fact ≡ other)) found.old.keys
        found.new.keys) }
{
    if !sight.sees(&fact) {
        return Ok(());
    }
    found.insert(fact)?;
    Ok(())
}

/// Adds that the element is in each of the concepts that are looked at.
fn add_memberships(
    found: &mut IndexSet<Fact>,
    sight: &Sight,
    concepts: &[ConceptId],
    element: Element,
) -> Result<(), Memory>
    ensures { OnOk result (Absorbs (Seen sight.now (IsMembership concepts.now element))
        found.old.keys found.new.keys) }
{
    for concept in concepts {
        add(found, sight, Fact::Concept(*concept, element))?;
    }
    Ok(())
}

/// Adds that the two elements are a pair of each of the roles that are looked at.
fn add_pairings(
    found: &mut IndexSet<Fact>,
    sight: &Sight,
    roles: &[Role],
    first: Element,
    second: Element,
) -> Result<(), Memory>
    ensures { OnOk result (Absorbs (Seen sight.now (IsPairing roles.now first second))
        found.old.keys found.new.keys) }
{
    for role in roles {
        add(found, sight, role_fact(role, first, second))?;
    }
    Ok(())
}

impl Saturator {
    /// What saturation needs of the ontology.
    pub fn new(alloc: Global, ontology: &Ontology) -> Result<Saturator, Memory>
        ensures { IfOk result (λ saturator. saturator ≡ ontology.now.inclusions) }
    {
        let concepts = ontology.count(Kind::Concept);
        let roles = ontology.count(Kind::Role);
        let inclusions = Vec::from_slice(alloc, ontology.inclusions())?;
        let elements = Graph::new(alloc, Scope::Elements, inclusions.as_slice())?;
        let pairs = Graph::new(alloc, Scope::Pairs, inclusions.as_slice())?;
        let members = concept_table(alloc, &elements, Place::Member, concepts)?;
        let firsts = concept_table(alloc, &elements, Place::First, roles)?;
        let seconds = concept_table(alloc, &elements, Place::Second, roles)?;
        let roles = role_table(alloc, &pairs, roles)?;
        Ok(Saturator {
            inclusions,
            members,
            firsts,
            seconds,
            roles,
        })
    }

    /// Adds what is looked at of what the fact implies.
    fn add_implied(
        &self,
        found: &mut IndexSet<Fact>,
        sight: &Sight,
        fact: &Fact,
    ) -> Result<(), Memory>
        ensures { OnOk result (Absorbs (Seen sight.now (Implies self.now fact.now)) found.old.keys
            found.new.keys) }
    {
        add(found, sight, *fact)?;
        match *fact {
            Fact::Concept(id, element) => {
                add_memberships(
                    found,
                    sight,
                    list_at(self.members.as_slice(), id.0),
                    element,
                )
            }
            Fact::Role(id, first, second) => {
                add_pairings(
                    found,
                    sight,
                    list_at(self.roles.as_slice(), id.0),
                    first,
                    second,
                )?;
                add_memberships(found, sight, list_at(self.firsts.as_slice(), id.0), first)?;
                add_memberships(found, sight, list_at(self.seconds.as_slice(), id.0), second)
            }
        }
    }

    /// What is looked at of what the facts imply.
    fn implied(
        &self,
        alloc: Global,
        sight: &Sight,
        facts: &[Fact],
    ) -> Result<IndexSet<Fact>, Memory>
        ensures { IfOk result (λ found.
            Absorbs (Seen sight.now (IsImplied self.now facts.now)) [] found.keys) }
    {
        let mut found = IndexSet::with_capacity(alloc, facts.len())?;
        for fact in facts {
            self.add_implied(&mut found, sight, fact)?;
        }
        Ok(found)
    }

    /// Some list has exactly what the facts imply: the tables say so, and it need not be made.
    fn whole_exists(&self)
        ensures { HasAllImplied self.now }
    {
        let _inclusions = &self.inclusions;
    }

    /// Exactly the facts over individuals that some run of the snapshot holds and whose predicates
    /// are looked at, each once, in an order of the call's choice: one look-up for each fact, and
    /// an insertion for each that it implies and that is looked at.
    pub fn saturate_seen(
        &self,
        alloc: Global,
        sight: &Sight,
        snapshot: &Snapshot,
    ) -> Result<Snapshot, Memory>
        ensures { IfOk result (IsSeenSaturation self.now sight.now snapshot.now) }
    {
        self.whole_exists();
        let found = self.implied(alloc, sight, snapshot.facts())?;
        let facts = Vec::from_slice(alloc, found.as_slice())?;
        Ok(Snapshot::new(facts))
    }

    /// Exactly the facts over individuals that some run of the snapshot holds, each once, in an
    /// order of the call's choice.
    pub fn saturate(&self, alloc: Global, snapshot: &Snapshot) -> Result<Snapshot, Memory>
        ensures { IfOk result (IsSaturation self.now snapshot.now) }
    {
        let sight = Sight::all(alloc);
        self.saturate_seen(alloc, &sight, snapshot)
    }
}

/// Exactly the facts over individuals that some run of the snapshot under the ontology's inclusions
/// holds, each once, in an order of the call's choice: the snapshot's own, and what follows from
/// them by concepts and roles alone. An inclusion with `some` on the right makes no pair of
/// individuals, and counts by what stands above it. The chase is that of Calvanese et al. (2007).
pub fn saturate(alloc: Global, ontology: &Ontology, snapshot: &Snapshot) -> Result<Snapshot, Memory>
    ensures { IfOk result (IsSaturation ontology.now.inclusions snapshot.now) }
{
    let saturator = Saturator::new(alloc, ontology)?;
    saturator.saturate(alloc, snapshot)
}
