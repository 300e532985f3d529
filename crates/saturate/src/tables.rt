//! For each concept and role the concepts and roles above it.

ghost use Rattle.std.specs.Prelude.{◌≡◌, ◌<◌, ◌^◌, ◌↔◌, ℕ, List, Contains, length, IfOk};
ghost use Rattle.dl_syntax.specs.declared.names.ConceptId.{ConceptId};
ghost use Rattle.dl_syntax.specs.declared.ontology.Basic.TheVariants as basic;
ghost use Rattle.dl_syntax.specs.declared.ontology.Role.{Role};
ghost use Rattle.worklist.specs.Reach.{Reaches};
ghost use Rattle.saturate.specs.Above.{Along, HasConcepts, HasRoles, ConceptsOf, RolesOf};

use crate::graph::{Graph, Place, source};
use dl_syntax::{Basic, ConceptId, Memory, Role};
use std::alloc::Global;

/// The concepts among the basic concepts.
fn concepts_of(alloc: Global, basics: &[Basic]) -> Result<Vec<ConceptId>, Memory>
    ensures { IfOk result (λ concepts. ConceptsOf basics.now concepts.items) }
{
    let mut concepts = Vec::new(alloc);
    for basic in basics {
        match basic {
            Basic::Concept(id) => concepts.push(*id)?,
            Basic::Some(_) => {}
        }
    }
    Ok(concepts)
}

/// The basic roles in whose pairs the basic concepts tell what stands first.
fn roles_of(alloc: Global, basics: &[Basic]) -> Result<Vec<Role>, Memory>
    ensures { IfOk result (λ roles. RolesOf basics.now roles.items) }
{
    let mut roles = Vec::new(alloc);
    for basic in basics {
        match basic {
            Basic::Concept(_) => {}
            Basic::Some(role) => roles.push(*role)?,
        }
    }
    Ok(roles)
}

/// The concepts above each basic concept of the kind whose number is below the count, itself too.
pub(crate) fn concept_table(
    alloc: Global,
    graph: &Graph,
    place: Place,
    count: u32,
) -> Result<Vec<Vec<ConceptId>>, Memory>
    requires { length graph.now < 2 ^ 31 }
    ensures long { IfOk result (λ table. length table.items ≡ count) }
    ensures exact { IfOk result (λ table. HasConcepts place graph.now count table.items) }
{
    let mut table = Vec::new(alloc);
    for number in 0..count {
        let above = graph.above(alloc, source(place, number))?;
        let concepts = concepts_of(alloc, above.as_slice())?;
        table.push(concepts)?;
    }
    Ok(table)
}

/// The basic roles above each role whose number is below the count, itself too.
pub(crate) fn role_table(alloc: Global, graph: &Graph, count: u32) -> Result<Vec<Vec<Role>>, Memory>
    requires { length graph.now < 2 ^ 31 }
    ensures long { IfOk result (λ table. length table.items ≡ count) }
    ensures exact { IfOk result (λ table. HasRoles graph.now count table.items) }
{
    let mut table = Vec::new(alloc);
    for number in 0..count {
        let above = graph.above(alloc, source(Place::First, number))?;
        let roles = roles_of(alloc, above.as_slice())?;
        table.push(roles)?;
    }
    Ok(table)
}
