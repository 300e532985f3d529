//! The test of containment.
ghost use Rattle.std.specs.Prelude.{◌≡◌, ◌↔◌, length, IsTrue, IfOk};
ghost use Rattle.std.specs.Bool.{OnTrue, OnFalse};
ghost use Rattle.std.specs.List.{All};
ghost use Rattle.dl_syntax.specs.Queries.{IsQuery};
ghost use Rattle.dl_syntax.specs.Ontology.{Declared};
ghost use Rattle.contain_test.specs.Contained.{IsQueryOf, IsContainedUnder, IsShown, IsExactBy};
ghost use Rattle.contain_test.specs.Rewritings.{ReachMoreTogether};
ghost use Rattle.contain_test.specs.Deciding.{IsMatched, IsUnmatched};
ghost use Rattle.dl_syntax.specs.Encode.{IsOverOntology};
ghost use Rattle.consistency.specs.Prepared.{IsPreparedFor};

use crate::asking::asked_for;
use crate::binding::has_row_in_union;
use crate::frozen::{Frozen, freeze};
use consistency::{Clashes, first_clash};
use dl_syntax::{Cq, Kind, Memory, Ontology, Row, Snapshot};
use fact_index::build::index;
use perfect_ref::RewriteFault;
use std::alloc::Global;

/// Whether a query is contained in another. Where it is not, a consistent snapshot and an answer of
/// the first query in it that is none of the second.
#[derive(Debug, Drop)]
pub enum Containment {
    Yes,
    No { facts: Snapshot, row: Row },
}

/// Whether the frozen query is inconsistent, or has its row among the answers of the union.
fn is_matched(
    alloc: Global,
    frozen: &Frozen,
    union: &[Cq],
    clashes: &Clashes,
) -> Result<bool, Memory>
    requires queries { All IsQuery union.now }
    requires wide { All (λ q. length q.head ≡ length frozen.now.row) union.now }
    ensures matched { IfOk result
        (λ matched. (o : Declared)
        → IsPreparedFor clashes.now o
        → IsOverOntology o frozen.now.facts
        → OnTrue matched (IsMatched o union.now frozen.now.facts frozen.now.row)) }
    ensures unmatched { IfOk result
        (λ matched. (o : Declared)
        → IsPreparedFor clashes.now o
        → IsOverOntology o frozen.now.facts
        → OnFalse matched (IsUnmatched o union.now frozen.now.facts frozen.now.row)) }
{
    let index = index(alloc, &frozen.facts)?;
    if first_clash(alloc, clashes, &index)?.is_some() {
        return Ok(true);
    }
    has_row_in_union(alloc, &index, union, frozen.row.places())
}

/// Whether the first query is contained in another under the ontology, by that one's rewriting and
/// the prepared clashes, each of which is made once for many first queries. The members of the
/// rewriting are within the limits, and their heads are as long as the first query's. The answer
/// is `contain`'s for each second query that has this rewriting.
pub fn contain_by(
    alloc: Global,
    ontology: &Ontology,
    first: &Cq,
    union: &[Cq],
    clashes: &Clashes,
) -> Result<Containment, Memory>
    requires first { IsQueryOf ontology.now first.now }
    requires clashes { IsPreparedFor clashes.now ontology.now }
    requires queries { All IsQuery union.now }
    requires wide { All (λ q. length q.head ≡ length first.now.head) union.now }
    ensures exact { IfOk result (IsExactBy ontology.now first.now union.now) }
{
    let frozen = freeze(alloc, ontology.count(Kind::Individual), first)?;
    if is_matched(alloc, &frozen, union, clashes)? {
        return Ok(Containment::Yes);
    }
    let Frozen { facts, row } = frozen;
    Ok(Containment::No { facts, row })
}

/// Whether, in each consistent snapshot under the ontology, over the declared individuals and any
/// further ones, each answer of the first query is one of the second: `Yes` exactly where that is
/// so. Elsewhere `No` holds the frozen first query, which is consistent, and its row.
/// `TooManyRewritings` comes exactly where the second query and the clashes reach more than `room`
/// queries in all, each counted by itself.
pub fn contain(
    alloc: Global,
    ontology: &Ontology,
    first: &Cq,
    second: &Cq,
    room: u32,
) -> Result<Containment, RewriteFault>
    requires first { IsQueryOf ontology.now first.now }
    requires second { IsQueryOf ontology.now second.now }
    requires wide { length first.now.head ≡ length second.now.head }
    ensures yes { IfOk result
        (λ c. (c ≡ Containment.Yes) ↔ IsContainedUnder ontology.now first.now second.now) }
    ensures no { IfOk result (IsShown ontology.now first.now second.now) }
    ensures within { IfOk result (λ _. ReachMoreTogether ontology.now second.now room → ⊥) }
    ensures many { result ≡ Err RewriteFault.TooManyRewritings
        → ReachMoreTogether ontology.now second.now room }
{
    let asked = match asked_for(alloc, ontology, second, room) {
        Ok(asked) => asked,
        Err(fault) => return Err(fault),
    };
    match contain_by(
        alloc,
        ontology,
        first,
        asked.union.as_slice(),
        &asked.clashes,
    ) {
        Ok(containment) => Ok(containment),
        Err(_) => Err(RewriteFault::Memory),
    }
}
