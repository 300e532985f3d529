//! The first clash that is met.

ghost use Rattle.std.specs.Prelude.{◌↔◌, ◌≤◌, [], length, IfOk, IsTrue, List};
ghost use Rattle.std.specs.List.{All};
ghost use Rattle.dl_syntax.specs.declared.facts.Fact.{Fact};
ghost use Rattle.dl_syntax.specs.Queries.{IsQuery};
ghost use Rattle.dl_syntax.specs.Ontology.{Declared};
ghost use Rattle.dl_syntax.specs.Encode.{IsOverOntology};
ghost use Rattle.dl_syntax.specs.Saturation.{IsSaturated};
ghost use Rattle.ucq_join.specs.Answers.{IsAnswer, IsUnionAnswer};
ghost use Rattle.consistency.specs.Asking.{HasEmptyHead};
ghost use Rattle.consistency.specs.Least.{IsFirstClash};
ghost use Rattle.consistency.specs.Matching.{AsksForMatch, IsFirstMatch};
ghost use Rattle.consistency.specs.Marked.{Marked};
ghost use Rattle.consistency.specs.Prepared.{IsPreparedFor, AgreeOnCores};

use crate::clashes::Clashes;
use crate::marks::Marks;
use crate::pairs::lacks_pair;
use crate::refute::refutes;
use crate::rewriting::{Part, Rewriting};
use dl_syntax::{Cq, Memory};
use fact_index::Index;
use std::alloc::Global;
use std::slice;
use ucq_join::answers;

// Whether a query with an empty head has a match.
fn has_answer(alloc: Global, index: &Index, query: &Cq) -> Result<bool, Memory>
    requires query { IsQuery query.now }
    requires head { HasEmptyHead query.now }
    ensures { IfOk result (λ found. IsTrue found ↔ IsAnswer index.now query.now []) }
{
    let rows = answers(alloc, index, 0, slice::from_ref(query))?;
    Ok(!rows.is_empty())
}

// The same, told mostly by the marks alone where there is none, or by a walk through pairs.
fn matches(alloc: Global, index: &Index, marks: &Marks, query: &Cq) -> Result<bool, Memory>
    requires query { IsQuery query.now }
    requires head { HasEmptyHead query.now }
    requires marked { All (Marked marks.now) index.now }
    ensures { IfOk result (λ found. IsTrue found ↔ IsAnswer index.now query.now []) }
{
    if refutes(marks, query.body.as_slice()) {
        return Ok(false);
    }
    if lacks_pair(index, query.body.as_slice()) {
        return Ok(false);
    }
    has_answer(alloc, index, query)
}

// Whether some query of a union, whose heads are empty, has a match.
fn has_match(alloc: Global, index: &Index, marks: &Marks, union: &[Cq]) -> Result<bool, Memory>
    requires queries { All IsQuery union.now }
    requires heads { All HasEmptyHead union.now }
    requires marked { All (Marked marks.now) index.now }
    ensures { IfOk result (λ found. IsTrue found ↔ IsUnionAnswer index.now union.now []) }
{
    for query in union {
        if matches(alloc, index, marks, query)? {
            return Ok(true);
        }
    }
    Ok(false)
}

// The number, counted from 1, of the first rewriting whose part has a match.
fn first_match(
    alloc: Global,
    rewritings: &[Rewriting],
    part: Part,
    index: &Index,
    marks: &Marks,
) -> Result<Option<u32>, Memory>
    requires few { length rewritings.now ≤ 4096 }
    requires ask { All (AsksForMatch part) rewritings.now }
    requires marked { All (Marked marks.now) index.now }
    ensures { IfOk result (IsFirstMatch index.now part rewritings.now) }
{
    let mut number = 0;
    for rewriting in rewritings {
        number += 1;
        if has_match(alloc, index, marks, rewriting.part(part))? {
            return Ok(Some(number));
        }
    }
    Ok(None)
}

/// The least number, counted from 1, of a clash that some run of the index's facts meets, and none
/// exactly where they are consistent. That is so under each ontology for which the clashes were
/// prepared and which declares the facts' predicates, where the facts hold no null.
pub fn first_clash(alloc: Global, clashes: &Clashes, index: &Index) -> Result<Option<u32>, Memory>
    ensures { IfOk result (λ first. (o : Declared) → IsPreparedFor clashes.now o
        → IsOverOntology o index.now → IsFirstClash o index.now first) }
{
    let marks = clashes.marks(alloc, index.facts())?;
    first_match(alloc, clashes.rewritings(), Part::Whole, index, &marks)
}

/// The same over the index of a saturated snapshot, which has exactly the facts over individuals
/// that some run of the snapshot holds: the least number of a clash that some run of the snapshot
/// meets, and none exactly where the snapshot is consistent. A clash that is met at nulls alone
/// counts too. The index may lack facts of predicates that no core names, or have others.
pub fn first_clash_closed(
    alloc: Global,
    clashes: &Clashes,
    index: &Index,
) -> Result<Option<u32>, Memory>
    ensures { IfOk result (λ first. (o : Declared) (snapshot facts : List Fact)
        → IsPreparedFor clashes.now o → IsOverOntology o snapshot → IsSaturated o snapshot facts
        → AgreeOnCores clashes.now facts index.now → IsFirstClash o snapshot first) }
{
    let marks = clashes.marks(alloc, index.facts())?;
    first_match(alloc, clashes.rewritings(), Part::Core, index, &marks)
}
