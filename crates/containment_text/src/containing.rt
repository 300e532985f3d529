//! The text that tells which queries are contained in which others.

ghost use Rattle.std.specs.Prelude.{◌≡◌, Some, IfOk, OnOk};
ghost use Rattle.std.specs.List.{All};
ghost use Rattle.dl_syntax.specs.declared.queries.Cq.{Cq as CqValue};
ghost use Rattle.tcq_syntax.specs.Within.{HasDeclaredLeaves};
ghost use Rattle.perfect_ref.specs.Plain.{encoded, Lists, PlainReachable};
ghost use Rattle.consistency.specs.Prepared.{IsPreparedFor};
ghost use Rattle.containment_text.specs.Containments.{leaf_query as leaf_in, AreUnionsOf};
ghost use Rattle.containment_text.specs.Containments.{IsContainment, TellsMorePairs};
ghost use Rattle.containment_text.specs.Containments.{pair_of, pairs_with, pairs};

use crate::containment_lines::append_line;
use crate::leaf_queries::leaf_query;
use crate::unions::Unions;
use consistency::Clashes;
use contain_test::contain_by;
use dl_syntax::{Cq, Memory, Ontology};
use std::alloc::Global;
use tcq_syntax::Query;

/// An ontology, and its clashes prepared.
#[derive(Clone, Copy)]
struct Source<'a> {
    alloc: Global,
    ontology: &'a Ontology,
    clashes: &'a Clashes,
}

/// Appends the line of two queries, the second by its rewriting, where they have as many answer
/// variables.
fn append_pair(
    source: &Source<'_>,
    query: &Query,
    other: &Query,
    union: &[Cq],
    text: &mut Vec<u8>,
) -> Result<(), Memory>
    requires clashes { IsPreparedFor source.now.clashes.now source.now.ontology.now }
    requires query { HasDeclaredLeaves source.now.ontology.now query.now }
    requires other { HasDeclaredLeaves source.now.ontology.now other.now }
    requires union { (q : CqValue) → leaf_in other.now ≡ Some q →
        Lists (PlainReachable (encoded source.now.ontology.now) q) union.now }
    ensures { OnOk result (TellsMorePairs source.now.ontology.now (pair_of query.now other.now)
        text.old.items text.new.items) }
{
    let Some(first) = leaf_query(query) else {
        return Ok(());
    };
    let Some(second) = leaf_query(other) else {
        return Ok(());
    };
    if first.head.as_slice().len() == second.head.as_slice().len() {
        let found = contain_by(source.alloc, source.ontology, first, union, source.clashes)?;
        append_line(
            text,
            source.ontology,
            query.name().bytes(),
            other.name().bytes(),
            &found,
        )
    } else {
        Ok(())
    }
}

/// Appends the lines of the query at a place and each other one.
fn append_query(
    source: &Source<'_>,
    place: usize,
    query: &Query,
    queries: &[Query],
    unions: &[Vec<Cq>],
    text: &mut Vec<u8>,
) -> Result<(), Memory>
    requires clashes { IsPreparedFor source.now.clashes.now source.now.ontology.now }
    requires query { HasDeclaredLeaves source.now.ontology.now query.now }
    requires queries { All (HasDeclaredLeaves source.now.ontology.now) queries.now }
    requires unions { AreUnionsOf (encoded source.now.ontology.now) queries.now unions.now }
    ensures { OnOk result (TellsMorePairs source.now.ontology.now
        (pairs_with place query.now 0 queries.now) text.old.items text.new.items) }
{
    for from in 0..queries.len() {
        if place == from {
            continue;
        }
        append_pair(source, query, &queries[from], unions[from].as_slice(), text)?;
    }
    Ok(())
}

/// Appends the lines of all pairs.
fn append_queries(
    source: &Source<'_>,
    queries: &[Query],
    unions: &[Vec<Cq>],
    text: &mut Vec<u8>,
) -> Result<(), Memory>
    requires clashes { IsPreparedFor source.now.clashes.now source.now.ontology.now }
    requires queries { All (HasDeclaredLeaves source.now.ontology.now) queries.now }
    requires unions { AreUnionsOf (encoded source.now.ontology.now) queries.now unions.now }
    ensures { OnOk result (TellsMorePairs source.now.ontology.now (pairs queries.now)
        text.old.items text.new.items) }
{
    for place in 0..queries.len() {
        append_query(source, place, &queries[place], queries, unions, text)?;
    }
    Ok(())
}

/// The text that tells which queries are contained in which others.
pub fn containment_text(
    alloc: Global,
    ontology: &Ontology,
    queries: &[Query],
    unions: &Unions,
) -> Result<Vec<u8>, Memory>
    requires clashes { IsPreparedFor unions.now.clashes ontology.now }
    requires queries { All (HasDeclaredLeaves ontology.now) queries.now }
    requires unions { AreUnionsOf (encoded ontology.now) queries.now unions.now.each.items }
    ensures { IfOk result (λ text.
        IsContainment (record { ontology = ontology.now; queries = queries.now }) text.items) }
{
    let mut text = Vec::new(alloc);
    let source = Source {
        alloc,
        ontology,
        clashes: &unions.clashes,
    };
    append_queries(&source, queries, unions.each.as_slice(), &mut text)?;
    Ok(text)
}
