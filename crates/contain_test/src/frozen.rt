//! The frozen query: its body as a snapshot, in which each variable is an individual of its own,
//! and its head as a row.
ghost use Rattle.std.specs.Prelude.{◌≡◌, ◌≢◌, ◌≤◌, length, map, IfOk};
ghost use Rattle.std.specs.List.{AllPairs};
ghost use Rattle.dl_syntax.specs.Queries.{IsQuery};
ghost use Rattle.query_unify.specs.Normal.{normalise as normal_form};
ghost use Rattle.models.specs.Containment.{
  IsBelow,
  frozen_term as individual_of,
  frozen_atom as fact_of,
  frozen as facts_of,
  frozen_row as row_of,
};

use dl_syntax::{Atom, Cq, Element, Fact, IndId, Memory, Row, Snapshot, Term};
use query_unify::normalise;
use std::alloc::Global;

/// The body of a query as a snapshot, and its head as a row.
#[derive(Debug, Drop)]
pub struct Frozen {
    pub facts: Snapshot,
    pub row: Row,
}

/// The individual that stands for the term: a variable comes after the declared individuals, of
/// which there are `count`.
fn frozen_term(count: u32, term: &Term) -> IndId
    requires { count ≤ 4096 }
    ensures { result ≡ individual_of count term.now }
{
    match *term {
        Term::Var(variable) => IndId(count + variable as u32),
        Term::Ind(id) => id,
    }
}

fn frozen_atom(count: u32, atom: &Atom) -> Fact
    requires { count ≤ 4096 }
    ensures { result ≡ fact_of count atom.now }
{
    match atom {
        Atom::Concept(concept, term) => {
            Fact::Concept(*concept, Element::Ind(frozen_term(count, term)))
        }
        Atom::Role(role, first, second) => {
            let from = Element::Ind(frozen_term(count, first));
            Fact::Role(*role, from, Element::Ind(frozen_term(count, second)))
        }
    }
}

fn frozen_body(alloc: Global, count: u32, body: &[Atom]) -> Result<Vec<Fact>, Memory>
    requires { count ≤ 4096 }
    ensures { IfOk result (λ facts. facts.items ≡ map (fact_of count) body.now) }
{
    let mut facts = Vec::with_capacity(alloc, body.len())?;
    for atom in body {
        facts.push(frozen_atom(count, atom))?;
    }
    Ok(facts)
}

fn frozen_head(alloc: Global, count: u32, head: &[Term]) -> Result<Vec<IndId>, Memory>
    requires { count ≤ 4096 }
    ensures { IfOk result (λ row. row.items ≡ map (individual_of count) head.now) }
{
    let mut row = Vec::with_capacity(alloc, head.len())?;
    for term in head {
        row.push(frozen_term(count, term))?;
    }
    Ok(row)
}

/// A query of distinct atoms, frozen.
fn frozen_normal(alloc: Global, count: u32, query: &Cq) -> Result<Frozen, Memory>
    requires few { count ≤ 4096 }
    requires distinct { AllPairs (λ a b. a ≢ b) query.now.body }
    requires below { IsBelow count query.now }
    ensures facts { IfOk result (λ frozen. frozen.facts ≡ facts_of count query.now) }
    ensures row { IfOk result (λ frozen. frozen.row ≡ row_of count query.now) }
{
    let facts = frozen_body(alloc, count, query.body.as_slice())?;
    let places = frozen_head(alloc, count, query.head.as_slice())?;
    let row = Row::new(alloc, places.as_slice())?;
    Ok(Frozen {
        facts: Snapshot::new(facts),
        row,
    })
}

/// The normal form of a query, frozen: variable `n` is the individual numbered `count + n`. The
/// individuals of the query have numbers below `count`.
pub fn freeze(alloc: Global, count: u32, query: &Cq) -> Result<Frozen, Memory>
    requires few { count ≤ 4096 }
    requires query { IsQuery query.now }
    requires below { IsBelow count query.now }
    ensures facts { IfOk result (λ frozen. frozen.facts ≡ facts_of count (normal_form query.now)) }
    ensures row { IfOk result (λ frozen. frozen.row ≡ row_of count (normal_form query.now)) }
{
    let normal = normalise(alloc, query)?;
    frozen_normal(alloc, count, &normal)
}
