//! Whether a row is among the answers of a query, without the other answers: the head is bound to
//! the row, and a match of the body is sought.
ghost use Rattle.std.specs.Prelude.{◌≡◌, ◌↔◌, ◌≤◌, [], length, map, IsTrue, IfOk};
ghost use Rattle.std.specs.List.{All};
ghost use Rattle.dl_syntax.specs.Queries.{IsQuery};
ghost use Rattle.query_unify.specs.Substitution.{applied, applied_atom};
ghost use Rattle.ucq_join.specs.Answers.{IsAnswer, IsUnionAnswer};
ghost use Rattle.consistency.specs.Asking.{HasEmptyHead};
ghost use Rattle.contain_test.specs.Binding.{bound_to as substitution_of, Becomes};

use dl_syntax::{Atom, Cq, IndId, Items, Memory, Term};
use fact_index::Index;
use std::alloc::Global;
use std::slice;
use ucq_join::answers;

/// What the variable becomes where the head becomes the row.
fn bound_to(head: &[Term], row: &[IndId], variable: u16) -> Term
    ensures { result ≡ substitution_of head.now row.now variable }
{
    let Some((term, terms)) = head.split_first() else {
        return Term::Var(variable);
    };
    let Some((id, ids)) = row.split_first() else {
        return Term::Var(variable);
    };
    match *term {
        Term::Var(other) if other == variable => Term::Ind(*id),
        _ => bound_to(terms, ids, variable),
    }
}

fn bound(head: &[Term], row: &[IndId], term: &Term) -> Term
    ensures { result ≡ applied (substitution_of head.now row.now) term.now }
{
    match *term {
        Term::Var(variable) => bound_to(head, row, variable),
        Term::Ind(id) => Term::Ind(id),
    }
}

fn bound_atom(head: &[Term], row: &[IndId], atom: &Atom) -> Atom
    ensures { result ≡ applied_atom (substitution_of head.now row.now) atom.now }
{
    match atom {
        Atom::Concept(concept, term) => Atom::Concept(*concept, bound(head, row, term)),
        Atom::Role(role, first, second) => {
            Atom::Role(*role, bound(head, row, first), bound(head, row, second))
        }
    }
}

fn bound_body(
    alloc: Global,
    head: &[Term],
    row: &[IndId],
    body: &[Atom],
) -> Result<Vec<Atom>, Memory>
    ensures { IfOk result
        (λ atoms. atoms.items ≡ map (applied_atom (substitution_of head.now row.now)) body.now) }
{
    let mut atoms = Vec::with_capacity(alloc, body.len())?;
    for atom in body {
        atoms.push(bound_atom(head, row, atom))?;
    }
    Ok(atoms)
}

/// Whether the term becomes the individual.
fn is_bound_to(head: &[Term], row: &[IndId], term: &Term, id: IndId) -> bool
    ensures { IsTrue result ↔ (applied (substitution_of head.now row.now) term.now ≡ Term.Ind id) }
{
    bound(head, row, term) == Term::Ind(id)
}

/// Whether some substitution makes the head the row.
fn fits(head: &[Term], row: &[IndId]) -> bool
    requires { length head.now ≡ length row.now }
    ensures { IsTrue result ↔ Becomes (substitution_of head.now row.now) head.now row.now }
{
    for (place, term) in head.iter().enumerate() {
        if !is_bound_to(head, row, term, row[place]) {
            return false;
        }
    }
    true
}

/// Whether a query with an empty head has a match.
fn has_match(alloc: Global, index: &Index, query: &Cq) -> Result<bool, Memory>
    requires query { IsQuery query.now }
    requires head { HasEmptyHead query.now }
    ensures { IfOk result (λ found. IsTrue found ↔ IsAnswer index.now query.now []) }
{
    let rows = answers(alloc, index, 0, slice::from_ref(query))?;
    Ok(!rows.is_empty())
}

/// Whether the row is an answer of the query in the facts of the index.
fn has_row(alloc: Global, index: &Index, query: &Cq, row: &[IndId]) -> Result<bool, Memory>
    requires query { IsQuery query.now }
    requires wide { length query.now.head ≡ length row.now }
    ensures { IfOk result (λ found. IsTrue found ↔ IsAnswer index.now query.now row.now) }
{
    let head = query.head.as_slice();
    if !fits(head, row) {
        return Ok(false);
    }
    let body = bound_body(alloc, head, row, query.body.as_slice())?;
    let asked = Cq {
        head: Items::from_vec(Vec::new(alloc)),
        body: Items::from_vec(body),
    };
    has_match(alloc, index, &asked)
}

/// Whether the row is an answer of the union in the facts of the index.
pub fn has_row_in_union(
    alloc: Global,
    index: &Index,
    union: &[Cq],
    row: &[IndId],
) -> Result<bool, Memory>
    requires queries { All IsQuery union.now }
    requires wide { All (λ q. length q.head ≡ length row.now) union.now }
    ensures { IfOk result (λ found. IsTrue found ↔ IsUnionAnswer index.now union.now row.now) }
{
    for query in union {
        if has_row(alloc, index, query, row)? {
            return Ok(true);
        }
    }
    Ok(false)
}
