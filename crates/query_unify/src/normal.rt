//! Queries in normal form.

ghost use Rattle.std.specs.Prelude.{◌≡◌, ◌+◌, ◌*◌, ◌≤◌, ◌<◌, ◌^◌, ◌↔◌, ℕ, List, [], ◌∷◌, ◌++◌};
ghost use Rattle.std.specs.Prelude.{length, map, IsTrue, IfSome, IfOk, OnOk};
ghost use Rattle.std.specs.List.{Contains};
ghost use Rattle.dl_syntax.specs.declared.queries.Atom.{Atom as AtomValue};
ghost use Rattle.dl_syntax.specs.Queries.{IsQuery};
ghost use Rattle.query_unify.specs.Substitution.{applied, applied_atom};
ghost use Rattle.query_unify.specs.Normal.{distinct, first_places, same_atom, variables_of};
ghost use Rattle.query_unify.specs.Normal.{terms_of, variables as variables_in, numbers, place_in};
ghost use Rattle.query_unify.specs.Normal.{places, normalise as normal_form};

use dl_syntax::{Atom, Cq, Items, Memory, Term};
use std::alloc::Global;

fn has_variable(found: &[u16], variable: u16) -> bool
    ensures { IsTrue result ↔ Contains found.now variable }
{
    found.iter().any(|v| *v == variable)
}

fn is_same(one: &Atom, other: &Atom) -> bool
    ensures { IsTrue result ↔ (one.now ≡ other.now) }
{
    one == other
}

fn has_atom(found: &[Atom], atom: &Atom) -> bool
    ensures { IsTrue result ↔ Contains found.now atom.now }
{
    found.iter().any(|a| is_same(a, atom))
}

/// Puts the variable last, unless it is there.
fn add_variable(found: &mut Vec<u16>, term: &Term) -> Result<(), Memory>
    ensures { OnOk result ((before : List ℕ) → found.old.items ≡ distinct before
        → found.new.items ≡ distinct (before ++ variables_of (term.now ∷ []))) }
{
    if let Term::Var(variable) = *term {
        if !has_variable(found.as_slice(), variable) {
            found.push(variable)?;
        }
    }
    Ok(())
}

/// Puts the variables last that are not there.
fn add_variables(found: &mut Vec<u16>, atom: &Atom) -> Result<(), Memory>
    ensures { OnOk result ((before : List ℕ) → found.old.items ≡ distinct before
        → found.new.items ≡ distinct (before ++ variables_of (terms_of (atom.now ∷ [])))) }
{
    match atom {
        Atom::Concept(_, x) => add_variable(found, x),
        Atom::Role(_, x, y) => {
            add_variable(found, x)?;
            add_variable(found, y)
        }
    }
}

/// The variables by first occurrence in the head, then in the body.
fn variables(alloc: Global, cq: &Cq) -> Result<Vec<u16>, Memory>
    ensures { IfOk result (λ found. found.items ≡ variables_in cq.now) }
{
    let mut found = Vec::new(alloc);
    for term in cq.head.as_slice() {
        add_variable(&mut found, term)?;
    }
    for atom in cq.body.as_slice() {
        add_variables(&mut found, atom)?;
    }
    Ok(found)
}

/// The place of the variable.
fn place_of(found: &[u16], variable: u16) -> usize
    ensures place { result ≡ place_in found.now variable }
    ensures within { result ≤ length found.now }
{
    for (i, v) in found.iter().enumerate() {
        if *v == variable {
            return i;
        }
    }
    found.len()
}

/// The term with its place for the variable.
fn numbered(found: &[u16], term: &Term) -> Term
    requires { length found.now < 2 ^ 16 }
    ensures { result ≡ applied (places found.now) term.now }
{
    match *term {
        Term::Var(variable) => Term::Var(place_of(found, variable) as u16),
        Term::Ind(individual) => Term::Ind(individual),
    }
}

fn numbered_atom(found: &[u16], atom: &Atom) -> Atom
    requires { length found.now < 2 ^ 16 }
    ensures { result ≡ applied_atom (places found.now) atom.now }
{
    match atom {
        Atom::Concept(c, x) => Atom::Concept(*c, numbered(found, x)),
        Atom::Role(p, x, y) => Atom::Role(*p, numbered(found, x), numbered(found, y)),
    }
}

fn numbered_head(alloc: Global, found: &[u16], head: &[Term]) -> Result<Vec<Term>, Memory>
    requires { length found.now < 2 ^ 16 }
    ensures { IfOk result (λ terms. terms.items ≡ map (applied (places found.now)) head.now) }
{
    let mut terms = Vec::with_capacity(alloc, head.len())?;
    for term in head {
        terms.push(numbered(found, term))?;
    }
    Ok(terms)
}

fn numbered_body(alloc: Global, found: &[u16], body: &[Atom]) -> Result<Vec<Atom>, Memory>
    requires { length found.now < 2 ^ 16 }
    ensures { IfOk result (λ atoms. atoms.items
        ≡ first_places same_atom (map (applied_atom (places found.now)) body.now)) }
{
    let mut atoms = Vec::with_capacity(alloc, body.len())?;
    for atom in body {
        let atom = numbered_atom(found, atom);
        if !has_atom(atoms.as_slice(), &atom) {
            atoms.push(atom)?;
        }
    }
    Ok(atoms)
}

/// The query with its variables numbered by first occurrence, and each atom once.
fn numbered_query(alloc: Global, cq: &Cq) -> Result<Cq, Memory>
    requires { length (variables_in cq.now) < 2 ^ 16 }
    ensures { IfOk result (λ normal. normal ≡ normal_form cq.now) }
{
    let found = variables(alloc, cq)?;
    let head = numbered_head(alloc, found.as_slice(), cq.head.as_slice())?;
    let body = numbered_body(alloc, found.as_slice(), cq.body.as_slice())?;
    Ok(Cq {
        head: Items::from_vec(head),
        body: Items::from_vec(body),
    })
}

/// The normal form of the query: its variables numbered from 0 by first occurrence in the head,
/// then in the body, and each atom at its first place only.
pub fn normalise(alloc: Global, cq: &Cq) -> Result<Cq, Memory>
    requires { IsQuery cq.now }
    ensures { IfOk result (λ normal. normal ≡ normal_form cq.now) }
{
    numbered_query(alloc, cq)
}

/// How many variables there are with the term, where they are numbered in order.
fn count_with(count: usize, term: &Term) -> Option<usize>
    ensures { IfSome result (λ more. (before : List ℕ) → distinct before ≡ numbers count
        → distinct (before ++ variables_of (term.now ∷ [])) ≡ numbers more) }
{
    match *term {
        Term::Var(variable) => {
            let number = variable as usize;
            if number < count {
                Some(count)
            } else if number == count {
                Some(number + 1)
            } else {
                None
            }
        }
        Term::Ind(_) => Some(count),
    }
}

fn count_with_atom(count: usize, atom: &Atom) -> Option<usize>
    ensures { IfSome result (λ more. (before : List ℕ) → distinct before ≡ numbers count
        → distinct (before ++ variables_of (terms_of (atom.now ∷ []))) ≡ numbers more) }
{
    match atom {
        Atom::Concept(_, x) => count_with(count, x),
        Atom::Role(_, x, y) => count_with(count_with(count, x)?, y),
    }
}

/// How many variables the head has, where they are numbered in order.
fn count_in_head(head: &[Term]) -> Option<usize>
    ensures { IfSome result (λ count. distinct (variables_of head.now) ≡ numbers count) }
{
    let mut count: usize = 0;
    for term in head {
        count = count_with(count, term)?;
    }
    Some(count)
}

/// How many variables the query has, where they are numbered in order.
fn count_in_order(cq: &Cq) -> Option<usize>
    ensures { IfSome result (λ count. variables_in cq.now ≡ numbers count) }
{
    let mut count = count_in_head(cq.head.as_slice())?;
    for atom in cq.body.as_slice() {
        count = count_with_atom(count, atom)?;
    }
    Some(count)
}

/// Whether no atom stands twice.
fn are_distinct(atoms: &[Atom]) -> bool
    ensures { IsTrue result → first_places same_atom atoms.now ≡ atoms.now }
{
    for place in 0..atoms.len() {
        if has_atom(&atoms[..place], &atoms[place]) {
            return false;
        }
    }
    true
}

/// Whether the query is its own normal form.
fn is_normal(cq: &Cq) -> bool
    ensures { IsTrue result → normal_form cq.now ≡ cq.now }
{
    count_in_order(cq).is_some() && are_distinct(cq.body.as_slice())
}

/// The normal form of the query, which is the query itself most often.
pub(crate) fn into_normal(alloc: Global, cq: Cq) -> Result<Cq, Memory>
    requires { length (variables_in cq) < 2 ^ 16 }
    ensures { IfOk result (λ normal. normal ≡ normal_form cq) }
{
    if is_normal(&cq) {
        return Ok(cq);
    }
    numbered_query(alloc, &cq)
}
