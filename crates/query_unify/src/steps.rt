//! One replacement of an atom by an inclusion.

ghost use Rattle.std.specs.Prelude.{◌≡◌, ◌<◌, ◌≤◌, ◌*◌, ◌↔◌, ◌^◌, ℕ, [], ◌∷◌, length, IsTrue};
ghost use Rattle.std.specs.Prelude.{MatchOption, IfOk, set};
ghost use Rattle.std.specs.List.{Contains};
ghost use Rattle.dl_syntax.specs.declared.queries.Term.{Term as TermValue};
ghost use Rattle.dl_syntax.specs.declared.queries.Atom.{Atom as AtomValue};
ghost use Rattle.dl_syntax.specs.declared.queries.Cq.{Cq as CqValue};
ghost use Rattle.dl_syntax.specs.Queries.{IsQuery};
ghost use Rattle.dl_syntax.specs.Encode.{IsUnqualified};
ghost use Rattle.query_unify.specs.Table.{count_in_term as times_in_term};
ghost use Rattle.query_unify.specs.Table.{count_in_terms as times_in_terms};
ghost use Rattle.query_unify.specs.Table.{count_in_atom as times_in_atom};
ghost use Rattle.query_unify.specs.Table.{count_in_atoms as times_in_atoms, IsUnbound, IsNew};
ghost use Rattle.query_unify.specs.Table.{role_atom as atom_of_role, basic_atom as atom_of_basic};
ghost use Rattle.query_unify.specs.Table.{AsksFor, Becomes};
ghost use Rattle.query_unify.specs.Reach.{Replaces};

use crate::normal::into_normal;
use dl_syntax::{Atom, Basic, Cq, Inclusion, Items, Memory, Role, Term};
use std::alloc::Global;

fn is_same(one: &Term, other: &Term) -> bool
    ensures { IsTrue result ↔ (one.now ≡ other.now) }
{
    one == other
}

fn has_term(terms: &[Term], term: &Term) -> bool
    ensures { IsTrue result ↔ Contains terms.now term.now }
{
    terms.iter().any(|t| is_same(t, term))
}

fn count_in_term(variable: u16, term: &Term) -> usize
    ensures count { result ≡ times_in_term variable term.now }
    ensures few { result ≤ 1 }
{
    match *term {
        Term::Var(other) => { if variable == other { 1 } else { 0 } }
        Term::Ind(_) => 0,
    }
}

fn count_in_atom(variable: u16, atom: &Atom) -> usize
    ensures count { result ≡ times_in_atom variable atom.now }
    ensures few { result ≤ 2 }
{
    match atom {
        Atom::Concept(_, x) => count_in_term(variable, x),
        Atom::Role(_, x, y) => count_in_term(variable, x) + count_in_term(variable, y),
    }
}

/// How often the variable occurs in the atoms.
pub(crate) fn count_in_atoms(variable: u16, atoms: &[Atom]) -> usize
    requires { length atoms.now ≤ 8 }
    ensures { result ≡ times_in_atoms variable atoms.now }
{
    let mut count: usize = 0;
    for atom in atoms {
        count += count_in_atom(variable, atom);
    }
    count
}

/// Whether the variable is in no term of the head, and exactly once in the body.
fn is_unbound(variable: u16, cq: &Cq) -> bool
    requires { IsQuery cq.now }
    ensures { IsTrue result ↔ IsUnbound variable cq.now }
{
    let term = Term::Var(variable);
    !has_term(cq.head.as_slice(), &term) && count_in_atoms(variable, cq.body.as_slice()) == 1
}

/// The least number that no variable of the query has.
fn unused(cq: &Cq) -> u16
    requires { IsQuery cq.now }
    ensures { IsNew result cq.now }
{
    for variable in 0..16 {
        if count_in_atoms(variable, cq.body.as_slice()) == 0 {
            return variable;
        }
    }
    16
}

/// The terms that the atom makes a pair of the role.
fn pair_in(role: &Role, atom: &Atom) -> Option<(Term, Term)>
    ensures { MatchOption result ((x y : TermValue) → atom.now ≡ atom_of_role role.now x y
        → ⊥) (λ pair. atom.now ≡ atom_of_role role.now pair.0 pair.1) }
{
    match *atom {
        Atom::Concept(_, _) => None,
        Atom::Role(id, x, y) => {
            if id == role.id {
                Some(if role.inverse { (y, x) } else { (x, y) })
            } else {
                None
            }
        }
    }
}

/// The term of which the atom asks no more than that it is in the basic concept.
fn asked_term(basic: &Basic, cq: &Cq, atom: &Atom) -> Option<Term>
    requires { IsQuery cq.now }
    ensures { MatchOption result ((x : TermValue) → AsksFor basic.now x cq.now atom.now
        → ⊥) (λ x. AsksFor basic.now x cq.now atom.now) }
{
    match basic {
        Basic::Concept(wanted) => match *atom {
            Atom::Concept(id, x) if id == *wanted => Some(x),
            _ => None,
        },
        Basic::Some(role) => match pair_in(role, atom) {
            Some((x, Term::Var(last))) => { if is_unbound(last, cq) { Some(x) } else { None } }
            _ => None,
        },
    }
}

/// The atom that makes the two terms a pair of the role.
fn role_atom(role: &Role, x: Term, y: Term) -> Atom
    ensures { result ≡ atom_of_role role.now x y }
{
    if role.inverse {
        Atom::Role(role.id, y, x)
    } else {
        Atom::Role(role.id, x, y)
    }
}

/// The atom of the basic concept at the term, where a variable that it wants is a new one.
fn basic_atom(basic: &Basic, x: Term, cq: &Cq) -> Atom
    requires { IsQuery cq.now }
    ensures { (new : ℕ) × IsNew new cq.now × (result ≡ atom_of_basic basic.now x new) }
{
    match basic {
        Basic::Concept(id) => Atom::Concept(*id, x),
        Basic::Some(role) => role_atom(role, x, Term::Var(unused(cq))),
    }
}

/// What the inclusion lets the atom become.
fn replacement(inclusion: &Inclusion, cq: &Cq, atom: &Atom) -> Option<Atom>
    requires { IsQuery cq.now }
    ensures { MatchOption result ((new : ℕ) (a : AtomValue)
        → Becomes inclusion.now cq.now new atom.now a
        → ⊥) (λ a. (new : ℕ) × IsNew new cq.now × Becomes inclusion.now cq.now new atom.now a) }
{
    match inclusion {
        Inclusion::Concepts(below, above) => match asked_term(above, cq, atom) {
            Some(x) => Some(basic_atom(below, x, cq)),
            None => None,
        },
        Inclusion::Roles(below, above) => match pair_in(above, atom) {
            Some((x, y)) => Some(role_atom(below, x, y)),
            None => None,
        },
        Inclusion::Qualified(_, _, _) => None,
    }
}

/// Whether the inclusion lets the atom at the place become another. A qualified inclusion is told
/// by its encoding, and never applies itself.
pub fn step_applies(cq: &Cq, inclusion: &Inclusion, place: u16) -> bool
    requires query { IsQuery cq.now }
    requires within { place < length cq.now.body }
    requires unqualified { IsUnqualified inclusion.now }
    ensures { IsTrue result ↔ ((q : CqValue) × Replaces inclusion.now place cq.now q) }
{
    replacement(inclusion, cq, &cq.body.as_slice()[place as usize]).is_some()
}

/// The query with another atom at the place.
fn with_atom(alloc: Global, cq: &Cq, place: usize, atom: Atom) -> Result<Cq, Memory>
    requires { place < length cq.now.body }
    ensures { IfOk result (λ changed. changed
        ≡ record cq.now { body = set cq.now.body place atom }) }
{
    let mut body = Vec::from_slice(alloc, cq.body.as_slice())?;
    body[place] = atom;
    let head = Vec::from_slice(alloc, cq.head.as_slice())?;
    Ok(Cq {
        head: Items::from_vec(head),
        body: Items::from_vec(body),
    })
}

/// The normal form of the query after the atom at the place becomes what the inclusion lets it
/// become; none where the inclusion does not apply there.
pub fn step(alloc: Global, cq: &Cq, inclusion: &Inclusion, place: u16) -> Result<Option<Cq>, Memory>
    requires query { IsQuery cq.now }
    requires within { place < length cq.now.body }
    requires unqualified { IsUnqualified inclusion.now }
    ensures { IfOk result (λ stepped. MatchOption stepped ((q : CqValue)
        → Replaces inclusion.now place cq.now q → ⊥) (λ q. Replaces inclusion.now place cq.now q)) }
{
    match replacement(inclusion, cq, &cq.body.as_slice()[place as usize]) {
        Some(atom) => {
            let replaced = with_atom(alloc, cq, place as usize, atom)?;
            let normal = into_normal(alloc, replaced)?;
            Ok(Some(normal))
        }
        None => Ok(None),
    }
}
