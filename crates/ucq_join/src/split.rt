//! Parts of a body that share no variable: each is matched by itself.

ghost use Rattle.std.specs.Prelude.{◌≡◌, ◌≤◌, ◌<◌, ◌↔◌, ◌∷◌, [], Contains, length, IfOk, OnOk};
ghost use Rattle.std.specs.Prelude.{IsTrue, MatchOption};
ghost use Rattle.std.specs.Bool.{OnTrue, OnFalse};
ghost use Rattle.dl_syntax.specs.declared.queries.Atom.{Atom};
ghost use Rattle.dl_syntax.specs.declared.queries.Term.{Term};
ghost use Rattle.dl_syntax.specs.Queries.{HasTerm};
ghost use Rattle.ucq_join.specs.Partial.{HasMatch};
ghost use Rattle.ucq_join.specs.Split.{IsMet, Touches, IsSplit, AddsTerms};

use crate::join::{has_match, ordered};
use dl_syntax::{Atom, Memory, Term};
use fact_index::Index;
use std::alloc::Global;

fn is_same(one: &Term, other: &Term) -> bool
    ensures { IsTrue result ↔ (one.now ≡ other.now) }
{
    one == other
}

fn has_term(terms: &[Term], term: &Term) -> bool
    ensures { IsTrue result ↔ Contains terms.now term.now }
{
    terms.iter().any(|other| is_same(other, term))
}

// Whether a term is one of the variables.
fn is_met(known: &[Term], term: &Term) -> bool
    ensures { IsTrue result ↔ IsMet known.now term.now }
{
    match term {
        Term::Var(_) => has_term(known, term),
        Term::Ind(_) => false,
    }
}

// Whether an atom has one of the variables.
fn touches(known: &[Term], atom: &Atom) -> bool
    ensures { IsTrue result ↔ Touches known.now atom.now }
{
    match atom {
        Atom::Concept(_, only) => is_met(known, only),
        Atom::Role(_, from, to) => is_met(known, from) || is_met(known, to),
    }
}

// The place of an atom that has one of the variables.
fn touching(known: &[Term], atoms: &[Atom]) -> Option<usize>
    ensures { MatchOption result ((a : Atom) → Contains atoms.now a → Touches known.now a
        → ⊥) (λ place. place < length atoms.now) }
{
    for (place, atom) in atoms.iter().enumerate() {
        if touches(known, atom) {
            return Some(place);
        }
    }
    None
}

// Adds the terms of an atom.
fn push_terms(known: &mut Vec<Term>, atom: Atom) -> Result<(), Memory>
    ensures { OnOk result (AddsTerms atom known.old.items known.new.items) }
{
    match atom {
        Atom::Concept(_, only) => known.push(only)?,
        Atom::Role(_, from, to) => {
            known.push(from)?;
            known.push(to)?;
        }
    }
    Ok(())
}

/// Takes out of the rest the atoms that share a variable with the terms, at once or by way of
/// others.
pub fn take_joined(alloc: Global, terms: &[Term], rest: &mut Vec<Atom>) -> Result<Vec<Atom>, Memory>
    ensures split { IfOk result (λ taken.
        IsSplit terms.now rest.old.items taken.items rest.new.items) }
    ensures shorter { OnOk result (length rest.new.items ≤ length rest.old.items) }
{
    let mut known = Vec::from_slice(alloc, terms)?;
    let mut taken = Vec::new(alloc);
    while let Some(place) = touching(known.as_slice(), rest.as_slice()) {
        let atom = rest.remove(place);
        push_terms(&mut known, atom)?;
        taken.push(atom)?;
    }
    Ok(taken)
}

// Whether an atom has a match together with those that it shares variables with, which are taken
// out of the rest.
fn has_part(alloc: Global, index: &Index, atom: Atom, rest: &mut Vec<Atom>) -> Result<bool, Memory>
    ensures found { IfOk result (λ found.
        OnTrue found (HasMatch index.now (atom ∷ rest.old.items) []
        ↔ HasMatch index.now rest.new.items [])
        × OnFalse found (HasMatch index.now (atom ∷ rest.old.items) [] → ⊥)) }
    ensures shorter { OnOk result (length rest.new.items ≤ length rest.old.items) }
{
    let mut terms = Vec::new(alloc);
    push_terms(&mut terms, atom)?;
    let mut part = take_joined(alloc, terms.as_slice(), rest)?;
    part.push(atom)?;
    let body = ordered(alloc, index, part.as_slice())?;
    let mut bindings = Vec::new(alloc);
    has_match(index, body.as_slice(), &mut bindings)
}

/// Whether the atoms have a match, each part by itself.
pub fn has_matches(alloc: Global, index: &Index, atoms: Vec<Atom>) -> Result<bool, Memory>
    ensures { IfOk result (λ found. IsTrue found ↔ HasMatch index.now atoms.items []) }
{
    let mut rest = atoms;
    while let Some(atom) = rest.pop() {
        if !has_part(alloc, index, atom, &mut rest)? {
            return Ok(false);
        }
    }
    Ok(true)
}
