//! The search for a match of a query among facts.

ghost use Rattle.std.specs.Prelude.{◌≡◌, ◌↔◌, [], ◌∷◌, List, map, IfOk, IsTrue, MatchOption};
ghost use Rattle.std.specs.Bool.{OnTrue, OnFalse};
ghost use Rattle.dl_syntax.specs.declared.facts.Element.TheVariants.{Ind as ind_element};
ghost use Rattle.dl_syntax.specs.Match.{Assignment, term_at, atom_at};
ghost use Rattle.query_unify.specs.Laws.{Gives};
ghost use Rattle.proof_search.specs.Bindings.{assigned_by};
ghost use Rattle.proof_search.specs.Known.{facts_in};
ghost use Rattle.proof_search.specs.Matching.{HasMatch, HasMatchAt, Binds, BindsAt, BindsHead};
ghost use Rattle.proof_search.specs.Matching.{HeadBecomes, IsMatchedBy};

use crate::bindings::{Binding, bind_atom, bind_term, value_of};
use crate::known::{Known, candidates};
use dl_syntax::{Atom, Cq, Element, Fact, IndId, Memory, Term};
use std::alloc::Global;

/// Extends the bindings to a match of the body, where some match extends them.
#[cycle(binding)]
fn bind_body(known: &Known<'_>, body: &[Atom], bindings: &mut Vec<Binding>) -> Result<bool, Memory>
    ensures found { IfOk result (λ found. OnTrue found
        (Binds (facts_in known.now) body.now bindings.old.items bindings.new.items)
        × OnFalse found (HasMatch (facts_in known.now) body.now bindings.old.items → ⊥)) }
    ensures same { IfOk result (λ found.
        OnFalse found (bindings.new.items ≡ bindings.old.items)) }
{
    let Some((atom, rest)) = body.split_first() else {
        return Ok(true);
    };
    for fact in candidates(known, *atom, bindings.as_slice()) {
        if bind_first(known, *atom, rest, *fact, bindings)? {
            return Ok(true);
        }
    }
    Ok(false)
}

/// The same for a match that sends the first atom to the fact.
#[cycle(binding)]
fn bind_first(
    known: &Known<'_>,
    atom: Atom,
    rest: &[Atom],
    fact: Fact,
    bindings: &mut Vec<Binding>,
) -> Result<bool, Memory>
    ensures found { IfOk result (λ found.
        OnTrue found (BindsAt (facts_in known.now) atom rest.now fact bindings.old.items
        bindings.new.items)
        × OnFalse found (HasMatchAt (facts_in known.now) atom rest.now bindings.old.items fact
        → ⊥)) }
    ensures same { IfOk result (λ found.
        OnFalse found (bindings.new.items ≡ bindings.old.items)) }
{
    let count = bindings.len();
    if !bind_atom(bindings, atom, fact)? {
        bindings.truncate(count);
        return Ok(false);
    }
    if !bind_body(known, rest, bindings)? {
        bindings.truncate(count);
        return Ok(false);
    }
    Ok(true)
}

/// The bindings by which the head becomes the row.
fn bind_head(alloc: Global, head: &[Term], row: &[IndId]) -> Result<Option<Vec<Binding>>, Memory>
    ensures { IfOk result (λ bound. MatchOption bound ((t : Assignment)
        → HeadBecomes head.now row.now t → ⊥) (λ bs. BindsHead head.now row.now bs.items)) }
{
    let mut bindings = Vec::new(alloc);
    if head.len() != row.len() {
        return Ok(None);
    }
    for (place, term) in head.iter().enumerate() {
        if !bind_term(&mut bindings, *term, Element::Ind(row[place]))? {
            return Ok(None);
        }
    }
    Ok(Some(bindings))
}

/// A match of the query among the facts that makes its head the row, where there is one.
pub(crate) fn find_match(
    alloc: Global,
    cq: &Cq,
    known: &Known<'_>,
    row: &[IndId],
) -> Result<Option<Vec<Binding>>, Memory>
    ensures { IfOk result (λ found. MatchOption found
        (Gives cq.now (facts_in known.now) (map ind_element row.now) → ⊥)
        (λ bs. IsMatchedBy cq.now (facts_in known.now) row.now bs.items)) }
{
    let Some(mut bindings) = bind_head(alloc, cq.head.as_slice(), row)? else {
        return Ok(None);
    };
    if bind_body(known, cq.body.as_slice(), &mut bindings)? {
        Ok(Some(bindings))
    } else {
        Ok(None)
    }
}

/// Whether there is such a match.
pub(crate) fn has_match(
    alloc: Global,
    cq: &Cq,
    facts: &[Fact],
    row: &[IndId],
) -> Result<bool, Memory>
    ensures { IfOk result (λ yes. IsTrue yes
        ↔ Gives cq.now facts.now (map ind_element row.now)) }
{
    let found = find_match(alloc, cq, &Known::Listed(facts), row)?;
    Ok(found.is_some())
}

/// The element of the variable.
pub(crate) fn element_of(bindings: &[Binding], variable: u16) -> Element
    ensures { result ≡ assigned_by bindings.now variable }
{
    match value_of(bindings, variable) {
        Some(element) => element,
        None => Element::Null(0),
    }
}

/// The element that the term becomes.
fn term_of(bindings: &[Binding], term: Term) -> Element
    ensures { result ≡ term_at (assigned_by bindings.now) term }
{
    match term {
        Term::Var(variable) => element_of(bindings, variable),
        Term::Ind(id) => Element::Ind(id),
    }
}

/// The fact that the atom becomes.
pub(crate) fn fact_of(bindings: &[Binding], atom: &Atom) -> Fact
    ensures { result ≡ atom_at (assigned_by bindings.now) atom.now }
{
    match *atom {
        Atom::Concept(id, term) => Fact::Concept(id, term_of(bindings, term)),
        Atom::Role(id, first, second) => {
            Fact::Role(id, term_of(bindings, first), term_of(bindings, second))
        }
    }
}

/// The facts that the atoms become.
pub(crate) fn facts_of(
    alloc: Global,
    bindings: &[Binding],
    body: &[Atom],
) -> Result<Vec<Fact>, Memory>
    ensures { IfOk result (λ facts. facts.items
        ≡ map (atom_at (assigned_by bindings.now)) body.now) }
{
    let mut facts = Vec::with_capacity(alloc, body.len())?;
    for atom in body {
        facts.push(fact_of(bindings, atom))?;
    }
    Ok(facts)
}
