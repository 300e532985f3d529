//! The join: an atom is bound to the facts that have its bound places, and once the head is bound a
//! single match of the rest is sought.

ghost use Rattle.std.specs.Prelude.{◌≡◌, ◌↔◌, ◌∷◌, ◌<◌, length, IfOk, OnOk, IsTrue, List, Contains};
ghost use Rattle.std.specs.Prelude.{[], ◌≤◌};
ghost use Rattle.std.specs.List.{All, AllByRecursion};
ghost use Rattle.std.specs.List.Sorted.{IsPermutation};
ghost use Rattle.dl_syntax.specs.declared.facts.Fact.{Fact};
ghost use Rattle.dl_syntax.specs.declared.names.IndId.{IndId};
ghost use Rattle.dl_syntax.specs.Rows.{IsRising};
ghost use Rattle.dl_syntax.specs.Queries.{IsQuery};
ghost use Rattle.dl_syntax.specs.Match.{Assignment, Match, atom_at};
ghost use Rattle.ucq_join.specs.Bindings.{element_of, IsAssigned};
ghost use Rattle.ucq_join.specs.Answers.{IsUnionAnswer};
ghost use Rattle.ucq_join.specs.Gathered.{AddsRows};
ghost use Rattle.ucq_join.specs.Partial.{HeadIsCovered, IsAnswerFrom, IsAnswerAt, HasMatch};
ghost use Rattle.ucq_join.specs.Partial.{HasMatchAt, IsComplete};

use crate::bindings::{Binding, bind_atom, value_of};
use crate::gathered::{Rows, write_row};
use crate::split::{has_matches, take_joined};
use dl_syntax::{Atom, Cq, Element, Fact, IndId, Memory, Term, Tuples};
use fact_index::{Index, with_first, with_last};
use std::alloc::Global;

// The element that a term is bound to.
fn element_of(bindings: &[Binding], term: Term) -> Option<Element>
    ensures { result ≡ element_of bindings.now term }
{
    match term {
        Term::Ind(id) => Some(Element::Ind(id)),
        Term::Var(variable) => value_of(bindings, variable),
    }
}

// Facts among which are all that an atom can become.
fn candidates<'a>(index: &'a Index, atom: Atom, bindings: &[Binding]) -> &'a [Fact]
    ensures within { (f : Fact) → Contains result.now f → Contains index.now f }
    ensures complete { IsComplete bindings.now atom index.now result.now }
{
    match atom {
        Atom::Concept(id, term) => match element_of(bindings, term) {
            Some(element) => with_first(index.concept(id), element),
            None => index.concept(id),
        },
        Atom::Role(id, from, to) => {
            match (element_of(bindings, from), element_of(bindings, to)) {
                (Some(first), Some(second)) => index.only(&Fact::Role(id, first, second)),
                (Some(first), None) => with_first(index.role(id, false), first),
                (None, Some(second)) => with_last(index.role(id, true), second),
                (None, None) => index.role(id, false),
            }
        }
    }
}

/// Whether some match extends the bindings.
#[cycle(witness)]
pub fn has_match(index: &Index, body: &[Atom], bindings: &mut Vec<Binding>) -> Result<bool, Memory>
    ensures bindings { OnOk result (bindings.new.items ≡ bindings.old.items) }
    ensures found { IfOk result (λ found. IsTrue found
        ↔ HasMatch index.now body.now bindings.old.items) }
{
    let Some((atom, rest)) = body.split_first() else {
        return Ok(true);
    };
    for fact in candidates(index, *atom, bindings.as_slice()) {
        if has_match_at(index, *atom, rest, *fact, bindings)? {
            return Ok(true);
        }
    }
    Ok(false)
}

// Whether some match that sends an atom to a fact does.
#[cycle(witness)]
fn has_match_at(
    index: &Index,
    atom: Atom,
    rest: &[Atom],
    fact: Fact,
    bindings: &mut Vec<Binding>,
) -> Result<bool, Memory>
    ensures bindings { OnOk result (bindings.new.items ≡ bindings.old.items) }
    ensures found { IfOk result (λ found. IsTrue found
        ↔ HasMatchAt index.now atom rest.now bindings.old.items fact) }
{
    let bound = bindings.len();
    let mut found = false;
    if bind_atom(bindings, atom, fact)? {
        found = has_match(index, rest, bindings)?;
    }
    bindings.truncate(bound);
    Ok(found)
}

// Whether each term of a head is bound.
fn is_assigned(bindings: &[Binding], head: &[Term]) -> bool
    ensures { IsTrue result ↔ AllByRecursion (IsAssigned bindings.now) head.now }
{
    for term in head {
        if element_of(bindings, *term).is_none() {
            return false;
        }
    }
    true
}

// Adds the row of a bound head, where a match extends the bindings.
fn add_witnessed(
    index: &Index,
    head: &[Term],
    body: &[Atom],
    bindings: &mut Vec<Binding>,
    places: &mut Vec<IndId>,
    rows: &mut Rows,
) -> Result<(), Memory>
    requires bound { AllByRecursion (IsAssigned bindings.old.items) head.now }
    requires wide { length head.now ≡ rows.old.arity }
    ensures bindings { OnOk result (bindings.new.items ≡ bindings.old.items) }
    ensures rows { OnOk result (AddsRows rows.old rows.new
        (IsAnswerFrom index.now head.now body.now bindings.old.items)) }
{
    if !write_row(bindings.as_slice(), head, places)? {
        return Ok(());
    }
    if !has_match(index, body, bindings)? {
        return Ok(());
    }
    rows.add(places.as_slice())
}

// Adds the rows of the matches that extend the bindings.
#[cycle(join)]
fn extend(
    index: &Index,
    head: &[Term],
    body: &[Atom],
    bindings: &mut Vec<Binding>,
    places: &mut Vec<IndId>,
    rows: &mut Rows,
) -> Result<(), Memory>
    requires covered { HeadIsCovered bindings.old.items body.now head.now }
    requires wide { length head.now ≡ rows.old.arity }
    ensures bindings { OnOk result (bindings.new.items ≡ bindings.old.items) }
    ensures rows { OnOk result (AddsRows rows.old rows.new
        (IsAnswerFrom index.now head.now body.now bindings.old.items)) }
{
    if is_assigned(bindings.as_slice(), head) {
        return add_witnessed(index, head, body, bindings, places, rows);
    }
    let Some((atom, rest)) = body.split_first() else {
        return Ok(());
    };
    for fact in candidates(index, *atom, bindings.as_slice()) {
        extend_at(index, head, *atom, rest, *fact, bindings, places, rows)?;
    }
    Ok(())
}

// Adds the rows of those that send an atom to a fact.
#[cycle(join)]
fn extend_at(
    index: &Index,
    head: &[Term],
    atom: Atom,
    rest: &[Atom],
    fact: Fact,
    bindings: &mut Vec<Binding>,
    places: &mut Vec<IndId>,
    rows: &mut Rows,
) -> Result<(), Memory>
    requires covered { HeadIsCovered bindings.old.items (atom ∷ rest.now) head.now }
    requires wide { length head.now ≡ rows.old.arity }
    ensures bindings { OnOk result (bindings.new.items ≡ bindings.old.items) }
    ensures rows { OnOk result (AddsRows rows.old rows.new
        (IsAnswerAt index.now head.now atom rest.now bindings.old.items fact)) }
{
    let bound = bindings.len();
    if bind_atom(bindings, atom, fact)? {
        extend(index, head, rest, bindings, places, rows)?;
    }
    bindings.truncate(bound);
    Ok(())
}

// Whether a term is an individual or stands in one of the atoms.
fn is_known(atoms: &[Atom], term: Term) -> bool {
    if let Term::Ind(_) = term {
        return true;
    }
    for atom in atoms {
        let found = match *atom {
            Atom::Concept(_, only) => only == term,
            Atom::Role(_, from, to) => from == term || to == term,
        };
        if found {
            return true;
        }
    }
    false
}

// About how many facts an atom has to be tried at after others.
fn cost(index: &Index, before: &[Atom], atom: Atom) -> usize {
    match atom {
        Atom::Concept(id, term) => {
            if is_known(before, term) {
                0
            } else {
                index.concept(id).len()
            }
        }
        Atom::Role(id, from, to) => match (is_known(before, from), is_known(before, to)) {
            (true, true) => 0,
            (false, false) => index.role(id, false).len(),
            _ => index.role(id, false).len() / 16,
        },
    }
}

// The place of the atom of least cost.
fn best_place(index: &Index, before: &[Atom], atoms: &[Atom]) -> usize
    requires { 0 < length atoms.now }
    ensures { result < length atoms.now }
{
    let mut best = 0;
    let mut least = usize::MAX;
    for (place, atom) in atoms.iter().enumerate() {
        let own = cost(index, before, *atom);
        if own < least {
            least = own;
            best = place;
        }
    }
    best
}

/// The atoms of a body in the order in which they are tried.
pub fn ordered(alloc: Global, index: &Index, body: &[Atom]) -> Result<Vec<Atom>, Memory>
    ensures { IfOk result (λ atoms. IsPermutation body.now atoms.items) }
{
    let mut rest = Vec::from_slice(alloc, body)?;
    let mut atoms = Vec::new(alloc);
    while !rest.is_empty() {
        let place = best_place(index, atoms.as_slice(), rest.as_slice());
        let atom = rest.remove(place);
        atoms.push(atom)?;
    }
    Ok(atoms)
}

// Whether the index has no fact that the atom can become.
fn lacks_fact(index: &Index, atom: Atom) -> bool
    ensures { IsTrue result → (t : Assignment) → Contains index.now (atom_at t atom) → ⊥ }
{
    candidates(index, atom, &[]).is_empty()
}

// Whether that is so of some atom.
fn lacks_facts(index: &Index, body: &[Atom]) -> bool
    ensures { IsTrue result → (t : Assignment) → Match body.now index.now t → ⊥ }
{
    for atom in body {
        if lacks_fact(index, *atom) {
            return true;
        }
    }
    false
}

// Adds the answers of a body whose atoms are tried in an order of their own.
fn add_ordered(
    alloc: Global,
    index: &Index,
    head: &[Term],
    body: &[Atom],
    rows: &mut Rows,
) -> Result<(), Memory>
    requires covered { HeadIsCovered [] body.now head.now }
    requires wide { length head.now ≡ rows.old.arity }
    ensures { OnOk result (AddsRows rows.old rows.new
        (IsAnswerFrom index.now head.now body.now [])) }
{
    let body = ordered(alloc, index, body)?;
    let mut bindings = Vec::new(alloc);
    let mut places = Vec::new(alloc);
    extend(
        index,
        head,
        body.as_slice(),
        &mut bindings,
        &mut places,
        rows,
    )
}

// Adds the answers of a query. What shares no variable with the head is matched once, ahead of the
// rest.
fn add_answers(alloc: Global, index: &Index, query: &Cq, rows: &mut Rows) -> Result<(), Memory>
    requires query { IsQuery query.now }
    requires wide { length query.now.head ≡ rows.old.arity }
    ensures { OnOk result (AddsRows rows.old rows.new
        (IsAnswerFrom index.now query.now.head query.now.body [])) }
{
    if lacks_facts(index, query.body.as_slice()) {
        return Ok(());
    }
    let mut rest = Vec::from_slice(alloc, query.body.as_slice())?;
    let joined = take_joined(alloc, query.head.as_slice(), &mut rest)?;
    if !has_matches(alloc, index, rest)? {
        return Ok(());
    }
    add_ordered(alloc, index, query.head.as_slice(), joined.as_slice(), rows)
}

/// The answers of a union of conjunctive queries, whose heads have as many terms as the arity:
/// exactly the rows to which some match of a member's body in the facts sends its head, in rising
/// order.
pub fn answers(alloc: Global, index: &Index, arity: u8, union: &[Cq]) -> Result<Tuples, Memory>
    requires queries { All IsQuery union.now }
    requires heads { All (λ q. length q.head ≡ arity) union.now }
    ensures arity { IfOk result (λ rows. rows.arity ≡ arity) }
    ensures rising { IfOk result (λ rows. IsRising rows.rows) }
    ensures rows { IfOk result (λ rows. (row : List IndId)
        → Contains rows.rows row ↔ IsUnionAnswer index.now union.now row) }
{
    let mut rows = Rows::new(alloc, arity);
    for query in union {
        add_answers(alloc, index, query, &mut rows)?;
    }
    rows.finish()
}
