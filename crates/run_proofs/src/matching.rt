//! Whether elements make a leaf true in a run.

ghost use Rattle.std.specs.Prelude.{◌≡◌, ◌↔◌, length, map, IsTrue, IfOk};
ghost use Rattle.std.specs.List.{All, Contains};
ghost use Rattle.dl_syntax.specs.Queries.{IsBound};
ghost use Rattle.dl_syntax.specs.declared.facts.Element.TheVariants.{Ind as ind_element};
ghost use Rattle.dl_syntax.specs.declared.ontology.Clash.TheVariants as clash;
ghost use Rattle.dl_syntax.specs.Match.{Match, term_at, atom_at};
ghost use Rattle.run_proofs.specs.Assigned.{assigned};
ghost use Rattle.run_proofs.specs.Matching.{AreVariables, IsMatch, AreSides, MeetsAt};

use crate::variables::variables_of;
use dl_syntax::{
    Atom, Basic, Clash, Cq, Element, Fact, IndId, Memory, Role, Row, Term, element_in, pair_in,
};
use std::alloc::Global;

/// The element that the term becomes.
fn element_of(variables: &[u16], elements: &[Element], term: Term) -> Element
    requires { length variables.now ≡ length elements.now }
    ensures { result ≡ term_at (assigned variables.now elements.now) term }
{
    match term {
        Term::Var(number) => variable_at(variables, elements, number),
        Term::Ind(id) => Element::Ind(id),
    }
}

/// The element of the variable, and the first individual where it isn't listed.
fn variable_at(variables: &[u16], elements: &[Element], number: u16) -> Element
    requires { length variables.now ≡ length elements.now }
    ensures { result ≡ assigned variables.now elements.now number }
{
    for (place, known) in variables.iter().enumerate() {
        if *known == number {
            return elements[place];
        }
    }
    Element::Ind(IndId(0))
}

/// The fact that the atom becomes.
fn fact_of(variables: &[u16], elements: &[Element], atom: &Atom) -> Fact
    requires { length variables.now ≡ length elements.now }
    ensures { result ≡ atom_at (assigned variables.now elements.now) atom.now }
{
    match *atom {
        Atom::Concept(id, term) => Fact::Concept(id, element_of(variables, elements, term)),
        Atom::Role(id, first, second) => Fact::Role(
            id,
            element_of(variables, elements, first),
            element_of(variables, elements, second),
        ),
    }
}

fn is_same(one: &Element, other: &Element) -> bool
    ensures { IsTrue result ↔ (one.now ≡ other.now) }
{
    one == other
}

fn is_same_pair(one: &(Element, Element), other: &(Element, Element)) -> bool
    ensures { IsTrue result ↔ (one.now ≡ other.now) }
{
    is_same(&one.0, &other.0) && is_same(&one.1, &other.1)
}

/// Whether the run holds the fact.
fn holds(run: &[Fact], fact: &Fact) -> bool
    ensures { IsTrue result ↔ Contains run.now fact.now }
{
    run.contains(fact)
}

/// Whether the run holds what each atom becomes.
fn holds_all(run: &[Fact], variables: &[u16], elements: &[Element], body: &[Atom]) -> bool
    requires { length variables.now ≡ length elements.now }
    ensures { IsTrue result ↔ Match body.now run.now (assigned variables.now elements.now) }
{
    for atom in body {
        let fact = fact_of(variables, elements, atom);
        if !holds(run, &fact) {
            return false;
        }
    }
    true
}

/// Whether the head becomes the row.
fn is_row(variables: &[u16], elements: &[Element], head: &[Term], row: &[IndId]) -> bool
    requires { length variables.now ≡ length elements.now }
    ensures { IsTrue result ↔ (map (term_at (assigned variables.now elements.now)) head.now
        ≡ map ind_element row.now) }
{
    if head.len() != row.len() {
        return false;
    }
    for (place, term) in head.iter().enumerate() {
        let element = element_of(variables, elements, *term);
        if !is_same(&element, &Element::Ind(row[place])) {
            return false;
        }
    }
    true
}

/// Whether the elements, one for each of the variables, are a match in the run that makes the head
/// the row.
fn is_match_of(
    cq: &Cq,
    variables: &[u16],
    elements: &[Element],
    run: &[Fact],
    row: &[IndId],
) -> bool
    requires bound { All (IsBound cq.now.body) cq.now.head }
    requires variables { AreVariables cq.now.body variables.now }
    ensures { IsTrue result ↔ IsMatch cq.now run.now row.now elements.now }
{
    if variables.len() != elements.len() {
        return false;
    }
    if !holds_all(run, variables, elements, cq.body.as_slice()) {
        return false;
    }
    is_row(variables, elements, cq.head.as_slice(), row)
}

/// Whether the elements, one for each variable in rising order, are a match in the run that makes
/// the head the row.
pub(crate) fn is_match(
    alloc: Global,
    cq: &Cq,
    elements: &[Element],
    run: &[Fact],
    row: &Row,
) -> Result<bool, Memory>
    requires { All (IsBound cq.now.body) cq.now.head }
    ensures { IfOk result (λ yes. IsTrue yes ↔ IsMatch cq.now run.now row.now elements.now) }
{
    let variables = variables_of(alloc, cq.body.as_slice())?;
    Ok(is_match_of(cq, variables.as_slice(), elements, run, row.places()))
}

/// Whether the facts put one element into the two basic concepts.
fn share_element(one: &Basic, other: &Basic, left: &Fact, right: &Fact) -> bool
    ensures { IsTrue result ↔ AreSides (clash.Concepts one.now other.now) left.now right.now }
{
    match (element_in(one, left), element_in(other, right)) {
        (Some(first), Some(second)) => is_same(&first, &second),
        _ => false,
    }
}

/// Whether the facts put one pair into the two roles.
fn share_pair(one: &Role, other: &Role, left: &Fact, right: &Fact) -> bool
    ensures { IsTrue result ↔ AreSides (clash.Roles one.now other.now) left.now right.now }
{
    match (pair_in(one, left), pair_in(other, right)) {
        (Some(first), Some(second)) => is_same_pair(&first, &second),
        _ => false,
    }
}

/// Whether the facts put one element, or one pair, into the left and the right side of the clash.
fn are_sides(clash: &Clash, left: &Fact, right: &Fact) -> bool
    ensures { IsTrue result ↔ AreSides clash.now left.now right.now }
{
    match clash {
        Clash::Concepts(one, other) => share_element(one, other, left, right),
        Clash::Roles(one, other) => share_pair(one, other, left, right),
    }
}

/// Whether the facts at the two places do.
pub(crate) fn meets_at(clash: &Clash, run: &[Fact], first: u32, second: u32) -> bool
    ensures { IsTrue result ↔ MeetsAt clash.now run.now first second }
{
    let (first, second) = (first as usize, second as usize);
    if first < run.len() && second < run.len() {
        are_sides(clash, &run[first], &run[second])
    } else {
        false
    }
}
