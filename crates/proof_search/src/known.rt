//! The facts among which a match is sought, and those of them that an atom can become.

ghost use Rattle.std.specs.Prelude.{◌≡◌, Contains};
ghost use Rattle.dl_syntax.specs.declared.facts.Fact.{Fact as FactValue};
ghost use Rattle.proof_search.specs.Known.{facts_in, bound_to, IsComplete};

use crate::bindings::{Binding, value_of};
use dl_syntax::{Atom, Element, Fact, Term};
use fact_index::{Index, with_first, with_last};

/// Facts among which a match is sought.
#[derive(Drop)]
pub(crate) enum Known<'a> {
    /// A few, each of which is tried.
    Listed(&'a [Fact]),
    /// Those of an index, of which those are tried that have the places that an atom has bound.
    Indexed(&'a Index),
}

/// The element that the term is bound to.
fn bound_to(bindings: &[Binding], term: Term) -> Option<Element>
    ensures { result ≡ bound_to bindings.now term }
{
    match term {
        Term::Ind(id) => Some(Element::Ind(id)),
        Term::Var(variable) => value_of(bindings, variable),
    }
}

/// Facts of the index among which are all that the atom can become.
fn indexed<'a>(index: &'a Index, atom: Atom, bindings: &[Binding]) -> &'a [Fact]
    ensures within { (f : FactValue) → Contains result.now f → Contains index.now f }
    ensures complete { IsComplete bindings.now atom index.now result.now }
{
    match atom {
        Atom::Concept(id, term) => match bound_to(bindings, term) {
            Some(element) => with_first(index.concept(id), element),
            None => index.concept(id),
        },
        Atom::Role(id, from, to) => {
            match (bound_to(bindings, from), bound_to(bindings, to)) {
                (Some(first), Some(second)) => index.only(&Fact::Role(id, first, second)),
                (Some(first), None) => with_first(index.role(id, false), first),
                (None, Some(second)) => with_last(index.role(id, true), second),
                (None, None) => index.role(id, false),
            }
        }
    }
}

/// Facts among which are all that the atom can become.
pub(crate) fn candidates<'a>(known: &Known<'a>, atom: Atom, bindings: &[Binding]) -> &'a [Fact]
    ensures within { (f : FactValue) → Contains result.now f → Contains (facts_in known.now) f }
    ensures complete { IsComplete bindings.now atom (facts_in known.now) result.now }
{
    match *known {
        Known::Listed(facts) => facts,
        Known::Indexed(index) => indexed(index, atom, bindings),
    }
}
