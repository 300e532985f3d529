//! What an inclusion of an encoding makes of a fact, and which inclusion of the ontology does so.

ghost use Rattle.std.specs.Prelude.{◌≡◌, ◌+◌, ◌<◌, ◌^◌, ◌↔◌, [], ◌∷◌, length, IsTrue};
ghost use Rattle.std.specs.Prelude.{MatchOption};
ghost use Rattle.dl_syntax.specs.Encode.{IsUnqualified, number_after};
ghost use Rattle.dl_syntax.specs.Facts.{role_fact as fact_of_role};
ghost use Rattle.dl_syntax.specs.Chase.{basic_fact as fact_of_basic, made_by as made_of_fact};
ghost use Rattle.proof_search.specs.Origin.{StandsAt, StandsForNumber, StandsForNone};

use dl_syntax::{
    Basic, Element, Fact, Inclusion, Kind, Ontology, Role, RoleId, element_in, pair_in,
};

/// The fact that makes the two elements a pair of the role.
fn role_fact(role: &Role, first: Element, second: Element) -> Fact
    ensures { result ≡ fact_of_role role.now first second }
{
    if role.inverse {
        Fact::Role(role.id, second, first)
    } else {
        Fact::Role(role.id, first, second)
    }
}

/// The fact of the basic concept at the element, where a null has the number.
fn basic_fact(basic: &Basic, element: Element, null: u32) -> Fact
    ensures { result ≡ fact_of_basic basic.now element null }
{
    match basic {
        Basic::Concept(id) => Fact::Concept(*id, element),
        Basic::Some(role) => role_fact(role, element, Element::Null(null)),
    }
}

/// The fact that the inclusion makes of another, where it makes one alone. A null has the number.
pub(crate) fn made_by(inclusion: &Inclusion, from: &Fact, null: u32) -> Option<Fact>
    requires { IsUnqualified inclusion.now }
    ensures { MatchOption result (made_of_fact inclusion.now from.now null ≡ [])
        (λ made. made_of_fact inclusion.now from.now null ≡ made ∷ []) }
{
    match inclusion {
        Inclusion::Concepts(below, above) => match element_in(below, from) {
            Some(element) => Some(basic_fact(above, element, null)),
            None => None,
        },
        Inclusion::Roles(below, above) => match pair_in(below, from) {
            Some((first, second)) => Some(role_fact(above, first, second)),
            None => None,
        },
        Inclusion::Qualified(_, _, _) => None,
    }
}

fn is_same(one: &Inclusion, other: &Inclusion) -> bool
    ensures { IsTrue result ↔ (one.now ≡ other.now) }
{
    one == other
}

/// Whether the inclusion is the known one, or begins the encoding of that by the hidden role of the
/// number.
fn stands_for(inclusion: &Inclusion, known: &Inclusion, number: u32) -> bool
    ensures { IsTrue result ↔ StandsAt number inclusion.now known.now }
{
    match *known {
        Inclusion::Qualified(below, _, _) => {
            let hidden = Role {
                id: RoleId(number),
                inverse: false,
            };
            is_same(inclusion, &Inclusion::Concepts(below, Basic::Some(hidden)))
                || is_same(inclusion, known)
        }
        _ => is_same(inclusion, known),
    }
}

/// The number of the next hidden role.
fn number_behind(known: &Inclusion, number: u32) -> u32
    requires { number + 1 < 2 ^ 32 }
    ensures { result ≡ number_after number known.now }
{
    match known {
        Inclusion::Qualified(_, _, _) => number + 1,
        _ => number,
    }
}

/// The number, from 1, of the inclusion of the ontology for which the one of its encoding stands.
/// There is none for the one that makes the pair of a hidden role, nor for the one that makes its
/// concept, since the run has what they make.
pub(crate) fn origin(ontology: &Ontology, inclusion: &Inclusion) -> Option<u32>
    ensures { MatchOption result
        (StandsForNone (length ontology.now.roles) ontology.now.inclusions inclusion.now)
        (StandsForNumber (length ontology.now.roles) ontology.now.inclusions inclusion.now) }
{
    let mut number = ontology.count(Kind::Role);
    for (place, known) in ontology.inclusions().iter().enumerate() {
        if stands_for(inclusion, known, number) {
            return Some(place as u32 + 1);
        }
        number = number_behind(known, number);
    }
    None
}
