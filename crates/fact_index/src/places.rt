//! The elements of a fact.

ghost use Rattle.std.specs.Prelude.{◌≡◌};
ghost use Rattle.fact_index.specs.Order.{first_of, last_of};

use dl_syntax::{Element, Fact};

/// The element of the first place.
pub fn first(fact: &Fact) -> Element
    ensures { result ≡ first_of fact.now }
{
    match *fact {
        Fact::Concept(_, element) => element,
        Fact::Role(_, first, _) => first,
    }
}

/// The element of the last place.
pub fn last(fact: &Fact) -> Element
    ensures { result ≡ last_of fact.now }
{
    match *fact {
        Fact::Concept(_, element) => element,
        Fact::Role(_, _, second) => second,
    }
}
