//! The facts of a snapshot, looked up by predicate and by place.
#![tactic(auto)]

ghost use Rattle.std.specs.Prelude.{◌≡◌, ◌↔◌, false, true, IsTrue, Contains};
ghost use Rattle.std.specs.List.{filter};
ghost use Rattle.dl_syntax.specs.declared.facts.Fact.{Fact};
ghost use Rattle.std.specs.List.Sorted.{IsStrictlySortedBy, IsSortedByKey};
ghost use Rattle.fact_index.specs.Order.{fact_cmp, last_cmp, element_cmp, first_of, last_of};
ghost use Rattle.fact_index.specs.Order.{is_of_concept, is_of_role};

use dl_syntax::{ConceptId, Fact, RoleId};
use std::marker::Model;

pub mod build;
mod places;
mod runs;

pub use runs::{with_first, with_last};

/// The facts of a snapshot, to be looked up by predicate and by place, seen as their list in rising
/// order: the concepts' facts by concept and element, then the roles' by role, first place and
/// second place.
#[derive(Debug, Drop)]
pub struct Index {
    facts: Vec<Fact>,
    by_last: Vec<Fact>,
}

impl Model for Index {
    ghost use Rattle.std.specs.Prelude.{List};
    ghost use Rattle.dl_syntax.specs.declared.facts.Fact.{Fact};
    ghost use Rattle.fact_index.specs.Index.{IsIndex};

    ghost Value = { List Fact };

    ghost view = { λ i. i.facts.items };

    ghost invariant = { λ i. IsIndex i.facts.items i.by_last.items };
}

impl Index {
    /// All facts, in rising order. Takes no memory.
    pub fn facts(&self) -> &[Fact]
        ensures facts { result.now ≡ self.now }
        ensures rising { IsStrictlySortedBy fact_cmp result.now }
    {
        self.facts.as_slice()
    }

    /// Whether the fact is there. Takes no memory.
    pub fn has(&self, fact: &Fact) -> bool
        ensures { IsTrue result ↔ Contains self.now fact.now }
    {
        self.facts.binary_search(fact).is_ok()
    }

    /// The fact itself where it is there, and no fact elsewhere. Takes no memory.
    pub fn only(&self, fact: &Fact) -> &[Fact]
        ensures { (f : Fact) → Contains result.now f ↔ (Contains self.now f × (f ≡ fact.now)) }
    {
        match self.facts.binary_search(fact) {
            Ok(place) => &self.facts.as_slice()[place..place + 1],
            Err(_) => &self.facts.as_slice()[..0],
        }
    }

    /// The facts of the concept, each once, by the element. Takes no memory.
    pub fn concept(&self, id: ConceptId) -> &[Fact]
        ensures facts { result.now ≡ filter (is_of_concept id) self.now }
        ensures rising { IsStrictlySortedBy fact_cmp result.now }
        ensures by_first { IsSortedByKey first_of element_cmp result.now }
    {
        runs::concept_run(self.facts.as_slice(), id)
    }

    /// The facts of the role, each once, by the first place and then the second, or with `inverse`
    /// by the second and then the first. Takes no memory.
    pub fn role(&self, id: RoleId, inverse: bool) -> &[Fact]
        ensures facts { inverse ≡ false → result.now ≡ filter (is_of_role id) self.now }
        ensures members { (f : Fact)
            → Contains result.now f ↔ Contains (filter (is_of_role id) self.now) f }
        ensures rising { inverse ≡ false → IsStrictlySortedBy fact_cmp result.now }
        ensures last_rising { inverse ≡ true → IsStrictlySortedBy last_cmp result.now }
        ensures by_first { inverse ≡ false → IsSortedByKey first_of element_cmp result.now }
        ensures by_last { inverse ≡ true → IsSortedByKey last_of element_cmp result.now }
    {
        if inverse {
            runs::role_run_by_last(self.by_last.as_slice(), id)
        } else {
            runs::role_run(self.facts.as_slice(), id)
        }
    }
}

#[cfg(test)]
mod tests;
