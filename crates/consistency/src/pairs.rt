//! Whether two roles have a pair in common, by a walk through both in one order.

ghost use Rattle.std.specs.Prelude.{◌≡◌, ◌≤◌, false, length, List, Contains, IsTrue, if◌then◌else◌};
ghost use Rattle.dl_syntax.specs.declared.facts.Element.{Element};
ghost use Rattle.dl_syntax.specs.declared.facts.Fact.{Fact};
ghost use Rattle.dl_syntax.specs.declared.facts.Fact.TheVariants as fact;
ghost use Rattle.dl_syntax.specs.Match.{Assignment, Match, term_at, atom_at};
ghost use Rattle.fact_index.specs.Order.{fact_cmp};
ghost use Rattle.consistency.specs.Pairs.{as_fact_of as fact_of, Rises, Passed};

use crate::refute::is_same;
use dl_syntax::{Atom, Fact, RoleId, Term};
use fact_index::Index;
use std::cmp::Ordering;

/// Where one role has more than so many times the facts of the other, they are not walked through.
const UNEVEN: usize = 8;

fn as_fact_of(id: RoleId, turned: bool, fact: &Fact) -> Fact
    ensures { result ≡ fact_of id turned fact.now }
{
    match *fact {
        Fact::Concept(concept, only) => Fact::Concept(concept, only),
        Fact::Role(_, first, second) => {
            if turned {
                Fact::Role(id, second, first)
            } else {
                Fact::Role(id, first, second)
            }
        }
    }
}

fn order(one: &Fact, other: &Fact) -> Ordering
    ensures { result ≡ fact_cmp one.now other.now }
{
    one.cmp(other)
}

// Whether a fact of one list is one of the other, both as facts of the role.
fn have_common(id: RoleId, one: &[Fact], other: &[Fact], turned: bool) -> bool
    requires first { Rises id false one.now }
    requires second { Rises id turned other.now }
    ensures { result ≡ false → (f g : Fact) → Contains one.now f → Contains other.now g
        → fact_of id false f ≡ fact_of id turned g → ⊥ }
{
    let mut left = 0;
    let mut right = 0;
    while left < one.len() && right < other.len() {
        let first = as_fact_of(id, false, &one[left]);
        let second = as_fact_of(id, turned, &other[right]);
        match order(&first, &second) {
            Ordering::Equal => return true,
            Ordering::Less => left += 1,
            Ordering::Greater => right += 1,
        }
    }
    false
}

fn are_uneven(one: usize, other: usize) -> bool {
    one / UNEVEN > other || other / UNEVEN > one
}

// Whether the walk shows that no pair of the first role is one of the second, turned where that is
// asked.
fn lack_common(index: &Index, first: RoleId, second: RoleId, turned: bool) -> bool
    ensures { IsTrue result → (x y : Element) → Contains index.now (fact.Role first x y)
        → Contains index.now (if turned then fact.Role second y x else fact.Role second x y) → ⊥ }
{
    let one = index.role(first, false);
    let other = index.role(second, turned);
    !are_uneven(one.len(), other.len()) && !have_common(first, one, other, turned)
}

// The same at terms: the first role's pair is the second's as it stands.
fn lack_straight(
    index: &Index,
    first: RoleId,
    x: Term,
    y: Term,
    second: RoleId,
    z: Term,
    w: Term,
) -> bool
    ensures { IsTrue result → (t : Assignment)
        → Contains index.now (fact.Role first (term_at t x) (term_at t y))
        → Contains index.now (fact.Role second (term_at t z) (term_at t w)) → ⊥ }
{
    if !is_same(&x, &z) {
        return false;
    }
    if !is_same(&y, &w) {
        return false;
    }
    lack_common(index, first, second, false)
}

// Or it is the second's turned.
fn lack_turned(
    index: &Index,
    first: RoleId,
    x: Term,
    y: Term,
    second: RoleId,
    z: Term,
    w: Term,
) -> bool
    ensures { IsTrue result → (t : Assignment)
        → Contains index.now (fact.Role first (term_at t x) (term_at t y))
        → Contains index.now (fact.Role second (term_at t z) (term_at t w)) → ⊥ }
{
    if !is_same(&x, &w) {
        return false;
    }
    if !is_same(&y, &z) {
        return false;
    }
    lack_common(index, first, second, true)
}

// Whether the walk shows that no facts become the two atoms at once.
fn lack_facts(index: &Index, one: Atom, other: Atom) -> bool
    ensures { IsTrue result → (t : Assignment) → Contains index.now (atom_at t one)
        → Contains index.now (atom_at t other) → ⊥ }
{
    match (one, other) {
        (Atom::Role(first, x, y), Atom::Role(second, z, w)) => {
            lack_straight(index, first, x, y, second, z, w)
                || lack_turned(index, first, x, y, second, z, w)
        }
        _ => false,
    }
}

/// Whether the walk shows that a body of two role atoms at one pair of terms has no match among the
/// facts.
pub(crate) fn lacks_pair(index: &Index, body: &[Atom]) -> bool
    ensures { IsTrue result → (t : Assignment) → Match body.now index.now t → ⊥ }
{
    match body {
        [one, other] => lack_facts(index, *one, *other),
        _ => false,
    }
}
