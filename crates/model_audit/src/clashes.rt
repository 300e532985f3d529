//! Whether the facts of an index meet a clash.
ghost use Rattle.std.specs.Prelude.{◌≡◌, ◌↔◌, IsTrue, Contains};
ghost use Rattle.std.specs.List.{All};
ghost use Rattle.dl_syntax.specs.declared.facts.Fact.{Fact as FactValue};
ghost use Rattle.model_audit.specs.FiniteModels.{IsApart, Avoids};
ghost use Rattle.model_audit.specs.Clashes.{turned_clash, IsOnLeft};

use crate::holding::{is_member, members_of, pairs_of};
use dl_syntax::{Clash, Fact, element_in, pair_in, role_fact};
use fact_index::Index;

/// Whether the other side lacks whatever the fact puts into the first side.
fn is_apart(index: &Index, clash: &Clash, fact: &Fact) -> bool
    ensures { IsTrue result ↔ IsApart index.now clash.now fact.now }
{
    match clash {
        Clash::Concepts(one, other) => match element_in(one, fact) {
            Some(element) => !is_member(index, other, element),
            None => true,
        },
        Clash::Roles(one, other) => match pair_in(one, fact) {
            Some((first, second)) => !index.has(&role_fact(other, first, second)),
            None => true,
        },
    }
}

/// The clash with its sides exchanged.
fn turned(clash: &Clash) -> Clash
    ensures { result ≡ turned_clash clash.now }
{
    match *clash {
        Clash::Concepts(one, other) => Clash::Concepts(other, one),
        Clash::Roles(one, other) => Clash::Roles(other, one),
    }
}

/// The facts of the first side.
fn on_left<'a>(index: &'a Index, clash: &Clash) -> &'a [Fact]
    ensures { (f : FactValue) → Contains result.now f
        ↔ (Contains index.now f × IsOnLeft clash.now f) }
{
    match clash {
        Clash::Concepts(one, _) => members_of(index, one),
        Clash::Roles(one, _) => pairs_of(index, one),
    }
}

fn all_apart(index: &Index, clash: &Clash, facts: &[Fact]) -> bool
    ensures { IsTrue result ↔ All (IsApart index.now clash.now) facts.now }
{
    facts.iter().all(|fact| is_apart(index, clash, fact))
}

/// Whether no element or pair is in both sides of the clash. Only the facts of the side that has
/// fewer are looked at.
pub fn is_avoided(index: &Index, clash: &Clash) -> bool
    ensures { IsTrue result ↔ Avoids index.now clash.now }
{
    let turned = turned(clash);
    let left = on_left(index, clash);
    let right = on_left(index, &turned);
    if left.len() <= right.len() {
        all_apart(index, clash, left)
    } else {
        all_apart(index, &turned, right)
    }
}
