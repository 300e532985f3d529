//! Whether the facts of an index satisfy an inclusion.
ghost use Rattle.std.specs.Prelude.{◌↔◌, IsTrue, Contains, IfSome, List};
ghost use Rattle.std.specs.List.{All};
ghost use Rattle.dl_syntax.specs.declared.facts.Fact.{Fact as FactValue};
ghost use Rattle.dl_syntax.specs.Laws.{Applies};
ghost use Rattle.model_audit.specs.FiniteModels.{Keeps, Satisfies};

use crate::holding::{has_partner, is_member, is_same_member, members_of, pairs_of};
use dl_syntax::{Fact, Inclusion, element_in, pair_in, role_fact};
use fact_index::Index;

/// Whether the facts make the left side true of one element, which is looked for at once.
fn is_alike(inclusion: &Inclusion, one: &Fact, other: &Fact) -> bool
    ensures { IsTrue result → (held : List FactValue) → Keeps held inclusion.now one.now
        → Keeps held inclusion.now other.now }
{
    match inclusion {
        Inclusion::Concepts(below, _) => is_same_member(below, one, other),
        Inclusion::Roles(_, _) => false,
        Inclusion::Qualified(below, _, _) => is_same_member(below, one, other),
    }
}

/// Whether the right side is there wherever the fact makes the left side true.
pub fn keeps(index: &Index, inclusion: &Inclusion, fact: &Fact) -> bool
    ensures { IsTrue result ↔ Keeps index.now inclusion.now fact.now }
{
    match inclusion {
        Inclusion::Concepts(below, above) => match element_in(below, fact) {
            Some(element) => is_member(index, above, element),
            None => true,
        },
        Inclusion::Roles(below, above) => match pair_in(below, fact) {
            Some((first, second)) => index.has(&role_fact(above, first, second)),
            None => true,
        },
        Inclusion::Qualified(below, role, concept) => match element_in(below, fact) {
            Some(element) => has_partner(index, role, *concept, element),
            None => true,
        },
    }
}

/// The facts that make the left side true.
fn applied<'a>(index: &'a Index, inclusion: &Inclusion) -> &'a [Fact]
    ensures { (f : FactValue) → Contains result.now f
        ↔ (Contains index.now f × Applies inclusion.now f) }
{
    match inclusion {
        Inclusion::Concepts(below, _) => members_of(index, below),
        Inclusion::Roles(below, _) => pairs_of(index, below),
        Inclusion::Qualified(below, _, _) => members_of(index, below),
    }
}

/// The same, where the last fact that was looked at keeps it.
fn keeps_after(index: &Index, inclusion: &Inclusion, last: Option<Fact>, fact: &Fact) -> bool
    requires { IfSome last (Keeps index.now inclusion.now) }
    ensures { IsTrue result ↔ Keeps index.now inclusion.now fact.now }
{
    match last {
        Some(one) => is_alike(inclusion, &one, fact) || keeps(index, inclusion, fact),
        None => keeps(index, inclusion, fact),
    }
}

/// Whether each fact does. One after the other that show the same element are looked at once.
fn all_keep(index: &Index, inclusion: &Inclusion, facts: &[Fact]) -> bool
    ensures { IsTrue result ↔ All (Keeps index.now inclusion.now) facts.now }
{
    let mut last = None;
    for fact in facts {
        if !keeps_after(index, inclusion, last, fact) {
            return false;
        }
        last = Some(*fact);
    }
    true
}

/// Whether the facts satisfy the inclusion. Only those that make its left side true are looked at.
pub fn is_satisfied(index: &Index, inclusion: &Inclusion) -> bool
    ensures { IsTrue result ↔ Satisfies index.now inclusion.now }
{
    all_keep(index, inclusion, applied(index, inclusion))
}
