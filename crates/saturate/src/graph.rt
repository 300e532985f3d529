//! What inclusions put directly above what, and all that stands above a basic concept.

ghost use Rattle.std.specs.Prelude.{◌≡◌, ◌++◌, ◌<◌, ◌^◌, ◌*◌, ◌≤◌, length, IfOk, OnOk};
ghost use Rattle.worklist.specs.Reach.{IsClosure};
ghost use Rattle.saturate.specs.Derived.{inverse_of};
ghost use Rattle.saturate.specs.Above.{arrows_of, all_arrows, Along, source_of};
ghost use Rattle.saturate.specs.Above.{number_in as number_of, IsIndex, IsNext};

use dl_syntax::{Basic, ConceptId, Inclusion, Memory, Role, RoleId};
use indexmap::IndexSet;
use std::alloc::{AllocError, Global};
use std::marker::Model;
use worklist::{ClosureFault, Transition, add_at, closure, list_at};

/// That one basic concept stands directly above another.
#[derive(Clone, Copy)]
pub(crate) struct Arrow {
    pub(crate) from: Basic,
    pub(crate) to: Basic,
}

/// What inclusions are read of: of pairs, or of the elements of basic concepts.
#[derive(Clone, Copy)]
pub(crate) enum Scope {
    Pairs,
    Elements,
}

/// What a number tells: a concept, or what stands first, or second, in the pairs of a role.
#[derive(Clone, Copy)]
pub(crate) enum Place {
    Member,
    First,
    Second,
}

/// The basic concept of the number.
pub(crate) fn source(place: Place, number: u32) -> Basic
    ensures { result ≡ source_of place number }
{
    match place {
        Place::Member => Basic::Concept(ConceptId(number)),
        Place::First => Basic::Some(Role {
            id: RoleId(number),
            inverse: false,
        }),
        Place::Second => Basic::Some(Role {
            id: RoleId(number),
            inverse: true,
        }),
    }
}

/// Its number, where it is of the kind.
fn number_in(place: Place, basic: &Basic) -> Option<u32>
    ensures { result ≡ number_of place basic.now }
{
    match (place, basic) {
        (Place::Member, Basic::Concept(id)) => Some(id.0),
        (Place::First, Basic::Some(role)) if !role.inverse => Some(role.id.0),
        (Place::Second, Basic::Some(role)) if role.inverse => Some(role.id.0),
        _ => None,
    }
}

/// The inverse of a basic role.
fn inverse(role: &Role) -> Role
    ensures { result ≡ inverse_of role.now }
{
    Role {
        id: role.id,
        inverse: !role.inverse,
    }
}

/// Adds what the inclusion puts directly above what.
fn push_arrows(scope: Scope, inclusion: &Inclusion, out: &mut Vec<Arrow>) -> Result<(), Memory>
    ensures { OnOk result (out.new.items ≡ out.old.items ++ arrows_of scope inclusion.now) }
{
    match (scope, *inclusion) {
        (_, Inclusion::Roles(below, above)) => {
            out.push(Arrow {
                from: Basic::Some(below),
                to: Basic::Some(above),
            })?;
            out.push(Arrow {
                from: Basic::Some(inverse(&below)),
                to: Basic::Some(inverse(&above)),
            })?;
        }
        (Scope::Elements, Inclusion::Concepts(from, to)) => out.push(Arrow { from, to })?,
        (Scope::Elements, Inclusion::Qualified(from, role, _)) => {
            out.push(Arrow {
                from,
                to: Basic::Some(role),
            })?;
        }
        (Scope::Pairs, _) => {}
    }
    Ok(())
}

/// What the inclusions put directly above what.
fn arrows(alloc: Global, scope: Scope, inclusions: &[Inclusion]) -> Result<Vec<Arrow>, Memory>
    ensures { IfOk result (λ arrows. arrows.items ≡ all_arrows scope inclusions.now) }
{
    let mut out = Vec::new(alloc);
    for inclusion in inclusions {
        push_arrows(scope, inclusion, &mut out)?;
    }
    Ok(out)
}

/// What the arrows lead to, by the number of what they lead from.
fn index_by(alloc: Global, arrows: &[Arrow], place: Place) -> Result<Vec<Vec<Basic>>, Memory>
    ensures { IfOk result (λ lists. IsIndex place arrows.now lists.items) }
{
    let mut lists = Vec::new(alloc);
    for arrow in arrows {
        match number_in(place, &arrow.from) {
            Some(number) => add_at(alloc, &mut lists, number, arrow.to)?,
            None => {}
        }
    }
    Ok(lists)
}

/// Arrows, found by what they lead from. Seen as their list.
#[derive(Drop)]
pub(crate) struct Graph {
    arrows: Vec<Arrow>,
    members: Vec<Vec<Basic>>,
    firsts: Vec<Vec<Basic>>,
    seconds: Vec<Vec<Basic>>,
}

impl Model for Graph {
    ghost use Rattle.std.specs.Prelude.{List};
    ghost use Rattle.saturate.specs.declared.graph.Arrow.{Arrow};
    ghost use Rattle.saturate.specs.declared.graph.Place.TheVariants.{Member, First, Second};
    ghost use Rattle.saturate.specs.Above.{IsIndex};

    ghost Value = { List Arrow };

    ghost view = { λ g. g.arrows.items };

    ghost invariant = { λ g. IsIndex Member g.arrows.items g.members.items
        × IsIndex First g.arrows.items g.firsts.items
        × IsIndex Second g.arrows.items g.seconds.items };
}

impl Graph {
    /// What the inclusions put directly above what.
    pub(crate) fn new(
        alloc: Global,
        scope: Scope,
        inclusions: &[Inclusion],
    ) -> Result<Graph, Memory>
        ensures { IfOk result (λ graph. graph ≡ all_arrows scope inclusions.now) }
    {
        let arrows = arrows(alloc, scope, inclusions)?;
        let members = index_by(alloc, arrows.as_slice(), Place::Member)?;
        let firsts = index_by(alloc, arrows.as_slice(), Place::First)?;
        let seconds = index_by(alloc, arrows.as_slice(), Place::Second)?;
        Ok(Graph {
            arrows,
            members,
            firsts,
            seconds,
        })
    }

    /// What stands directly above the basic concept.
    fn next(&self, basic: &Basic) -> &[Basic]
        ensures { IsNext self.now basic.now result.now }
    {
        match basic {
            Basic::Concept(id) => list_at(self.members.as_slice(), id.0),
            Basic::Some(role) => {
                if role.inverse {
                    list_at(self.seconds.as_slice(), role.id.0)
                } else {
                    list_at(self.firsts.as_slice(), role.id.0)
                }
            }
        }
    }

    /// All that arrows lead to from the basic concept, itself too, each once.
    pub(crate) fn above(&self, alloc: Global, start: Basic) -> Result<IndexSet<Basic>, Memory>
        requires { length self.now < 2 ^ 31 }
        ensures { IfOk result (λ above. IsClosure (Along self.now) start above.keys) }
    {
        match closure(alloc, self, start, u32::MAX) {
            Ok(above) => Ok(above),
            Err(ClosureFault::TooMany) => unreachable!(),
            Err(ClosureFault::Memory) => Err(AllocError),
        }
    }
}

impl Transition<Basic> for Graph {
    ghost use Rattle.saturate.specs.Above.{Along};

    ghost step = { λ arrows b c. Along arrows b c };

    ghost valid = { λ _ _. Unit {0} };

    fn push_next(&self, state: &Basic, out: &mut Vec<Basic>) -> Result<(), Memory> {
        out.extend_from_slice(self.next(state))?;
        Ok(())
    }
}
