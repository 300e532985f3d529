//! Inclusions, found by what stands on their right side.

ghost use Rattle.std.specs.Prelude.{◌≡◌, ◌==◌, ◌<◌, ◌^◌, ◌++◌, ◌∷◌, [], ℕ, length, IfOk, OnOk};
ghost use Rattle.std.specs.Prelude.{if◌then◌else◌};
ghost use Rattle.std.specs.List.{All};
ghost use Rattle.dl_syntax.specs.Encode.{IsUnqualified};
ghost use Rattle.perfect_ref.specs.Rules.{number_on as number_of, IsIndex, IsCandidates};
ghost use Rattle.perfect_ref.specs.Rules.{IsNullMakers};

use dl_syntax::{Atom, Basic, Inclusion, Memory};
use std::alloc::Global;
use std::marker::Model;
use worklist::{add_at, list_at};

/// What stands on the right side of an inclusion: a concept, `some` of a role, or a role.
#[derive(Clone, Copy)]
enum Side {
    Concept,
    Exists,
    Role,
}

/// Unqualified inclusions, found by the concept or role on their right side. Seen as their list.
#[derive(Drop)]
pub(crate) struct Rules {
    alloc: Global,
    inclusions: Vec<Inclusion>,
    concepts: Vec<Vec<Inclusion>>,
    existentials: Vec<Vec<Inclusion>>,
    roles: Vec<Vec<Inclusion>>,
}

impl Model for Rules {
    ghost use Rattle.std.specs.Prelude.{List};
    ghost use Rattle.std.specs.List.{All};
    ghost use Rattle.dl_syntax.specs.declared.ontology.Inclusion.{Inclusion};
    ghost use Rattle.dl_syntax.specs.Encode.{IsUnqualified};
    ghost use Rattle.perfect_ref.specs.Rules.{IsIndex};
    ghost use Rattle.perfect_ref.specs.declared.rules.Side.TheVariants.{Concept, Exists, Role};

    ghost Value = { List Inclusion };

    ghost view = { λ r. r.inclusions.items };

    ghost invariant = { λ r. All IsUnqualified r.inclusions.items
        × IsIndex Concept r.inclusions.items r.concepts.items
        × IsIndex Exists r.inclusions.items r.existentials.items
        × IsIndex Role r.inclusions.items r.roles.items };
}

/// The number of the concept or role on the right, where what stands there is of the kind.
fn number_on(side: Side, inclusion: &Inclusion) -> Option<u32>
    ensures { result ≡ number_of side inclusion.now }
{
    match (side, inclusion) {
        (Side::Concept, Inclusion::Concepts(_, Basic::Concept(id))) => Some(id.0),
        (Side::Exists, Inclusion::Concepts(_, Basic::Some(role))) => Some(role.id.0),
        (Side::Role, Inclusion::Roles(_, role)) => Some(role.id.0),
        _ => None,
    }
}

/// The inclusions by the number on their right side.
fn index_by(
    alloc: Global,
    inclusions: &[Inclusion],
    side: Side,
) -> Result<Vec<Vec<Inclusion>>, Memory>
    ensures { IfOk result (λ lists. IsIndex side inclusions.now lists.items) }
{
    let mut lists = Vec::new(alloc);
    for inclusion in inclusions {
        match number_on(side, inclusion) {
            Some(number) => add_at(alloc, &mut lists, number, *inclusion)?,
            None => {}
        }
    }
    Ok(lists)
}

impl Rules {
    pub(crate) fn new(alloc: Global, inclusions: Vec<Inclusion>) -> Result<Rules, Memory>
        requires { All IsUnqualified inclusions.items }
        ensures { IfOk result (λ rules. rules ≡ inclusions.items) }
    {
        let concepts = index_by(alloc, inclusions.as_slice(), Side::Concept)?;
        let existentials = index_by(alloc, inclusions.as_slice(), Side::Exists)?;
        let roles = index_by(alloc, inclusions.as_slice(), Side::Role)?;
        Ok(Rules {
            alloc,
            inclusions,
            concepts,
            existentials,
            roles,
        })
    }

    pub(crate) fn alloc(&self) -> Global {
        self.alloc
    }

    /// The inclusions that make no null and have the atom's concept or role on their right side.
    pub(crate) fn candidates(&self, atom: &Atom) -> &[Inclusion]
        ensures { IsCandidates self.now atom.now result.now }
    {
        match atom {
            Atom::Concept(id, _) => list_at(self.concepts.as_slice(), id.0),
            Atom::Role(id, _, _) => list_at(self.roles.as_slice(), id.0),
        }
    }

    /// The inclusions that make a null with the atom's role.
    pub(crate) fn null_makers(&self, atom: &Atom) -> &[Inclusion]
        ensures { IsNullMakers self.now atom.now result.now }
    {
        match atom {
            Atom::Concept(_, _) => &[],
            Atom::Role(id, _, _) => list_at(self.existentials.as_slice(), id.0),
        }
    }
}
