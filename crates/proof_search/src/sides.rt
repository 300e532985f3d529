//! The query that asks whether a clash is met.

ghost use Rattle.std.specs.Prelude.{◌≡◌, ◌∷◌, [], IfOk};
ghost use Rattle.consistency.specs.Asking.{pair_atom as pair_of, side_atom as side_of};
ghost use Rattle.consistency.specs.Asking.{sides as sides_of, query_of};

use dl_syntax::{Atom, Basic, Clash, Cq, Items, Memory, Role, Term};
use std::alloc::Global;

/// The variables are a pair of the role.
fn pair_atom(role: Role, first: u16, second: u16) -> Atom
    ensures { result ≡ pair_of role first second }
{
    if role.inverse {
        Atom::Role(role.id, Term::Var(second), Term::Var(first))
    } else {
        Atom::Role(role.id, Term::Var(first), Term::Var(second))
    }
}

/// The first variable is in the basic concept, by a pair with the second one where that is `some`
/// of a role.
fn side_atom(basic: Basic, variable: u16, partner: u16) -> Atom
    ensures { result ≡ side_of basic variable partner }
{
    match basic {
        Basic::Concept(id) => Atom::Concept(id, Term::Var(variable)),
        Basic::Some(role) => pair_atom(role, variable, partner),
    }
}

/// Both sides of the clash at one variable, each `some` with a variable of its own, or at one pair
/// of variables.
pub(crate) fn sides(clash: &Clash) -> (Atom, Atom)
    ensures { sides_of clash.now ≡ result.0 ∷ result.1 ∷ [] }
{
    match *clash {
        Clash::Concepts(left, right) => (side_atom(left, 0, 1), side_atom(right, 0, 2)),
        Clash::Roles(left, right) => (pair_atom(left, 0, 1), pair_atom(right, 0, 1)),
    }
}

/// The query that asks whether the clash is met.
pub(crate) fn query(alloc: Global, clash: &Clash) -> Result<Cq, Memory>
    ensures { IfOk result (λ q. q ≡ query_of clash.now) }
{
    let (left, right) = sides(clash);
    let mut body = Vec::with_capacity(alloc, 2)?;
    body.push(left)?;
    body.push(right)?;
    Ok(Cq {
        head: Items::from_vec(Vec::new(alloc)),
        body: Items::from_vec(body),
    })
}
