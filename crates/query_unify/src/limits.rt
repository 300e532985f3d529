//! Whether a query is within the limits.

ghost use Rattle.std.specs.Prelude.{◌↔◌, ◌≤◌, length, IsTrue};
ghost use Rattle.dl_syntax.specs.Queries.{IsBound, IsQuery};

use crate::steps::count_in_atoms;
use dl_syntax::{Atom, Cq, Term};

/// Whether the term is an individual, or a variable of the body.
fn is_bound(body: &[Atom], term: &Term) -> bool
    requires { length body.now ≤ 8 }
    ensures { IsTrue result ↔ IsBound body.now term.now }
{
    match *term {
        Term::Var(variable) => count_in_atoms(variable, body) > 0,
        Term::Ind(_) => true,
    }
}

/// Whether the query is within the limits: its body has 1 to 8 atoms, and each variable of its head
/// stands in the body.
pub fn is_query(cq: &Cq) -> bool
    ensures { IsTrue result ↔ IsQuery cq.now }
{
    let body = cq.body.as_slice();
    if body.len() == 0 || body.len() > 8 {
        return false;
    }
    for term in cq.head.as_slice() {
        if !is_bound(body, term) {
            return false;
        }
    }
    true
}
