//! The test of what `contain` requires of a query.
ghost use Rattle.std.specs.Prelude.{◌↔◌, IsTrue, length};
ghost use Rattle.std.specs.List.{All};
ghost use Rattle.dl_syntax.specs.Declaring.{IsDeclaredAtom};
ghost use Rattle.models.specs.Containment.{IsTermBelow, IsAtomBelow};
ghost use Rattle.contain_test.specs.Contained.{IsQueryOf};

use dl_syntax::{Atom, Cq, Kind, Ontology, Term};
use query_unify::is_query;

fn is_term_below(count: u32, term: &Term) -> bool
    ensures { IsTrue result ↔ IsTermBelow count term.now }
{
    match term {
        Term::Var(_) => true,
        Term::Ind(id) => id.0 < count,
    }
}

fn is_atom_below(count: u32, atom: &Atom) -> bool
    ensures { IsTrue result ↔ IsAtomBelow count atom.now }
{
    match atom {
        Atom::Concept(_, term) => is_term_below(count, term),
        Atom::Role(_, first, second) => is_term_below(count, first) && is_term_below(count, second),
    }
}

fn has_predicate(concepts: u32, roles: u32, atom: &Atom) -> bool
    ensures { IsTrue result ↔ IsDeclaredAtom concepts roles atom.now }
{
    match atom {
        Atom::Concept(id, _) => id.0 < concepts,
        Atom::Role(id, _, _) => id.0 < roles,
    }
}

fn terms_below(count: u32, head: &[Term]) -> bool
    ensures { IsTrue result ↔ All (IsTermBelow count) head.now }
{
    head.iter().all(|term| is_term_below(count, term))
}

fn atoms_below(count: u32, body: &[Atom]) -> bool
    ensures { IsTrue result ↔ All (IsAtomBelow count) body.now }
{
    body.iter().all(|atom| is_atom_below(count, atom))
}

fn have_predicates(concepts: u32, roles: u32, body: &[Atom]) -> bool
    ensures { IsTrue result ↔ All (IsDeclaredAtom concepts roles) body.now }
{
    body.iter().all(|atom| has_predicate(concepts, roles, atom))
}

/// Whether the query has 1 to 8 atoms, its head's variables stand in its body, and the ontology
/// declares each concept, role and individual that it names. Takes no memory.
pub fn is_query_of(ontology: &Ontology, query: &Cq) -> bool
    ensures { IsTrue result ↔ IsQueryOf ontology.now query.now }
{
    let individuals = ontology.count(Kind::Individual);
    let body = query.body.as_slice();
    is_query(query)
        && have_predicates(
            ontology.count(Kind::Concept),
            ontology.count(Kind::Role),
            body,
        )
        && terms_below(individuals, query.head.as_slice())
        && atoms_below(individuals, body)
}
