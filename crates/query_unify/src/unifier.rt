//! Most general unifiers.

ghost use Rattle.std.specs.Prelude.{◌≡◌, ◌≢◌, ◌<◌, ◌++◌, ◌⊎◌, ℕ, length, map, IsTrue, ◌↔◌};
ghost use Rattle.std.specs.Prelude.{MatchOption, IfSome, IfOk, OnOk};
ghost use Rattle.std.specs.List.{AllPairs};
ghost use Rattle.dl_syntax.specs.declared.queries.Term.{Term as TermValue};
ghost use Rattle.dl_syntax.specs.declared.queries.Cq.{Cq as CqValue};
ghost use Rattle.dl_syntax.specs.Queries.{IsQuery};
ghost use Rattle.query_unify.specs.Substitution.{applied, applied_atom, applied_query, image_of};
ghost use Rattle.query_unify.specs.Substitution.{IsMostGeneral, CannotUnify};
ghost use Rattle.query_unify.specs.Reach.{Reduces};
ghost use Rattle.query_unify.specs.Bindings.{image, both_images, applied_binding, pairs_in, Binds};
ghost use Rattle.query_unify.specs.Bindings.{UnifiesTerms, CannotUnifyTerms, UnifiesPairs};
ghost use Rattle.query_unify.specs.Bindings.{CannotUnifyPairs};

use crate::normal::into_normal;
use dl_syntax::{Atom, Cq, Items, Memory, Term};
use std::alloc::Global;

/// Terms for variables, each variable listed at most once. They are put in all at once, and every
/// other variable stays.
#[derive(Debug, Drop)]
pub struct Subst {
    pub pairs: Items<(u16, Term)>,
}

/// A term for one variable, or for none.
#[derive(Clone, Copy, Debug)]
enum Binding {
    Nothing,
    Bind(u16, Term),
}

/// Two bindings, one after the other.
#[derive(Clone, Copy, Debug)]
struct Bindings {
    first: Binding,
    second: Binding,
}

/// The term under the binding.
fn apply(binding: Binding, term: Term) -> Term
    ensures { result ≡ applied (image binding) term }
{
    match (binding, term) {
        (Binding::Bind(variable, bound), Term::Var(other)) => {
            if variable == other { bound } else { term }
        }
        _ => term,
    }
}

/// The most general binding that makes two terms equal. The variable that it has a term for is one
/// of the two, and its term is another.
fn unify_terms(a: Term, b: Term) -> Option<Binding>
    ensures unifies { MatchOption result (CannotUnifyTerms a b) (λ s. UnifiesTerms (image s) a b) }
    ensures known { IfSome result (λ s. (v : ℕ) → Binds s v → (a ≡ Term.Var v) ⊎ (b ≡ Term.Var v)) }
    ensures gone { IfSome result (λ s. (v : ℕ) (x : TermValue) → Binds s v
        → applied (image s) x ≡ Term.Var v → ⊥) }
{
    match (a, b) {
        (Term::Var(variable), Term::Var(other)) => {
            if variable == other {
                Some(Binding::Nothing)
            } else {
                Some(Binding::Bind(variable, b))
            }
        }
        (Term::Var(variable), Term::Ind(_)) => Some(Binding::Bind(variable, b)),
        (Term::Ind(_), Term::Var(variable)) => Some(Binding::Bind(variable, a)),
        (Term::Ind(one), Term::Ind(other)) => {
            if one == other {
                Some(Binding::Nothing)
            } else {
                None
            }
        }
    }
}

/// The most general bindings that make two pairs of terms equal.
fn unify_pairs(a: Term, b: Term, c: Term, d: Term) -> Option<Bindings>
    ensures unifies { MatchOption result (CannotUnifyPairs a b c d) (λ s.
        UnifiesPairs (both_images s) a b c d) }
    ensures apart { IfSome result (λ s. (v : ℕ) → Binds s.first v → Binds s.second v → ⊥) }
{
    let first = unify_terms(a, b)?;
    let second = unify_terms(apply(first, c), apply(first, d))?;
    Some(Bindings { first, second })
}

/// The most general bindings that make two atoms equal, if there are any.
fn unify_atoms(a: &Atom, b: &Atom) -> Option<Bindings>
    ensures unifies { MatchOption result (CannotUnify a.now b.now) (λ s.
        IsMostGeneral (both_images s) a.now b.now) }
    ensures apart { IfSome result (λ s. (v : ℕ) → Binds s.first v → Binds s.second v → ⊥) }
{
    match (*a, *b) {
        (Atom::Concept(one, x), Atom::Concept(other, y)) => {
            if one != other {
                return None;
            }
            let first = unify_terms(x, y)?;
            Some(Bindings {
                first,
                second: Binding::Nothing,
            })
        }
        (Atom::Role(one, x, u), Atom::Role(other, y, v)) => {
            if one != other {
                return None;
            }
            unify_pairs(x, y, u, v)
        }
        _ => None,
    }
}

/// The first binding with the second one applied to its term.
fn bound_again(first: Binding, second: Binding) -> Binding
    ensures { result ≡ applied_binding (image second) first }
{
    match first {
        Binding::Nothing => Binding::Nothing,
        Binding::Bind(variable, term) => Binding::Bind(variable, apply(second, term)),
    }
}

/// Puts the variable of the binding last, with its term.
fn push_binding(pairs: &mut Vec<(u16, Term)>, binding: Binding) -> Result<(), Memory>
    ensures { OnOk result (pairs.new.items ≡ pairs.old.items ++ pairs_in binding) }
{
    if let Binding::Bind(variable, term) = binding {
        let pair = (variable, term);
        pairs.push(pair)?;
    }
    Ok(())
}

/// The bindings put in all at once.
fn pairs_of(alloc: Global, bindings: &Bindings) -> Result<Vec<(u16, Term)>, Memory>
    ensures { IfOk result (λ pairs. pairs.items
        ≡ pairs_in (applied_binding (image bindings.now.second) bindings.now.first)
        ++ pairs_in bindings.now.second) }
{
    let mut pairs = Vec::with_capacity(alloc, 2)?;
    push_binding(&mut pairs, bound_again(bindings.first, bindings.second))?;
    push_binding(&mut pairs, bindings.second)?;
    Ok(pairs)
}

/// A most general substitution that makes two atoms equal, if any substitution does. Two different
/// individuals are never equal.
pub fn unify(alloc: Global, a: &Atom, b: &Atom) -> Result<Option<Subst>, Memory>
    ensures unifies { IfOk result (λ unified.
        MatchOption unified (CannotUnify a.now b.now) (λ s.
        IsMostGeneral (image_of s.pairs) a.now b.now)) }
    ensures once { IfOk result (λ unified.
        IfSome unified (λ s. AllPairs (λ p r. p.0 ≢ r.0) s.pairs)) }
{
    match unify_atoms(a, b) {
        Some(bindings) => {
            let pairs = pairs_of(alloc, &bindings)?;
            let pairs = Items::from_vec(pairs);
            Ok(Some(Subst { pairs }))
        }
        None => Ok(None),
    }
}

/// Whether some substitution makes the atoms equal.
pub fn atoms_unify(a: &Atom, b: &Atom) -> bool
    ensures { IsTrue result ↔ ((s : ℕ → TermValue)
        × (applied_atom s a.now ≡ applied_atom s b.now)) }
{
    unify_atoms(a, b).is_some()
}

/// The term under the bindings.
fn substituted(bindings: &Bindings, term: &Term) -> Term
    ensures { result ≡ applied (both_images bindings.now) term.now }
{
    apply(bindings.second, apply(bindings.first, *term))
}

fn substituted_atom(bindings: &Bindings, atom: &Atom) -> Atom
    ensures { result ≡ applied_atom (both_images bindings.now) atom.now }
{
    match atom {
        Atom::Concept(c, x) => Atom::Concept(*c, substituted(bindings, x)),
        Atom::Role(p, x, y) => Atom::Role(*p, substituted(bindings, x), substituted(bindings, y)),
    }
}

fn substituted_head(alloc: Global, bindings: &Bindings, head: &[Term]) -> Result<Vec<Term>, Memory>
    ensures { IfOk result (λ terms. terms.items
        ≡ map (applied (both_images bindings.now)) head.now) }
{
    let mut terms = Vec::with_capacity(alloc, head.len())?;
    for term in head {
        terms.push(substituted(bindings, term))?;
    }
    Ok(terms)
}

fn substituted_body(alloc: Global, bindings: &Bindings, body: &[Atom]) -> Result<Vec<Atom>, Memory>
    ensures { IfOk result (λ atoms. atoms.items
        ≡ map (applied_atom (both_images bindings.now)) body.now) }
{
    let mut atoms = Vec::with_capacity(alloc, body.len())?;
    for atom in body {
        atoms.push(substituted_atom(bindings, atom))?;
    }
    Ok(atoms)
}

/// The query under the bindings.
fn substituted_query(alloc: Global, bindings: &Bindings, cq: &Cq) -> Result<Cq, Memory>
    ensures { IfOk result (λ q. q ≡ applied_query (both_images bindings.now) cq.now) }
{
    let head = substituted_head(alloc, bindings, cq.head.as_slice())?;
    let body = substituted_body(alloc, bindings, cq.body.as_slice())?;
    Ok(Cq {
        head: Items::from_vec(head),
        body: Items::from_vec(body),
    })
}

/// The normal form of the query after a most general unifier of the atoms at two places is applied
/// to head and body; none where no substitution makes them equal.
pub fn reduce(alloc: Global, cq: &Cq, first: u16, second: u16) -> Result<Option<Cq>, Memory>
    requires query { IsQuery cq.now }
    requires order { first < second }
    requires within { second < length cq.now.body }
    ensures { IfOk result (λ reduced. MatchOption reduced ((q : CqValue)
        → Reduces first second cq.now q → ⊥) (λ q. Reduces first second cq.now q)) }
{
    let atoms = cq.body.as_slice();
    match unify_atoms(&atoms[first as usize], &atoms[second as usize]) {
        Some(bindings) => {
            let applied = substituted_query(alloc, &bindings, cq)?;
            let normal = into_normal(alloc, applied)?;
            Ok(Some(normal))
        }
        None => Ok(None),
    }
}
