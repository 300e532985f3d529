//! What the axioms of a document say.

ghost use Rattle.std.specs.Prelude.{List, ℕ, ◌≡◌, ◌∷◌, [], ◌++◌, IfOk, OnOk, map, length};
ghost use Rattle.ontology_reader.specs.Answers.{Changes, IsDeclarableSaying};
ghost use Rattle.ontology_reader.specs.Views as sayings;
ghost use Rattle.owl_reader.specs.Statements as s;
ghost use Rattle.owl_documents.specs.Views.{role_seen, class_seen};
ghost use Rattle.owl_documents.specs.ItemViews.{axiom_seen, item_seen};
ghost use Rattle.owl_reader.specs.StatementViews.{Says, Becomes, entities_seen, term_seen};

use crate::entities::{Entities, Flaw, SayFault, Term, class_term, role_term};
use dl_syntax::Ontology;
use ontology_reader::{BasicTerm, LineFault, RoleTerm, Saying, add};
use owl_documents::{Axiom, Class, Item, Role};
use owl_tokens::{Head, Table};
use std::alloc::Global;

/// The inverse of a role.
fn turned<'a>(term: &Term<'a>) -> Term<'a>
    ensures { term_seen result ≡ s.turned (term_seen term.now) }
{
    match term {
        Term::Role(role) => Term::Role(RoleTerm {
            role: role.role,
            inverse: !role.inverse,
        }),
        term => *term,
    }
}

/// What stands first in some pair of a role.
fn standing<'a>(term: &Term<'a>) -> Term<'a>
    ensures { term_seen result ≡ s.standing (term_seen term.now) }
{
    match term {
        Term::Role(role) => Term::Basic(BasicTerm::Existing(*role)),
        term => *term,
    }
}

/// The first is in the second.
fn sub<'a>(left: &Term<'a>, right: &Term<'a>) -> Saying<'a>
    ensures { sayings.saying_seen result ≡ s.sub (term_seen left.now) (term_seen right.now) }
{
    match (left, right) {
        (Term::Role(left), Term::Role(right)) => Saying::IncludesRoles(*left, *right),
        (Term::Basic(left), Term::Basic(right)) => Saying::Includes(*left, *right),
        (Term::Basic(left), Term::Qualified(role, name)) => {
            Saying::IncludesQualified(*left, *role, name)
        }
        _ => Saying::Nothing,
    }
}

/// Nothing is in both.
fn disjoint_terms<'a>(left: &Term<'a>, right: &Term<'a>) -> Saying<'a>
    ensures { sayings.saying_seen result
        ≡ s.disjoint_terms (term_seen left.now) (term_seen right.now) }
{
    match (left, right) {
        (Term::Role(left), Term::Role(right)) => Saying::DisjointRoles(*left, *right),
        (Term::Basic(left), Term::Basic(right)) => Saying::Disjoint(*left, *right),
        _ => Saying::Nothing,
    }
}

/// Adds what two terms say.
fn add_sub(ontology: &mut Ontology, left: &Term<'_>, right: &Term<'_>) -> Result<(), LineFault>
    ensures { Changes result (s.added_one ontology.old
        (s.sub (term_seen left.now) (term_seen right.now))) ontology.new }
{
    add(ontology, &sub(left, right))
}

/// Adds that nothing is in both.
fn add_disjoint(ontology: &mut Ontology, left: &Term<'_>, right: &Term<'_>) -> Result<(), LineFault>
    ensures { Changes result (s.added_one ontology.old
        (s.disjoint_terms (term_seen left.now) (term_seen right.now))) ontology.new }
{
    add(ontology, &disjoint_terms(left, right))
}

/// Adds each in the next one, and the last in the first.
fn add_equivalent(ontology: &mut Ontology, terms: &[Term<'_>]) -> Result<(), LineFault>
    ensures { Changes result (s.all_added ontology.old (s.equivalent (map term_seen terms.now)))
        ontology.new }
{
    let mut place = 0;
    while place < terms.len() {
        let next = if place + 1 < terms.len() {
            place + 1
        } else {
            0
        };
        match add_sub(ontology, &terms[place], &terms[next]) {
            Ok(()) => {}
            Err(fault) => return Err(fault),
        }
        place += 1;
    }
    Ok(())
}

/// Adds that a term is disjoint with each of the terms.
fn add_disjoint_each(
    ontology: &mut Ontology,
    left: &Term<'_>,
    terms: &[Term<'_>],
) -> Result<(), LineFault>
    ensures { Changes result (s.all_added ontology.old
        (map (s.disjoint_terms (term_seen left.now)) (map term_seen terms.now))) ontology.new }
{
    let mut place = 0;
    while place < terms.len() {
        match add_disjoint(ontology, left, &terms[place]) {
            Ok(()) => {}
            Err(fault) => return Err(fault),
        }
        place += 1;
    }
    Ok(())
}

/// Adds that each term is disjoint with each of those behind it.
fn add_all_disjoint(ontology: &mut Ontology, terms: &[Term<'_>]) -> Result<(), LineFault>
    ensures { Changes result (s.all_added ontology.old (s.all_disjoint (map term_seen terms.now)))
        ontology.new }
{
    let mut place = 0;
    while place < terms.len() {
        match add_disjoint_each(ontology, &terms[place], &terms[place + 1..]) {
            Ok(()) => {}
            Err(fault) => return Err(fault),
        }
        place += 1;
    }
    Ok(())
}

/// Adds one statement, behind which none stands.
#[tactic(auto, unfolding(crate::specs::Statements::all_added))]
fn add_last(ontology: &mut Ontology, saying: &Saying<'_>) -> Result<(), LineFault>
    requires { IsDeclarableSaying (sayings.saying_seen saying.now) }
    ensures { Changes result (s.all_added ontology.old (sayings.saying_seen saying.now ∷ []))
        ontology.new }
{
    add(ontology, saying)
}

/// Adds that one term is in another.
#[tactic(auto, unfolding(crate::specs::Statements::all_added))]
fn add_sub_first(ontology: &mut Ontology, terms: &[Term<'_>]) -> Result<(), LineFault>
    ensures { Changes result (s.all_added ontology.old (s.sub_first (map term_seen terms.now)))
        ontology.new }
{
    match terms {
        [left, right] => add_last(ontology, &sub(left, right)),
        _ => Ok(()),
    }
}

/// Adds that each of two roles is the other one the other way round.
#[tactic(auto, unfolding(crate::specs::Statements::all_added))]
fn add_inverses(ontology: &mut Ontology, terms: &[Term<'_>]) -> Result<(), LineFault>
    ensures { Changes result (s.all_added ontology.old (s.inverses (map term_seen terms.now)))
        ontology.new }
{
    match terms {
        [left, right] => {
            let right = turned(right);
            match add(ontology, &sub(left, &right)) {
                Ok(()) => add_last(ontology, &sub(&right, left)),
                Err(fault) => Err(fault),
            }
        }
        _ => Ok(()),
    }
}

/// Adds that a role holds both ways.
#[tactic(auto, unfolding(crate::specs::Statements::all_added))]
fn add_symmetric(ontology: &mut Ontology, terms: &[Term<'_>]) -> Result<(), LineFault>
    ensures { Changes result (s.all_added ontology.old (s.symmetric (map term_seen terms.now)))
        ontology.new }
{
    match terms {
        [role] => add_last(ontology, &sub(role, &turned(role))),
        _ => Ok(()),
    }
}

/// Adds that a role never holds both ways.
#[tactic(auto, unfolding(crate::specs::Statements::all_added))]
fn add_asymmetric(ontology: &mut Ontology, terms: &[Term<'_>]) -> Result<(), LineFault>
    ensures { Changes result (s.all_added ontology.old (s.asymmetric (map term_seen terms.now)))
        ontology.new }
{
    match terms {
        [role] => add_last(ontology, &disjoint_terms(role, &turned(role))),
        _ => Ok(()),
    }
}

/// Adds that what stands first in a pair of a role is in a class.
#[tactic(auto, unfolding(crate::specs::Statements::all_added))]
fn add_domain(ontology: &mut Ontology, terms: &[Term<'_>]) -> Result<(), LineFault>
    ensures { Changes result (s.all_added ontology.old (s.domain (map term_seen terms.now)))
        ontology.new }
{
    match terms {
        [role, class] => add_last(ontology, &sub(&standing(role), class)),
        _ => Ok(()),
    }
}

/// Adds that what stands second in a pair of a role is in a class.
#[tactic(auto, unfolding(crate::specs::Statements::all_added))]
fn add_range(ontology: &mut Ontology, terms: &[Term<'_>]) -> Result<(), LineFault>
    ensures { Changes result (s.all_added ontology.old (s.range (map term_seen terms.now)))
        ontology.new }
{
    match terms {
        [role, class] => add_last(ontology, &sub(&standing(&turned(role)), class)),
        _ => Ok(()),
    }
}

/// Adds what an axiom says.
#[tactic(auto, unfolding(crate::specs::Statements::all_added))]
fn add_statements(ontology: &mut Ontology, form: Head, terms: &[Term<'_>]) -> Result<(), LineFault>
    ensures { Changes result (s.all_added ontology.old
        (s.statements form (map term_seen terms.now))) ontology.new }
{
    match form {
        Head::SubClassOf | Head::SubObjectPropertyOf => add_sub_first(ontology, terms),
        Head::EquivalentClasses | Head::EquivalentObjectProperties => {
            add_equivalent(ontology, terms)
        }
        Head::DisjointClasses | Head::DisjointObjectProperties => {
            add_all_disjoint(ontology, terms)
        }
        Head::InverseObjectProperties => add_inverses(ontology, terms),
        Head::SymmetricObjectProperty => add_symmetric(ontology, terms),
        Head::AsymmetricObjectProperty => add_asymmetric(ontology, terms),
        Head::ObjectPropertyDomain => add_domain(ontology, terms),
        Head::ObjectPropertyRange => add_range(ontology, terms),
        _ => Ok(()),
    }
}

/// The roles as terms.
fn role_terms<'a>(
    alloc: Global,
    bytes: &[u8],
    known: &Table,
    entities: &'a Entities,
    roles: &[Role],
) -> Result<Vec<Term<'a>>, SayFault>
    ensures { Says result (s.all_said (s.role_term known.now (entities_seen entities.now))
        (map (role_seen bytes.now) roles.now)) (λ terms. map term_seen terms.items) }
{
    let mut terms = Vec::new(alloc);
    let mut place = 0;
    'each: while place < roles.len() {
        match role_term(alloc, bytes, known, entities, &roles[place]) {
            Ok(term) => terms.push(term)?,
            Err(fault) => return Err(fault),
        }
        place += 1;
    }
    Ok(terms)
}

/// The class expressions as terms, behind those that are there.
fn class_terms<'a>(
    alloc: Global,
    bytes: &[u8],
    known: &Table,
    entities: &'a Entities,
    roles: Vec<Term<'a>>,
    classes: &[Class],
) -> Result<Vec<Term<'a>>, SayFault>
    ensures { Says result (s.said_behind (map term_seen roles.entry.items)
        (s.all_said (s.class_term known.now (entities_seen entities.now))
        (map (class_seen bytes.now) classes.now))) (λ terms. map term_seen terms.items) }
{
    let mut terms = roles;
    let mut place = 0;
    'each: while place < classes.len() {
        match class_term(alloc, bytes, known, entities, &classes[place]) {
            Ok(term) => terms.push(term)?,
            Err(fault) => return Err(fault),
        }
        place += 1;
    }
    Ok(terms)
}

/// The roles of an axiom, and then its class expressions.
#[tactic(auto, unfolding(crate::specs::Statements::terms_said))]
fn terms_said<'a>(
    alloc: Global,
    bytes: &[u8],
    known: &Table,
    entities: &'a Entities,
    axiom: &Axiom,
) -> Result<Vec<Term<'a>>, SayFault>
    ensures { Says result (s.terms_said known.now (entities_seen entities.now)
        (axiom_seen bytes.now axiom.now)) (λ terms. map term_seen terms.items) }
{
    match role_terms(alloc, bytes, known, entities, axiom.roles.as_slice()) {
        Ok(roles) => class_terms(
            alloc,
            bytes,
            known,
            entities,
            roles,
            axiom.classes.as_slice(),
        ),
        Err(fault) => Err(fault),
    }
}

/// Adds an axiom.
#[tactic(auto, unfolding(crate::specs::Statements::axiom_added))]
fn add_axiom(
    alloc: Global,
    bytes: &[u8],
    known: &Table,
    entities: &Entities,
    ontology: &mut Ontology,
    axiom: &Axiom,
) -> Result<(), SayFault>
    ensures { Becomes result (s.axiom_added known.now (entities_seen entities.now) ontology.old
        (axiom_seen bytes.now axiom.now)) ontology.new }
{
    match terms_said(alloc, bytes, known, entities, axiom) {
        Ok(terms) => match add_statements(ontology, axiom.form, terms.as_slice()) {
            Ok(()) => Ok(()),
            Err(LineFault::Kind(_)) => Err(SayFault::Flaw(axiom.close, Flaw::TooMany)),
            Err(LineFault::Memory) => Err(SayFault::Memory),
        },
        Err(fault) => Err(fault),
    }
}

/// Adds what an item states.
fn add_item(
    alloc: Global,
    bytes: &[u8],
    known: &Table,
    entities: &Entities,
    ontology: &mut Ontology,
    item: &Item,
) -> Result<(), SayFault>
    ensures { Becomes result (s.item_added known.now (entities_seen entities.now) ontology.old
        (item_seen bytes.now item.now)) ontology.new }
{
    match item {
        Item::States(axiom) => add_axiom(alloc, bytes, known, entities, ontology, axiom),
        _ => Ok(()),
    }
}

/// Adds the axioms among the items.
pub(crate) fn add_axioms(
    alloc: Global,
    bytes: &[u8],
    known: &Table,
    entities: &Entities,
    ontology: &mut Ontology,
    items: &[Item],
) -> Result<(), SayFault>
    ensures { Becomes result (s.axioms_added known.now (entities_seen entities.now) ontology.old
        (map (item_seen bytes.now) items.now)) ontology.new }
{
    let mut place = 0;
    'each: while place < items.len() {
        match add_item(alloc, bytes, known, entities, ontology, &items[place]) {
            Ok(()) => {}
            Err(fault) => return Err(fault),
        }
        place += 1;
    }
    Ok(())
}
