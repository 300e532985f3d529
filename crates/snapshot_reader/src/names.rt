//! The facts that names stand for.

ghost use Rattle.std.specs.Prelude.{◌≡◌, ◌∷◌, [], find, not};
ghost use Rattle.dl_syntax.specs.declared.names.Kind.TheVariants.{Individual};
ghost use Rattle.snapshot_reader.specs.Said.{is_name_of, is_fitting, first_unknown, first_misused};
ghost use Rattle.snapshot_reader.specs.Said.{first_undeclared, individual_of, fact_of};
ghost use Rattle.snapshot_reader.specs.ModelLines.{names_no_element, first_misplaced};
ghost use Rattle.snapshot_reader.specs.Cursor.{written_seen, name_seen};

use crate::facts::Written;
use dl_syntax::{ConceptId, Element, Fact, IndId, Kind, Ontology, RoleId};

fn is_name_of(ontology: &Ontology, kind: Kind, text: &[u8]) -> bool
    ensures { result ≡ is_name_of kind ontology.now text.now }
{
    ontology.find(kind, text).is_some()
}

/// The individual of this name.
#[inline]
fn individual_of(ontology: &Ontology, name: &[u8]) -> Option<Element>
    ensures { result ≡ individual_of ontology.now name.now }
{
    match ontology.find(Kind::Individual, name) {
        Some(number) => Some(Element::Ind(IndId(number))),
        None => None,
    }
}

/// The fact by its numbers, if its names are declared so.
#[inline]
pub(crate) fn fact_of(ontology: &Ontology, written: &Written<'_>) -> Option<Fact>
    ensures { result ≡ fact_of ontology.now (written_seen written.now) }
{
    match written {
        Written::Unary(predicate, argument) => {
            let concept = ontology.find(Kind::Concept, predicate)?;
            let element = individual_of(ontology, argument)?;
            Some(Fact::Concept(ConceptId(concept), element))
        }
        Written::Binary(predicate, first, second) => {
            let role = ontology.find(Kind::Role, predicate)?;
            let first = individual_of(ontology, first)?;
            let second = individual_of(ontology, second)?;
            Some(Fact::Role(RoleId(role), first, second))
        }
    }
}

/// The predicate, if it is declared as nothing.
pub(crate) fn unknown<'a>(ontology: &Ontology, written: &Written<'a>) -> Option<&'a [u8]>
    ensures { name_seen result ≡ first_unknown ontology.now (written_seen written.now ∷ []) }
{
    let predicate = match written {
        Written::Unary(predicate, _) => *predicate,
        Written::Binary(predicate, _, _) => *predicate,
    };
    if ontology.is_declared(predicate) {
        None
    } else {
        Some(predicate)
    }
}

/// The predicate, if it isn't a concept with one argument or a role with two.
pub(crate) fn misused<'a>(ontology: &Ontology, written: &Written<'a>) -> Option<&'a [u8]>
    ensures { name_seen result ≡ first_misused ontology.now (written_seen written.now ∷ []) }
{
    let (predicate, kind) = match written {
        Written::Unary(predicate, _) => (*predicate, Kind::Concept),
        Written::Binary(predicate, _, _) => (*predicate, Kind::Role),
    };
    if is_name_of(ontology, kind, predicate) {
        None
    } else {
        Some(predicate)
    }
}

/// The name, if no individual has it.
fn no_individual<'a>(ontology: &Ontology, name: &'a [u8]) -> Option<&'a [u8]>
    ensures { name_seen result
        ≡ find (λ text. not (is_name_of Individual ontology.now text)) (name.now ∷ []) }
{
    if is_name_of(ontology, Kind::Individual, name) {
        None
    } else {
        Some(name)
    }
}

/// The first argument that is no individual.
pub(crate) fn undeclared<'a>(ontology: &Ontology, written: &Written<'a>) -> Option<&'a [u8]>
    ensures { name_seen result ≡ first_undeclared ontology.now (written_seen written.now ∷ []) }
{
    match written {
        Written::Unary(_, argument) => no_individual(ontology, argument),
        Written::Binary(_, first, second) => match no_individual(ontology, first) {
            Some(name) => Some(name),
            None => no_individual(ontology, second),
        },
    }
}

/// The name, if it is declared as a concept or as a role.
fn no_element<'a>(ontology: &Ontology, name: &'a [u8]) -> Option<&'a [u8]>
    ensures { name_seen result ≡ find (names_no_element ontology.now) (name.now ∷ []) }
{
    if is_name_of(ontology, Kind::Concept, name) || is_name_of(ontology, Kind::Role, name) {
        Some(name)
    } else {
        None
    }
}

/// The first argument that is declared as a concept or as a role.
pub(crate) fn misplaced<'a>(ontology: &Ontology, written: &Written<'a>) -> Option<&'a [u8]>
    ensures { name_seen result ≡ first_misplaced ontology.now (written_seen written.now ∷ []) }
{
    match written {
        Written::Unary(_, argument) => no_element(ontology, argument),
        Written::Binary(_, first, second) => match no_element(ontology, first) {
            Some(name) => Some(name),
            None => no_element(ontology, second),
        },
    }
}
