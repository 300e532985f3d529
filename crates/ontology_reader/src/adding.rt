//! What a line adds to an ontology.

ghost use Rattle.std.specs.Prelude.{◌≡◌, ◌<◌, length, IfOk};
ghost use Rattle.dl_syntax.specs.Names.{IsDeclarable};
ghost use Rattle.dl_syntax.specs.Declaring.{IsDeclaredRole, IsDeclaredBasic, IsDeclaredInclusion};
ghost use Rattle.dl_syntax.specs.Declaring.{IsDeclaredClash};
ghost use Rattle.dl_syntax.specs.Ontology.{names_of};
ghost use Rattle.ontology_reader.specs.Adding.{resolved, role_of, basic_of, declared, included};
ghost use Rattle.ontology_reader.specs.Adding.{with_disjointness, added};
ghost use Rattle.ontology_reader.specs.Answers.{Gives, Changes, IsDeclarableSaying};
ghost use Rattle.ontology_reader.specs.Views.{role_seen, basic_seen, saying_seen};

use crate::OntologyKind;
use crate::sayings::{BasicTerm, RoleTerm, Saying};
use dl_syntax::{
    AddFault, Basic, Clash, ConceptId, Inclusion, Kind, NameFault, Ontology, Role, RoleId,
};

/// Why a line is not added.
#[derive(Clone, Copy, PartialEq, Eq, Debug)]
pub enum LineFault {
    Kind(OntologyKind),
    Memory,
}

/// The number of a name that is to be of this kind.
fn resolved(ontology: &Ontology, kind: Kind, text: &[u8]) -> Result<u32, LineFault>
    ensures given { Gives result (resolved ontology.now kind text.now) (λ number. number) }
    ensures known { IfOk result (λ number. number < length (names_of kind ontology.now)) }
{
    if let Some(number) = ontology.find(kind, text) {
        return Ok(number);
    }
    if ontology.is_declared(text) {
        return Err(LineFault::Kind(OntologyKind::WrongKind));
    }
    Err(LineFault::Kind(OntologyKind::Unknown))
}

/// The role that is written.
fn role_of(ontology: &Ontology, written: &RoleTerm<'_>) -> Result<Role, LineFault>
    ensures given { Gives result (role_of ontology.now (role_seen written.now)) (λ role. role) }
    ensures known { IfOk result (λ role. IsDeclaredRole (length ontology.now.roles) role) }
{
    let number = resolved(ontology, Kind::Role, written.role)?;
    Ok(Role {
        id: RoleId(number),
        inverse: written.inverse,
    })
}

/// The basic concept that is written.
fn basic_of(ontology: &Ontology, written: &BasicTerm<'_>) -> Result<Basic, LineFault>
    ensures given { Gives result (basic_of ontology.now (basic_seen written.now)) (λ basic. basic) }
    ensures known { IfOk result (λ basic. IsDeclaredBasic (length ontology.now.concepts)
        (length ontology.now.roles) basic) }
{
    match written {
        BasicTerm::Concept(name) => {
            let number = resolved(ontology, Kind::Concept, name)?;
            Ok(Basic::Concept(ConceptId(number)))
        }
        BasicTerm::Existing(role) => {
            let role = role_of(ontology, role)?;
            Ok(Basic::Some(role))
        }
    }
}

/// Declares a name.
fn declare(ontology: &mut Ontology, kind: Kind, name: &[u8]) -> Result<(), LineFault>
    requires { IsDeclarable name.now }
    ensures { Changes result (declared ontology.old kind name.now) ontology.new }
{
    let _ = ontology.count(kind);
    match ontology.add_name(kind, name) {
        Ok(_) => Ok(()),
        Err(NameFault::NameTwice) => Err(LineFault::Kind(OntologyKind::NameTwice)),
        Err(NameFault::TooMany) => Err(LineFault::Kind(OntologyKind::TooMany)),
        Err(NameFault::Memory) => Err(LineFault::Memory),
    }
}

/// Adds an inclusion of declared names.
fn include(ontology: &mut Ontology, inclusion: Inclusion) -> Result<(), LineFault>
    requires { IsDeclaredInclusion (length ontology.old.concepts)
        (length ontology.old.roles) inclusion }
    ensures { Changes result (included ontology.old inclusion) ontology.new }
{
    let _ = ontology.inclusions();
    match ontology.add_inclusion(inclusion) {
        Ok(()) => Ok(()),
        Err(AddFault::TooMany) => Err(LineFault::Kind(OntologyKind::TooMany)),
        Err(AddFault::Memory) => Err(LineFault::Memory),
    }
}

/// Adds a clash of declared names.
fn part(ontology: &mut Ontology, clash: Clash) -> Result<(), LineFault>
    requires { IsDeclaredClash (length ontology.old.concepts) (length ontology.old.roles) clash }
    ensures { Changes result (with_disjointness ontology.old clash) ontology.new }
{
    let _ = ontology.clashes();
    match ontology.add_clash(clash) {
        Ok(()) => Ok(()),
        Err(AddFault::TooMany) => Err(LineFault::Kind(OntologyKind::TooMany)),
        Err(AddFault::Memory) => Err(LineFault::Memory),
    }
}

/// Adds what a line says.
#[tactic(auto, unfolding(crate::specs::Adding::added))]
pub fn add(ontology: &mut Ontology, saying: &Saying<'_>) -> Result<(), LineFault>
    requires { IsDeclarableSaying (saying_seen saying.now) }
    ensures { Changes result (added ontology.old (saying_seen saying.now)) ontology.new }
{
    match saying {
        Saying::Nothing => Ok(()),
        Saying::Declares(kind, name) => declare(ontology, *kind, name),
        Saying::Includes(left, right) => {
            let left = basic_of(ontology, left)?;
            let right = basic_of(ontology, right)?;
            include(ontology, Inclusion::Concepts(left, right))
        }
        Saying::IncludesQualified(left, role, name) => {
            let left = basic_of(ontology, left)?;
            let role = role_of(ontology, role)?;
            let number = resolved(ontology, Kind::Concept, name)?;
            include(
                ontology,
                Inclusion::Qualified(left, role, ConceptId(number)),
            )
        }
        Saying::IncludesRoles(left, right) => {
            let left = role_of(ontology, left)?;
            let right = role_of(ontology, right)?;
            include(ontology, Inclusion::Roles(left, right))
        }
        Saying::Disjoint(left, right) => {
            let left = basic_of(ontology, left)?;
            let right = basic_of(ontology, right)?;
            part(ontology, Clash::Concepts(left, right))
        }
        Saying::DisjointRoles(left, right) => {
            let left = role_of(ontology, left)?;
            let right = role_of(ontology, right)?;
            part(ontology, Clash::Roles(left, right))
        }
        Saying::HasNoForm => Err(LineFault::Kind(OntologyKind::BadLine)),
    }
}
