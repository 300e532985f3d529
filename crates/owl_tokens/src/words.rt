//! The words that have a meaning.

ghost use Rattle.std.specs.Prelude.{◌≡◌};
ghost use Rattle.owl_tokens.specs.Words as words;

/// The words that head the groups of the profile.
#[derive(Clone, Copy, Debug, PartialEq, Eq)]
pub enum Head {
    Declaration,
    Class,
    ObjectProperty,
    NamedIndividual,
    AnnotationProperty,
    SubClassOf,
    EquivalentClasses,
    DisjointClasses,
    SubObjectPropertyOf,
    EquivalentObjectProperties,
    DisjointObjectProperties,
    InverseObjectProperties,
    SymmetricObjectProperty,
    AsymmetricObjectProperty,
    ObjectPropertyDomain,
    ObjectPropertyRange,
    ObjectSomeValuesFrom,
    ObjectInverseOf,
    Annotation,
    AnnotationAssertion,
    SubAnnotationPropertyOf,
    AnnotationPropertyDomain,
    AnnotationPropertyRange,
    /// No word of the profile.
    Other,
}

/// The word that a text is.
#[tactic(auto, unfolding(crate::specs::Words::head_of, crate::specs::Words::heads))]
pub fn head_of(text: &[u8]) -> Head
    ensures { result ≡ words.head_of text.now }
{
    if text == b"Declaration".as_slice() {
        Head::Declaration
    } else if text == b"Class".as_slice() {
        Head::Class
    } else if text == b"ObjectProperty".as_slice() {
        Head::ObjectProperty
    } else if text == b"NamedIndividual".as_slice() {
        Head::NamedIndividual
    } else if text == b"AnnotationProperty".as_slice() {
        Head::AnnotationProperty
    } else if text == b"SubClassOf".as_slice() {
        Head::SubClassOf
    } else if text == b"EquivalentClasses".as_slice() {
        Head::EquivalentClasses
    } else if text == b"DisjointClasses".as_slice() {
        Head::DisjointClasses
    } else if text == b"SubObjectPropertyOf".as_slice() {
        Head::SubObjectPropertyOf
    } else if text == b"EquivalentObjectProperties".as_slice() {
        Head::EquivalentObjectProperties
    } else if text == b"DisjointObjectProperties".as_slice() {
        Head::DisjointObjectProperties
    } else if text == b"InverseObjectProperties".as_slice() {
        Head::InverseObjectProperties
    } else if text == b"SymmetricObjectProperty".as_slice() {
        Head::SymmetricObjectProperty
    } else if text == b"AsymmetricObjectProperty".as_slice() {
        Head::AsymmetricObjectProperty
    } else if text == b"ObjectPropertyDomain".as_slice() {
        Head::ObjectPropertyDomain
    } else if text == b"ObjectPropertyRange".as_slice() {
        Head::ObjectPropertyRange
    } else if text == b"ObjectSomeValuesFrom".as_slice() {
        Head::ObjectSomeValuesFrom
    } else if text == b"ObjectInverseOf".as_slice() {
        Head::ObjectInverseOf
    } else if text == b"Annotation".as_slice() {
        Head::Annotation
    } else if text == b"AnnotationAssertion".as_slice() {
        Head::AnnotationAssertion
    } else if text == b"SubAnnotationPropertyOf".as_slice() {
        Head::SubAnnotationPropertyOf
    } else if text == b"AnnotationPropertyDomain".as_slice() {
        Head::AnnotationPropertyDomain
    } else if text == b"AnnotationPropertyRange".as_slice() {
        Head::AnnotationPropertyRange
    } else {
        Head::Other
    }
}
