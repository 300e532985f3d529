//! The names of individuals, and how they are spelled.

ghost use Rattle.std.specs.Prelude.{◌≡◌, ◌<◌, length};
ghost use Rattle.report_text.specs.Names.{AreIndividualsSpelled, name_text};

use dl_syntax::{IndId, Kind, Ontology};

/// The name of an individual.
#[inline]
pub fn individual_name(ontology: &Ontology, individual: IndId) -> &[u8]
    requires { individual.0 < length ontology.now.individuals }
    ensures { result.now ≡ name_text ontology.now.individuals individual.0 }
{
    ontology.name(Kind::Individual, individual.0)
}

/// Tells that the names of the individuals are spelled as names, as an ontology's always are.
#[inline]
pub fn individuals_are_spelled(ontology: &Ontology)
    ensures { AreIndividualsSpelled ontology.now }
{
    let _count = ontology.count(Kind::Individual);
}
