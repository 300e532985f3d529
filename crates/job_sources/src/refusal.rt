//! Why the sources of a job can't be used.

use ontology_reader::OntologyKind;
use owl_reader::OwlKind;
use short_names::ShortName;
use tcq_reader::QueryKind;

/// Why the sources of a run can't be used.
#[derive(Clone, Copy, Debug, PartialEq, Eq)]
pub enum Refusal {
    /// The line of the ontology's first fault, and what it is.
    BadOntology(u64, OntologyKind),
    /// The same of an ontology that is an OWL 2 document.
    BadDocument(u64, OwlKind),
    /// The leaves and the clashes reach too many queries.
    TooManyRewritings,
    /// The line of the queries' first fault, and what it is.
    BadQueries(u64, QueryKind),
    /// The first query whose root is no leaf that names all its answer variables.
    NotALeaf(ShortName),
    /// The units of the queries, which are more than the job takes.
    TooLarge(u128),
}
