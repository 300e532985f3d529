//! The grammar of OWL 2 documents, each law the contract of a function with nothing to do.
#![tactic(auto)]

ghost use Rattle.owl_grammar.specs.Laws.{ReadsDocuments, OneDocument};

/// Tokens are read as a document exactly where they are this one by the grammar.
pub fn documents_are_read()
    ensures { ReadsDocuments }
{}

/// Tokens are one document at most.
pub fn one_document()
    ensures { OneDocument }
{}
