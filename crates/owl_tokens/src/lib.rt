//! The tokens of OWL 2 documents, their words, IRIs and prefixes.
#![tactic(auto)]

mod iris;
mod tables;
mod tokens;
mod words;

pub use iris::{
    Prefix, between_brackets, expanded, is_iri, is_prefix_word, is_thing, known_prefixes, name_of,
    prefix_of,
};
pub use tables::Table;
pub use tokens::{Token, TokenKind, scan, text_of};
pub use words::{Head, head_of};
