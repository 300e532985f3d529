//! OWL 2 documents, as they are written.
#![tactic(auto)]

mod documents;
mod groups;
mod items;
mod terms;

pub use documents::{Document, document_read};
pub use groups::{GroupStep, Stop};
pub use items::{Axiom, Item, ItemShape, Shape};
pub use terms::{Class, Entity, Role};
