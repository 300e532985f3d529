//! Elements as words.

ghost use Rattle.std.specs.Prelude.{◌≡◌, ◌<◌, length, MatchOption};
ghost use Rattle.dl_syntax.specs.declared.names.IndId.{IndId};
ghost use Rattle.dl_syntax.specs.declared.facts.Element.TheVariants.{Ind as ind_element};
ghost use Rattle.run_proofs.specs.Texts.{element_text, IsWritable, IsNoElement};

use crate::reading::{read_number, rest_of};
use dl_syntax::{Element, IndId, Kind, Ontology};

/// The individual of the name, where the ontology declares it.
fn read_individual(ontology: &Ontology, word: &[u8]) -> Option<Element>
    ensures { MatchOption result ((i : IndId) → i.0 < length ontology.now.individuals
        → word.now ≡ element_text ontology.now.individuals (ind_element i) → ⊥)
        (λ e. IsWritable ontology.now.individuals e × (word.now
        ≡ element_text ontology.now.individuals e)) }
{
    match ontology.find(Kind::Individual, word) {
        Some(number) => Some(Element::Ind(IndId(number))),
        None => None,
    }
}

/// The element that the word tells, and `None` where it is no individual's name and no null's
/// number.
pub fn read_element(ontology: &Ontology, word: &[u8]) -> Option<Element>
    ensures { MatchOption result (IsNoElement ontology.now.individuals word.now)
        (λ e. IsWritable ontology.now.individuals e × (word.now
        ≡ element_text ontology.now.individuals e)) }
{
    let _count = ontology.count(Kind::Individual);
    match rest_of(word, b"*") {
        Some(digits) => match read_number(digits) {
            Some(number) => Some(Element::Null(number)),
            None => None,
        },
        None => read_individual(ontology, word),
    }
}
