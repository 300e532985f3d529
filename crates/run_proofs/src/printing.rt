//! The lines of a proof that name what is declared, written.

ghost use Rattle.std.specs.Prelude.{◌≡◌, ◌<◌, ◌++◌, ◌∷◌, [], length, flat_map, slice_index_or};
ghost use Rattle.std.specs.Prelude.{OnOk};
ghost use Rattle.std.specs.List.{All};
ghost use Rattle.dl_syntax.specs.Ontology.{names_of};
ghost use Rattle.run_proofs.specs.Texts.{element_text, fact_text, snapshot_text, ending_text};
ghost use Rattle.run_proofs.specs.Texts.{IsWritable};
ghost use Rattle.run_proofs.specs.Writable.{IsWritableFact, IsWritableEnding};

use crate::proof::Ending;
use crate::writing::{append_number, append_places};
use dl_syntax::{Element, Fact, Kind, Memory, Ontology};

/// Appends the name of the number.
pub(crate) fn append_name(
    out: &mut Vec<u8>,
    ontology: &Ontology,
    kind: Kind,
    number: u32,
) -> Result<(), Memory>
    requires { number < length (names_of kind ontology.now) }
    ensures { OnOk result (out.new.items
        ≡ out.old.items ++ slice_index_or (names_of kind ontology.now) number []) }
{
    out.extend_from_slice(ontology.name(kind, number))
}

/// Appends the name of an individual, or the mark of nulls and a null's number.
fn append_element(out: &mut Vec<u8>, ontology: &Ontology, element: &Element) -> Result<(), Memory>
    requires { IsWritable ontology.now.individuals element.now }
    ensures { OnOk result (out.new.items
        ≡ out.old.items ++ element_text ontology.now.individuals element.now) }
{
    match *element {
        Element::Ind(id) => append_name(out, ontology, Kind::Individual, id.0),
        Element::Null(number) => {
            out.extend_from_slice(b"*")?;
            append_number(out, number)
        }
    }
}

/// Appends a fact.
fn append_fact(out: &mut Vec<u8>, ontology: &Ontology, fact: &Fact) -> Result<(), Memory>
    requires { IsWritableFact ontology.now fact.now }
    ensures { OnOk result (out.new.items ≡ out.old.items ++ fact_text ontology.now fact.now) }
{
    match fact {
        Fact::Concept(id, element) => {
            append_name(out, ontology, Kind::Concept, id.0)?;
            out.extend_from_slice(b"(")?;
            append_element(out, ontology, element)?;
            out.extend_from_slice(b")")
        }
        Fact::Role(id, first, second) => {
            append_name(out, ontology, Kind::Role, id.0)?;
            out.extend_from_slice(b"(")?;
            append_element(out, ontology, first)?;
            out.extend_from_slice(b",")?;
            append_element(out, ontology, second)?;
            out.extend_from_slice(b")")
        }
    }
}

/// Appends facts without blanks between them.
fn append_facts(out: &mut Vec<u8>, ontology: &Ontology, facts: &[Fact]) -> Result<(), Memory>
    requires { All (IsWritableFact ontology.now) facts.now }
    ensures { OnOk result (out.new.items
        ≡ out.old.items ++ flat_map (fact_text ontology.now) facts.now) }
{
    for fact in facts {
        append_fact(out, ontology, fact)?;
    }
    Ok(())
}

/// Appends the line of a snapshot, without its newline.
pub fn append_snapshot(out: &mut Vec<u8>, ontology: &Ontology, facts: &[Fact]) -> Result<(), Memory>
    requires { All (IsWritableFact ontology.now) facts.now }
    ensures { OnOk result (out.new.items
        ≡ out.old.items ++ snapshot_text ontology.now facts.now) }
{
    if facts.is_empty() {
        return out.extend_from_slice(b"snap");
    }
    out.extend_from_slice(b"snap ")?;
    append_facts(out, ontology, facts)
}

/// Appends elements, each after a space.
fn append_elements(
    out: &mut Vec<u8>,
    ontology: &Ontology,
    elements: &[Element],
) -> Result<(), Memory>
    requires { All (IsWritable ontology.now.individuals) elements.now }
    ensures { OnOk result (out.new.items ≡ out.old.items
        ++ flat_map (λ e. 32 ∷ element_text ontology.now.individuals e) elements.now) }
{
    for element in elements {
        out.extend_from_slice(b" ")?;
        append_element(out, ontology, element)?;
    }
    Ok(())
}

/// Appends the line of an ending, without its newline.
pub fn append_ending(out: &mut Vec<u8>, ontology: &Ontology, ending: &Ending) -> Result<(), Memory>
    requires { IsWritableEnding ontology.now ending.now }
    ensures { OnOk result (out.new.items ≡ out.old.items
        ++ ending_text ontology.now.individuals ending.now) }
{
    match ending {
        Ending::Match(elements) => {
            out.extend_from_slice(b"match")?;
            append_elements(out, ontology, elements.as_slice())
        }
        Ending::Places(first, second) => append_places(out, *first, *second),
    }
}
