//! The lines that tell containments.

ghost use Rattle.std.specs.Prelude.{◌≡◌, ◌++◌, OnOk, codes, flat_map};
ghost use Rattle.dl_syntax.specs.Ontology.{names_of};
ghost use Rattle.report_text.specs.Names.{name_text};
ghost use Rattle.containment_text.specs.Containments.{
  individual_text,
  element_text,
  fact_text,
  verdict_text,
  pair_line,
};

use contain_test::Containment;
use dl_syntax::{Element, Fact, IndId, Kind, Memory, Ontology};
use itoa::Buffer;

/// The name of this kind and number, or nothing where there is none.
fn name_of(ontology: &Ontology, kind: Kind, number: u32) -> &[u8]
    ensures { result.now ≡ name_text (names_of kind ontology.now) number }
{
    if number < ontology.count(kind) {
        ontology.name(kind, number)
    } else {
        b""
    }
}

/// Appends the name of a declared individual, or an asterisk and the number of a frozen variable.
fn append_individual(out: &mut Vec<u8>, ontology: &Ontology, id: IndId) -> Result<(), Memory>
    ensures { OnOk result (out.new.items ≡ out.old.items ++ individual_text ontology.now id) }
{
    let count = ontology.count(Kind::Individual);
    if id.0 < count {
        return out.extend_from_slice(name_of(ontology, Kind::Individual, id.0));
    }
    let mut buffer = Buffer::new();
    out.extend_from_slice(b"*")?;
    out.extend_from_slice(buffer.format(id.0 - count).as_bytes())
}

fn append_element(out: &mut Vec<u8>, ontology: &Ontology, element: Element) -> Result<(), Memory>
    ensures { OnOk result (out.new.items ≡ out.old.items ++ element_text ontology.now element) }
{
    match element {
        Element::Ind(id) => append_individual(out, ontology, id),
        Element::Null(_) => Ok(()),
    }
}

fn append_two(
    out: &mut Vec<u8>,
    ontology: &Ontology,
    first: Element,
    second: Element,
) -> Result<(), Memory>
    ensures { OnOk result (out.new.items ≡ out.old.items
        ++ (element_text ontology.now first ++ codes "," ++ element_text ontology.now second)) }
{
    append_element(out, ontology, first)?;
    out.extend_from_slice(b",")?;
    append_element(out, ontology, second)
}

fn append_fact(out: &mut Vec<u8>, ontology: &Ontology, fact: Fact) -> Result<(), Memory>
    ensures { OnOk result (out.new.items ≡ out.old.items ++ fact_text ontology.now fact) }
{
    match fact {
        Fact::Concept(concept, x) => {
            out.extend_from_slice(name_of(ontology, Kind::Concept, concept.0))?;
            out.extend_from_slice(b"(")?;
            append_element(out, ontology, x)?;
            out.extend_from_slice(b")")
        }
        Fact::Role(role, x, y) => {
            out.extend_from_slice(name_of(ontology, Kind::Role, role.0))?;
            out.extend_from_slice(b"(")?;
            append_two(out, ontology, x, y)?;
            out.extend_from_slice(b")")
        }
    }
}

fn append_next_fact(out: &mut Vec<u8>, ontology: &Ontology, fact: Fact) -> Result<(), Memory>
    ensures { OnOk result
        (out.new.items ≡ out.old.items ++ (codes " " ++ fact_text ontology.now fact)) }
{
    out.extend_from_slice(b" ")?;
    append_fact(out, ontology, fact)
}

fn append_next_individual(out: &mut Vec<u8>, ontology: &Ontology, id: IndId) -> Result<(), Memory>
    ensures { OnOk result
        (out.new.items ≡ out.old.items ++ (codes " " ++ individual_text ontology.now id)) }
{
    out.extend_from_slice(b" ")?;
    append_individual(out, ontology, id)
}

fn append_facts(out: &mut Vec<u8>, ontology: &Ontology, facts: &[Fact]) -> Result<(), Memory>
    ensures { OnOk result (out.new.items ≡ out.old.items
        ++ flat_map (λ f. codes " " ++ fact_text ontology.now f) facts.now) }
{
    for fact in facts {
        append_next_fact(out, ontology, *fact)?;
    }
    Ok(())
}

fn append_row(out: &mut Vec<u8>, ontology: &Ontology, row: &[IndId]) -> Result<(), Memory>
    ensures { OnOk result (out.new.items ≡ out.old.items
        ++ flat_map (λ i. codes " " ++ individual_text ontology.now i) row.now) }
{
    for id in row {
        append_next_individual(out, ontology, *id)?;
    }
    Ok(())
}

/// Appends yes, or no with the facts and the row that show it.
fn append_verdict(
    out: &mut Vec<u8>,
    ontology: &Ontology,
    containment: &Containment,
) -> Result<(), Memory>
    ensures { OnOk result (out.new.items
        ≡ out.old.items ++ verdict_text ontology.now containment.now) }
{
    match containment {
        Containment::Yes => out.extend_from_slice(b" yes"),
        Containment::No { facts, row } => {
            out.extend_from_slice(b" no snap")?;
            append_facts(out, ontology, facts.facts())?;
            out.extend_from_slice(b" row")?;
            append_row(out, ontology, row.places())
        }
    }
}

/// Appends the line of two queries by their names.
pub fn append_line(
    out: &mut Vec<u8>,
    ontology: &Ontology,
    first: &[u8],
    second: &[u8],
    containment: &Containment,
) -> Result<(), Memory>
    ensures { OnOk result (out.new.items
        ≡ out.old.items ++ pair_line ontology.now first.now second.now containment.now) }
{
    out.extend_from_slice(b"contain ")?;
    out.extend_from_slice(first)?;
    out.extend_from_slice(b" ")?;
    out.extend_from_slice(second)?;
    append_verdict(out, ontology, containment)?;
    out.extend_from_slice(b"\n")
}
