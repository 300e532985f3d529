//! Lines that write the facts of a model.

ghost use Rattle.std.specs.Prelude.{◌≡◌, ◌≤◌, length, map, List, IfOk};
ghost use Rattle.std.specs.List.{filter_map};
ghost use Rattle.snapshot_reader.specs.ModelLines.{is_model_line, model_writes, element_of};
ghost use Rattle.snapshot_reader.specs.ModelLines.{model_fact, numbered_facts, facts_say_model};
ghost use Rattle.snapshot_reader.specs.ModelLines.{model_said};
ghost use Rattle.dl_syntax.specs.Snapshots.{IsSnapshot};
ghost use Rattle.snapshot_reader.specs.Answers.{TellsModel};
ghost use Rattle.snapshot_reader.specs.Cursor.{facts_from, facts_seen, written_seen};

use crate::SnapFault;
use crate::blaming::blamed_in_model;
use crate::distinct::distinct;
use crate::facts::{NextFact, Written, name_of, next_fact};
use crate::further::{FurtherNames, further_names};
use dl_syntax::{ConceptId, Element, Fact, IndId, Kind, Memory, Ontology, RoleId, Snapshot};
use std::alloc::Global;

/// Whether the line's first token is the word `model`.
#[tactic(auto, unfolding(crate::specs::ModelLines::is_model_line))]
pub fn is_model_line(line: &[u8]) -> bool
    ensures { result ≡ is_model_line line.now }
{
    match name_of(line, 0) {
        Some((word, _)) => word == b"model".as_slice(),
        None => false,
    }
}

/// The facts from a place on, if they are well formed.
fn facts_from<'a>(
    alloc: Global,
    line: &'a [u8],
    from: usize,
) -> Result<Option<Vec<Written<'a>>>, Memory>
    requires { from ≤ length line.now }
    ensures { IfOk result (λ found. facts_seen found ≡ facts_from line.now from) }
{
    let mut facts = Vec::new(alloc);
    let mut place = from;
    loop {
        match next_fact(line, place) {
            NextFact::Fact(written, end) => {
                facts.push(written)?;
                place = end;
            }
            NextFact::End => return Ok(Some(facts)),
            NextFact::Malformed => return Ok(None),
        }
    }
}

/// The facts behind the word `model`, if the line is such a line and they are well formed.
#[tactic(auto, unfolding(crate::specs::ModelLines::model_writes, crate::specs::ModelLines::is_model_line))]
fn model_facts<'a>(alloc: Global, line: &'a [u8]) -> Result<Option<Vec<Written<'a>>>, Memory>
    ensures { IfOk result (λ found. facts_seen found ≡ model_writes line.now) }
{
    let Some((word, end)) = name_of(line, 0) else {
        return Ok(None);
    };
    if word != b"model".as_slice() {
        return Ok(None);
    }
    facts_from(alloc, line, end)
}

/// The element that an argument names where further elements have these names.
#[inline]
fn element_of(ontology: &Ontology, further: &FurtherNames, name: &[u8]) -> Option<Element>
    requires { length further.now ≤ 131072 }
    ensures { result ≡ element_of ontology.now further.now name.now }
{
    if let Some(number) = ontology.find(Kind::Individual, name) {
        return Some(Element::Ind(IndId(number)));
    }
    match further.find(name) {
        Some(place) => {
            let number = ontology.count(Kind::Individual) + place as u32;
            Some(Element::Ind(IndId(number)))
        }
        None => None,
    }
}

/// The fact by its numbers, if its predicate is declared so and its arguments name elements.
#[inline]
fn fact_of(ontology: &Ontology, further: &FurtherNames, written: &Written<'_>) -> Option<Fact>
    requires { length further.now ≤ 131072 }
    ensures { result ≡ model_fact ontology.now further.now (written_seen written.now) }
{
    match written {
        Written::Unary(predicate, argument) => {
            let concept = ontology.find(Kind::Concept, predicate)?;
            let element = element_of(ontology, further, argument)?;
            Some(Fact::Concept(ConceptId(concept), element))
        }
        Written::Binary(predicate, first, second) => {
            let role = ontology.find(Kind::Role, predicate)?;
            let first = element_of(ontology, further, first)?;
            let second = element_of(ontology, further, second)?;
            Some(Fact::Role(RoleId(role), first, second))
        }
    }
}

/// The facts by their numbers, where further elements have these names.
fn facts_of(
    alloc: Global,
    ontology: &Ontology,
    further: &FurtherNames,
    written: &[Written<'_>],
) -> Result<Vec<Fact>, Memory>
    requires { length further.now ≤ 131072 }
    ensures { IfOk result (λ facts. facts.items
        ≡ filter_map (model_fact ontology.now further.now) (map written_seen written.now)) }
{
    let mut facts = Vec::with_capacity(alloc, written.len())?;
    for each in written {
        if let Some(fact) = fact_of(ontology, further, each) {
            facts.push(fact)?;
        }
    }
    Ok(facts)
}

/// The facts by their numbers, a repeated one in its first place only.
fn numbered(
    alloc: Global,
    ontology: &Ontology,
    written: &[Written<'_>],
) -> Result<Vec<Fact>, Memory>
    requires { length written.now ≤ 65536 }
    ensures facts { IfOk result (λ facts. facts.items
        ≡ numbered_facts ontology.now (map written_seen written.now)) }
    ensures sound { IfOk result (λ facts. IsSnapshot facts.items) }
    ensures few { IfOk result (λ facts. length facts.items ≤ 65536) }
{
    let further = further_names(alloc, ontology, written)?;
    let facts = facts_of(alloc, ontology, &further, written)?;
    let kept = distinct(alloc, facts)?;
    Ok(kept)
}

/// The model that has these facts.
fn model_of(
    alloc: Global,
    ontology: &Ontology,
    written: &[Written<'_>],
) -> Result<Snapshot, SnapFault>
    ensures said { TellsModel result (facts_say_model ontology.now (map written_seen written.now)) }
    ensures few { IfOk result (λ model. length model ≤ 65536) }
{
    let blamed = blamed_in_model(ontology, written);
    match blamed.fault(alloc, written.len()) {
        Err(fault) => Err(fault),
        Ok(()) => match numbered(alloc, ontology, written) {
            Ok(facts) => Ok(Snapshot::new(facts)),
            Err(_) => Err(SnapFault::Memory),
        },
    }
}

/// The model of a line by the names of the ontology. A name that is declared as nothing stands for
/// a further element; these are numbered from the count of individuals on, by their first places.
/// An argument is `Undeclared` where it is the name of a concept or of a role.
#[tactic(auto, unfolding(crate::specs::ModelLines::model_said))]
pub fn read_model(alloc: Global, line: &[u8], ontology: &Ontology) -> Result<Snapshot, SnapFault>
    ensures said { TellsModel result (model_said ontology.now line.now) }
    ensures few { IfOk result (λ model. length model ≤ 65536) }
{
    match model_facts(alloc, line)? {
        Some(written) => model_of(alloc, ontology, written.as_slice()),
        None => Err(SnapFault::Malformed),
    }
}
