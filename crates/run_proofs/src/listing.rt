//! Words one behind the other, each behind a space.

ghost use Rattle.std.specs.Prelude.{◌≡◌, ◌≤◌, ◌<◌, ◌++◌, ◌∷◌, length, drop, flat_map};
ghost use Rattle.std.specs.Prelude.{MatchOption, IfOk};
ghost use Rattle.std.specs.List.{All};
ghost use Rattle.run_proofs.specs.Texts.{element_text, individual_text, row_text, IsWritable};
ghost use Rattle.run_proofs.specs.Writable.{IsNamed, IsWritableRow};
ghost use Rattle.run_proofs.specs.Words.{IsFree, EndsWord, IsCut, IsNoWord, Begins, BeginsNone};
ghost use Rattle.run_proofs.specs.Asking.{IsNoRow, AreNoElements};

use crate::elements::read_element;
use dl_syntax::{Element, IndId, Kind, Memory, Ontology, Row};
use std::alloc::Global;

/// The part before the first space, and the rest.
pub(crate) fn first_word(text: &[u8]) -> (&[u8], &[u8])
    ensures whole { text.now ≡ result.0.now ++ result.1.now }
    ensures free { IsFree result.0.now }
    ensures ends { EndsWord result.1.now }
{
    for (place, byte) in text.iter().enumerate() {
        if *byte == b' ' {
            return (&text[..place], &text[place..]);
        }
    }
    (text, &[])
}

/// The word behind the space at the place, and where it ends.
fn word_at(text: &[u8], from: usize) -> Option<(&[u8], usize)>
    requires { from ≤ length text.now }
    ensures { MatchOption result (IsNoWord (drop from text.now)) (λ found.
        IsCut (drop from text.now) found.0.now (drop found.1 text.now)
        × (from < found.1) × (found.1 ≤ length text.now)) }
{
    if from >= text.len() {
        return None;
    }
    if text[from] != b' ' {
        return None;
    }
    let (word, _) = first_word(&text[from + 1..]);
    Some((word, from + 1 + word.len()))
}

/// The element that the word behind the space at the place tells, and where the word ends.
fn element_at(ontology: &Ontology, text: &[u8], from: usize) -> Option<(Element, usize)>
    requires { from ≤ length text.now }
    ensures { MatchOption result (BeginsNone (element_text ontology.now.individuals)
        (IsWritable ontology.now.individuals) (drop from text.now))
        (λ found. Begins (element_text ontology.now.individuals)
        (IsWritable ontology.now.individuals) (drop from text.now) found.0 (drop found.1 text.now)
        × (from < found.1) × (found.1 ≤ length text.now)) }
{
    let _count = ontology.count(Kind::Individual);
    let Some((word, end)) = word_at(text, from) else {
        return None;
    };
    let Some(element) = read_element(ontology, word) else {
        return None;
    };
    Some((element, end))
}

/// The elements that the words of the text tell, and `None` where it has other words.
pub(crate) fn read_elements(
    alloc: Global,
    ontology: &Ontology,
    text: &[u8],
) -> Result<Option<Vec<Element>>, Memory>
    ensures { IfOk result (λ read. MatchOption read
        (AreNoElements ontology.now.individuals text.now)
        (λ elements. All (IsWritable ontology.now.individuals) elements.items × (text.now
        ≡ flat_map (λ e. 32 ∷ element_text ontology.now.individuals e) elements.items))) }
{
    let _count = ontology.count(Kind::Individual);
    let mut elements = Vec::new(alloc);
    let mut place = 0;
    while place < text.len() {
        let Some((element, end)) = element_at(ontology, text, place) else {
            return Ok(None);
        };
        elements.push(element)?;
        place = end;
    }
    Ok(Some(elements))
}

/// The individual that the word behind the space at the place names, and where the word ends.
fn individual_at(ontology: &Ontology, text: &[u8], from: usize) -> Option<(IndId, usize)>
    requires { from ≤ length text.now }
    ensures { MatchOption result (BeginsNone (individual_text ontology.now.individuals)
        (IsNamed ontology.now) (drop from text.now))
        (λ found. Begins (individual_text ontology.now.individuals) (IsNamed ontology.now)
        (drop from text.now) found.0 (drop found.1 text.now)
        × (from < found.1) × (found.1 ≤ length text.now)) }
{
    let _count = ontology.count(Kind::Individual);
    let Some((word, end)) = word_at(text, from) else {
        return None;
    };
    let Some(number) = ontology.find(Kind::Individual, word) else {
        return None;
    };
    Some((IndId(number), end))
}

/// The individuals that the words of the text name, and `None` where it has other words.
fn read_individuals(
    alloc: Global,
    ontology: &Ontology,
    text: &[u8],
) -> Result<Option<Vec<IndId>>, Memory>
    ensures { IfOk result (λ read. MatchOption read (IsNoRow ontology.now text.now)
        (λ row. IsWritableRow ontology.now row.items
        × (text.now ≡ row_text ontology.now.individuals row.items))) }
{
    let _count = ontology.count(Kind::Individual);
    let mut row = Vec::new(alloc);
    let mut place = 0;
    while place < text.len() {
        let Some((individual, end)) = individual_at(ontology, text, place) else {
            return Ok(None);
        };
        row.push(individual)?;
        place = end;
    }
    Ok(Some(row))
}

/// The row of the individuals that the words of the text name, and `None` where it has other words.
pub(crate) fn read_row(
    alloc: Global,
    ontology: &Ontology,
    text: &[u8],
) -> Result<Option<Row>, Memory>
    ensures { IfOk result (λ read. MatchOption read (IsNoRow ontology.now text.now)
        (λ row. IsWritableRow ontology.now row
        × (text.now ≡ row_text ontology.now.individuals row))) }
{
    match read_individuals(alloc, ontology, text)? {
        Some(row) => Ok(Some(Row::new(alloc, row.as_slice())?)),
        None => Ok(None),
    }
}
