//! The texts of the queries of a leaf's rewriting.

ghost use Rattle.std.specs.Prelude.{◌≡◌, ◌++◌, ◌∷◌, [], ℕ, IfOk, OnOk, map, codes};
ghost use Rattle.std.specs.List.Sorted.{IsPermutation, IsSorted};
ghost use Rattle.std.specs.Cmp.Lexicographic.{slice_cmp};
ghost use Rattle.std.specs.Ordering.{nat_cmp};
ghost use Rattle.report_text.specs.Queries.{cq_text};
ghost use Rattle.rewriting_text.specs.Leaves.{text_lines, bytes_of_each};

use dl_syntax::{Cq, Memory, Ontology};
use report_text::append_cq;
use std::alloc::Global;

/// The text of a query, without a newline.
fn text_of(alloc: Global, ontology: &Ontology, cq: &Cq) -> Result<Vec<u8>, Memory>
    ensures { IfOk result (λ text. text.items ≡ cq_text ontology.now cq.now) }
{
    let mut text = Vec::new(alloc);
    append_cq(&mut text, cq, ontology)?;
    Ok(text)
}

/// The texts of the queries, in their order.
fn texts_of(alloc: Global, ontology: &Ontology, members: &[Cq]) -> Result<Vec<Vec<u8>>, Memory>
    ensures { IfOk result (λ texts.
        bytes_of_each texts.items ≡ map (cq_text ontology.now) members.now) }
{
    let mut texts = Vec::with_capacity(alloc, members.len())?;
    for cq in members {
        let text = text_of(alloc, ontology, cq)?;
        texts.push(text)?;
    }
    Ok(texts)
}

/// The texts of the queries, in the order of their bytes.
pub fn sorted_texts(
    alloc: Global,
    ontology: &Ontology,
    members: &[Cq],
) -> Result<Vec<Vec<u8>>, Memory>
    ensures arranged { IfOk result (λ texts.
        IsPermutation (map (cq_text ontology.now) members.now) (bytes_of_each texts.items)) }
    ensures sorted { IfOk result (λ texts.
        IsSorted (slice_cmp nat_cmp) (bytes_of_each texts.items)) }
{
    let mut texts = texts_of(alloc, ontology, members)?;
    texts.sort()?;
    Ok(texts)
}

/// Appends a text and a newline.
fn append_text(out: &mut Vec<u8>, text: &[u8]) -> Result<(), Memory>
    ensures { OnOk result (out.new.items ≡ out.old.items ++ (text.now ++ codes "\n")) }
{
    out.extend_from_slice(text)?;
    out.push(b'\n')?;
    Ok(())
}

/// Appends texts, each as a line.
pub fn append_texts(out: &mut Vec<u8>, texts: &[Vec<u8>]) -> Result<(), Memory>
    ensures { OnOk result (out.new.items ≡ out.old.items ++ text_lines (bytes_of_each texts.now)) }
{
    for text in texts {
        append_text(out, text.as_slice())?;
    }
    Ok(())
}
