//! The lines that tell the rewriting of a query, appended to a buffer that is used again.

ghost use Rattle.std.specs.Prelude.{◌≡◌, ◌++◌, OnOk, OnErr, IfOk, take, vec_len, codes, flat_map};
ghost use Rattle.dl_syntax.specs.Ontology.{names_of};
ghost use Rattle.report_text.specs.Queries.{name_text, term_text, atom_text, head_text, body_text};
ghost use Rattle.report_text.specs.Queries.{cq_text, cq_line, leaf_line};

use crate::line::append_two;
use crate::numbers::append_number;
use dl_syntax::{Atom, Cq, Kind, Memory, Ontology, Term};
use std::alloc::Global;

/// The name of this kind and number, or nothing where there is none.
fn name_of(ontology: &Ontology, kind: Kind, number: u32) -> &[u8]
    ensures { result.now ≡ name_text (names_of kind ontology.now) number }
{
    if number < ontology.count(kind) {
        ontology.name(kind, number)
    } else {
        b""
    }
}

/// Appends a term. What stood before stays, also on an error.
fn append_term(out: &mut Vec<u8>, ontology: &Ontology, term: &Term) -> Result<(), Memory>
    ensures ok { OnOk result (out.new.items ≡ out.old.items ++ term_text ontology.now term.now) }
    ensures kept { take (vec_len out.old) out.new.items ≡ out.old.items }
{
    match term {
        Term::Var(number) => {
            out.extend_from_slice(b"?v")?;
            append_number(out, *number as u64)
        }
        Term::Ind(individual) => {
            out.extend_from_slice(name_of(ontology, Kind::Individual, individual.0))
        }
    }
}

/// Appends two terms with a comma between. What stood before stays, also on an error.
fn append_pair(out: &mut Vec<u8>, ontology: &Ontology, x: &Term, y: &Term) -> Result<(), Memory>
    ensures ok { OnOk result (out.new.items ≡ out.old.items
        ++ (term_text ontology.now x.now ++ codes "," ++ term_text ontology.now y.now)) }
    ensures kept { take (vec_len out.old) out.new.items ≡ out.old.items }
{
    append_term(out, ontology, x)?;
    out.extend_from_slice(b",")?;
    append_term(out, ontology, y)
}

/// Appends an atom. What stood before stays, also on an error.
fn append_atom(out: &mut Vec<u8>, ontology: &Ontology, atom: &Atom) -> Result<(), Memory>
    ensures ok { OnOk result (out.new.items ≡ out.old.items ++ atom_text ontology.now atom.now) }
    ensures kept { take (vec_len out.old) out.new.items ≡ out.old.items }
{
    match atom {
        Atom::Concept(concept, x) => {
            out.extend_from_slice(name_of(ontology, Kind::Concept, concept.0))?;
            out.extend_from_slice(b"(")?;
            append_term(out, ontology, x)?;
            out.extend_from_slice(b")")
        }
        Atom::Role(role, x, y) => {
            out.extend_from_slice(name_of(ontology, Kind::Role, role.0))?;
            out.extend_from_slice(b"(")?;
            append_pair(out, ontology, x, y)?;
            out.extend_from_slice(b")")
        }
    }
}

/// Appends a space and a term. What stood before stays, also on an error.
fn append_next_term(out: &mut Vec<u8>, ontology: &Ontology, term: &Term) -> Result<(), Memory>
    ensures ok { OnOk result
        (out.new.items ≡ out.old.items ++ (codes " " ++ term_text ontology.now term.now)) }
    ensures kept { take (vec_len out.old) out.new.items ≡ out.old.items }
{
    out.extend_from_slice(b" ")?;
    append_term(out, ontology, term)
}

/// Appends terms, each after a space. What stood before stays, also on an error.
fn append_terms(out: &mut Vec<u8>, ontology: &Ontology, terms: &[Term]) -> Result<(), Memory>
    ensures ok { OnOk result (out.new.items
        ≡ out.old.items ++ flat_map (λ term. codes " " ++ term_text ontology.now term) terms.now) }
    ensures kept { take (vec_len out.old) out.new.items ≡ out.old.items }
{
    for term in terms {
        append_next_term(out, ontology, term)?;
    }
    Ok(())
}

/// Appends the terms of a head. What stood before stays, also on an error.
fn append_head(out: &mut Vec<u8>, ontology: &Ontology, head: &[Term]) -> Result<(), Memory>
    ensures ok { OnOk result (out.new.items ≡ out.old.items ++ head_text ontology.now head.now) }
    ensures kept { take (vec_len out.old) out.new.items ≡ out.old.items }
{
    match head {
        [] => Ok(()),
        [first, rest @ ..] => {
            append_term(out, ontology, first)?;
            append_terms(out, ontology, rest)
        }
    }
}

/// Appends a comma, a space and an atom. What stood before stays, also on an error.
fn append_next_atom(out: &mut Vec<u8>, ontology: &Ontology, atom: &Atom) -> Result<(), Memory>
    ensures ok { OnOk result
        (out.new.items ≡ out.old.items ++ (codes ", " ++ atom_text ontology.now atom.now)) }
    ensures kept { take (vec_len out.old) out.new.items ≡ out.old.items }
{
    out.extend_from_slice(b", ")?;
    append_atom(out, ontology, atom)
}

/// Appends atoms, each after a comma and a space. What stood before stays, also on an error.
fn append_atoms(out: &mut Vec<u8>, ontology: &Ontology, atoms: &[Atom]) -> Result<(), Memory>
    ensures ok { OnOk result (out.new.items
        ≡ out.old.items ++ flat_map (λ atom. codes ", " ++ atom_text ontology.now atom) atoms.now) }
    ensures kept { take (vec_len out.old) out.new.items ≡ out.old.items }
{
    for atom in atoms {
        append_next_atom(out, ontology, atom)?;
    }
    Ok(())
}

/// Appends the atoms of a body. What stood before stays, also on an error.
fn append_body(out: &mut Vec<u8>, ontology: &Ontology, body: &[Atom]) -> Result<(), Memory>
    ensures ok { OnOk result (out.new.items ≡ out.old.items ++ body_text ontology.now body.now) }
    ensures kept { take (vec_len out.old) out.new.items ≡ out.old.items }
{
    match body {
        [] => Ok(()),
        [first, rest @ ..] => {
            append_atom(out, ontology, first)?;
            append_atoms(out, ontology, rest)
        }
    }
}

/// Appends the text of a conjunctive query. What stood before stays, also on an error.
fn try_append_cq(out: &mut Vec<u8>, cq: &Cq, ontology: &Ontology) -> Result<(), Memory>
    ensures ok { OnOk result (out.new.items ≡ out.old.items ++ cq_text ontology.now cq.now) }
    ensures kept { take (vec_len out.old) out.new.items ≡ out.old.items }
{
    out.extend_from_slice(b"cq (")?;
    append_head(out, ontology, cq.head.as_slice())?;
    out.extend_from_slice(b") = [")?;
    append_body(out, ontology, cq.body.as_slice())?;
    out.extend_from_slice(b"]")
}

/// Appends the text of a conjunctive query, `cq (H) = [A, A]` without a newline: H is the terms of
/// its head separated by a space, variable 3 is `?v3`, and a number that no name has has no text.
/// The buffer is as before where memory runs out.
pub fn append_cq(out: &mut Vec<u8>, cq: &Cq, ontology: &Ontology) -> Result<(), Memory>
    ensures ok { OnOk result (out.new.items ≡ out.old.items ++ cq_text ontology.now cq.now) }
    ensures err { OnErr result (out.new.items ≡ out.old.items) }
{
    let start = out.len();
    let done = try_append_cq(out, cq, ontology);
    if done.is_err() {
        out.truncate(start);
    }
    done
}

/// The exact bytes of the line of a conjunctive query.
pub fn render_cq(alloc: Global, cq: &Cq, ontology: &Ontology) -> Result<Vec<u8>, Memory>
    ensures { IfOk result (λ line. line.items ≡ cq_line ontology.now cq.now) }
{
    let mut line = Vec::new(alloc);
    append_cq(&mut line, cq, ontology)?;
    line.push(b'\n')?;
    Ok(line)
}

/// Appends the words of a leaf's line. What stood before stays, also on an error.
fn try_append_leaf(out: &mut Vec<u8>, query: &[u8], place: u64, count: u64) -> Result<(), Memory>
    ensures ok { OnOk result (out.new.items ≡ out.old.items ++ leaf_line query.now place count) }
    ensures kept { take (vec_len out.old) out.new.items ≡ out.old.items }
{
    out.extend_from_slice(b"leaf ")?;
    out.extend_from_slice(query)?;
    append_two(out, b" ", place, b" ", count)
}

/// Appends the line before those of a leaf: the query's name, the leaf's place among the nodes, and
/// how many lines follow. The buffer is as before where memory runs out.
pub fn append_leaf(out: &mut Vec<u8>, query: &[u8], place: u64, count: u64) -> Result<(), Memory>
    ensures ok { OnOk result (out.new.items ≡ out.old.items ++ leaf_line query.now place count) }
    ensures err { OnErr result (out.new.items ≡ out.old.items) }
{
    let start = out.len();
    let done = try_append_leaf(out, query, place, count);
    if done.is_err() {
        out.truncate(start);
    }
    done
}
