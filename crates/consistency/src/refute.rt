//! Whether marks show that a query has no match.

ghost use Rattle.std.specs.Prelude.{◌≡◌, ◌↔◌, ℕ, ◌+◌, ◌*◌, ◌<◌, ◌≤◌, ◌^◌, false, length};
ghost use Rattle.std.specs.Prelude.{slice_index, List, IsTrue, IfSome};
ghost use Rattle.std.specs.List.{All};
ghost use Rattle.std.specs.Int.{bit_at};
ghost use Rattle.dl_syntax.specs.declared.facts.Element.{Element};
ghost use Rattle.dl_syntax.specs.declared.facts.Fact.{Fact};
ghost use Rattle.dl_syntax.specs.Match.{Assignment, Match, term_at, atom_at};
ghost use Rattle.consistency.specs.Marking.{IsRowOf, HasMark};
ghost use Rattle.consistency.specs.Marked.{Marked, IsMarkedAt, AreApart};

use crate::marks::Marks;
use dl_syntax::{Atom, Term};

// Whether some word of one list has a bit in common with the word of the other at its place.
fn meet(one: &[u64], other: &[u64]) -> bool
    requires { length one.now ≡ length other.now }
    ensures { result ≡ false → (k i : ℕ) → k < length one.now → bit_at (slice_index one.now k) i ≡ 1
        → bit_at (slice_index other.now k) i ≡ 1 → ⊥ }
{
    for place in 0..one.len() {
        if one[place] & other[place] != 0 {
            return true;
        }
    }
    false
}

// The words of a row, where there are all.
fn row(marks: &Marks, row: usize) -> Option<&[u64]>
    requires { row < 2 ^ 40 }
    ensures { IfSome result (λ part. IsRowOf marks.now.width marks.now.words.items row
        × (length part.now ≡ marks.now.width)
        × ((k : ℕ) → k < marks.now.width
        → slice_index part.now k ≡ slice_index marks.now.words.items (row * marks.now.width + k))) }
{
    let start = row * marks.width;
    let end = start + marks.width;
    if end <= marks.words.len() {
        Some(&marks.words.as_slice()[start..end])
    } else {
        None
    }
}

// Whether two rows have no element in common.
fn are_apart(marks: &Marks, one: usize, other: usize) -> bool
    requires one { one < 2 ^ 40 }
    requires other { other < 2 ^ 40 }
    ensures { IsTrue result → AreApart marks.now one other }
{
    match (row(marks, one), row(marks, other)) {
        (Some(first), Some(second)) => !meet(first, second),
        _ => false,
    }
}

/// Whether the terms are the same.
pub(crate) fn is_same(one: &Term, other: &Term) -> bool
    ensures { IsTrue result ↔ (one.now ≡ other.now) }
{
    one == other
}

// Whether no element stands in the row and is the term in a fact that the atom becomes.
fn lacks_in(marks: &Marks, row: usize, term: Term, atom: Atom) -> bool
    requires { row < 2 ^ 40 }
    ensures { IsTrue result → (t : Assignment) → IsMarkedAt marks.now row (term_at t term)
        → Marked marks.now (atom_at t atom) → ⊥ }
{
    match atom {
        Atom::Concept(id, only) => is_same(&term, &only) && are_apart(marks, row, id.0 as usize),
        Atom::Role(id, from, to) => {
            let first = marks.concepts + 2 * id.0 as usize;
            (is_same(&term, &from) && are_apart(marks, row, first))
                || (is_same(&term, &to) && are_apart(marks, row, first + 1))
        }
    }
}

// Whether no facts become the two atoms at once.
fn lacks(marks: &Marks, one: Atom, other: Atom) -> bool
    ensures { IsTrue result → (t : Assignment) → Marked marks.now (atom_at t one)
        → Marked marks.now (atom_at t other) → ⊥ }
{
    match one {
        Atom::Concept(id, term) => lacks_in(marks, id.0 as usize, term, other),
        Atom::Role(id, from, to) => {
            let first = marks.concepts + 2 * id.0 as usize;
            lacks_in(marks, first, from, other) || lacks_in(marks, first + 1, to, other)
        }
    }
}

/// Whether the marks show that a body of one or two atoms has no match among the facts.
pub(crate) fn refutes(marks: &Marks, body: &[Atom]) -> bool
    ensures { IsTrue result → (facts : List Fact) (t : Assignment) → All (Marked marks.now) facts
        → Match body.now facts t → ⊥ }
{
    match body {
        [only] => lacks(marks, *only, *only),
        [one, other] => lacks(marks, *one, *other),
        _ => false,
    }
}
