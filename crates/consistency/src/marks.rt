//! Which elements stand at the places of predicates, to see quickly that a query has no match.

ghost use Rattle.std.specs.Prelude.{◌≡◌, ◌<◌, ◌≤◌, ◌^◌};
ghost use Rattle.std.specs.List.{All};
ghost use Rattle.consistency.specs.Marking.{number_of, IsRowOf, HasMark, KeepsMarks, IsMarked};

use dl_syntax::{Element, Fact, Memory};
use std::alloc::Global;

/// A row of bits for each concept, for each role's first place and for each role's second place,
/// one after the other. A bit is 1 wherever an element that has it stands there. An element's bit
/// is its number modulo the row's length, so elements may share one: rows without a common bit have
/// no common element.
#[derive(Drop)]
pub(crate) struct Marks {
    pub concepts: usize,
    pub width: usize,
    pub words: Vec<u64>,
    ghost some: { 1 ≤ width },
    ghost few: { width ≤ 64 },
    ghost small: { concepts < 2 ^ 32 },
}

fn number(element: Element) -> usize
    ensures { result ≡ number_of element }
{
    match element {
        Element::Ind(id) => id.0 as usize,
        Element::Null(number) => number as usize,
    }
}

// Sets the element's bit in a row, where the words have that.
fn mark(words: &mut [u64], width: usize, row: usize, element: Element)
    requires some { 1 ≤ width }
    requires few { width ≤ 64 }
    requires small { row < 2 ^ 40 }
    ensures marked { IsRowOf width words.old row → HasMark width words.new row element }
    ensures kept { KeepsMarks words.old words.new }
{
    let bit = number(element) % (64 * width);
    let place = row * width + bit / 64;
    if place < words.len() {
        words[place] |= 1u64 << (bit % 64);
    }
}

// Sets the bits of the fact's elements.
fn mark_fact(words: &mut [u64], concepts: usize, width: usize, fact: &Fact)
    requires some { 1 ≤ width }
    requires few { width ≤ 64 }
    requires small { concepts < 2 ^ 32 }
    ensures marked { IsMarked concepts width words.new fact.now }
    ensures kept { KeepsMarks words.old words.new }
{
    match *fact {
        Fact::Concept(id, element) => mark(words, width, id.0 as usize, element),
        Fact::Role(id, first, second) => {
            let row = concepts + 2 * id.0 as usize;
            mark(words, width, row, first);
            mark(words, width, row + 1, second);
        }
    }
}

// Sets the bits of all facts' elements.
fn mark_all(words: &mut [u64], concepts: usize, width: usize, facts: &[Fact])
    requires some { 1 ≤ width }
    requires few { width ≤ 64 }
    requires small { concepts < 2 ^ 32 }
    ensures { All (IsMarked concepts width words.new) facts.now }
{
    for fact in facts {
        mark_fact(words, concepts, width, fact);
    }
}

// The greatest number of an element in the facts.
fn greatest(facts: &[Fact]) -> usize {
    let mut greatest = 0;
    for fact in facts {
        let own = match *fact {
            Fact::Concept(_, element) => number(element),
            Fact::Role(_, first, second) => number(first).max(number(second)),
        };
        greatest = greatest.max(own);
    }
    greatest
}

// How many words a row has: so many that few elements share a bit, and no more than the facts are
// worth.
fn width_of(facts: &[Fact]) -> usize
    ensures some { 1 ≤ result }
    ensures few { result ≤ 64 }
{
    (greatest(facts) / 64).min(facts.len() / 8).min(63) + 1
}

impl Marks {
    ghost use Rattle.std.specs.Prelude.{IfOk};
    ghost use Rattle.std.specs.List.{All};
    ghost use Rattle.consistency.specs.Marked.{Marked};

    /// The marks of the facts.
    pub fn new(alloc: Global, concepts: u32, roles: u32, facts: &[Fact]) -> Result<Marks, Memory>
        ensures { IfOk result (λ marks. All (Marked marks) facts.now) }
    {
        let concepts = concepts as usize;
        let width = width_of(facts);
        let rows = concepts + 2 * roles as usize;
        let mut words = vec![in alloc; 0; rows * width]?;
        mark_all(&mut words, concepts, width, facts);
        Ok(Marks {
            concepts,
            width,
            words,
        })
    }
}
