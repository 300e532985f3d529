//! Which predicates are looked at.

ghost use Rattle.std.specs.Prelude.{◌≡◌, ◌<◌, ◌^◌, ◌↔◌, length, OnOk, IsTrue};
ghost use Rattle.std.specs.List.{All};
ghost use Rattle.dl_syntax.specs.declared.facts.Fact.{Fact};
ghost use Rattle.saturate.specs.Sight.{IsMarked, KeepsMarks, Sees, SeesAtom, SeesUnion, KeepsSight};

use dl_syntax::{Atom, Cq, Fact, Memory};
use std::alloc::Global;

/// The predicates that are looked at: all of them, or those that were marked.
#[derive(Drop)]
pub struct Sight {
    all: bool,
    concepts: Vec<bool>,
    roles: Vec<bool>,
}

/// Makes room for a mark of the number.
fn reserve(marks: &mut Vec<bool>, number: usize) -> Result<(), Memory>
    requires { number < 2 ^ 32 }
    ensures room { OnOk result (number < length marks.new.items) }
    ensures kept { OnOk result (KeepsMarks marks.old.items marks.new.items) }
{
    while marks.len() <= number {
        marks.push(false)?;
    }
    Ok(())
}

/// Marks the number.
fn mark(marks: &mut Vec<bool>, number: u32) -> Result<(), Memory>
    ensures kept { OnOk result (KeepsMarks marks.old.items marks.new.items) }
    ensures marked { OnOk result (IsMarked marks.new.items number) }
{
    let place = number as usize;
    reserve(marks, place)?;
    marks[place] = true;
    Ok(())
}

/// Whether the number is marked.
fn is_marked(marks: &[bool], number: u32) -> bool
    ensures { IsTrue result ↔ IsMarked marks.now number }
{
    let place = number as usize;
    if place < marks.len() {
        marks[place]
    } else {
        false
    }
}

/// Looks at the atom's predicate too.
fn see_atom(sight: &mut Sight, atom: &Atom) -> Result<(), Memory>
    ensures kept { OnOk result (KeepsSight sight.old sight.new) }
    ensures seen { OnOk result (SeesAtom sight.new atom.now) }
{
    match atom {
        Atom::Concept(id, _) => mark(&mut sight.concepts, id.0),
        Atom::Role(id, _, _) => mark(&mut sight.roles, id.0),
    }
}

/// Looks at the atoms' predicates too.
fn see_body(sight: &mut Sight, body: &[Atom]) -> Result<(), Memory>
    ensures kept { OnOk result (KeepsSight sight.old sight.new) }
    ensures seen { OnOk result (All (SeesAtom sight.new) body.now) }
{
    for atom in body {
        see_atom(sight, atom)?;
    }
    Ok(())
}

/// Looks at the predicates of the queries too.
pub fn see(sight: &mut Sight, union: &[Cq]) -> Result<(), Memory>
    ensures kept { OnOk result (KeepsSight sight.old sight.new) }
    ensures seen { OnOk result (SeesUnion sight.new union.now) }
{
    for query in union {
        see_body(sight, query.body.as_slice())?;
    }
    Ok(())
}

impl Sight {
    /// All predicates.
    pub fn all(alloc: Global) -> Sight
        ensures { (f : Fact) → Sees result f }
    {
        Sight {
            all: true,
            concepts: Vec::new(alloc),
            roles: Vec::new(alloc),
        }
    }

    /// No predicate.
    pub fn none(alloc: Global) -> Sight
        ensures { (f : Fact) → Sees result f → ⊥ }
    {
        Sight {
            all: false,
            concepts: Vec::new(alloc),
            roles: Vec::new(alloc),
        }
    }

    /// Whether the fact's predicate is looked at.
    pub(crate) fn sees(&self, fact: &Fact) -> bool
        ensures { IsTrue result ↔ Sees self.now fact.now }
    {
        match fact {
            Fact::Concept(id, _) => self.all || is_marked(self.concepts.as_slice(), id.0),
            Fact::Role(id, _, _) => self.all || is_marked(self.roles.as_slice(), id.0),
        }
    }
}
