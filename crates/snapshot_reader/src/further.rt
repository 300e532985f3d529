//! The names of further elements.

ghost use Rattle.std.specs.Prelude.{◌≡◌, ◌<◌, ◌≤◌, ◌+◌, [], ◌∷◌, List, ℕ, length, OnOk, IfOk};
ghost use Rattle.std.specs.Prelude.{IfSome};
ghost use Rattle.std.specs.Prelude.{map, fold, position};
ghost use Rattle.std.specs.Str.{bytes_eq};
ghost use Rattle.snapshot_reader.specs.Written.{arguments};
ghost use Rattle.snapshot_reader.specs.ModelLines.{with_further, further_names};
ghost use Rattle.snapshot_reader.specs.Cursor.{written_seen};

use crate::facts::Written;
use dl_syntax::{Memory, Ontology};
use indexmap::IndexSet;
use std::alloc::Global;
use std::marker::Model;

/// The names of further elements in the order of their first places, seen as the list of their
/// bytes.
#[derive(Drop)]
pub(crate) struct FurtherNames {
    alloc: Global,
    names: IndexSet<Vec<u8>>,
}

impl Model for FurtherNames {
    ghost use Rattle.std.specs.Prelude.{List, ℕ, map};

    ghost Value = { List (List ℕ) };

    ghost view = { λ f. map (λ n. n.items) f.names.keys };
}

impl FurtherNames {
    fn new(alloc: Global) -> FurtherNames
        ensures { result ≡ [] }
    {
        FurtherNames {
            alloc,
            names: IndexSet::new(alloc),
        }
    }

    /// The place of the name.
    #[inline]
    pub(crate) fn find(&self, name: &[u8]) -> Option<usize>
        ensures place { result ≡ position (bytes_eq name.now) self.now }
        ensures within { IfSome result (λ place. place < length self.now) }
    {
        self.names.get_index_of(name)
    }

    /// Puts the name last, unless it is declared or there already.
    fn add(&mut self, ontology: &Ontology, name: &[u8]) -> Result<(), Memory>
        ensures ok { OnOk result (self.new ≡ with_further ontology.now self.old name.now) }
    {
        if ontology.is_declared(name) {
            return Ok(());
        }
        let name = Vec::from_slice(self.alloc, name)?;
        self.names.insert(name)?;
        Ok(())
    }

    /// Puts the names of the fact's arguments last, in the same way.
    fn add_arguments(&mut self, ontology: &Ontology, written: &Written<'_>) -> Result<(), Memory>
        ensures { OnOk result (self.new
            ≡ fold (with_further ontology.now) self.old (arguments (written_seen written.now))) }
    {
        match written {
            Written::Unary(_, argument) => self.add(ontology, argument),
            Written::Binary(_, first, second) => {
                self.add(ontology, first)?;
                self.add(ontology, second)
            }
        }
    }
}

/// The names of the further elements of these facts.
#[tactic(auto, unfolding(crate::specs::ModelLines::further_names))]
pub(crate) fn further_names(
    alloc: Global,
    ontology: &Ontology,
    facts: &[Written<'_>],
) -> Result<FurtherNames, Memory>
    ensures names { IfOk result (λ names.
        names ≡ further_names ontology.now (map written_seen facts.now)) }
    ensures few { IfOk result (λ names. length names ≤ length facts.now + length facts.now) }
{
    let mut names = FurtherNames::new(alloc);
    for written in facts {
        names.add_arguments(ontology, written)?;
    }
    Ok(names)
}
