//! The numbers of names.

ghost use Rattle.std.specs.Prelude.{◌≡◌, [], ◌∷◌, ◌++◌, ◌<◌, None, Some, length, slice_get};
ghost use Rattle.std.specs.Prelude.{OnOk, OnErr};
ghost use Rattle.many_streams.specs.Streams.{number_of};

use dl_syntax::Memory;
use indexmap::IndexSet;
use std::alloc::Global;
use std::marker::Model;

/// Distinct names in order of entry, each with its place as its number, found by one look-up.
#[derive(Drop)]
pub struct NameNumbers {
    alloc: Global,
    names: IndexSet<Vec<u8>>,
}

impl Model for NameNumbers {
    ghost use Rattle.std.specs.Prelude.{List, ℕ, map};

    ghost Value = { List (List ℕ) };

    ghost view = { λ n. map (λ name. name.items) n.names.keys };
}

impl NameNumbers {
    pub fn new(alloc: Global) -> NameNumbers
        ensures { result ≡ [] }
    {
        NameNumbers {
            alloc,
            names: IndexSet::new(alloc),
        }
    }

    pub fn len(&self) -> usize
        ensures { result ≡ length self.now }
    {
        self.names.len()
    }

    /// The number of the name.
    pub fn find(&self, name: &[u8]) -> Option<usize>
        ensures { result ≡ number_of self.now name.now }
    {
        self.names.get_index_of(name)
    }

    /// The name with the number.
    pub fn get(&self, number: usize) -> &[u8]
        requires { number < length self.now }
        ensures { slice_get self.now number ≡ Some result.now }
    {
        self.names.as_slice()[number].as_slice()
    }

    /// Puts a new name last.
    pub fn push(&mut self, name: &[u8]) -> Result<(), Memory>
        requires { number_of self.old name.now ≡ None }
        ensures ok { OnOk result (self.new ≡ self.old ++ name.now ∷ []) }
        ensures err { OnErr result (self.new ≡ self.old) }
    {
        let name = Vec::from_slice(self.alloc, name)?;
        self.names.insert(name)?;
        Ok(())
    }
}
