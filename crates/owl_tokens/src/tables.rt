//! Texts under keys.

ghost use Rattle.std.specs.Prelude.{◌≡◌, [], OnOk};
ghost use Rattle.std.specs.Option.{option_map};
ghost use Rattle.owl_tokens.specs.Tables.{looked_up, put};

use indexmap::IndexMap;
use std::alloc::{AllocError, Global};
use std::marker::Model;

/// Texts under other texts, seen as the list of keys with their texts.
#[derive(Drop)]
pub struct Table {
    alloc: Global,
    entries: IndexMap<Vec<u8>, Vec<u8>>,
}

impl Model for Table {
    ghost use Rattle.std.specs.Prelude.{List, ℕ, map};

    ghost Value = { List (List ℕ × List ℕ) };

    ghost view = { λ t. map (λ e. (e.0.items, e.1.items)) t.entries.entries };
}

impl Table {
    pub fn new(alloc: Global) -> Table
        ensures { result ≡ [] }
    {
        Table {
            alloc,
            entries: IndexMap::new(alloc),
        }
    }

    /// The text under the key.
    pub fn find(&self, key: &[u8]) -> Option<&[u8]>
        ensures { option_map (λ text. text.now) result ≡ looked_up key.now self.now }
    {
        match self.entries.get(key) {
            Some(text) => Some(text.as_slice()),
            None => None,
        }
    }

    /// Puts a text under the key, in place of the one that was there.
    pub fn put(&mut self, key: &[u8], text: &[u8]) -> Result<(), AllocError>
        ensures { OnOk result (self.new ≡ put key.now text.now self.old) }
    {
        let key = Vec::from_slice(self.alloc, key)?;
        let text = Vec::from_slice(self.alloc, text)?;
        self.entries.insert(key, text)?;
        Ok(())
    }
}
