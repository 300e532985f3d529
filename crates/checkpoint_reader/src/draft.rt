//! What is said of a checkpoint so far.

ghost use Rattle.std.specs.Prelude.{◌≡◌, ◌≤◌, ◌↔◌, ◌++◌, ◌∷◌, [], length, IfOk, OnOk, IsTrue};
ghost use Rattle.std.specs.List.{Contains};
ghost use Rattle.std.specs.Option.{option_map, ForSome};
ghost use Rattle.checkpoint_text.specs.Suspended.{slots_with};
ghost use Rattle.checkpoint_reader.specs.Rules.{begun};
ghost use Rattle.checkpoint_reader.specs.Slots.{more_slots};

use checkpoint_text::{Checkpoint, Node, Nodes};
use dl_syntax::{Kind, Memory, Name, Ontology};
use formula_store::{Link, Store};
use std::alloc::Global;
use std::marker::Model;

/// What is said so far.
#[derive(Drop)]
pub(crate) struct Draft {
    alloc: Global,
    names: Option<Vec<Name>>,
    /// How many numbers a tuple may have beside those of the ontology's individuals.
    more: u32,
    accepted: u64,
    lists: Store,
    queries: Vec<Nodes>,
}

impl Model for Draft {
    ghost use Rattle.std.specs.Prelude.{◌≡◌, ◌≤◌};
    ghost use Rattle.std.specs.Option.{option_map};
    ghost use Rattle.checkpoint_text.specs.Suspended.{Suspended};
    ghost use Rattle.checkpoint_reader.specs.Slots.{more_slots};

    ghost Value = { Suspended };

    ghost view = { λ d. record {
      names = option_map (λ names. names.items) d.names;
      accepted = d.accepted;
      lists = d.lists;
      queries = d.queries.items;
    } };

    ghost invariant = { λ d. (d.more ≡ more_slots (option_map (λ names. names.items) d.names))
        × (d.more ≤ 4097) };
}

/// How many numbers a tuple may have beside those of the ontology's individuals.
fn more_slots(names: &Option<Vec<Name>>) -> u32
    requires { ForSome names.now (λ names. length names.items ≤ 4096) }
    ensures { result ≡ more_slots (option_map (λ names. names.items) names.now) }
{
    match names {
        Some(names) => names.len() as u32 + 1,
        None => 0,
    }
}

/// A link of each antichain of the store.
fn links_of(alloc: Global, store: &Store) -> Result<Vec<Link>, Memory>
    ensures { IfOk result (λ links. links.items ≡ store.now) }
{
    let mut links = Vec::new(alloc);
    for link in store.links() {
        let copy = link.copy()?;
        links.push(copy)?;
    }
    Ok(links)
}

impl Draft {
    /// Nothing but the names and the number of snapshots is said.
    pub(crate) fn new(alloc: Global, names: Option<Vec<Name>>, accepted: u64) -> Draft
        requires { ForSome names (λ names. length names.items ≤ 4096) }
        ensures { result ≡ begun (option_map (λ names. names.items) names) accepted }
    {
        let more = more_slots(&names);
        Draft {
            alloc,
            names,
            more,
            accepted,
            lists: Store::new(alloc),
            queries: Vec::new(alloc),
        }
    }

    /// How many numbers a tuple may have.
    pub(crate) fn slots(&self, ontology: &Ontology) -> u32
        ensures slots { result ≡ slots_with ontology.now self.now.names }
        ensures small { result ≤ 8193 }
    {
        ontology.count(Kind::Individual) + self.more
    }

    /// How many snapshots were accepted.
    pub(crate) fn accepted(&self) -> u64
        ensures { result ≡ self.now.accepted }
    {
        self.accepted
    }

    /// Links of the lists so far.
    pub(crate) fn links(&self) -> &[Link]
        ensures { result.now ≡ self.now.lists }
    {
        self.lists.links()
    }

    /// Whether the list is one of those so far.
    pub(crate) fn has_list(&self, link: &Link) -> bool
        ensures { IsTrue result ↔ Contains self.now.lists link.now }
    {
        self.lists.place(link).is_some()
    }

    /// Puts a new list last.
    pub(crate) fn push_list(&mut self, link: Link) -> Result<(), Memory>
        requires { Contains self.old.lists link → ⊥ }
        ensures { OnOk result (self.new ≡ record self.old { lists = self.old.lists ++ link ∷ [] }) }
    {
        self.lists.adopt(link)?;
        Ok(())
    }

    /// Puts what is said of one more query last.
    pub(crate) fn push_query(&mut self, nodes: Vec<Node>) -> Result<(), Memory>
        ensures { OnOk result (self.new
            ≡ record self.old { queries = self.old.queries ++ nodes.items ∷ [] }) }
    {
        self.queries.push(Nodes { nodes })?;
        Ok(())
    }

    /// All that is said.
    pub(crate) fn into_checkpoint(self) -> Result<Checkpoint, Memory>
        ensures { IfOk result (λ c. c ≡ self) }
    {
        let lists = links_of(self.alloc, &self.lists)?;
        Ok(Checkpoint {
            names: self.names,
            accepted: self.accepted,
            lists,
            queries: self.queries,
        })
    }
}
