//! Distinct chains, each once.

ghost use Rattle.std.specs.Prelude.{◌≡◌, ◌&&◌, ◌||◌, ◌+◌, IfOk, IfSome, OnOk, OnErr, MatchOption};
ghost use Rattle.std.specs.Prelude.{List, [], Some, slice_get, length, ℕ, All};
ghost use Rattle.std.specs.List.{Contains, sum_by};
ghost use Rattle.antichains.specs.Sets.{holds};
ghost use Rattle.antichains.specs.Antichain.{IsAntichain, IsMinimal, values_at};
ghost use Rattle.formula_store.specs.Interned.{interned, interned_all, AreDistinct};

use crate::Memory;
use crate::link::Link;
use crate::pair::Pair;
use antichains::{Antichain, and, or, substitute};
use indexmap::IndexSet;
use std::alloc::Global;
use std::collections::HashMap;
use std::marker::Model;

/// Distinct antichains in the order in which they came, seen as their list.
#[derive(Drop)]
pub struct Store {
    alloc: Global,
    links: IndexSet<Link>,
    both: HashMap<Pair, usize>,
    either: HashMap<Pair, usize>,
    set_count: u64,
}

impl Model for Store {
    ghost use Rattle.std.specs.Prelude.{List, ℕ};
    ghost use Rattle.formula_store.specs.Memo.{IsStore};

    ghost Value = { List (List ℕ) };

    ghost view = { λ s. s.links.keys };

    ghost invariant = { λ s. IsStore s.links.keys s.both s.either s.set_count };
}

impl Store {
    /// No antichains.
    pub fn new(alloc: Global) -> Store
        ensures { result ≡ [] }
    {
        Store {
            alloc,
            links: IndexSet::new(alloc),
            both: HashMap::new(alloc),
            either: HashMap::new(alloc),
            set_count: 0,
        }
    }

    /// The links of the antichains, in the order of the list. No antichain is there twice.
    pub fn links(&self) -> &[Link]
        ensures list { result.now ≡ self.now }
        ensures distinct { AreDistinct self.now }
    {
        self.links.as_slice()
    }

    /// The stored link of a link's antichain, which is put last where it is new.
    pub fn adopt(&mut self, link: Link) -> Result<Link, Memory>
        ensures link { IfOk result (λ l. l ≡ link) }
        ensures ok { OnOk result (self.new ≡ interned self.old link) }
        ensures err { OnErr result (self.new ≡ self.old) }
    {
        let more = link.antichain().sets().len() as u64;
        if let Some(stored) = self.links.get(&link) {
            return stored.copy();
        }
        let copy = link.copy()?;
        let Some(set_count) = self.set_count.checked_add(more) else {
            return Err(Memory);
        };
        self.links.insert(link)?;
        self.set_count = set_count;
        Ok(copy)
    }

    /// The link of a antichain, which is put last where it is new.
    pub fn intern(&mut self, antichain: Antichain) -> Result<Link, Memory>
        ensures link { IfOk result (λ l. l ≡ antichain) }
        ensures ok { OnOk result (self.new ≡ interned self.old antichain) }
        ensures err { OnErr result (self.new ≡ self.old) }
    {
        let link = Link::new(self.alloc, antichain)?;
        self.adopt(link)
    }

    /// The place of a link's antichain in the list, if it is there.
    pub fn place(&self, link: &Link) -> Option<usize>
        ensures { MatchOption result (¬ Contains self.now link.now) (λ place.
            slice_get self.now place ≡ Some link.now) }
    {
        self.links.get_index_of(link)
    }

    /// The places of two antichains, if both are there.
    fn pair(&self, a: &Link, b: &Link) -> Option<Pair>
        ensures { IfSome result (λ p. (slice_get self.now p.first ≡ Some a.now)
            × (slice_get self.now p.second ≡ Some b.now)) }
    {
        let first = self.place(a)?;
        let second = self.place(b)?;
        Some(Pair { first, second })
    }

    /// The link of the antichain that holds where both do.
    pub fn both(&mut self, a: &Link, b: &Link) -> Result<Link, Memory>
        ensures link { IfOk result (IsMinimal (λ v. holds a.now v && holds b.now v)) }
        ensures ok { IfOk result (λ l. self.new ≡ interned self.old l) }
        ensures err { OnErr result (self.new ≡ self.old) }
    {
        let pair = self.pair(a, b);
        if let Some(pair) = pair {
            if let Some(place) = self.both.get(&pair) {
                if let Some(stored) = self.links.get_index(*place) {
                    return stored.copy();
                }
            }
        }
        let antichain = and(self.alloc, a.antichain(), b.antichain())?;
        let link = self.intern(antichain)?;
        if let Some(pair) = pair {
            if let Some(place) = self.place(&link) {
                let _ = self.both.insert(pair, place);
            }
        }
        Ok(link)
    }

    /// The link of the antichain that holds where either does.
    pub fn either(&mut self, a: &Link, b: &Link) -> Result<Link, Memory>
        ensures link { IfOk result (IsMinimal (λ v. holds a.now v || holds b.now v)) }
        ensures ok { IfOk result (λ l. self.new ≡ interned self.old l) }
        ensures err { OnErr result (self.new ≡ self.old) }
    {
        let pair = self.pair(a, b);
        if let Some(pair) = pair {
            if let Some(place) = self.either.get(&pair) {
                if let Some(stored) = self.links.get_index(*place) {
                    return stored.copy();
                }
            }
        }
        let antichain = or(self.alloc, a.antichain(), b.antichain())?;
        let link = self.intern(antichain)?;
        if let Some(pair) = pair {
            if let Some(place) = self.place(&link) {
                let _ = self.either.insert(pair, place);
            }
        }
        Ok(link)
    }

    /// The link of the antichain with each node replaced by its value; a node without one is false.
    pub fn substituted(&mut self, link: &Link, values: &[Link]) -> Result<Link, Memory>
        ensures link { IfOk result (IsMinimal (λ v. holds link.now (values_at values.now v))) }
        ensures ok { IfOk result (λ l. self.new ≡ interned self.old l) }
        ensures err { OnErr result (self.new ≡ self.old) }
    {
        let antichains = antichains_of(self.alloc, values)?;
        let antichain = substitute(self.alloc, link.antichain(), antichains.as_slice())?;
        self.intern(antichain)
    }

    /// The total length of the list's members, which are antichains.
    pub fn set_count(&self) -> u64
        ensures total { result ≡ sum_by length self.now }
        ensures antichains { All IsAntichain self.now }
    {
        self.set_count
    }

    /// A store of the distinct antichains of the links in order of their first occurrence, with
    /// nothing remembered, and links of the same antichains in the same order.
    pub fn next_generation(alloc: Global, links: &[Link]) -> Result<(Store, Vec<Link>), Memory>
        ensures list { IfOk result (λ r. r.0 ≡ interned_all [] links.now) }
        ensures same { IfOk result (λ r. r.1.items ≡ links.now) }
    {
        let mut store = Store::new(alloc);
        let mut moved = Vec::with_capacity(alloc, links.len())?;
        for link in links {
            let copy = link.copy()?;
            moved.push(store.adopt(copy)?)?;
        }
        Ok((store, moved))
    }
}

/// The antichain of each link.
fn antichains_of(alloc: Global, links: &[Link]) -> Result<Vec<Antichain>, Memory>
    ensures { IfOk result (λ antichains. antichains.items ≡ links.now) }
{
    let mut antichains = Vec::with_capacity(alloc, links.len())?;
    for link in links {
        let antichain = link.antichain().copy()?;
        antichains.push(antichain)?;
    }
    Ok(antichains)
}
