//! A chain for each tuple of individuals.

ghost use Rattle.std.specs.Prelude.{◌≡◌, ◌≤◌, ◌<◌, ◌^◌, ◌↔◌, ℕ, List, IfOk, length};
ghost use Rattle.std.specs.List.{All, Contains};
ghost use Rattle.formula_store.specs.Interned.{AreDistinct};
ghost use Rattle.dl_syntax.specs.declared.names.IndId.{IndId};
ghost use Rattle.answer_tables.specs.Tuples.{IsTuple, number};
ghost use Rattle.answer_tables.specs.Table.{Antichains, AreRuns, AreUsed, HasAntichain, IsTable};
ghost use Rattle.answer_tables.specs.Table.{at, view_of};

use crate::Memory;
use crate::ranking::Ranking;
use crate::renaming::{copies, each_once, renamed, renumbered, settled};
use crate::run::Run;
use dl_syntax::IndId;
use formula_store::Link;
use std::alloc::Global;
use std::marker::Model;
use std::rc::Rc;

/// A antichain for each tuple of so many individuals below a number of slots.
#[derive(Drop)]
pub struct Table {
    pub(crate) slots: u32,
    pub(crate) arity: u8,
    pub(crate) links: Vec<Link>,
    pub(crate) ranks: Rc<Ranking>,
}

impl Model for Table {
    ghost use Rattle.answer_tables.specs.Table.{Antichains, IsTable, view_of};

    ghost Value = { Antichains };

    ghost view = { λ t. view_of t.slots t.arity t.links.items t.ranks.value };

    ghost invariant = { λ t. IsTable t.slots t.arity t.links.items t.ranks.value };
}

/// How many tuples come before this one.
pub(crate) fn number_of(slots: u32, tuple: &[IndId]) -> u64
    requires below { All (λ i. i.0 < slots) tuple.now }
    requires few { slots ^ length tuple.now ≤ 2 ^ 60 }
    ensures { result ≡ number slots tuple.now }
{
    let mut number = 0;
    for individual in tuple {
        number = number * slots as u64 + individual.0 as u64;
    }
    number
}

/// How many tuples there are.
pub(crate) fn tuple_count(slots: u32, arity: u8) -> u64
    requires { slots ^ arity ≤ 2 ^ 60 }
    ensures { result ≡ slots ^ arity }
{
    (slots as u64).pow(arity as u32)
}

/// The same antichain for each tuple.
pub fn fill(alloc: Global, slots: u32, arity: u8, link: &Link) -> Result<Table, Memory>
    requires { slots ^ arity ≤ 2 ^ 60 }
    ensures slots { IfOk result (λ t. t.slots ≡ slots) }
    ensures arity { IfOk result (λ t. t.arity ≡ arity) }
    ensures same { IfOk result (λ t. (tuple : List IndId) → IsTuple slots arity tuple
        → at t tuple ≡ link.now) }
{
    let end = tuple_count(slots, arity);
    if end == 0 {
        return Table::from_parts(alloc, slots, arity, &[], &[]);
    }
    let mut links = Vec::with_capacity(alloc, 1)?;
    links.push(link.copy()?)?;
    let mut runs = Vec::with_capacity(alloc, 1)?;
    runs.push(Run { end, link: 0 })?;
    let ranks = Rc::new(alloc, Ranking::from_runs(alloc, runs))?;
    Ok(Table {
        slots,
        arity,
        links,
        ranks,
    })
}

impl Table {
    /// The table of links of distinct antichains, each of which some tuple has.
    pub(crate) fn from_own(
        alloc: Global,
        slots: u32,
        arity: u8,
        links: Vec<Link>,
        ranks: Ranking,
    ) -> Result<Table, Memory>
        requires { IsTable slots arity links.items ranks }
        ensures { IfOk result (λ t. t ≡ view_of slots arity links.items ranks) }
    {
        let ranks = Rc::new(alloc, ranks)?;
        Ok(Table {
            slots,
            arity,
            links,
            ranks,
        })
    }

    /// The table of runs over all tuples.
    pub(crate) fn from_parts(
        alloc: Global,
        slots: u32,
        arity: u8,
        links: &[Link],
        runs: &[Run],
    ) -> Result<Table, Memory>
        requires are { AreRuns slots arity links.now runs.now }
        requires used { AreUsed (slots ^ arity) (length links.now) runs.now }
        ensures { IfOk result (λ t. t ≡ view_of slots arity links.now runs.now) }
    {
        let once = each_once(alloc, links)?;
        let runs = renamed(alloc, runs, once.places.as_slice())?;
        let ranks = Ranking::from_runs(alloc, runs).settled()?;
        let ranks = Rc::new(alloc, ranks)?;
        Ok(Table {
            slots,
            arity,
            links: once.links,
            ranks,
        })
    }

    /// The table of new numbers for all ranks.
    pub(crate) fn from_aligned(
        alloc: Global,
        slots: u32,
        arity: u8,
        links: &[Link],
        ranks: Ranking,
    ) -> Result<Table, Memory>
        requires are { AreRuns slots arity links.now ranks }
        requires used { AreUsed (slots ^ arity) (length links.now) ranks }
        ensures { IfOk result (λ t. t ≡ view_of slots arity links.now ranks) }
    {
        let once = each_once(alloc, links)?;
        let ranks = settled(alloc, ranks, once.places.as_slice())?;
        let ranks = Rc::new(alloc, ranks)?;
        Ok(Table {
            slots,
            arity,
            links: once.links,
            ranks,
        })
    }

    /// The table of numbers for all ranks, which it shares where no antichain is there twice.
    pub(crate) fn from_ranking(
        alloc: Global,
        slots: u32,
        arity: u8,
        links: &[Link],
        ranks: &Rc<Ranking>,
    ) -> Result<Table, Memory>
        requires are { AreRuns slots arity links.now ranks.now.value }
        requires used { AreUsed (slots ^ arity) (length links.now) ranks.now.value }
        ensures { IfOk result (λ t. t ≡ view_of slots arity links.now ranks.now.value) }
    {
        let once = each_once(alloc, links)?;
        let ranks = renumbered(alloc, ranks, once.places.as_slice())?;
        Ok(Table {
            slots,
            arity,
            links: once.links,
            ranks,
        })
    }

    /// How many individuals a place of a tuple may have.
    pub fn slots(&self) -> u32
        ensures { result ≡ self.now.slots }
    {
        self.slots
    }

    /// How many individuals a tuple has.
    pub fn arity(&self) -> u8
        ensures { result ≡ self.now.arity }
    {
        self.arity
    }

    /// The antichain of a tuple.
    pub fn get(&self, tuple: &[IndId]) -> &Link
        requires { IsTuple self.now.slots self.now.arity tuple.now }
        ensures { result.now ≡ at self.now tuple.now }
    {
        let rank = number_of(self.slots, tuple);
        &self.links[self.ranks.link_of(rank)]
    }

    /// The antichain of the tuple with a number.
    pub(crate) fn at_rank(&self, rank: u64) -> &Link
        requires { rank < self.now.slots ^ self.now.arity }
        ensures { (tuple : List IndId) → IsTuple self.now.slots self.now.arity tuple
            → number self.now.slots tuple ≡ rank → result.now ≡ at self.now tuple }
    {
        &self.links[self.ranks.link_of(rank)]
    }

    /// A link of each antichain of a tuple, each once.
    pub fn distinct_links(&self) -> &[Link]
        ensures distinct { AreDistinct result.now }
        ensures exact { (antichain : List ℕ)
            → Contains result.now antichain ↔ HasAntichain self.now antichain }
    {
        self.links.as_slice()
    }

    /// An equal table, which shares its ranks.
    pub fn copy(&self) -> Result<Table, Memory>
        ensures { IfOk result (λ t. t ≡ self.now) }
    {
        let links = copies(*self.links.allocator(), self.links.as_slice())?;
        let ranks = self.ranks.clone()?;
        Ok(Table {
            slots: self.slots,
            arity: self.arity,
            links,
            ranks,
        })
    }
}
