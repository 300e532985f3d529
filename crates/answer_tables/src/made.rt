//! Tables that are shared where they would be made of the same again.

ghost use Rattle.std.specs.Prelude.{◌≡◌, ◌||◌, ◌&&◌, ◌<◌, ◌≤◌, ◌^◌, [], ◌∷◌, List, IfOk, IfSome};
ghost use Rattle.std.specs.Prelude.{length, map};
ghost use Rattle.std.specs.List.{All, AllPairs, Contains};
ghost use Rattle.dl_syntax.specs.declared.names.IndId.{IndId};
ghost use Rattle.dl_syntax.specs.Rows.{IsRising};
ghost use Rattle.antichains.specs.Sets.{holds};
ghost use Rattle.antichains.specs.Antichain.{IsMinimal, values_at};
ghost use Rattle.formula_store.specs.Interned.{Extends};
ghost use Rattle.answer_tables.specs.Tuples.{IsTuple};
ghost use Rattle.answer_tables.specs.Table.{at};
ghost use Rattle.answer_tables.specs.Combining.{test_of, Combines, LinksAreIn};
ghost use Rattle.answer_tables.specs.Substituting.{HaveShape};
ghost use Rattle.answer_tables.specs.Marks.{part_on};
ghost use Rattle.answer_tables.specs.Made.{IsCombination, IsSubstitution, IsMarking};

use crate::Memory;
use crate::combine::{Operation, combine};
use crate::remembered::{Combined, Marked, Remembered, Substituted};
use crate::same::{are_same, are_same_bytes, are_same_rows, is_same_operation};
use crate::substitute::{have_no_nodes, stored_table, substitute_all};
use crate::table::Table;
use crate::true_at::from_tuples;
use dl_syntax::Tuples;
use formula_store::Store;
use std::alloc::Global;
use std::marker::Model;

/// What the last operations at a number of places were made of, and the tables that they gave. It
/// shows in no answer: it only saves making equal tables again.
#[derive(Drop)]
pub struct Made {
    entries: Vec<Remembered>,
}

impl Model for Made {
    ghost use Rattle.std.specs.Prelude.{ℕ};

    ghost Value = { ℕ };

    ghost view = { λ _. 0 };
}

/// An equal table for each.
fn copies_of(alloc: Global, tables: &[Table]) -> Result<Vec<Table>, Memory>
    ensures { IfOk result (λ copies. copies.items ≡ tables.now) }
{
    let mut copies = Vec::with_capacity(alloc, tables.len())?;
    for table in tables {
        copies.push(table.copy()?)?;
    }
    Ok(copies)
}

/// What is to be remembered of a combination.
fn combination(
    operation: Operation,
    first: &Table,
    second: &Table,
    table: &Table,
) -> Result<Remembered, Memory>
    requires { IsCombination (test_of operation) first.now second.now table.now }
{
    let first = first.copy()?;
    let second = second.copy()?;
    let table = table.copy()?;
    Ok(Remembered::Combined(Combined {
        operation,
        first,
        second,
        table,
    }))
}

/// What is to be remembered of a substitution.
fn substitution(
    alloc: Global,
    old: &Table,
    values: &[Table],
    table: &Table,
) -> Result<Remembered, Memory>
    requires { IsSubstitution old.now values.now table.now }
{
    let old = old.copy()?;
    let values = copies_of(alloc, values)?;
    let table = table.copy()?;
    Ok(Remembered::Substituted(Substituted { old, values, table }))
}

/// What is to be remembered of rows.
fn marking(
    alloc: Global,
    slots: u32,
    arity: u8,
    places: &[u8],
    rows: &Tuples,
    table: &Table,
) -> Result<Remembered, Memory>
    requires { IsMarking slots arity places.now rows.now table.now }
{
    let places = Vec::from_slice(alloc, places)?;
    let rows = rows.clone()?;
    let table = table.copy()?;
    Ok(Remembered::Marked(Marked {
        slots,
        arity,
        places,
        rows,
        table,
    }))
}

/// The table of the combination, where these were combined so.
fn given_by<'a>(
    entry: &'a Combined,
    operation: Operation,
    first: &Table,
    second: &Table,
) -> Option<&'a Table>
    ensures { IfSome result (λ t. IsCombination (test_of operation) first.now second.now t.now) }
{
    if is_same_operation(entry.operation, operation)
        && entry.first.is_same(first)
        && entry.second.is_same(second)
    {
        Some(&entry.table)
    } else {
        None
    }
}

/// The table with the values in their places, where they were put there.
fn given_for<'a>(entry: &'a Substituted, old: &Table, values: &[Table]) -> Option<&'a Table>
    ensures { IfSome result (λ t. IsSubstitution old.now values.now t.now) }
{
    if entry.old.is_same(old) && are_same(entry.values.as_slice(), values) {
        Some(&entry.table)
    } else {
        None
    }
}

/// The table that is true at the rows, where they were marked.
fn given_at<'a>(
    entry: &'a Marked,
    slots: u32,
    arity: u8,
    places: &[u8],
    rows: &Tuples,
) -> Option<&'a Table>
    ensures { IfSome result (λ t. IsMarking slots arity places.now rows.now t.now) }
{
    if entry.slots == slots
        && entry.arity == arity
        && are_same_bytes(entry.places.as_slice(), places)
        && are_same_rows(&entry.rows, rows)
    {
        Some(&entry.table)
    } else {
        None
    }
}

impl Made {
    /// Nothing is remembered.
    pub fn new(alloc: Global) -> Made {
        Made {
            entries: Vec::new(alloc),
        }
    }

    /// The remembered combination of the tables at the place.
    fn combined_before(
        &self,
        place: usize,
        operation: Operation,
        first: &Table,
        second: &Table,
    ) -> Option<&Table>
        ensures { IfSome result (λ t.
            IsCombination (test_of operation) first.now second.now t.now) }
    {
        if place >= self.entries.len() {
            return None;
        }
        match &self.entries[place] {
            Remembered::Combined(entry) => given_by(entry, operation, first, second),
            _ => None,
        }
    }

    /// The remembered table with the values in their places, at the place.
    fn substituted_before(&self, place: usize, old: &Table, values: &[Table]) -> Option<&Table>
        ensures { IfSome result (λ t. IsSubstitution old.now values.now t.now) }
    {
        if place >= self.entries.len() {
            return None;
        }
        match &self.entries[place] {
            Remembered::Substituted(entry) => given_for(entry, old, values),
            _ => None,
        }
    }

    /// The remembered table that is true at the rows, at the place.
    fn marked_before(
        &self,
        place: usize,
        slots: u32,
        arity: u8,
        places: &[u8],
        rows: &Tuples,
    ) -> Option<&Table>
        ensures { IfSome result (λ t. IsMarking slots arity places.now rows.now t.now) }
    {
        if place >= self.entries.len() {
            return None;
        }
        match &self.entries[place] {
            Remembered::Marked(entry) => given_at(entry, slots, arity, places, rows),
            _ => None,
        }
    }

    /// Makes room up to the place.
    fn grow(&mut self, place: usize) -> Result<(), Memory> {
        let count = self.entries.len();
        for _ in count..place {
            self.entries.push(Remembered::Nothing)?;
        }
        Ok(())
    }

    /// Remembers nothing at the place.
    fn forget(&mut self, place: usize) {
        if place < self.entries.len() {
            self.entries[place] = Remembered::Nothing;
        }
    }

    /// Remembers this at the place, where there is memory.
    fn remember(&mut self, place: usize, entry: Result<Remembered, Memory>) {
        let Ok(entry) = entry else {
            return;
        };
        if place < self.entries.len() {
            self.entries[place] = entry;
        } else if self.grow(place).is_ok() {
            let _ = self.entries.push(entry);
        }
    }

    /// The combination of the tables. Where one has one antichain no rank is read, and nothing is
    /// remembered.
    fn combined(
        &mut self,
        place: usize,
        alloc: Global,
        operation: Operation,
        a: &Table,
        b: &Table,
        store: &mut Store,
    ) -> Result<Table, Memory>
        requires slots { a.now.slots ≡ b.now.slots }
        requires arity { a.now.arity ≡ b.now.arity }
        ensures given { IfOk result (IsCombination (test_of operation) a.now b.now) }
        ensures stored { IfOk result (λ t. LinksAreIn t store.new) }
        ensures grown { Extends store.old store.new }
    {
        if a.links.len() == 1 || b.links.len() == 1 {
            return combine(alloc, operation, a, b, store);
        }
        if let Some(table) = self.combined_before(place, operation, a, b) {
            return stored_table(alloc, table, store);
        }
        self.forget(place);
        let table = combine(alloc, operation, a, b, store)?;
        self.remember(place, combination(operation, a, b, &table));
        Ok(table)
    }

    /// The antichains that hold where either table's do.
    pub fn either(
        &mut self,
        place: usize,
        alloc: Global,
        a: &Table,
        b: &Table,
        store: &mut Store,
    ) -> Result<Table, Memory>
        requires slots { a.now.slots ≡ b.now.slots }
        requires arity { a.now.arity ≡ b.now.arity }
        ensures slots { IfOk result (λ t. t.slots ≡ a.now.slots) }
        ensures arity { IfOk result (λ t. t.arity ≡ a.now.arity) }
        ensures each { IfOk result (λ t. (tuple : List IndId)
            → IsTuple a.now.slots a.now.arity tuple
            → IsMinimal (λ v. holds (at a.now tuple) v || holds (at b.now tuple) v) (at t tuple)) }
        ensures stored { IfOk result (λ t. LinksAreIn t store.new) }
        ensures grown { Extends store.old store.new }
    {
        self.combined(place, alloc, Operation::Or, a, b, store)
    }

    /// The antichains that hold where both tables' do.
    pub fn both(
        &mut self,
        place: usize,
        alloc: Global,
        a: &Table,
        b: &Table,
        store: &mut Store,
    ) -> Result<Table, Memory>
        requires slots { a.now.slots ≡ b.now.slots }
        requires arity { a.now.arity ≡ b.now.arity }
        ensures slots { IfOk result (λ t. t.slots ≡ a.now.slots) }
        ensures arity { IfOk result (λ t. t.arity ≡ a.now.arity) }
        ensures each { IfOk result (λ t. (tuple : List IndId)
            → IsTuple a.now.slots a.now.arity tuple
            → IsMinimal (λ v. holds (at a.now tuple) v && holds (at b.now tuple) v) (at t tuple)) }
        ensures stored { IfOk result (λ t. LinksAreIn t store.new) }
        ensures grown { Extends store.old store.new }
    {
        self.combined(place, alloc, Operation::And, a, b, store)
    }

    /// Each tuple's antichain with the nodes replaced by their values at the tuple: `values[b]` has
    /// those of the node numbered `b`, and a node without a value is false. Where no antichain has
    /// a node no rank is read, and nothing is remembered.
    pub fn substituted(
        &mut self,
        place: usize,
        alloc: Global,
        table: &Table,
        values: &[Table],
        store: &mut Store,
    ) -> Result<Table, Memory>
        requires { HaveShape table.now.slots table.now.arity values.now }
        ensures slots { IfOk result (λ t. t.slots ≡ table.now.slots) }
        ensures arity { IfOk result (λ t. t.arity ≡ table.now.arity) }
        ensures each { IfOk result (λ t. (tuple : List IndId)
            → IsTuple table.now.slots table.now.arity tuple
            → IsMinimal (λ v. holds (at table.now tuple)
            (values_at (map (λ x. at x tuple) values.now) v)) (at t tuple)) }
        ensures stored { IfOk result (λ t. LinksAreIn t store.new) }
        ensures grown { Extends store.old store.new }
    {
        if have_no_nodes(table.links.as_slice()) {
            return substitute_all(alloc, table, values, store);
        }
        if let Some(known) = self.substituted_before(place, table, values) {
            return stored_table(alloc, known, store);
        }
        self.forget(place);
        let new = substitute_all(alloc, table, values, store)?;
        self.remember(place, substitution(alloc, table, values, &new));
        Ok(new)
    }

    /// The table that is true exactly at the tuples whose part on the places is one of the rows,
    /// and false at the others. The rows rise.
    pub fn marked(
        &mut self,
        place: usize,
        alloc: Global,
        slots: u32,
        arity: u8,
        places: &[u8],
        rows: &Tuples,
        store: &mut Store,
    ) -> Result<Table, Memory>
        requires few { slots ^ arity ≤ 2 ^ 60 }
        requires rising_places { AllPairs (λ p q. p < q) places.now }
        requires within { All (λ p. p < arity) places.now }
        requires many { length places.now ≡ rows.now.arity }
        requires rising { IsRising rows.now.rows }
        requires wide { All (λ row. length row ≡ rows.now.arity) rows.now.rows }
        ensures slots { IfOk result (λ t. t.slots ≡ slots) }
        ensures arity { IfOk result (λ t. t.arity ≡ arity) }
        ensures held { IfOk result (λ t. (tuple : List IndId) → IsTuple slots arity tuple
            → Contains rows.now.rows (part_on places.now tuple) → at t tuple ≡ 0 ∷ []) }
        ensures others { IfOk result (λ t. (tuple : List IndId) → IsTuple slots arity tuple
            → ¬ Contains rows.now.rows (part_on places.now tuple) → at t tuple ≡ []) }
        ensures stored { IfOk result (λ t. LinksAreIn t store.new) }
        ensures grown { Extends store.old store.new }
    {
        if let Some(known) = self.marked_before(place, slots, arity, places, rows) {
            return stored_table(alloc, known, store);
        }
        self.forget(place);
        let table = from_tuples(alloc, slots, arity, places, rows, store)?;
        self.remember(place, marking(alloc, slots, arity, places, rows, &table));
        Ok(table)
    }
}
