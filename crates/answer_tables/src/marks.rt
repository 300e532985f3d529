//! Runs that mark the ranks of rows.

ghost use Rattle.std.specs.Prelude.{◌≡◌, ◌<◌, ◌≤◌, ◌^◌, ◌↔◌, ◌+◌, ℕ, true, IfOk, OnOk, IsTrue};
ghost use Rattle.std.specs.Prelude.{length, slice_index, take};
ghost use Rattle.std.specs.List.{All, AllPairs};
ghost use Rattle.dl_syntax.specs.Rows.{IsRising};
ghost use Rattle.answer_tables.specs.Runs.{RiseFrom, end_from};
ghost use Rattle.answer_tables.specs.Marks.{Cleared, AreMarked, Marks, MarksParts, WeighParts};

use crate::Memory;
use crate::run::{Run, extend};
use crate::spread::spread;
use crate::table::{number_of, tuple_count};
use dl_syntax::{IndId, Tuples};
use std::alloc::Global;

/// Gives 0 to the ranks from the runs' end up to a rank.
fn clear_to(runs: &mut Vec<Run>, end: u64, rank: u64) -> Result<(), Memory>
    requires rise { RiseFrom 0 runs.old.items }
    requires end { end_from 0 runs.old.items ≡ end }
    requires ahead { end ≤ rank }
    ensures { OnOk result (Cleared runs.old.items rank runs.new.items) }
{
    if end == rank {
        return Ok(());
    }
    extend(runs, Run { end: rank, link: 0 })
}

/// Whether each individual is below the number of slots.
fn is_below(slots: u32, row: &[IndId]) -> bool
    ensures { IsTrue result ↔ All (λ i. i.0 < slots) row.now }
{
    row.iter().all(|individual| individual.0 < slots)
}

/// Marks the rank of the row at a place, after those before it, and gives the runs' new end. A row
/// with an individual beyond the slots has no rank.
fn mark_row(
    slots: u32,
    rows: &Tuples,
    place: usize,
    runs: &mut Vec<Run>,
    end: u64,
) -> Result<u64, Memory>
    requires place { place < length rows.now.rows }
    requires rising { IsRising rows.now.rows }
    requires wide { All (λ row. length row ≡ rows.now.arity) rows.now.rows }
    requires few { slots ^ rows.now.arity ≤ 2 ^ 60 }
    requires marks { Marks slots rows.now.arity (take place rows.now.rows) runs.old.items end }
    ensures { IfOk result (Marks slots rows.now.arity (take (place + 1) rows.now.rows)
        runs.new.items) }
{
    let row = rows.row(place);
    if !is_below(slots, row) {
        return Ok(end);
    }
    let rank = number_of(slots, row);
    clear_to(runs, end, rank)?;
    let end = rank + 1;
    extend(runs, Run { end, link: 1 })?;
    Ok(end)
}

/// Runs over the ranks of all tuples as long as the rows, with 1 at those of the rows and 0 at the
/// others.
fn mark_rows(alloc: Global, slots: u32, rows: &Tuples) -> Result<Vec<Run>, Memory>
    requires rising { IsRising rows.now.rows }
    requires wide { All (λ row. length row ≡ rows.now.arity) rows.now.rows }
    requires few { slots ^ rows.now.arity ≤ 2 ^ 60 }
    ensures { IfOk result (λ runs.
        AreMarked slots rows.now.arity rows.now.rows runs.items (slots ^ rows.now.arity)) }
{
    let mut runs = Vec::new(alloc);
    let mut end = 0;
    for place in 0..rows.len() {
        end = mark_row(slots, rows, place, &mut runs, end)?;
    }
    clear_to(&mut runs, end, tuple_count(slots, rows.arity()))?;
    Ok(runs)
}

/// The weights by which a tuple's digits tell the number of its part on the places, of which there
/// are so many.
fn weights_of_part(
    alloc: Global,
    slots: u32,
    arity: u8,
    places: &[u8],
    count: u8,
) -> Result<Vec<u64>, Memory>
    requires some { 0 < slots }
    requires few { slots ^ arity ≤ 2 ^ 60 }
    requires count { length places.now ≡ count }
    requires rising { AllPairs (λ p q. p < q) places.now }
    requires within { All (λ p. p < arity) places.now }
    ensures { IfOk result (λ weights. WeighParts slots arity places.now 1 weights.items) }
{
    let mut weights = vec![in alloc; 0; arity as usize]?;
    let mut left = count;
    for place in places {
        left -= 1;
        weights[*place as usize] = tuple_count(slots, left);
    }
    Ok(weights)
}

/// Whether the places are all those of a tuple of so many individuals, in order.
fn are_all(places: &[u8], arity: u8) -> bool
    ensures many { result ≡ true → length places.now ≡ arity }
    ensures own { result ≡ true → (i : ℕ) → i < length places.now → slice_index places.now i ≡ i }
{
    if places.len() != arity as usize {
        return false;
    }
    for i in 0..places.len() {
        if places[i] as usize != i {
            return false;
        }
    }
    true
}

/// Runs over the ranks of all tuples, with 1 at those whose part on the places is one of the rows
/// and 0 at the others.
pub fn mark_parts(
    alloc: Global,
    slots: u32,
    arity: u8,
    places: &[u8],
    rows: &Tuples,
) -> Result<Vec<Run>, Memory>
    requires some { 0 < slots }
    requires few { slots ^ arity ≤ 2 ^ 60 }
    requires rising_places { AllPairs (λ p q. p < q) places.now }
    requires within { All (λ p. p < arity) places.now }
    requires many { length places.now ≡ rows.now.arity }
    requires rising { IsRising rows.now.rows }
    requires wide { All (λ row. length row ≡ rows.now.arity) rows.now.rows }
    ensures { IfOk result (λ runs. MarksParts slots arity places.now rows.now.rows runs.items) }
{
    let marked = mark_rows(alloc, slots, rows)?;
    if are_all(places, arity) {
        return Ok(marked);
    }
    let weights = weights_of_part(alloc, slots, arity, places, rows.arity())?;
    let mut runs = Vec::new(alloc);
    spread(
        marked.as_slice(),
        weights.as_slice(),
        arity,
        slots,
        slots - 1,
        0,
        0,
        &mut runs,
    )?;
    Ok(runs)
}
