//! Tables that are true at given tuples.

ghost use Rattle.std.specs.Prelude.{◌≡◌, ◌<◌, ◌≤◌, ◌^◌, ◌⊎◌, [], ◌∷◌, List, IfOk, ℕ, true, false};
ghost use Rattle.std.specs.Prelude.{length, slice_index_or, if◌then◌else◌};
ghost use Rattle.std.specs.List.{All, AllPairs, Contains};
ghost use Rattle.dl_syntax.specs.declared.names.IndId.{IndId};
ghost use Rattle.dl_syntax.specs.Rows.{IsRising};
ghost use Rattle.formula_store.specs.Interned.{Extends};
ghost use Rattle.answer_tables.specs.Runs.{RiseFrom, NamedBelow, end_from, link_at};
ghost use Rattle.answer_tables.specs.Tuples.{IsTuple, number};
ghost use Rattle.answer_tables.specs.Table.{at};
ghost use Rattle.answer_tables.specs.Combining.{LinksAreIn};
ghost use Rattle.answer_tables.specs.Marks.{part_on};

use crate::Memory;
use crate::marks::mark_parts;
use crate::run::Run;
use crate::table::{Table, fill};
use antichains::Antichain;
use dl_syntax::Tuples;
use formula_store::{Link, Store};
use std::alloc::Global;

/// Whether some rank has the number.
fn has_number(runs: &[Run], link: usize) -> bool
    requires { RiseFrom 0 runs.now }
    ensures yes { result ≡ true → (n : ℕ) × (n < end_from 0 runs.now)
        × (link_at runs.now n ≡ link) }
    ensures no { result ≡ false → (n : ℕ) → n < end_from 0 runs.now
        → ¬ (link_at runs.now n ≡ link) }
{
    for run in runs {
        if run.link == link {
            return true;
        }
    }
    false
}

/// The table in which the runs tell which of two links a tuple has, the first by 0 and the second
/// by 1.
fn from_two(
    alloc: Global,
    slots: u32,
    arity: u8,
    first: &Link,
    second: &Link,
    runs: &[Run],
) -> Result<Table, Memory>
    requires few { slots ^ arity ≤ 2 ^ 60 }
    requires rise { RiseFrom 0 runs.now }
    requires ends { end_from 0 runs.now ≡ slots ^ arity }
    requires named { NamedBelow 2 runs.now }
    ensures slots { IfOk result (λ t. t.slots ≡ slots) }
    ensures arity { IfOk result (λ t. t.arity ≡ arity) }
    ensures each { IfOk result (λ t. (tuple : List IndId) → IsTuple slots arity tuple
        → at t tuple ≡ slice_index_or (first.now ∷ second.now ∷ [])
        (link_at runs.now (number slots tuple)) []) }
{
    if !has_number(runs, 0) {
        return fill(alloc, slots, arity, second);
    }
    if !has_number(runs, 1) {
        return fill(alloc, slots, arity, first);
    }
    let links = [first.copy()?, second.copy()?];
    Table::from_parts(alloc, slots, arity, &links, runs)
}

/// The link of true or of false.
fn fixed_link(alloc: Global, value: bool, store: &mut Store) -> Result<Link, Memory>
    ensures link { IfOk result (λ l. l ≡ (if value then 0 ∷ [] else [])) }
    ensures stored { IfOk result (Contains store.new) }
    ensures grown { Extends store.old store.new }
{
    let antichain = Antichain::fixed(alloc, value)?;
    store.intern(antichain)
}

/// Whether no tuple has an individual.
fn has_no_individuals(slots: u32, arity: u8) -> bool
    ensures yes { result ≡ true → (slots ≡ 0) ⊎ (arity ≡ 0) }
    ensures no { result ≡ false → 0 < slots }
{
    slots == 0 || arity == 0
}

/// The table that is true exactly at the tuples whose part on the places is one of the rows, and
/// false at the others. The rows rise. No tuple has a row with an individual that is no slot.
pub fn from_tuples(
    alloc: Global,
    slots: u32,
    arity: u8,
    places: &[u8],
    rows: &Tuples,
    store: &mut Store,
) -> Result<Table, Memory>
    requires few { slots ^ arity ≤ 2 ^ 60 }
    requires rising_places { AllPairs (λ p q. p < q) places.now }
    requires within { All (λ p. p < arity) places.now }
    requires many { length places.now ≡ rows.now.arity }
    requires rising { IsRising rows.now.rows }
    requires wide { All (λ row. length row ≡ rows.now.arity) rows.now.rows }
    ensures slots { IfOk result (λ t. t.slots ≡ slots) }
    ensures arity { IfOk result (λ t. t.arity ≡ arity) }
    ensures held { IfOk result (λ t. (tuple : List IndId) → IsTuple slots arity tuple
        → Contains rows.now.rows (part_on places.now tuple) → at t tuple ≡ 0 ∷ []) }
    ensures others { IfOk result (λ t. (tuple : List IndId) → IsTuple slots arity tuple
        → ¬ Contains rows.now.rows (part_on places.now tuple) → at t tuple ≡ []) }
    ensures stored { IfOk result (λ t. LinksAreIn t store.new) }
    ensures grown { Extends store.old store.new }
{
    if has_no_individuals(slots, arity) {
        let link = fixed_link(alloc, !rows.is_empty(), store)?;
        return fill(alloc, slots, arity, &link);
    }
    let runs = mark_parts(alloc, slots, arity, places, rows)?;
    let never = fixed_link(alloc, false, store)?;
    let always = fixed_link(alloc, true, store)?;
    from_two(alloc, slots, arity, &never, &always, runs.as_slice())
}
