//! The antichains that are kept, each once, in order of first occurrence.

ghost use Rattle.std.specs.Prelude.{◌≡◌, IfOk, OnOk, map};
ghost use Rattle.formula_store.specs.Interned.{interned_all};
ghost use Rattle.answer_tables.specs.Lengths.{antichains_in};
ghost use Rattle.checkpoint_state.specs.Suspending.{antichains_in_all, kept_lists};

use answer_tables::Table;
use dl_syntax::Memory;
use formula_store::{Link, Store};
use progression::Kept;
use std::alloc::Global;

/// Puts the antichains of the runs into the store.
fn add_runs(runs: &[(u64, Link)], store: &mut Store) -> Result<(), Memory>
    ensures { OnOk result (store.new ≡ interned_all store.old (map (λ r. r.1) runs.now)) }
{
    for run in runs {
        let copy = run.1.copy()?;
        store.adopt(copy)?;
    }
    Ok(())
}

/// Puts the antichains of the table's tuples into the store.
fn add_table(alloc: Global, table: &Table, store: &mut Store) -> Result<(), Memory>
    ensures { OnOk result (store.new ≡ interned_all store.old (antichains_in table.now)) }
{
    let runs = table.runs(alloc)?;
    add_runs(runs.as_slice(), store)
}

/// Puts the antichains of the tables into the store.
fn add_tables(alloc: Global, entries: &[(u16, Table)], store: &mut Store) -> Result<(), Memory>
    ensures { OnOk result (store.new ≡ interned_all store.old (antichains_in_all entries.now)) }
{
    for entry in entries {
        add_table(alloc, &entry.1, store)?;
    }
    Ok(())
}

/// The antichains that are kept.
pub fn lists_of(alloc: Global, kept: &[Kept]) -> Result<Store, Memory>
    ensures { IfOk result (λ store. store ≡ kept_lists kept.now) }
{
    let mut store = Store::new(alloc);
    for k in kept {
        add_tables(alloc, k.tables.as_slice(), &mut store)?;
    }
    Ok(store)
}
