//! What a monitor keeps.

ghost use Rattle.std.specs.Prelude.{◌≡◌, [], IfOk, OnOk};
ghost use Rattle.std.specs.List.{All};
ghost use Rattle.answer_tables.specs.Table.{HasAntichain};
ghost use Rattle.monitor_core.specs.Keeping.{KeepsOf, KeepsAntichain, IsState, AddsAntichains};
ghost use Rattle.monitor_core.specs.Keeping.{IsSetCountOf};

use answer_tables::Table;
use dl_syntax::Memory;
use formula_store::{Link, Store};
use progression::Kept;
use std::alloc::Global;

/// What a monitor keeps from one snapshot to the next.
#[derive(Drop)]
pub struct State {
    /// How many snapshots were accepted, or the greatest number where there were more.
    pub count: u64,
    /// For each query, what is kept of it.
    pub kept: Vec<Kept>,
    /// The antichains of all kept tables, each once.
    pub store: Store,
}

/// Adds the links of a table's distinct antichains.
fn add_links(table: &Table, links: &mut Vec<Link>) -> Result<(), Memory>
    ensures { OnOk result (AddsAntichains (HasAntichain table.now) links.old.items
        links.new.items) }
{
    let distinct = table.distinct_links();
    for link in distinct {
        links.push(link.copy()?)?;
    }
    Ok(())
}

/// Adds the links of the antichains that are kept of a query.
fn add_kept(kept: &Kept, links: &mut Vec<Link>) -> Result<(), Memory>
    ensures { OnOk result (AddsAntichains (KeepsOf kept.now) links.old.items links.new.items) }
{
    let entries = kept.tables.as_slice();
    for entry in entries {
        add_links(&entry.1, links)?;
    }
    Ok(())
}

/// The links of all antichains that are kept.
fn links_of(alloc: Global, kept: &[Kept]) -> Result<Vec<Link>, Memory>
    ensures { IfOk result (λ links. AddsAntichains (KeepsAntichain kept.now) [] links.items) }
{
    let mut links = Vec::new(alloc);
    for k in kept {
        add_kept(k, &mut links)?;
    }
    Ok(links)
}

/// The state that keeps this after so many snapshots.
pub(crate) fn state_of(alloc: Global, count: u64, kept: Vec<Kept>) -> Result<State, Memory>
    requires { All (λ k. k.count ≡ count) kept.items }
    ensures sound { IfOk result IsState }
    ensures count { IfOk result (λ state. state.count ≡ count) }
    ensures kept { IfOk result (λ state. state.kept ≡ kept) }
{
    let links = links_of(alloc, kept.as_slice())?;
    let (store, _) = Store::next_generation(alloc, links.as_slice())?;
    Ok(State { count, kept, store })
}

/// The total length of the distinct antichains that are kept of a query.
pub(crate) fn set_count_of(alloc: Global, kept: &Kept) -> Result<u64, Memory>
    ensures { IfOk result (IsSetCountOf kept.now) }
{
    let mut links = Vec::new(alloc);
    add_kept(kept, &mut links)?;
    let (store, _) = Store::next_generation(alloc, links.as_slice())?;
    Ok(store.set_count())
}
