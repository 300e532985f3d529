//! What is kept of a query, over more slots.

ghost use Rattle.std.specs.Prelude.{◌<◌, ℕ, IfOk};
ghost use Rattle.std.specs.List.{All, AllZip};
ghost use Rattle.tcq_syntax.specs.Tcq.{Tcq, IsTcq};
ghost use Rattle.progression.specs.Kept.{Fits};
ghost use Rattle.progression.specs.Widening.{CanWiden, IsWiderEntry, Widens};

use crate::Memory;
use crate::kept::Kept;
use answer_tables::Table;
use std::alloc::Global;

/// The table of the same node over so many slots more.
fn wider_entry(alloc: Global, entry: &(u16, Table), more: u32) -> Result<(u16, Table), Memory>
    requires { CanWiden more entry.now.1 }
    ensures { IfOk result (IsWiderEntry more entry.now) }
{
    let table = entry.1.widen(alloc, more)?;
    Ok((entry.0, table))
}

/// The tables over so many slots more.
fn wider_tables(
    alloc: Global,
    tables: &[(u16, Table)],
    more: u32,
) -> Result<Vec<(u16, Table)>, Memory>
    requires { All (λ entry. CanWiden more entry.1) tables.now }
    ensures { IfOk result (λ wider. AllZip (IsWiderEntry more) tables.now wider.items) }
{
    let mut wider = Vec::with_capacity(alloc, tables.len())?;
    for entry in tables {
        let new = wider_entry(alloc, entry, more)?;
        wider.push(new)?;
    }
    Ok(wider)
}

impl Kept {
    /// What is kept over so many slots more, each of which stands for what the last one stood for.
    /// Where that was the stranger of a history, it stands for the history with as many further
    /// names, and the last slot is their stranger.
    pub fn widen(&self, alloc: Global, more: u32) -> Result<Kept, Memory>
        requires { All (λ entry. CanWiden more entry.1) self.now.tables.items }
        ensures { IfOk result (λ kept. (query : Tcq) (slots : ℕ) →
            IsTcq query.vars query.nodes → 0 < slots → Fits query slots self.now →
            Widens query slots more self.now kept) }
    {
        let tables = wider_tables(alloc, self.tables.as_slice(), more)?;
        let count = self.count;
        Ok(Kept { count, tables })
    }
}
