//! The tables that are kept.

ghost use Rattle.std.specs.Prelude.{◌≡◌, ◌<◌, ◌≤◌, IfOk, length};
ghost use Rattle.progression.specs.Tables.{AreKeptOf, WithNode};

use crate::Memory;
use answer_tables::Table;
use std::alloc::Global;
use tcq_syntax::{Query, is_kept};

/// The kept tables and the table of a further node, if it is kept.
fn with_node(
    kept: Vec<(u16, Table)>,
    query: &Query,
    place: u16,
    table: Table,
) -> Result<Vec<(u16, Table)>, Memory>
    requires { place < length query.now.nodes }
    ensures { IfOk result (λ new. WithNode query.now.nodes place table kept.items new.items) }
{
    let mut kept = kept;
    if !is_kept(query, place) {
        return Ok(kept);
    }
    kept.push((place, table))?;
    Ok(kept)
}

/// The tables of the kept nodes.
pub fn kept_tables(
    alloc: Global,
    query: &Query,
    tables: Vec<Table>,
) -> Result<Vec<(u16, Table)>, Memory>
    requires long { length tables.items ≡ length query.now.nodes }
    requires few { length query.now.nodes ≤ 64 }
    ensures { IfOk result (λ kept.
        AreKeptOf query.now.nodes (length query.now.nodes) tables.items kept.items) }
{
    let mut kept = Vec::new(alloc);
    let mut place = 0;
    for table in tables {
        kept = with_node(kept, query, place, table)?;
        place += 1;
    }
    Ok(kept)
}
