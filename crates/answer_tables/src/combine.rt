//! Two tables combined tuple by tuple.

ghost use Rattle.std.specs.Prelude.{◌≡◌, ◌||◌, ◌&&◌, List, IfOk, length};
ghost use Rattle.std.specs.List.{All, Contains};
ghost use Rattle.dl_syntax.specs.declared.names.IndId.{IndId};
ghost use Rattle.antichains.specs.Sets.{holds};
ghost use Rattle.antichains.specs.Antichain.{IsMinimal};
ghost use Rattle.formula_store.specs.Interned.{Extends};
ghost use Rattle.answer_tables.specs.Tuples.{IsTuple};
ghost use Rattle.answer_tables.specs.Table.{at};
ghost use Rattle.answer_tables.specs.Combining.{test_of, Combines, AreCombined, AreCombinedWith};
ghost use Rattle.answer_tables.specs.Combining.{JointsWithin, LinksAreIn};

use crate::Memory;
use crate::align::{Joint, align};
use crate::sparse::combine_few;
use crate::table::Table;
use formula_store::{Link, Store};
use std::alloc::Global;

/// How two antichains become one.
#[derive(Clone, Copy)]
pub enum Operation {
    Or,
    And,
}

/// The link of the combined antichain.
fn combined_link(
    operation: Operation,
    a: &Link,
    b: &Link,
    store: &mut Store,
) -> Result<Link, Memory>
    ensures link { IfOk result (Combines (test_of operation) a.now b.now) }
    ensures stored { IfOk result (Contains store.new) }
    ensures grown { Extends store.old store.new }
{
    match operation {
        Operation::Or => store.either(a, b),
        Operation::And => store.both(a, b),
    }
}

/// The link of each joint.
pub(crate) fn combined_links(
    alloc: Global,
    operation: Operation,
    a: &[Link],
    b: &[Link],
    joints: &[Joint],
    store: &mut Store,
) -> Result<Vec<Link>, Memory>
    requires { JointsWithin (length a.now) (length b.now) joints.now }
    ensures links { IfOk result (λ links.
        AreCombined (test_of operation) a.now b.now joints.now links.items) }
    ensures stored { IfOk result (λ links. All (Contains store.new) links.items) }
    ensures grown { Extends store.old store.new }
{
    let mut links = Vec::new(alloc);
    for joint in joints {
        let link = combined_link(operation, &a[joint.first], &b[joint.second], store)?;
        links.push(link)?;
    }
    Ok(links)
}

/// The combination of each of the links with one.
pub(crate) fn combined_each(
    alloc: Global,
    operation: Operation,
    links: &[Link],
    other: &Link,
    store: &mut Store,
) -> Result<Vec<Link>, Memory>
    ensures links { IfOk result (λ all.
        AreCombinedWith (test_of operation) links.now other.now all.items) }
    ensures stored { IfOk result (λ all. All (Contains store.new) all.items) }
    ensures grown { Extends store.old store.new }
{
    let mut all = Vec::new(alloc);
    for link in links {
        let combined = combined_link(operation, link, other, store)?;
        all.push(combined)?;
    }
    Ok(all)
}

/// The table of the antichains combined with one, which has the ranks of the table that is given.
fn combine_with(
    alloc: Global,
    operation: Operation,
    table: &Table,
    other: &Link,
    store: &mut Store,
) -> Result<Table, Memory>
    ensures slots { IfOk result (λ t. t.slots ≡ table.now.slots) }
    ensures arity { IfOk result (λ t. t.arity ≡ table.now.arity) }
    ensures each { IfOk result (λ t. (tuple : List IndId)
        → IsTuple table.now.slots table.now.arity tuple
        → Combines (test_of operation) (at table.now tuple) other.now (at t tuple)) }
    ensures stored { IfOk result (λ t. LinksAreIn t store.new) }
    ensures grown { Extends store.old store.new }
{
    let links = combined_each(alloc, operation, table.links.as_slice(), other, store)?;
    Table::from_ranking(
        alloc,
        table.slots,
        table.arity,
        links.as_slice(),
        &table.ranks,
    )
}

/// The table of the combined antichains, where both tables are read rank by rank.
fn combine_ranks(
    alloc: Global,
    operation: Operation,
    a: &Table,
    b: &Table,
    store: &mut Store,
) -> Result<Table, Memory>
    requires slots { a.now.slots ≡ b.now.slots }
    requires arity { a.now.arity ≡ b.now.arity }
    ensures slots { IfOk result (λ t. t.slots ≡ a.now.slots) }
    ensures arity { IfOk result (λ t. t.arity ≡ a.now.arity) }
    ensures each { IfOk result (λ t. (tuple : List IndId) → IsTuple a.now.slots a.now.arity tuple
        → Combines (test_of operation) (at a.now tuple) (at b.now tuple) (at t tuple)) }
    ensures stored { IfOk result (λ t. LinksAreIn t store.new) }
    ensures grown { Extends store.old store.new }
{
    let aligned = align(
        alloc,
        a.ranks.as_ref(),
        b.ranks.as_ref(),
        a.links.len(),
        b.links.len(),
    )?;
    let links = combined_links(
        alloc,
        operation,
        a.links.as_slice(),
        b.links.as_slice(),
        aligned.joints.as_slice(),
        store,
    )?;
    Table::from_aligned(alloc, a.slots, a.arity, links.as_slice(), aligned.ranks)
}

/// The table of the combined antichains. Where one table has one antichain, no rank is read, and
/// where few tuples of one tell the result, only theirs are.
pub(crate) fn combine(
    alloc: Global,
    operation: Operation,
    a: &Table,
    b: &Table,
    store: &mut Store,
) -> Result<Table, Memory>
    requires slots { a.now.slots ≡ b.now.slots }
    requires arity { a.now.arity ≡ b.now.arity }
    ensures slots { IfOk result (λ t. t.slots ≡ a.now.slots) }
    ensures arity { IfOk result (λ t. t.arity ≡ a.now.arity) }
    ensures each { IfOk result (λ t. (tuple : List IndId) → IsTuple a.now.slots a.now.arity tuple
        → Combines (test_of operation) (at a.now tuple) (at b.now tuple) (at t tuple)) }
    ensures stored { IfOk result (λ t. LinksAreIn t store.new) }
    ensures grown { Extends store.old store.new }
{
    if b.links.len() == 1 {
        return combine_with(alloc, operation, a, &b.links[0], store);
    }
    if a.links.len() == 1 {
        return combine_with(alloc, operation, b, &a.links[0], store);
    }
    if let Some(table) = combine_few(alloc, operation, a, b, store)? {
        return Ok(table);
    }
    combine_ranks(alloc, operation, a, b, store)
}

/// The antichains that hold where either table's do.
pub fn combine_or(alloc: Global, a: &Table, b: &Table, store: &mut Store) -> Result<Table, Memory>
    requires slots { a.now.slots ≡ b.now.slots }
    requires arity { a.now.arity ≡ b.now.arity }
    ensures slots { IfOk result (λ t. t.slots ≡ a.now.slots) }
    ensures arity { IfOk result (λ t. t.arity ≡ a.now.arity) }
    ensures each { IfOk result (λ t. (tuple : List IndId) → IsTuple a.now.slots a.now.arity tuple
        → IsMinimal (λ v. holds (at a.now tuple) v || holds (at b.now tuple) v) (at t tuple)) }
    ensures stored { IfOk result (λ t. LinksAreIn t store.new) }
    ensures grown { Extends store.old store.new }
{
    combine(alloc, Operation::Or, a, b, store)
}

/// The antichains that hold where both tables' do.
pub fn combine_and(alloc: Global, a: &Table, b: &Table, store: &mut Store) -> Result<Table, Memory>
    requires slots { a.now.slots ≡ b.now.slots }
    requires arity { a.now.arity ≡ b.now.arity }
    ensures slots { IfOk result (λ t. t.slots ≡ a.now.slots) }
    ensures arity { IfOk result (λ t. t.arity ≡ a.now.arity) }
    ensures each { IfOk result (λ t. (tuple : List IndId) → IsTuple a.now.slots a.now.arity tuple
        → IsMinimal (λ v. holds (at a.now tuple) v && holds (at b.now tuple) v) (at t tuple)) }
    ensures stored { IfOk result (λ t. LinksAreIn t store.new) }
    ensures grown { Extends store.old store.new }
{
    combine(alloc, Operation::And, a, b, store)
}
