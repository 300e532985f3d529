//! The values of a table's nodes put in their places, tuple by tuple.

ghost use Rattle.std.specs.Prelude.{◌≡◌, true, ◌<◌, ◌^◌, List, IfOk, length, map};
ghost use Rattle.std.specs.List.{All, Contains};
ghost use Rattle.dl_syntax.specs.declared.names.IndId.{IndId};
ghost use Rattle.antichains.specs.Sets.{holds};
ghost use Rattle.antichains.specs.Antichain.{IsMinimal, values_at};
ghost use Rattle.formula_store.specs.Interned.{Extends};
ghost use Rattle.answer_tables.specs.Tuples.{IsTuple, number};
ghost use Rattle.answer_tables.specs.Table.{at};
ghost use Rattle.answer_tables.specs.Joint.{joint_at};
ghost use Rattle.answer_tables.specs.Combining.{LinksAreIn};
ghost use Rattle.answer_tables.specs.Substituting.{HaveShape, HasNoNode, Substitutes, TellAll};
ghost use Rattle.answer_tables.specs.Substituting.{AreSubstituted, antichains_at};

use crate::Memory;
use crate::align::{Aligned, Joint, align};
use crate::renaming::share;
use crate::table::Table;
use formula_store::{Link, Store};
use std::alloc::Global;

/// All tables at once: where the runs have one number, each table has one antichain.
fn align_all(alloc: Global, table: &Table, values: &[Table]) -> Result<Aligned, Memory>
    requires { HaveShape table.now.slots table.now.arity values.now }
    ensures { IfOk result (λ a. TellAll table.now.slots table.now.arity table.now values.now a.ranks
        a.joints.items) }
{
    let own = table.ranks.as_ref();
    let many = table.links.len();
    if values.is_empty() {
        return align(alloc, own, own, many, many);
    }
    let first = &values[0];
    let mut aligned = align(alloc, own, first.ranks.as_ref(), many, first.links.len())?;
    for place in 1..values.len() {
        let value = &values[place];
        let ranks = value.ranks.as_ref();
        let many = aligned.joints.len();
        aligned = align(alloc, &aligned.ranks, ranks, many, value.links.len())?;
    }
    Ok(aligned)
}

/// The antichain of each table at the tuple with a number.
fn value_links(alloc: Global, values: &[Table], rank: u64) -> Result<Vec<Link>, Memory>
    requires { All (λ v. rank < v.slots ^ v.arity) values.now }
    ensures { IfOk result (λ links. (tuple : List IndId)
        → All (λ v. IsTuple v.slots v.arity tuple × (number v.slots tuple ≡ rank)) values.now
        → links.items ≡ antichains_at values.now tuple) }
{
    let mut links = Vec::new(alloc);
    for value in values {
        let link = value.at_rank(rank).copy()?;
        links.push(link)?;
    }
    Ok(links)
}

/// The substituted antichain of the tuple with a number.
fn substituted_link(
    alloc: Global,
    table: &Table,
    values: &[Table],
    rank: u64,
    store: &mut Store,
) -> Result<Link, Memory>
    requires shape { HaveShape table.now.slots table.now.arity values.now }
    requires within { rank < table.now.slots ^ table.now.arity }
    ensures link { IfOk result (λ l. (tuple : List IndId)
        → IsTuple table.now.slots table.now.arity tuple → number table.now.slots tuple ≡ rank
        → Substitutes table.now values.now tuple l) }
    ensures stored { IfOk result (Contains store.new) }
    ensures grown { Extends store.old store.new }
{
    let row = value_links(alloc, values, rank)?;
    store.substituted(table.at_rank(rank), row.as_slice())
}

/// The link of each joint.
fn substituted_links(
    alloc: Global,
    table: &Table,
    values: &[Table],
    joints: &[Joint],
    store: &mut Store,
) -> Result<Vec<Link>, Memory>
    requires shape { HaveShape table.now.slots table.now.arity values.now }
    requires within { All (λ j. j.rank < table.now.slots ^ table.now.arity) joints.now }
    ensures links { IfOk result (λ links.
        AreSubstituted table.now.slots table.now.arity table.now values.now joints.now
        links.items) }
    ensures stored { IfOk result (λ links. All (Contains store.new) links.items) }
    ensures grown { Extends store.old store.new }
{
    let mut links = Vec::new(alloc);
    for joint in joints {
        let link = substituted_link(alloc, table, values, joint.rank, store)?;
        links.push(link)?;
    }
    Ok(links)
}

/// Whether no antichain has a node: each holds at every set or at none.
pub(crate) fn have_no_nodes(links: &[Link]) -> bool
    ensures { result ≡ true → All HasNoNode links.now }
{
    for link in links {
        if !has_no_node(link) {
            return false;
        }
    }
    true
}

/// Whether a antichain has no node.
fn has_no_node(link: &Link) -> bool
    ensures { result ≡ true → HasNoNode link.now }
{
    let sets = link.antichain().sets();
    sets.is_empty() || (sets.len() == 1 && sets[0] == 0)
}

/// Links of the same antichains that are in the store.
pub(crate) fn stored_links(
    alloc: Global,
    links: &[Link],
    store: &mut Store,
) -> Result<Vec<Link>, Memory>
    ensures same { IfOk result (λ all. all.items ≡ links.now) }
    ensures stored { IfOk result (λ all. All (Contains store.new) all.items) }
    ensures grown { Extends store.old store.new }
{
    let mut all = Vec::with_capacity(alloc, links.len())?;
    for link in links {
        let stored = store.adopt(link.copy()?)?;
        all.push(stored)?;
    }
    Ok(all)
}

/// An equal table, whose links are in the store.
pub(crate) fn stored_table(alloc: Global, table: &Table, store: &mut Store) -> Result<Table, Memory>
    ensures same { IfOk result (λ t. t ≡ table.now) }
    ensures stored { IfOk result (λ t. LinksAreIn t store.new) }
    ensures grown { Extends store.old store.new }
{
    let links = stored_links(alloc, table.links.as_slice(), store)?;
    let ranks = share(&table.ranks)?;
    Ok(Table {
        slots: table.slots,
        arity: table.arity,
        links,
        ranks,
    })
}

/// Each tuple's substituted antichain, where all tables are read rank by rank.
fn substitute_ranks(
    alloc: Global,
    table: &Table,
    values: &[Table],
    store: &mut Store,
) -> Result<Table, Memory>
    requires { HaveShape table.now.slots table.now.arity values.now }
    ensures slots { IfOk result (λ t. t.slots ≡ table.now.slots) }
    ensures arity { IfOk result (λ t. t.arity ≡ table.now.arity) }
    ensures each { IfOk result (λ t. (tuple : List IndId)
        → IsTuple table.now.slots table.now.arity tuple
        → IsMinimal (λ v. holds (at table.now tuple)
        (values_at (map (λ x. at x tuple) values.now) v)) (at t tuple)) }
    ensures stored { IfOk result (λ t. LinksAreIn t store.new) }
    ensures grown { Extends store.old store.new }
{
    let aligned = align_all(alloc, table, values)?;
    let links = substituted_links(alloc, table, values, aligned.joints.as_slice(), store)?;
    Table::from_aligned(
        alloc,
        table.slots,
        table.arity,
        links.as_slice(),
        aligned.ranks,
    )
}

/// Each tuple's antichain with the nodes replaced by their values at the tuple: `values[b]` has
/// those of the node numbered `b`, and a node without a value is false.
pub fn substitute_all(
    alloc: Global,
    table: &Table,
    values: &[Table],
    store: &mut Store,
) -> Result<Table, Memory>
    requires { HaveShape table.now.slots table.now.arity values.now }
    ensures slots { IfOk result (λ t. t.slots ≡ table.now.slots) }
    ensures arity { IfOk result (λ t. t.arity ≡ table.now.arity) }
    ensures each { IfOk result (λ t. (tuple : List IndId)
        → IsTuple table.now.slots table.now.arity tuple
        → IsMinimal (λ v. holds (at table.now tuple)
        (values_at (map (λ x. at x tuple) values.now) v)) (at t tuple)) }
    ensures stored { IfOk result (λ t. LinksAreIn t store.new) }
    ensures grown { Extends store.old store.new }
{
    if have_no_nodes(table.links.as_slice()) {
        return stored_table(alloc, table, store);
    }
    substitute_ranks(alloc, table, values, store)
}
