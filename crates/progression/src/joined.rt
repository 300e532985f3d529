//! A node's table from those of its children and what it asks besides.

ghost use Rattle.std.specs.Prelude.{◌≡◌, ◌<◌, ◌&&◌, ◌||◌, ℕ, List, length, IfOk};
ghost use Rattle.std.specs.List.{All};
ghost use Rattle.dl_syntax.specs.declared.names.IndId.{IndId};
ghost use Rattle.tcq_syntax.specs.Formula.{HasChildrenBelow};
ghost use Rattle.antichains.specs.Sets.{holds};
ghost use Rattle.antichains.specs.Antichain.{IsAntichain};
ghost use Rattle.formula_store.specs.Interned.{Extends};
ghost use Rattle.answer_tables.specs.Tuples.{IsTuple};
ghost use Rattle.answer_tables.specs.Table.{at};
ghost use Rattle.answer_tables.specs.Combining.{LinksAreIn};
ghost use Rattle.answer_tables.specs.Substituting.{HaveShape};
ghost use Rattle.progression.specs.Step.{joined};
ghost use Rattle.progression.specs.Tables.{Tabulates, table_at, IsOwn};

use crate::Memory;
use answer_tables::{Made, Table};
use formula_store::Store;
use std::alloc::Global;
use tcq_syntax::Node;

/// The table that holds where either does.
fn either(
    alloc: Global,
    f: &Table,
    g: &Table,
    number: usize,
    made: &mut Made,
    store: &mut Store,
) -> Result<Table, Memory>
    requires slots { f.now.slots ≡ g.now.slots }
    requires arity { f.now.arity ≡ g.now.arity }
    ensures table { IfOk result (Tabulates f.now.slots f.now.arity (λ tuple v.
        holds (at f.now tuple) v || holds (at g.now tuple) v) store.new) }
    ensures grown { Extends store.old store.new }
{
    made.either(number, alloc, f, g, store)
}

/// The table that holds where both do.
fn both(
    alloc: Global,
    f: &Table,
    g: &Table,
    number: usize,
    made: &mut Made,
    store: &mut Store,
) -> Result<Table, Memory>
    requires slots { f.now.slots ≡ g.now.slots }
    requires arity { f.now.arity ≡ g.now.arity }
    ensures table { IfOk result (Tabulates f.now.slots f.now.arity (λ tuple v.
        holds (at f.now tuple) v && holds (at g.now tuple) v) store.new) }
    ensures grown { Extends store.old store.new }
{
    made.both(number, alloc, f, g, store)
}

/// The table that holds where the second does, or both others do.
fn widened(
    alloc: Global,
    f: &Table,
    g: &Table,
    own: &Table,
    place: u16,
    made: &mut Made,
    store: &mut Store,
) -> Result<Table, Memory>
    requires slots { f.now.slots ≡ g.now.slots }
    requires arity { f.now.arity ≡ g.now.arity }
    requires own_slots { f.now.slots ≡ own.now.slots }
    requires own_arity { f.now.arity ≡ own.now.arity }
    ensures table { IfOk result (Tabulates f.now.slots f.now.arity (λ tuple v.
        holds (at g.now tuple) v || (holds (at f.now tuple) v && holds (at own.now tuple) v))
        store.new) }
    ensures grown { Extends store.old store.new }
{
    let number = 3 * place as usize + 1;
    let longer = both(alloc, f, own, number, made, store)?;
    either(alloc, g, &longer, number + 1, made, store)
}

/// The table of the node at a place from its children's and what it asks besides.
pub fn join(
    alloc: Global,
    node: &Node,
    place: u16,
    tables: &[Table],
    own: Table,
    made: &mut Made,
    store: &mut Store,
) -> Result<Table, Memory>
    requires children { HasChildrenBelow (length tables.now) node.now }
    requires shape { HaveShape own.slots own.arity tables.now }
    requires own { IsOwn own store.old }
    ensures table { IfOk result (Tabulates own.slots own.arity (λ tuple.
        joined (λ c. at (table_at tables.now c) tuple) (holds (at own tuple)) node.now) store.new) }
    ensures grown { Extends store.old store.new }
{
    let number = 3 * place as usize + 1;
    match node {
        Node::And(f, g) => both(
            alloc,
            &tables[*f as usize],
            &tables[*g as usize],
            number,
            made,
            store,
        ),
        Node::Or(f, g) => either(
            alloc,
            &tables[*f as usize],
            &tables[*g as usize],
            number,
            made,
            store,
        ),
        Node::Until(f, g) | Node::Since(f, g) => widened(
            alloc,
            &tables[*f as usize],
            &tables[*g as usize],
            &own,
            place,
            made,
            store,
        ),
        Node::Eventually(f) | Node::Once(f) => either(
            alloc,
            &tables[*f as usize],
            &own,
            number,
            made,
            store,
        ),
        Node::Always(f) | Node::Historically(f) => both(
            alloc,
            &tables[*f as usize],
            &own,
            number,
            made,
            store,
        ),
        _ => Ok(own),
    }
}
