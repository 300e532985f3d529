//! What a node asks besides its children, as a table.

ghost use Rattle.std.specs.Prelude.{◌≡◌, ◌<◌, ◌≤◌, ◌^◌, ◌&&◌, ◌||◌, not, true, false, IfOk, length};
ghost use Rattle.std.specs.Prelude.{map, ℕ};
ghost use Rattle.std.specs.List.{All};
ghost use Rattle.antichains.specs.Sets.{is_inside, holds};
ghost use Rattle.antichains.specs.Antichain.{values_at};
ghost use Rattle.formula_store.specs.Interned.{Extends};
ghost use Rattle.answer_tables.specs.Table.{at};
ghost use Rattle.answer_tables.specs.Substituting.{HaveShape, antichains_at};
ghost use Rattle.tcq_syntax.specs.Formula.{is_future};
ghost use Rattle.tcq_syntax.specs.Tcq.{IsLeaf};
ghost use Rattle.progression.specs.Step.{own_test};
ghost use Rattle.progression.specs.Tables.{Tabulates, kept_table, before_test, leaf_test, has_part};
ghost use Rattle.progression.specs.Tables.{variable_of, HasLeaf, IsOverLeaf, KeptShape};

use crate::Memory;
use answer_tables::{Made, Table, fill};
use antichains::Antichain;
use dl_syntax::{Cq, Term, Tuples};
use formula_store::Store;
use std::alloc::Global;
use tcq_syntax::Node;

/// The table that holds everywhere, or nowhere.
fn filled(
    alloc: Global,
    slots: u32,
    arity: u8,
    value: bool,
    store: &mut Store,
) -> Result<Table, Memory>
    requires { slots ^ arity ≤ 2 ^ 60 }
    ensures table { IfOk result (Tabulates slots arity (λ tuple v. value) store.new) }
    ensures grown { Extends store.old store.new }
{
    let antichain = Antichain::fixed(alloc, value)?;
    let link = store.intern(antichain)?;
    fill(alloc, slots, arity, &link)
}

/// The table that holds where the future node with a number is granted.
fn granted(
    alloc: Global,
    slots: u32,
    arity: u8,
    number: u8,
    store: &mut Store,
) -> Result<Table, Memory>
    requires number { number < 8 }
    requires few { slots ^ arity ≤ 2 ^ 60 }
    ensures table { IfOk result (Tabulates slots arity (λ tuple v.
        is_inside (2 ^ number) v) store.new) }
    ensures grown { Extends store.old store.new }
{
    let antichain = Antichain::one(alloc, number)?;
    let link = store.intern(antichain)?;
    fill(alloc, slots, arity, &link)
}

/// What the table kept for a place says where each future node has this value.
fn before(
    alloc: Global,
    slots: u32,
    arity: u8,
    kept: &[(u16, Table)],
    place: u16,
    values: &[Table],
    number: usize,
    made: &mut Made,
    store: &mut Store,
) -> Result<Table, Memory>
    requires few { slots ^ arity ≤ 2 ^ 60 }
    requires kept { KeptShape slots arity kept.now }
    requires values { HaveShape slots arity values.now }
    ensures table { IfOk result (Tabulates slots arity (λ tuple v.
        holds (at (kept_table kept.now place) tuple) (values_at (antichains_at values.now tuple) v))
        store.new) }
    ensures grown { Extends store.old store.new }
{
    for entry in kept {
        if entry.0 == place {
            return made.substituted(number, alloc, &entry.1, values, store);
        }
    }
    filled(alloc, slots, arity, false, store)
}

/// The same where there is a position before, else false.
fn strong(
    alloc: Global,
    slots: u32,
    arity: u8,
    first: bool,
    kept: &[(u16, Table)],
    place: u16,
    values: &[Table],
    number: usize,
    made: &mut Made,
    store: &mut Store,
) -> Result<Table, Memory>
    requires few { slots ^ arity ≤ 2 ^ 60 }
    requires kept { KeptShape slots arity kept.now }
    requires values { HaveShape slots arity values.now }
    ensures table { IfOk result (Tabulates slots arity (λ tuple v.
        not first && holds (at (kept_table kept.now place) tuple)
        (values_at (antichains_at values.now tuple) v)) store.new) }
    ensures grown { Extends store.old store.new }
{
    if first {
        filled(alloc, slots, arity, false, store)
    } else {
        before(
            alloc, slots, arity, kept, place, values, number, made, store,
        )
    }
}

/// The same where there is a position before, else true.
fn weak(
    alloc: Global,
    slots: u32,
    arity: u8,
    first: bool,
    kept: &[(u16, Table)],
    place: u16,
    values: &[Table],
    number: usize,
    made: &mut Made,
    store: &mut Store,
) -> Result<Table, Memory>
    requires few { slots ^ arity ≤ 2 ^ 60 }
    requires kept { KeptShape slots arity kept.now }
    requires values { HaveShape slots arity values.now }
    ensures table { IfOk result (Tabulates slots arity (λ tuple v.
        first || holds (at (kept_table kept.now place) tuple)
        (values_at (antichains_at values.now tuple) v)) store.new) }
    ensures grown { Extends store.old store.new }
{
    if first {
        filled(alloc, slots, arity, true, store)
    } else {
        before(
            alloc, slots, arity, kept, place, values, number, made, store,
        )
    }
}

/// The number of an answer variable.
fn variable(term: Term) -> u8
    requires { variable_of term < 256 }
    ensures { result ≡ variable_of term }
{
    match term {
        Term::Var(v) => v as u8,
        Term::Ind(_) => 0,
    }
}

/// The numbers of a leaf's answer variables.
fn variables(alloc: Global, head: &[Term]) -> Result<Vec<u8>, Memory>
    requires { All (λ x. variable_of x < 256) head.now }
    ensures { IfOk result (λ places. places.items ≡ map variable_of head.now) }
{
    let mut places = Vec::with_capacity(alloc, head.len())?;
    for term in head {
        let place = variable(*term);
        places.push(place)?;
    }
    Ok(places)
}

/// The table of the rows that answer a leaf.
fn answered(
    alloc: Global,
    slots: u32,
    arity: u8,
    q: &Cq,
    rows: &Tuples,
    number: usize,
    made: &mut Made,
    store: &mut Store,
) -> Result<Table, Memory>
    requires few { slots ^ arity ≤ 2 ^ 60 }
    requires leaf { IsLeaf arity q.now }
    requires over { IsOverLeaf q.now rows.now }
    ensures table { IfOk result (Tabulates slots arity (λ tuple v.
        has_part rows.now.rows q.now tuple) store.new) }
    ensures grown { Extends store.old store.new }
{
    let places = variables(alloc, q.head.as_slice())?;
    made.marked(number, alloc, slots, arity, places.as_slice(), rows, store)
}

/// What a node at a place asks besides its children, as a table. `values[b]` is the value of the
/// future node numbered `b`, and `leaf` is the node's number among the leaves, if it is one. What
/// is made of the same as before is shared with what was made then.
pub fn own(
    alloc: Global,
    slots: u32,
    arity: u8,
    node: &Node,
    place: u16,
    first: bool,
    kept: &[(u16, Table)],
    leaves: &[Tuples],
    leaf: usize,
    values: &[Table],
    made: &mut Made,
    store: &mut Store,
) -> Result<Table, Memory>
    requires few { slots ^ arity ≤ 2 ^ 60 }
    requires number { is_future node.now ≡ true → length values.now < 8 }
    requires kept { KeptShape slots arity kept.now }
    requires values { HaveShape slots arity values.now }
    requires leaf { HasLeaf arity leaves.now leaf node.now }
    ensures table { IfOk result (Tabulates slots arity (λ tuple v.
        own_test first (length values.now) (before_test kept.now place values.now node.now tuple)
        (leaf_test leaves.now leaf node.now tuple) node.now v) store.new) }
    ensures grown { Extends store.old store.new }
{
    let number = 3 * place as usize;
    match node {
        Node::True => filled(alloc, slots, arity, true, store),
        Node::False | Node::And(_, _) | Node::Or(_, _) => filled(alloc, slots, arity, false, store),
        Node::Leaf(q) => answered(alloc, slots, arity, q, &leaves[leaf], number, made, store),
        Node::Next(_)
        | Node::WeakNext(_)
        | Node::Until(_, _)
        | Node::Eventually(_)
        | Node::Always(_) => granted(alloc, slots, arity, values.len() as u8, store),
        Node::Prev(f) => strong(
            alloc, slots, arity, first, kept, *f, values, number, made, store,
        ),
        Node::WeakPrev(f) => weak(
            alloc, slots, arity, first, kept, *f, values, number, made, store,
        ),
        Node::Since(_, _) | Node::Once(_) => {
            strong(
                alloc, slots, arity, first, kept, place, values, number, made, store,
            )
        }
        Node::Historically(_) => weak(
            alloc, slots, arity, first, kept, place, values, number, made, store,
        ),
    }
}
