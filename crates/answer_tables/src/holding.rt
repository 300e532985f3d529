//! The tuples below a bound at which a table's antichains hold.

ghost use Rattle.std.specs.Prelude.{◌≡◌, ◌<◌, ◌≤◌, ◌^◌, ◌+◌, ◌↔◌, List, IfOk, OnOk, IsTrue, length};
ghost use Rattle.std.specs.List.{Contains};
ghost use Rattle.antichains.specs.Sets.{holds};
ghost use Rattle.dl_syntax.specs.declared.names.IndId.{IndId};
ghost use Rattle.dl_syntax.specs.Rows.{IsRising};
ghost use Rattle.answer_tables.specs.Tuples.{IsTuple, number};
ghost use Rattle.answer_tables.specs.Table.{at};
ghost use Rattle.answer_tables.specs.Holding.{IsBelow, IsListed, Listed};

use crate::Memory;
use crate::table::{Table, tuple_count};
use antichains::holds;
use dl_syntax::{IndId, Tuples};
use std::alloc::Global;

/// Writes the tuple with a number.
fn write_tuple(slots: u32, arity: u8, rank: u64, tuple: &mut Vec<IndId>) -> Result<(), Memory>
    requires few { slots ^ arity ≤ 2 ^ 60 }
    requires within { rank < slots ^ arity }
    ensures tuple { OnOk result (IsTuple slots arity tuple.new.items) }
    ensures number { OnOk result (number slots tuple.new.items ≡ rank) }
{
    tuple.clear();
    let mut rest = rank;
    let mut places = arity;
    while places > 0 {
        places -= 1;
        let weight = tuple_count(slots, places);
        tuple.push(IndId((rest / weight) as u32))?;
        rest %= weight;
    }
    Ok(())
}

/// Whether each individual is below the bound.
fn is_below(tuple: &[IndId], bound: u32) -> bool
    ensures { IsTrue result ↔ IsBelow bound tuple.now }
{
    tuple.iter().all(|individual| individual.0 < bound)
}

/// Puts the tuple with a number last, if its individuals are below the bound. It is above those of
/// lower numbers.
fn push_tuple(
    slots: u32,
    bound: u32,
    rank: u64,
    tuple: &mut Vec<IndId>,
    rows: &mut Tuples,
) -> Result<(), Memory>
    requires few { slots ^ rows.old.arity ≤ 2 ^ 60 }
    requires within { rank < slots ^ rows.old.arity }
    requires listed { IsListed slots bound rows.old rank }
    ensures { OnOk result (Listed slots bound rows.old rank (rank + 1) rows.new) }
{
    write_tuple(slots, rows.arity(), rank, tuple)?;
    if !is_below(tuple.as_slice(), bound) {
        return Ok(());
    }
    rows.push(tuple.as_slice())
}

/// Puts the tuples with the numbers from a start up to an end last whose individuals are below the
/// bound.
fn push_tuples(
    alloc: Global,
    slots: u32,
    bound: u32,
    start: u64,
    end: u64,
    rows: &mut Tuples,
) -> Result<(), Memory>
    requires few { slots ^ rows.old.arity ≤ 2 ^ 60 }
    requires within { end ≤ slots ^ rows.old.arity }
    requires order { start ≤ end }
    requires listed { IsListed slots bound rows.old start }
    ensures { OnOk result (Listed slots bound rows.old start end rows.new) }
{
    let mut tuple = Vec::new(alloc);
    for rank in start..end {
        push_tuple(slots, bound, rank, &mut tuple, rows)?;
    }
    Ok(())
}

impl Table {
    /// The tuples of individuals below the bound whose antichain holds at the set, in rising order.
    pub fn tuples_holding(&self, alloc: Global, set: u8, bound: u32) -> Result<Tuples, Memory>
        requires { bound ≤ self.now.slots }
        ensures arity { IfOk result (λ rows. rows.arity ≡ self.now.arity) }
        ensures rising { IfOk result (λ rows. IsRising rows.rows) }
        ensures exact { IfOk result (λ rows. (tuple : List IndId)
            → Contains rows.rows tuple ↔ IsTuple bound self.now.arity tuple
            × IsTrue (holds (at self.now tuple) set)) }
    {
        let mut rows = Tuples::new(alloc, self.arity);
        let mut start = 0;
        for place in 0..self.ranks.len() {
            let run = self.ranks.run(place);
            if holds(self.links[run.link].antichain(), set) {
                push_tuples(alloc, self.slots, bound, start, run.end, &mut rows)?;
            }
            start = run.end;
        }
        Ok(rows)
    }
}
