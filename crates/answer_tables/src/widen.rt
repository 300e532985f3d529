//! A table over more slots.

ghost use Rattle.std.specs.Prelude.{◌≡◌, ◌+◌, ◌<◌, ◌≤◌, ◌^◌, List, IfOk};
ghost use Rattle.dl_syntax.specs.declared.names.IndId.{IndId};
ghost use Rattle.answer_tables.specs.Tuples.{IsTuple};
ghost use Rattle.answer_tables.specs.Table.{at};
ghost use Rattle.answer_tables.specs.Spreading.{narrowed, place_weights};

use crate::Memory;
use crate::spread::spread;
use crate::table::{Table, tuple_count};
use std::alloc::Global;

/// The weights of a tuple's places.
fn weights_of_places(alloc: Global, slots: u32, arity: u8) -> Result<Vec<u64>, Memory>
    requires some { 0 < slots }
    requires few { slots ^ arity ≤ 2 ^ 60 }
    ensures { IfOk result (λ weights. weights.items ≡ place_weights slots arity) }
{
    let mut weights = Vec::new(alloc);
    let mut places = arity;
    while places > 0 {
        places -= 1;
        weights.push(tuple_count(slots, places))?;
    }
    Ok(weights)
}

impl Table {
    /// The table over so many slots more, in which each new slot stands for what the old last slot
    /// stood for. At tuples of old slots it is as before.
    pub fn widen(&self, alloc: Global, more: u32) -> Result<Table, Memory>
        requires some { 0 < self.now.slots }
        requires small { self.now.slots + more ≤ 4294967295 }
        requires few { (self.now.slots + more) ^ self.now.arity ≤ 2 ^ 60 }
        ensures slots { IfOk result (λ t. t.slots ≡ self.now.slots + more) }
        ensures arity { IfOk result (λ t. t.arity ≡ self.now.arity) }
        ensures each { IfOk result (λ t. (tuple : List IndId)
            → IsTuple (self.now.slots + more) self.now.arity tuple
            → at t tuple ≡ at self.now (narrowed self.now.slots tuple)) }
        ensures old { IfOk result (λ t. (tuple : List IndId)
            → IsTuple self.now.slots self.now.arity tuple → at t tuple ≡ at self.now tuple) }
    {
        let weights = weights_of_places(alloc, self.slots, self.arity)?;
        let old = self.ranks.to_runs()?;
        let mut runs = Vec::new(alloc);
        spread(
            old.as_slice(),
            weights.as_slice(),
            self.arity,
            self.slots + more,
            self.slots - 1,
            0,
            0,
            &mut runs,
        )?;
        Table::from_parts(
            alloc,
            self.slots + more,
            self.arity,
            self.links.as_slice(),
            runs.as_slice(),
        )
    }
}
