//! The values that finitely many steps of a transition lead to from one value, up to a limit, and
//! lists by number, as of what a step leads to.
#![tactic(auto)]

ghost use Rattle.std.specs.Prelude.{◌≡◌, ◌++◌, [], ◌<◌, ◌≤◌, List, All, Contains, length, IfOk};
ghost use Rattle.std.specs.Prelude.{OnOk};
ghost use Rattle.indexmap.specs.IndexSet.{index_set_len, IsUnique};
ghost use Rattle.worklist.specs.Reach.{IsExact, IsClosure, Reaches, ReachesMore, Grows, Expands};
ghost use Rattle.worklist.specs.Reach.{IsDone};

mod lists;

use indexmap::IndexSet;
pub use lists::{add_at, list_at};
use std::alloc::{AllocError, AllocFailed, Global};
use std::hash::Hash;

/// Why there is no closure.
#[derive(Clone, Copy, PartialEq, Eq, Debug)]
pub enum ClosureFault {
    /// More values are reachable than there is room for.
    TooMany,
    Memory,
}

impl From<AllocError> for ClosureFault {
    ghost use Rattle.std.specs.Prelude.{◌≡◌};
    ghost use Rattle.worklist.specs.declared.ClosureFault.TheVariants.{Memory};

    ghost from_gives = { λ _ e. e ≡ Memory };

    fn from(_: AllocError) -> Self {
        ClosureFault::Memory
    }
}

impl<T: Drop> From<AllocFailed<T>> for ClosureFault {
    ghost use Rattle.std.specs.Prelude.{◌≡◌};
    ghost use Rattle.worklist.specs.declared.ClosureFault.TheVariants.{Memory};

    ghost from_gives = { λ _ e. e ≡ Memory };

    fn from(_: AllocFailed<T>) -> Self {
        ClosureFault::Memory
    }
}

/// The steps from one value to the next.
pub trait Transition<S> {
    ghost use Rattle.worklist.specs.Reach.{Adds};

    /// One step leads from the first to the second.
    ghost step: { Self → S → S → Type 0 };

    /// Where the steps can be taken.
    ghost valid: { Self → S → Type 0 };

    /// Adds what one step leads to.
    fn push_next(&self, state: &S, out: &mut Vec<S>) -> Result<(), AllocError>
        requires { valid self.now state.now }
        ensures { OnOk result (Adds (step self.now) state.now out.old.items out.new.items) };
}

/// Moves the items into the set, until it has more than `room` values.
fn absorb<S: Eq + Hash + Drop>(
    found: &mut IndexSet<S>,
    items: &mut Vec<S>,
    room: usize,
) -> Result<(), ClosureFault>
    requires exact { IsExact S.eq }
    requires few { index_set_len found.old ≤ room }
    requires distinct { IsUnique S.eq found.old }
    ensures grows { Grows found.old.keys items.old.items found.new.keys }
    ensures distinct { IsUnique S.eq found.new }
    ensures all { OnOk result (All (Contains found.new.keys) items.old.items) }
    ensures emptied { OnOk result (items.new.items ≡ []) }
    ensures few { OnOk result (index_set_len found.new ≤ room) }
    ensures many { result ≡ Err ClosureFault.TooMany → room < index_set_len found.new }
{
    while let Some(item) = items.pop() {
        found.insert(item)?;
        if found.len() > room {
            return Err(ClosureFault::TooMany);
        }
    }
    Ok(())
}

/// Adds what one step leads to from the value at a place.
fn expand<S: Eq + Hash + Drop, T: Transition<S>>(
    transition: &T,
    found: &mut IndexSet<S>,
    items: &mut Vec<S>,
    place: usize,
    room: usize,
) -> Result<(), ClosureFault>
    requires exact { IsExact S.eq }
    requires few { index_set_len found.old ≤ room }
    requires distinct { IsUnique S.eq found.old }
    requires empty { items.old.items ≡ [] }
    requires place { place < index_set_len found.old }
    requires valid { All (T.valid transition.now) found.old.keys }
    ensures distinct { IsUnique S.eq found.new }
    ensures grows { Expands (T.step transition.now) found.old.keys place found.new.keys }
    ensures done { OnOk result (IsDone (T.step transition.now) found.new.keys place) }
    ensures emptied { OnOk result (items.new.items ≡ []) }
    ensures few { OnOk result (index_set_len found.new ≤ room) }
    ensures many { result ≡ Err ClosureFault.TooMany → room < index_set_len found.new }
{
    let state = &found.as_slice()[place];
    transition.push_next(state, items)?;
    absorb(found, items, room)
}

/// Exactly what is reachable from the start, each value once. `TooMany` comes exactly where more
/// than `room` values are reachable.
///
/// The set is both what was visited and the queue: a value's place says whether its steps were
/// taken.
pub fn closure<S: Eq + Hash + Drop, T: Transition<S>>(
    alloc: Global,
    transition: &T,
    start: S,
    room: u32,
) -> Result<IndexSet<S>, ClosureFault>
    requires exact { IsExact S.eq }
    requires valid { (y : S) → Reaches (T.step transition.now) start y → T.valid transition.now y }
    ensures found { IfOk result (λ found. IsClosure (T.step transition.now) start found.keys) }
    ensures few { IfOk result (λ found. index_set_len found ≤ room) }
    ensures not_more { IfOk result (λ _. ReachesMore (T.step transition.now) start room → ⊥) }
    ensures many { result ≡ Err ClosureFault.TooMany
        → ReachesMore (T.step transition.now) start room }
{
    if room == 0 {
        return Err(ClosureFault::TooMany);
    }
    let limit = room as usize;
    let mut found = IndexSet::new(alloc);
    let mut items = Vec::new(alloc);
    found.insert(start)?;
    for place in 0..limit {
        if place >= found.len() {
            return Ok(found);
        }
        expand(transition, &mut found, &mut items, place, limit)?;
    }
    Ok(found)
}

#[cfg(test)]
mod tests {
    use super::*;

    /// From a number to its half and its third, rounded down.
    struct Parts;

    impl Transition<u32> for Parts {
        ghost use Rattle.std.specs.Prelude.{Contains};
        ghost use Rattle.worklist.specs.Parts.{parts_of};

        ghost step = { λ _ x y. Contains (parts_of x) y };

        ghost valid = { λ _ _. Unit {0} };

        fn push_next(&self, state: &u32, out: &mut Vec<u32>) -> Result<(), AllocError> {
            out.push(*state / 2)?;
            out.push(*state / 3)?;
            Ok(())
        }
    }

    // From 6 the steps lead to 6, 3, 2, 1 and 0.
    #[test]
    fn finds_all(rt: HostRuntime) {
        let alloc = rt.alloc();
        let found = closure(alloc, &Parts, 6, 5).expect(&rt, "room for five");
        assert!(rt; found.len() == 5);
        for number in [6, 3, 2, 1, 0] {
            assert!(rt; found.contains(&number));
        }
    }

    #[test]
    fn refuses_more(rt: HostRuntime) {
        let alloc = rt.alloc();
        let outcome = closure(alloc, &Parts, 6, 4).map(|found| found.len());
        assert!(rt; outcome == Err(ClosureFault::TooMany));
    }
}
