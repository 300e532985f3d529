//! A query on a history, step by step.

ghost use Rattle.std.specs.Prelude.{◌≡◌, ◌<◌, ◌≤◌, ◌∷◌, ◌++◌, [], IfSome, IsTrue, List, length};
ghost use Rattle.progression.specs.Kept.{Fits, StandsFor};
ghost use Rattle.step_examples.specs.Plain.{history_of, LeavesAskForMembers, Told};

use crate::leaves::leaves_at;
use crate::plain::{Fact, holds_last};
use answer_tables::Made;
use formula_store::Store;
use progression::{Kept, Slots, advance, start};
use std::alloc::Global;
use tcq_syntax::Query;

// What is kept after the last position, and whether the answers there are those of the plain
// definition.
fn one_step(
    alloc: Global,
    query: &Query,
    kept: &Kept,
    facts: &[Fact],
    made: &mut Made,
    store: &mut Store,
) -> Option<(Kept, bool)>
    requires fits { Fits query.now 1 kept.now }
    requires some { 0 < length facts.now }
    requires few { length facts.now ≤ 4 }
    ensures fits { IfSome result (λ r. Fits query.now 1 r.0) }
    ensures agrees { IfSome result (λ r. (before : List Told) (told : Told)
        → facts.now ≡ before ++ told ∷ [] → LeavesAskForMembers query.now
        → StandsFor [] 1 (history_of before) query.now kept.now
        → StandsFor [] 1 (history_of facts.now) query.now r.0 × IsTrue r.1) }
{
    let leaves = leaves_at(alloc, query.nodes(), facts[facts.len() - 1])?;
    let slots = Slots {
        kept: 1,
        answered: 1,
    };
    let (kept, rows) = advance(alloc, query, slots, kept, leaves.as_slice(), made, store).ok()?;
    let expected = holds_last(query.nodes(), facts);
    Some((kept, rows.is_empty() != expected))
}

/// Whether the step answers as the plain definition at each position of a history of at most four,
/// if there is memory and each leaf has the one answer variable. It does where the leaves ask for
/// the members of A or of B.
pub fn agrees(alloc: Global, query: &Query, facts: &[Fact]) -> Option<bool>
    requires { length facts.now ≤ 4 }
    ensures { IfSome result (λ same. LeavesAskForMembers query.now → IsTrue same) }
{
    let mut kept = start(alloc);
    let mut made = Made::new(alloc);
    let mut store = Store::new(alloc);
    for count in 0..facts.len() {
        let (next, same) = one_step(
            alloc,
            query,
            &kept,
            &facts[..count + 1],
            &mut made,
            &mut store,
        )?;
        if !same {
            return Some(false);
        }
        kept = next;
    }
    Some(true)
}
