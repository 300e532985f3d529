//! Tables of which one has a usual antichain at all but few tuples.

ghost use Rattle.std.specs.Prelude.{◌≡◌, ◌<◌, true, IfOk, IfSome, length};
ghost use Rattle.std.specs.List.{All};
ghost use Rattle.formula_store.specs.Interned.{Extends};
ghost use Rattle.answer_tables.specs.Combining.{test_of, JointsWithin, LinksAreIn};
ghost use Rattle.answer_tables.specs.Deciding.{IsDeciding, IsNeutral, AreFirsts};
ghost use Rattle.answer_tables.specs.Made.{IsCombination};

use crate::Memory;
use crate::align::Joint;
use crate::combine::{Operation, combined_each, combined_links};
use crate::mask::align_masked;
use crate::patch::changed;
use crate::ranking::Ranking;
use crate::run::Run;
use crate::same::are_same_links;
use crate::substitute::{stored_links, stored_table};
use crate::table::Table;
use formula_store::{Link, Store};
use std::alloc::Global;

/// The number of the longest run.
fn number_of_longest(runs: &[Run]) -> usize {
    let mut number = 0;
    let mut longest = 0;
    let mut start = 0;
    for run in runs {
        let length = run.end.saturating_sub(start);
        if length > longest {
            longest = length;
            number = run.link;
        }
        start = run.end;
    }
    number
}

/// How many ranks have another number.
fn count_others(runs: &[Run], number: usize) -> u64 {
    let mut count: u64 = 0;
    let mut start = 0;
    for run in runs {
        if run.link != number {
            count = count.saturating_add(run.end.saturating_sub(start));
        }
        start = run.end;
    }
    count
}

/// The number of the second ranking's ranks but for so few that to look them up in the first is
/// less work than to go through it.
fn usual_number(a: &Ranking, b: &Ranking) -> Option<usize> {
    let runs = b.as_runs()?;
    let few = a.len() / 8;
    if runs.len() >= few {
        return None;
    }
    let usual = number_of_longest(runs);
    if count_others(runs, usual) < few as u64 {
        Some(usual)
    } else {
        None
    }
}

/// Whether the combination with the antichain is the same for all antichains.
fn decides(operation: Operation, link: &Link) -> bool
    ensures { result ≡ true → IsDeciding (test_of operation) link.now }
{
    let sets = link.antichain().sets();
    match operation {
        Operation::Or => sets.len() == 1 && sets[0] == 0,
        Operation::And => sets.is_empty(),
    }
}

/// Whether the combination with the antichain leaves each of the links as it is.
fn is_neutral(
    alloc: Global,
    operation: Operation,
    links: &[Link],
    link: &Link,
    store: &mut Store,
) -> Result<bool, Memory>
    ensures neutral { IfOk result (λ is. is ≡ true
        → IsNeutral (test_of operation) links.now link.now) }
    ensures grown { Extends store.old store.new }
{
    let all = combined_each(alloc, operation, links, link, store)?;
    Ok(are_same_links(all.as_slice(), links))
}

/// Whether the link of each joint is the one that its first number tells.
fn are_firsts(a: &[Link], joints: &[Joint], links: &[Link]) -> bool
    requires within { All (λ j. j.first < length a.now) joints.now }
    requires many { length links.now ≡ length joints.now }
    ensures { result ≡ true → AreFirsts a.now joints.now links.now }
{
    for i in 0..joints.len() {
        if links[i] != a[joints[i].first] {
            return false;
        }
    }
    true
}

/// The combination, where the usual antichain decides it.
fn combine_decided(
    alloc: Global,
    operation: Operation,
    a: &Table,
    b: &Table,
    usual: usize,
    store: &mut Store,
) -> Result<Option<Table>, Memory>
    requires slots { a.now.slots ≡ b.now.slots }
    requires arity { a.now.arity ≡ b.now.arity }
    ensures combined { IfOk result (λ found.
        IfSome found (IsCombination (test_of operation) a.now b.now)) }
    ensures stored { IfOk result (λ found. IfSome found (λ t. LinksAreIn t store.new)) }
    ensures grown { Extends store.old store.new }
{
    if usual >= b.links.len() || !decides(operation, &b.links[usual]) {
        return Ok(None);
    }
    let (ra, rb) = (a.ranks.as_ref(), b.ranks.as_ref());
    let aligned = align_masked(alloc, ra, rb, usual, a.links.len(), b.links.len())?;
    let joints = aligned.joints.as_slice();
    let (la, lb) = (a.links.as_slice(), b.links.as_slice());
    let links = combined_links(alloc, operation, la, lb, joints, store)?;
    let links = links.as_slice();
    let table = Table::from_aligned(alloc, a.slots, a.arity, links, aligned.ranks)?;
    Ok(Some(table))
}

/// The combination, where the usual antichain leaves each antichain of the first table as it is:
/// the first table itself where the others do so too, and else one that differs from it at their
/// tuples alone.
fn combine_neutral(
    alloc: Global,
    operation: Operation,
    a: &Table,
    b: &Table,
    usual: usize,
    store: &mut Store,
) -> Result<Option<Table>, Memory>
    requires slots { a.now.slots ≡ b.now.slots }
    requires arity { a.now.arity ≡ b.now.arity }
    ensures combined { IfOk result (λ found.
        IfSome found (IsCombination (test_of operation) a.now b.now)) }
    ensures stored { IfOk result (λ found. IfSome found (λ t. LinksAreIn t store.new)) }
    ensures grown { Extends store.old store.new }
{
    let (la, lb) = (a.links.as_slice(), b.links.as_slice());
    if usual >= lb.len() || !is_neutral(alloc, operation, la, &lb[usual], store)? {
        return Ok(None);
    }
    let (ra, rb) = (a.ranks.as_ref(), b.ranks.as_ref());
    let aligned = align_masked(alloc, ra, rb, usual, la.len(), lb.len())?;
    let joints = aligned.joints.as_slice();
    let links = combined_links(alloc, operation, la, lb, joints, store)?;
    if are_firsts(la, joints, links.as_slice()) {
        let same = stored_table(alloc, a, store)?;
        return Ok(Some(same));
    }
    let Some(bytes) = ra.as_bytes() else {
        return Ok(None);
    };
    let Some(redone) = changed(alloc, la, bytes, &aligned, usual, links.as_slice())? else {
        return Ok(None);
    };
    let links = stored_links(alloc, redone.links.as_slice(), store)?;
    let ranks = Ranking::from_bytes(alloc, redone.bytes);
    let table = Table::from_own(alloc, a.slots, a.arity, links, ranks)?;
    Ok(Some(table))
}

/// The combination, where the second table has a usual antichain that decides it or changes
/// nothing.
fn combine_sparse(
    alloc: Global,
    operation: Operation,
    a: &Table,
    b: &Table,
    store: &mut Store,
) -> Result<Option<Table>, Memory>
    requires slots { a.now.slots ≡ b.now.slots }
    requires arity { a.now.arity ≡ b.now.arity }
    ensures combined { IfOk result (λ found.
        IfSome found (IsCombination (test_of operation) a.now b.now)) }
    ensures stored { IfOk result (λ found. IfSome found (λ t. LinksAreIn t store.new)) }
    ensures grown { Extends store.old store.new }
{
    let Some(usual) = usual_number(a.ranks.as_ref(), b.ranks.as_ref()) else {
        return Ok(None);
    };
    if let Some(table) = combine_decided(alloc, operation, a, b, usual, store)? {
        return Ok(Some(table));
    }
    combine_neutral(alloc, operation, a, b, usual, store)
}

/// The combination, where few tuples of one of the tables tell it.
pub fn combine_few(
    alloc: Global,
    operation: Operation,
    a: &Table,
    b: &Table,
    store: &mut Store,
) -> Result<Option<Table>, Memory>
    requires slots { a.now.slots ≡ b.now.slots }
    requires arity { a.now.arity ≡ b.now.arity }
    ensures combined { IfOk result (λ found.
        IfSome found (IsCombination (test_of operation) a.now b.now)) }
    ensures stored { IfOk result (λ found. IfSome found (λ t. LinksAreIn t store.new)) }
    ensures grown { Extends store.old store.new }
{
    if let Some(table) = combine_sparse(alloc, operation, a, b, store)? {
        return Ok(Some(table));
    }
    combine_sparse(alloc, operation, b, a, store)
}
