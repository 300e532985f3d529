//! The queries that rewriting reaches, each with how it was reached.

ghost use Rattle.std.specs.Prelude.{◌≡◌, ◌≢◌, ◌<◌, ◌^◌, ℕ, List, Some, length, slice_get, IfOk};
ghost use Rattle.std.specs.Prelude.{OnOk};
ghost use Rattle.std.specs.List.{All, Contains};
ghost use Rattle.dl_syntax.specs.declared.ontology.Inclusion.{Inclusion as InclusionValue};
ghost use Rattle.dl_syntax.specs.declared.queries.Cq.{Cq as CqValue};
ghost use Rattle.dl_syntax.specs.Encode.{IsUnqualified};
ghost use Rattle.dl_syntax.specs.Queries.{IsQuery};
ghost use Rattle.query_unify.specs.Reach.{Replaces, Reduces, Step};
ghost use Rattle.perfect_ref.specs.Found.{Somewhere, IsReplacement, IsReductAt, IsReduct};
ghost use Rattle.proof_search.specs.Reached.{LeadsBy, Grows};

use dl_syntax::{Cq, Inclusion, Items, Memory};
use indexmap::IndexSet;
use query_unify::{reduce, step};
use std::alloc::Global;

/// How a query was reached: the place of the one before it, and the inclusion that replaced an atom
/// of that one, where two of its atoms weren't made equal.
#[derive(Clone, Copy, Debug)]
pub(crate) struct Link {
    pub from: u32,
    pub via: Option<Inclusion>,
}

/// Queries in the order in which they were reached, and a link for each. The first one's has no
/// meaning.
#[derive(Drop)]
pub(crate) struct Reached {
    pub alloc: Global,
    pub found: IndexSet<Cq>,
    pub links: Vec<Link>,
}

fn copy_of(alloc: Global, cq: &Cq) -> Result<Cq, Memory>
    ensures { IfOk result (λ copy. copy ≡ cq.now) }
{
    let head = Vec::from_slice(alloc, cq.head.as_slice())?;
    let body = Vec::from_slice(alloc, cq.body.as_slice())?;
    Ok(Cq {
        head: Items::from_vec(head),
        body: Items::from_vec(body),
    })
}

/// Adds a query to which the link leads, unless it is there.
fn add(reached: &mut Reached, cq: Cq, link: Link) -> Result<(), Memory>
    ensures { OnOk result ((inclusions : List InclusionValue) (before : CqValue)
        → slice_get reached.old.found.keys link.from ≡ Some before
        → LeadsBy inclusions link.via before cq
        → Grows inclusions (λ q. cq ≡ q) reached.old.found.keys reached.old.links.items
        reached.new.found.keys reached.new.links.items) }
{
    let is_new = reached.found.insert(cq)?;
    if !is_new {
        return Ok(());
    }
    reached.links.push(link)?;
    Ok(())
}

/// Adds what the inclusion of the number makes of the query at the place.
fn add_replacement(
    reached: &mut Reached,
    inclusions: &[Inclusion],
    number: usize,
    cq: &Cq,
    place: u16,
    from: u32,
) -> Result<(), Memory>
    requires query { IsQuery cq.now }
    requires unqualified { All IsUnqualified inclusions.now }
    requires number { number < length inclusions.now }
    requires within { place < length cq.now.body }
    requires at { slice_get reached.old.found.keys from ≡ Some cq.now }
    ensures { OnOk result ((i : InclusionValue) → slice_get inclusions.now number ≡ Some i
        → Grows inclusions.now (Replaces i place cq.now) reached.old.found.keys
        reached.old.links.items reached.new.found.keys reached.new.links.items) }
{
    let inclusion = inclusions[number];
    match step(reached.alloc, cq, &inclusion, place)? {
        Some(next) => {
            let via = Some(inclusion);
            add(reached, next, Link { from, via })
        }
        None => Ok(()),
    }
}

/// Adds what the inclusions make of the query at the place.
fn add_replacements(
    reached: &mut Reached,
    inclusions: &[Inclusion],
    cq: &Cq,
    place: u16,
    from: u32,
) -> Result<(), Memory>
    requires query { IsQuery cq.now }
    requires unqualified { All IsUnqualified inclusions.now }
    requires within { place < length cq.now.body }
    requires at { slice_get reached.old.found.keys from ≡ Some cq.now }
    ensures { OnOk result (Grows inclusions.now (IsReplacement inclusions.now cq.now place)
        reached.old.found.keys reached.old.links.items reached.new.found.keys
        reached.new.links.items) }
{
    for number in 0..inclusions.len() {
        add_replacement(reached, inclusions, number, cq, place, from)?;
    }
    Ok(())
}

/// Adds what the inclusions make of the query.
fn add_all_replacements(
    reached: &mut Reached,
    inclusions: &[Inclusion],
    cq: &Cq,
    from: u32,
) -> Result<(), Memory>
    requires query { IsQuery cq.now }
    requires unqualified { All IsUnqualified inclusions.now }
    requires at { slice_get reached.old.found.keys from ≡ Some cq.now }
    ensures { OnOk result (Grows inclusions.now
        (Somewhere (IsReplacement inclusions.now cq.now) (length cq.now.body))
        reached.old.found.keys reached.old.links.items reached.new.found.keys
        reached.new.links.items) }
{
    let count = cq.body.as_slice().len();
    for place in 0..count {
        add_replacements(reached, inclusions, cq, place as u16, from)?;
    }
    Ok(())
}

/// Adds what the reduce of the two places makes of the query.
fn add_reduct(
    reached: &mut Reached,
    cq: &Cq,
    first: u16,
    second: u16,
    from: u32,
) -> Result<(), Memory>
    requires query { IsQuery cq.now }
    requires order { first < second }
    requires within { second < length cq.now.body }
    requires at { slice_get reached.old.found.keys from ≡ Some cq.now }
    ensures { OnOk result ((inclusions : List InclusionValue) → Grows inclusions
        (Reduces first second cq.now) reached.old.found.keys reached.old.links.items
        reached.new.found.keys reached.new.links.items) }
{
    match reduce(reached.alloc, cq, first, second)? {
        Some(next) => add(reached, next, Link { from, via: None }),
        None => Ok(()),
    }
}

/// Adds what the reduces of a pair of places with this second one make of the query.
fn add_reducts_at(reached: &mut Reached, cq: &Cq, second: u16, from: u32) -> Result<(), Memory>
    requires query { IsQuery cq.now }
    requires within { second < length cq.now.body }
    requires at { slice_get reached.old.found.keys from ≡ Some cq.now }
    ensures { OnOk result ((inclusions : List InclusionValue) → Grows inclusions
        (IsReductAt cq.now second) reached.old.found.keys reached.old.links.items
        reached.new.found.keys reached.new.links.items) }
{
    for first in 0..second {
        add_reduct(reached, cq, first, second, from)?;
    }
    Ok(())
}

/// Adds what the reduces make of the query.
fn add_reducts(reached: &mut Reached, cq: &Cq, from: u32) -> Result<(), Memory>
    requires query { IsQuery cq.now }
    requires at { slice_get reached.old.found.keys from ≡ Some cq.now }
    ensures { OnOk result ((inclusions : List InclusionValue) → Grows inclusions
        (IsReduct cq.now) reached.old.found.keys reached.old.links.items
        reached.new.found.keys reached.new.links.items) }
{
    let count = cq.body.as_slice().len();
    for second in 0..count {
        add_reducts_at(reached, cq, second as u16, from)?;
    }
    Ok(())
}

/// Adds what one step leads to from the query at the place.
pub(crate) fn expand(
    reached: &mut Reached,
    inclusions: &[Inclusion],
    place: u32,
) -> Result<(), Memory>
    requires unqualified { All IsUnqualified inclusions.now }
    requires within { place < length reached.old.found.keys }
    requires queries { All IsQuery reached.old.found.keys }
    ensures { OnOk result ((q : CqValue) → slice_get reached.old.found.keys place ≡ Some q
        → Grows inclusions.now (Step inclusions.now q) reached.old.found.keys
        reached.old.links.items reached.new.found.keys reached.new.links.items) }
{
    let cq = copy_of(reached.alloc, &reached.found.as_slice()[place as usize])?;
    add_all_replacements(reached, inclusions, &cq, place)?;
    add_reducts(reached, &cq, place)
}
