//! Links numbered anew, each antichain once.

ghost use Rattle.std.specs.Prelude.{◌≡◌, ◌<◌, ℕ, IfOk, IfSome, Some, length, slice_get};
ghost use Rattle.std.specs.Prelude.{slice_index, true};
ghost use Rattle.formula_store.specs.Interned.{AreDistinct, interned};
ghost use Rattle.answer_tables.specs.Runs.{RiseFrom, NamedBelow, unit_runs};
ghost use Rattle.answer_tables.specs.Renaming.{ArePlaces, AreRenamed};

use crate::Memory;
use crate::ranking::Ranking;
use crate::run::{Run, extend};
use formula_store::Link;
use indexmap::IndexSet;
use std::alloc::Global;
use std::rc::Rc;

/// How many links are compared with each other sooner than hashed.
const FEW: usize = 8;

/// Links of distinct antichains, and the place among them of each link that was given.
#[derive(Drop)]
pub struct Once {
    pub links: Vec<Link>,
    pub places: Vec<usize>,
}

/// Links of the same antichains.
pub fn copies(alloc: Global, links: &[Link]) -> Result<Vec<Link>, Memory>
    ensures { IfOk result (λ copies. copies.items ≡ links.now) }
{
    let mut copies = Vec::with_capacity(alloc, links.len())?;
    for link in links {
        copies.push(link.copy()?)?;
    }
    Ok(copies)
}

/// The place of a link's antichain among distinct ones, where it goes last if it is new.
pub fn place_of(once: &mut Vec<Link>, link: &Link) -> Result<usize, Memory>
    requires { AreDistinct once.old.items }
    ensures distinct { IfOk result (λ place. AreDistinct once.new.items) }
    ensures grown { IfOk result (λ place. once.new.items ≡ interned once.old.items link.now) }
    ensures place { IfOk result (λ place. slice_get once.new.items place ≡ Some link.now) }
{
    let count = once.len();
    for place in 0..count {
        if *link == once[place] {
            return Ok(place);
        }
    }
    once.push(link.copy()?)?;
    Ok(count)
}

/// Each antichain once, in order of first occurrence, where each link is compared with those before
/// it.
fn each_compared(alloc: Global, links: &[Link]) -> Result<Once, Memory>
    ensures distinct { IfOk result (λ o. AreDistinct o.links.items) }
    ensures places { IfOk result (λ o. ArePlaces links.now o.links.items o.places.items) }
{
    let mut once = Vec::with_capacity(alloc, links.len())?;
    let mut places = Vec::with_capacity(alloc, links.len())?;
    for link in links {
        let place = place_of(&mut once, link)?;
        places.push(place)?;
    }
    Ok(Once {
        links: once,
        places,
    })
}

/// Each antichain once, in order of first occurrence, found by their hashes.
fn each_hashed(alloc: Global, links: &[Link]) -> Result<Once, Memory>
    ensures distinct { IfOk result (λ o. AreDistinct o.links.items) }
    ensures places { IfOk result (λ o. ArePlaces links.now o.links.items o.places.items) }
{
    let mut antichains: IndexSet<Link> = IndexSet::new(alloc);
    let mut places = Vec::with_capacity(alloc, links.len())?;
    for link in links {
        let (place, _) = antichains.insert_full(link.copy()?)?;
        places.push(place)?;
    }
    let links = copies(alloc, antichains.as_slice())?;
    Ok(Once { links, places })
}

/// Each antichain once, in order of first occurrence.
pub fn each_once(alloc: Global, links: &[Link]) -> Result<Once, Memory>
    ensures distinct { IfOk result (λ o. AreDistinct o.links.items) }
    ensures places { IfOk result (λ o. ArePlaces links.now o.links.items o.places.items) }
{
    if links.len() <= FEW {
        each_compared(alloc, links)
    } else {
        each_hashed(alloc, links)
    }
}

/// Whether each number is its own place.
fn are_own(places: &[usize]) -> bool
    ensures { result ≡ true → (i : ℕ) → i < length places.now → slice_index places.now i ≡ i }
{
    for i in 0..places.len() {
        if places[i] != i {
            return false;
        }
    }
    true
}

/// The same runs, each number replaced by its place.
pub fn renamed(alloc: Global, runs: &[Run], places: &[usize]) -> Result<Vec<Run>, Memory>
    requires rise { RiseFrom 0 runs.now }
    requires named { NamedBelow (length places.now) runs.now }
    ensures { IfOk result (λ new. AreRenamed places.now runs.now new.items) }
{
    let mut new = Vec::with_capacity(alloc, runs.len())?;
    for run in runs {
        let link = places[run.link];
        extend(&mut new, Run { end: run.end, link })?;
    }
    Ok(new)
}

/// The same bytes, each number replaced by its place, where bytes can tell all places that are met.
fn renamed_bytes(alloc: Global, bytes: &[u8], places: &[usize]) -> Result<Option<Vec<u8>>, Memory>
    requires named { NamedBelow (length places.now) (unit_runs 0 bytes.now) }
    ensures { IfOk result (λ found. IfSome found (λ new.
        AreRenamed places.now (unit_runs 0 bytes.now) (unit_runs 0 new.items))) }
{
    let mut new = Vec::with_capacity(alloc, bytes.len())?;
    for byte in bytes {
        let place = places[*byte as usize];
        if place > 255 {
            return Ok(None);
        }
        new.push(place as u8)?;
    }
    Ok(Some(new))
}

/// The same ranks, each number replaced by its place.
fn replaced(alloc: Global, ranks: &Ranking, places: &[usize]) -> Result<Ranking, Memory>
    requires rise { RiseFrom 0 ranks.now }
    requires named { NamedBelow (length places.now) ranks.now }
    ensures { IfOk result (AreRenamed places.now ranks.now) }
{
    if let Some(bytes) = ranks.as_bytes() {
        if let Some(new) = renamed_bytes(alloc, bytes, places)? {
            return Ranking::from_bytes(alloc, new).settled();
        }
    }
    let runs = ranks.to_runs()?;
    let new = renamed(alloc, runs.as_slice(), places)?;
    Ranking::from_runs(alloc, new).settled()
}

/// The same ranks, shared.
pub fn share(ranks: &Rc<Ranking>) -> Result<Rc<Ranking>, Memory>
    ensures { IfOk result (λ same. same.value ≡ ranks.now.value) }
{
    let same = ranks.clone()?;
    Ok(same)
}

/// The same ranks, each number replaced by its place. They are shared where nothing changes.
pub fn renumbered(
    alloc: Global,
    ranks: &Rc<Ranking>,
    places: &[usize],
) -> Result<Rc<Ranking>, Memory>
    requires rise { RiseFrom 0 ranks.now.value }
    requires named { NamedBelow (length places.now) ranks.now.value }
    ensures { IfOk result (λ new. AreRenamed places.now ranks.now.value new.value) }
{
    if are_own(places) {
        return share(ranks);
    }
    let new = replaced(alloc, ranks.as_ref(), places)?;
    let new = Rc::new(alloc, new)?;
    Ok(new)
}

/// Ranks of a new table, each number replaced by its place.
pub fn settled(alloc: Global, ranks: Ranking, places: &[usize]) -> Result<Ranking, Memory>
    requires rise { RiseFrom 0 ranks }
    requires named { NamedBelow (length places.now) ranks }
    ensures { IfOk result (AreRenamed places.now ranks) }
{
    if are_own(places) {
        return ranks.settled();
    }
    replaced(alloc, &ranks, places)
}
