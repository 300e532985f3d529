//! Tables that differ from another at few tuples.

ghost use Rattle.std.specs.Prelude.{◌≡◌, ◌<◌, ◌≤◌, ℕ, true, IfOk, IfSome, length, slice_index};
ghost use Rattle.std.specs.List.{All};
ghost use Rattle.formula_store.specs.Interned.{AreDistinct};
ghost use Rattle.answer_tables.specs.Runs.{RiseFrom, NamedBelow, end_from};
ghost use Rattle.answer_tables.specs.Patching.{IsWritten, ArePlacesAfter, IsPatched, IsChanged};

use crate::Memory;
use crate::align::{Aligned, Joint};
use crate::ranking::Ranking;
use crate::renaming::{copies, place_of};
use formula_store::Link;
use std::alloc::Global;

/// Links of distinct antichains, and the number of one for each rank.
#[derive(Drop)]
pub struct Redone {
    pub links: Vec<Link>,
    pub bytes: Vec<u8>,
}

/// Gives the ranks from one up to another a number.
fn write(bytes: &mut Vec<u8>, start: usize, end: usize, byte: u8)
    requires order { start ≤ end }
    requires within { end ≤ length bytes.old.items }
    ensures { IsWritten bytes.old.items start end byte bytes.new.items }
{
    for rank in start..end {
        bytes[rank] = byte;
    }
}

/// The place of each link's antichain among distinct ones, where the new ones go last, if bytes can
/// tell the places.
fn places_of(alloc: Global, once: &mut Vec<Link>, links: &[Link]) -> Result<Option<Vec<u8>>, Memory>
    requires { AreDistinct once.old.items }
    ensures distinct { IfOk result (λ found. IfSome found (λ places. AreDistinct once.new.items)) }
    ensures places { IfOk result (λ found.
        IfSome found (λ places. ArePlacesAfter once.old.items links.now once.new.items
        places.items)) }
{
    let mut places = Vec::with_capacity(alloc, links.len())?;
    for link in links {
        let place = place_of(once, link)?;
        if place > 255 {
            return Ok(None);
        }
        places.push(place as u8)?;
    }
    Ok(Some(places))
}

/// The bytes with the places of the joints whose second number isn't the usual one.
fn patched(
    alloc: Global,
    bytes: &[u8],
    ranks: &Ranking,
    joints: &[Joint],
    usual: usize,
    places: &[u8],
) -> Result<Vec<u8>, Memory>
    requires rise { RiseFrom 0 ranks.now }
    requires ends { end_from 0 ranks.now ≡ length bytes.now }
    requires named { NamedBelow (length joints.now) ranks.now }
    requires many { length places.now ≡ length joints.now }
    ensures { IfOk result (λ new. IsPatched bytes.now ranks.now joints.now usual places.now
        (length bytes.now) new.items) }
{
    let mut new = Vec::with_capacity(alloc, bytes.len())?;
    new.extend_from_slice(bytes)?;
    let mut start = 0;
    for place in 0..ranks.len() {
        let run = ranks.run(place);
        let end = run.end as usize;
        if joints[run.link].second != usual {
            write(&mut new, start, end, places[run.link]);
        }
        start = end;
    }
    Ok(new)
}

/// Whether each number below a count is there.
fn has_all(bytes: &[u8], count: usize) -> bool
    ensures { result ≡ true → (i : ℕ) → i < count
        → (n : ℕ) × (n < length bytes.now) × (slice_index bytes.now n ≡ i) }
{
    for number in 0..count {
        if !has(bytes, number) {
            return false;
        }
    }
    true
}

/// Whether a number is there.
fn has(bytes: &[u8], number: usize) -> bool
    ensures { result ≡ true → (n : ℕ) × (n < length bytes.now)
        × (slice_index bytes.now n ≡ number) }
{
    for rank in 0..bytes.len() {
        if bytes[rank] as usize == number {
            return true;
        }
    }
    false
}

/// The links of the joints in the place of a table's own, where the joint's second number isn't the
/// usual one, if bytes can tell them and each of the table's own is still met.
pub fn changed(
    alloc: Global,
    own: &[Link],
    bytes: &[u8],
    aligned: &Aligned,
    usual: usize,
    links: &[Link],
) -> Result<Option<Redone>, Memory>
    requires distinct { AreDistinct own.now }
    requires told { (n : ℕ) → n < length bytes.now → slice_index bytes.now n < length own.now }
    requires rise { RiseFrom 0 aligned.now.ranks }
    requires ends { end_from 0 aligned.now.ranks ≡ length bytes.now }
    requires named { NamedBelow (length aligned.now.joints.items) aligned.now.ranks }
    requires many { length links.now ≡ length aligned.now.joints.items }
    ensures { IfOk result (λ found.
        IfSome found (λ z. IsChanged own.now links.now bytes.now aligned.now.ranks
        aligned.now.joints.items usual z.links.items z.bytes.items)) }
{
    let mut once = copies(alloc, own)?;
    let Some(places) = places_of(alloc, &mut once, links)? else {
        return Ok(None);
    };
    let joints = aligned.joints.as_slice();
    let new = patched(
        alloc,
        bytes,
        &aligned.ranks,
        joints,
        usual,
        places.as_slice(),
    )?;
    if !has_all(new.as_slice(), once.len()) {
        return Ok(None);
    }
    Ok(Some(Redone {
        links: once,
        bytes: new,
    }))
}
