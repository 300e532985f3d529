//! Two lists of numbers at once.

ghost use Rattle.std.specs.Prelude.{◌≡◌, ◌<◌, ◌+◌, ◌-◌, ◌^◌, [], IfOk, IfSome, length, true};
ghost use Rattle.answer_tables.specs.Runs.{RiseFrom, end_from, unit_runs};
ghost use Rattle.answer_tables.specs.Joint.{IsAligned, joint_at};
ghost use Rattle.answer_tables.specs.Numbering.{Numbered};
ghost use Rattle.answer_tables.specs.Coding.{IsCoding};

use crate::Memory;
use crate::coding::Coding;
use crate::ranking::Ranking;
use crate::run::{Run, extend};
use std::alloc::Global;

/// The most pairs of numbers that are remembered at once.
const MOST: usize = 65_536;

/// The numbers that two lists have at a rank.
#[derive(Clone, Copy)]
pub struct Joint {
    pub first: usize,
    pub second: usize,
    pub rank: u64,
}

/// The joints that came so far, and where they stand by their numbers.
#[derive(Drop)]
pub struct Numbering {
    joints: Vec<Joint>,
    places: Vec<usize>,
    width: usize,
}

/// Two lists of numbers in one, whose numbers are those of the joints.
#[derive(Drop)]
pub struct Aligned {
    pub ranks: Ranking,
    pub joints: Vec<Joint>,
}

impl Numbering {
    /// No joints yet; there are so many first and second numbers.
    pub fn new(alloc: Global, firsts: usize, seconds: usize) -> Result<Numbering, Memory>
        ensures { IfOk result (λ n. n.joints.items ≡ []) }
    {
        let pairs = firsts.saturating_mul(seconds).min(MOST);
        let places = vec![in alloc; 0; pairs]?;
        Ok(Numbering {
            joints: Vec::new(alloc),
            places,
            width: seconds,
        })
    }

    /// Where the place of a joint with these numbers is remembered.
    fn slot_of(&self, joint: Joint) -> usize {
        let slot = joint
            .first
            .wrapping_mul(self.width)
            .wrapping_add(joint.second);
        if slot < self.places.len() {
            slot
        } else {
            slot % MOST
        }
    }

    /// The number of a joint with the same numbers, which is the joint's own where none is
    /// remembered.
    fn number(&mut self, joint: Joint) -> Result<usize, Memory>
        ensures { IfOk result (Numbered self.old.joints.items joint self.new.joints.items) }
    {
        let slot = self.slot_of(joint);
        if slot >= self.places.len() {
            return self.further(joint);
        }
        let place = self.places[slot];
        if has_numbers(self.joints.as_slice(), place, joint) {
            return Ok(place);
        }
        self.places[slot] = self.joints.len();
        self.further(joint)
    }

    /// The number of a joint that goes last.
    fn further(&mut self, joint: Joint) -> Result<usize, Memory>
        ensures { IfOk result (Numbered self.old.joints.items joint self.new.joints.items) }
    {
        let place = self.joints.len();
        self.joints.push(joint)?;
        Ok(place)
    }
}

/// Whether the joint at the place has the same numbers.
fn has_numbers(joints: &[Joint], place: usize, joint: Joint) -> bool
    ensures { result ≡ true → (place < length joints.now)
        × ((joint_at joints.now place).first ≡ joint.first)
        × ((joint_at joints.now place).second ≡ joint.second) }
{
    place < joints.len()
        && joints[place].first == joint.first
        && joints[place].second == joint.second
}

/// The place of the run that goes on at a rank, which is the next one where this one ends there.
fn next_place(place: usize, run: Run, rank: u64) -> usize
    requires { place < 2 ^ 64 - 1 }
    ensures ended { run.end ≡ rank → result ≡ place + 1 }
    ensures inside { rank < run.end → result ≡ place }
{
    if run.end == rank { place + 1 } else { place }
}

/// Both lists of runs at once.
fn align_runs(alloc: Global, a: &[Run], b: &[Run], numbering: Numbering) -> Result<Aligned, Memory>
    requires rise_a { RiseFrom 0 a.now }
    requires rise_b { RiseFrom 0 b.now }
    requires ends { end_from 0 a.now ≡ end_from 0 b.now }
    requires fresh { numbering.joints.items ≡ [] }
    ensures { IfOk result (λ z. IsAligned a.now b.now z.ranks z.joints.items) }
{
    let mut numbering = numbering;
    let mut runs = Vec::with_capacity(alloc, a.len().max(b.len()))?;
    let mut rank = 0;
    let mut i = 0;
    let mut j = 0;
    while i < a.len() && j < b.len() {
        let first = a[i];
        let second = b[j];
        let joint = Joint {
            first: first.link,
            second: second.link,
            rank,
        };
        let number = numbering.number(joint)?;
        let end = first.end.min(second.end);
        extend(&mut runs, Run { end, link: number })?;
        rank = end;
        i = next_place(i, first, end);
        j = next_place(j, second, end);
    }
    let Numbering { joints, .. } = numbering;
    let ranks = Ranking::from_runs(alloc, runs);
    Ok(Aligned { ranks, joints })
}

/// Both lists of bytes at once, where a byte can tell each joint.
fn align_bytes(alloc: Global, a: &[u8], b: &[u8], coding: Coding) -> Result<Option<Aligned>, Memory>
    requires many { length a.now ≡ length b.now }
    requires fresh { coding.joints.items ≡ [] }
    requires coding { IsCoding coding.joints.items coding.codes.items coding.width }
    ensures { IfOk result (λ found.
        IfSome found (λ z. IsAligned (unit_runs 0 a.now) (unit_runs 0 b.now) z.ranks
        z.joints.items)) }
{
    let mut coding = coding;
    let mut bytes = Vec::with_capacity(alloc, a.len())?;
    for i in 0..a.len() {
        let Some(byte) = coding.byte(a[i], b[i], i as u64)? else {
            return Ok(None);
        };
        bytes.push(byte)?;
    }
    let Coding { joints, .. } = coding;
    let ranks = Ranking::from_bytes(alloc, bytes);
    Ok(Some(Aligned { ranks, joints }))
}

/// Both lists at once, a byte for each rank, where bytes can tell all numbers.
fn align_packed(
    alloc: Global,
    a: &Ranking,
    b: &Ranking,
    firsts: usize,
    seconds: usize,
) -> Result<Option<Aligned>, Memory>
    requires ends { end_from 0 a.now ≡ end_from 0 b.now }
    ensures { IfOk result (λ found.
        IfSome found (λ z. IsAligned a.now b.now z.ranks z.joints.items)) }
{
    let Some(first) = a.to_bytes()? else {
        return Ok(None);
    };
    let Some(second) = b.to_bytes()? else {
        return Ok(None);
    };
    let coding = Coding::new(alloc, firsts, seconds)?;
    align_bytes(alloc, first.as_slice(), second.as_slice(), coding)
}

/// Both lists at once, where runs tell all numbers.
fn align_unpacked(
    alloc: Global,
    a: &Ranking,
    b: &Ranking,
    numbering: Numbering,
) -> Result<Aligned, Memory>
    requires ends { end_from 0 a.now ≡ end_from 0 b.now }
    requires fresh { numbering.joints.items ≡ [] }
    ensures { IfOk result (λ z. IsAligned a.now b.now z.ranks z.joints.items) }
{
    let first = a.to_runs()?;
    let second = b.to_runs()?;
    align_runs(alloc, first.as_slice(), second.as_slice(), numbering)
}

/// Both lists at once, of so many numbers each: their numbers at a rank are those of the joint that
/// stands there.
pub fn align(
    alloc: Global,
    a: &Ranking,
    b: &Ranking,
    firsts: usize,
    seconds: usize,
) -> Result<Aligned, Memory>
    requires rise_a { RiseFrom 0 a.now }
    requires rise_b { RiseFrom 0 b.now }
    requires ends { end_from 0 a.now ≡ end_from 0 b.now }
    ensures { IfOk result (λ z. IsAligned a.now b.now z.ranks z.joints.items) }
{
    if let (Some(first), Some(second)) = (a.as_runs(), b.as_runs()) {
        let numbering = Numbering::new(alloc, firsts, seconds)?;
        return align_runs(alloc, first, second, numbering);
    }
    if let Some(aligned) = align_packed(alloc, a, b, firsts, seconds)? {
        return Ok(aligned);
    }
    let numbering = Numbering::new(alloc, firsts, seconds)?;
    align_unpacked(alloc, a, b, numbering)
}
