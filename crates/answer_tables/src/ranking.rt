//! Numbers for all ranks below an end.

ghost use Rattle.std.specs.Prelude.{◌≡◌, ◌≤◌, ◌<◌, ◌^◌, ℕ, IfOk, IfSome, length, slice_index_or};
ghost use Rattle.answer_tables.specs.Runs.{AreAlike, RiseFrom, end_from, link_at, unit_runs};

use crate::Memory;
use crate::run::{Run, end_of, extend, link_of, run_of};
use std::alloc::Global;
use std::marker::Model;

/// Numbers for the ranks below an end, seen as runs: runs up to a start, and from there a byte for
/// each rank, which tells a run of one rank.
#[derive(Drop)]
pub struct Ranking {
    pub(crate) runs: Vec<Run>,
    start: u64,
    pub(crate) bytes: Vec<u8>,
}

impl Model for Ranking {
    ghost use Rattle.std.specs.Prelude.{List, ◌≡◌, ◌++◌, ◌+◌, ◌<◌, ◌^◌, length};
    ghost use Rattle.answer_tables.specs.declared.run.Run.{Run};
    ghost use Rattle.answer_tables.specs.Runs.{RiseFrom, end_from, unit_runs};

    ghost Value = { List Run };

    ghost view = { λ r. r.runs.items ++ unit_runs (end_from 0 r.runs.items) r.bytes.items };

    ghost invariant = { λ r. RiseFrom 0 r.runs.items
        × (end_from 0 r.runs.items + length r.bytes.items < 2 ^ 64)
        × (r.start ≡ end_from 0 r.runs.items) };
}

/// Whether runs take more room than a byte for each rank.
fn is_dense(runs: usize, ranks: u64) -> bool {
    runs as u64 > 8 + ranks / 8
}

/// How often a byte differs from the one before.
fn count_changes(bytes: &[u8]) -> usize
    ensures { result ≤ length bytes.now }
{
    let mut count = 0;
    let mut last = 0;
    for byte in bytes {
        if *byte != last {
            count += 1;
        }
        last = *byte;
    }
    count
}

impl Ranking {
    /// The numbers that runs tell.
    pub fn from_runs(alloc: Global, runs: Vec<Run>) -> Ranking
        requires { RiseFrom 0 runs.items }
        ensures { result ≡ runs.items }
    {
        let start = end_of(runs.as_slice());
        Ranking {
            runs,
            start,
            bytes: Vec::new(alloc),
        }
    }

    /// The numbers that bytes tell, one for each rank.
    pub fn from_bytes(alloc: Global, bytes: Vec<u8>) -> Ranking
        ensures { result ≡ unit_runs 0 bytes.items }
    {
        Ranking {
            runs: Vec::new(alloc),
            start: 0,
            bytes,
        }
    }

    /// The runs, where no rank has a byte.
    pub fn as_runs(&self) -> Option<&[Run]>
        ensures { IfSome result (λ runs. runs.now ≡ self.now) }
    {
        if self.bytes.is_empty() {
            Some(self.runs.as_slice())
        } else {
            None
        }
    }

    /// The bytes, where each rank has one.
    pub fn as_bytes(&self) -> Option<&[u8]>
        ensures { IfSome result (λ bytes. unit_runs 0 bytes.now ≡ self.now) }
    {
        if self.runs.is_empty() {
            Some(self.bytes.as_slice())
        } else {
            None
        }
    }

    /// How many runs there are.
    pub fn len(&self) -> usize
        ensures { result ≡ length self.now }
    {
        self.runs.len() + self.bytes.len()
    }

    /// How many ranks there are.
    pub fn end(&self) -> u64
        ensures { result ≡ end_from 0 self.now }
    {
        self.start + self.bytes.len() as u64
    }

    /// The run at a place.
    pub fn run(&self, place: usize) -> Run
        requires { place < length self.now }
        ensures { result ≡ slice_index_or self.now place (record { end = 0; link = 0 }) }
    {
        let before = self.runs.len();
        if place < before {
            return self.runs[place];
        }
        let further = place - before;
        let end = self.start + further as u64 + 1;
        let link = self.bytes[further] as usize;
        Run { end, link }
    }

    /// The number at a rank.
    pub fn link_of(&self, rank: u64) -> usize
        requires { rank < end_from 0 self.now }
        ensures { result ≡ link_at self.now rank }
    {
        if rank < self.start {
            return link_of(self.runs.as_slice(), rank);
        }
        self.bytes[(rank - self.start) as usize] as usize
    }

    /// The run that a rank is in.
    pub fn run_over(&self, rank: u64) -> Run
        requires { rank < end_from 0 self.now }
        ensures link { result.link ≡ link_at self.now rank }
        ensures ahead { rank < result.end }
        ensures same { (n : ℕ) → rank ≤ n → n < result.end
            → link_at self.now n ≡ link_at self.now rank }
    {
        if rank < self.start {
            return run_of(self.runs.as_slice(), rank);
        }
        let link = self.bytes[(rank - self.start) as usize] as usize;
        Run {
            end: rank + 1,
            link,
        }
    }

    /// Runs of the same numbers, as few as there can be.
    pub fn to_runs(&self) -> Result<Vec<Run>, Memory>
        ensures { IfOk result (λ runs. AreAlike self.now runs.items) }
    {
        let mut runs = Vec::new(*self.runs.allocator());
        for place in 0..self.len() {
            extend(&mut runs, self.run(place))?;
        }
        Ok(runs)
    }

    /// A byte for each rank, where one can tell each number.
    pub fn to_bytes(&self) -> Result<Option<Vec<u8>>, Memory>
        ensures { IfOk result (λ found.
            IfSome found (λ bytes. AreAlike self.now (unit_runs 0 bytes.items))) }
    {
        let mut bytes = Vec::new(*self.bytes.allocator());
        if let Some(own) = self.as_bytes() {
            bytes.extend_from_slice(own)?;
            return Ok(Some(bytes));
        }
        for place in 0..self.len() {
            let run = self.run(place);
            if run.link > 255 {
                return Ok(None);
            }
            bytes.resize(run.end as usize, run.link as u8)?;
        }
        Ok(Some(bytes))
    }

    /// The same numbers, told by what takes less room.
    pub fn settled(self) -> Result<Ranking, Memory>
        ensures { IfOk result (AreAlike self) }
    {
        let count = self.runs.len() + count_changes(self.bytes.as_slice());
        let dense = is_dense(count, self.end());
        if dense != self.bytes.is_empty() {
            return Ok(self);
        }
        if !dense {
            let runs = self.to_runs()?;
            return Ok(Ranking::from_runs(*self.bytes.allocator(), runs));
        }
        match self.to_bytes()? {
            Some(bytes) => Ok(Ranking::from_bytes(*self.runs.allocator(), bytes)),
            None => Ok(self),
        }
    }
}
