//! Numbers that are hidden where another number is a usual one.

ghost use Rattle.std.specs.Prelude.{◌≡◌, ◌≤◌, IfOk, OnOk};
ghost use Rattle.answer_tables.specs.Runs.{RiseFrom, end_from};
ghost use Rattle.answer_tables.specs.Masking.{Copied, IsMasked, IsMaskedAligned};

use crate::Memory;
use crate::align::{Aligned, align};
use crate::ranking::Ranking;
use crate::run::{Run, extend};
use std::alloc::Global;

/// Gives the ranks from one, where the runs end, up to another the numbers of a ranking.
fn copy_up_to(runs: &mut Vec<Run>, ranking: &Ranking, start: u64, end: u64) -> Result<(), Memory>
    requires rise { RiseFrom 0 runs.old.items }
    requires start { end_from 0 runs.old.items ≡ start }
    requires ahead { start ≤ end }
    requires within { end ≤ end_from 0 ranking.now }
    ensures { OnOk result (Copied ranking.now runs.old.items end runs.new.items) }
{
    let mut rank = start;
    while rank < end {
        let run = ranking.run_over(rank);
        rank = run.end.min(end);
        extend(
            runs,
            Run {
                end: rank,
                link: run.link,
            },
        )?;
    }
    Ok(())
}

/// The first one's numbers, or 0 where the second has the usual number.
fn mask(alloc: Global, a: &Ranking, b: &Ranking, usual: usize) -> Result<Ranking, Memory>
    requires rise { RiseFrom 0 b.now }
    requires ends { end_from 0 a.now ≡ end_from 0 b.now }
    ensures { IfOk result (IsMasked a.now b.now usual (end_from 0 a.now)) }
{
    let mut runs = Vec::new(alloc);
    let mut start = 0;
    for place in 0..b.len() {
        let Run { end, link } = b.run(place);
        if link == usual {
            extend(&mut runs, Run { end, link: 0 })?;
        } else {
            copy_up_to(&mut runs, a, start, end)?;
        }
        start = end;
    }
    Ok(Ranking::from_runs(alloc, runs))
}

/// Both lists at once, of so many numbers each, but for the first one's numbers where the second
/// has the usual number.
pub fn align_masked(
    alloc: Global,
    a: &Ranking,
    b: &Ranking,
    usual: usize,
    firsts: usize,
    seconds: usize,
) -> Result<Aligned, Memory>
    requires rise { RiseFrom 0 b.now }
    requires ends { end_from 0 a.now ≡ end_from 0 b.now }
    ensures { IfOk result (λ z. IsMaskedAligned a.now b.now usual z.ranks z.joints.items) }
{
    let masked = mask(alloc, a, b, usual)?;
    align(alloc, &masked, b, firsts, seconds)
}
