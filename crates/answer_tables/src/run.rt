//! Runs of tuples with one link.

ghost use Rattle.std.specs.Prelude.{◌≡◌, ℕ, ◌<◌, ◌≤◌, OnErr, OnOk, length};
ghost use Rattle.answer_tables.specs.Runs.{Extended, RiseFrom, end_from, link_at};

use crate::Memory;

/// The tuples of the ranks from the end of the run before up to this end have one link, told by its
/// number.
#[derive(Clone, Copy)]
pub struct Run {
    pub end: u64,
    pub link: usize,
}

/// Where the runs end.
pub fn end_of(runs: &[Run]) -> u64
    ensures { result ≡ end_from 0 runs.now }
{
    let count = runs.len();
    if count == 0 { 0 } else { runs[count - 1].end }
}

/// Gives the next ranks, up to the run's end, its link.
pub fn extend(runs: &mut Vec<Run>, run: Run) -> Result<(), Memory>
    requires rise { RiseFrom 0 runs.old.items }
    requires more { end_from 0 runs.old.items < run.end }
    ensures ok { OnOk result (Extended runs.old.items run runs.new.items) }
    ensures err { OnErr result (runs.new.items ≡ runs.old.items) }
{
    let count = runs.len();
    if count > 0 && runs[count - 1].link == run.link {
        runs[count - 1] = run;
        return Ok(());
    }
    runs.push(run)?;
    Ok(())
}

/// The run that a rank is in.
pub fn run_of(runs: &[Run], rank: u64) -> Run
    requires rise { RiseFrom 0 runs.now }
    requires within { rank < end_from 0 runs.now }
    ensures link { result.link ≡ link_at runs.now rank }
    ensures ahead { rank < result.end }
    ensures within { result.end ≤ end_from 0 runs.now }
    ensures same { (n : ℕ) → rank ≤ n → n < result.end
        → link_at runs.now n ≡ link_at runs.now rank }
{
    let mut low = 0;
    let mut high = runs.len();
    while low < high {
        let middle = low + (high - low) / 2;
        if runs[middle].end <= rank {
            low = middle + 1;
        } else {
            high = middle;
        }
    }
    runs[low]
}

/// The number of the link at a rank.
pub fn link_of(runs: &[Run], rank: u64) -> usize
    requires rise { RiseFrom 0 runs.now }
    requires within { rank < end_from 0 runs.now }
    ensures { result ≡ link_at runs.now rank }
{
    run_of(runs, rank).link
}
