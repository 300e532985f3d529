//! The numbers of runs given to the ranks of another table.

ghost use Rattle.std.specs.Prelude.{◌≡◌, ◌+◌, ◌-◌, ◌*◌, ◌<◌, ◌≤◌, ◌^◌, ℕ, OnOk, length, min};
ghost use Rattle.answer_tables.specs.Runs.{RiseFrom, end_from};
ghost use Rattle.answer_tables.specs.Spreading.{Spread, reach};

use crate::Memory;
use crate::run::{Run, extend, run_of};
use crate::table::tuple_count;

/// The greatest sum of digits, each at most the limit, by their weights.
fn reach(limit: u32, weights: &[u64]) -> u64
    requires { reach limit weights.now ≤ 2 ^ 60 }
    ensures { result ≡ reach limit weights.now }
{
    if weights.is_empty() {
        0
    } else {
        weights[0] * limit as u64 + reach(limit, &weights[1..])
    }
}

/// A digit up to which each, from one on, adds by its weight less than what takes a sum up to an
/// end. Digits above the limit add as much as the limit.
fn even_until(weight: u64, digit: u32, slots: u32, limit: u32, sum: u64, end: u64) -> u32
    requires { digit < slots }
    ensures from { digit ≤ result }
    ensures within { result ≤ slots }
    ensures even { (d : ℕ) → digit ≤ d → d < result
        → sum + weight * (min d limit - min digit limit) < end }
{
    if sum >= end {
        return digit;
    }
    if weight == 0 || digit >= limit {
        return slots;
    }
    let more = (end - 1 - sum) / weight;
    if more >= (limit - digit) as u64 {
        return slots;
    }
    (digit + more as u32 + 1).min(slots)
}

/// Gives each tuple of as many digits as there are weights, in rising order, the number that the
/// runs have at the sum of its digits, each at most the limit, by their weights, from `old` on.
pub fn spread(
    runs: &[Run],
    weights: &[u64],
    arity: u8,
    slots: u32,
    limit: u32,
    old: u64,
    start: u64,
    new: &mut Vec<Run>,
) -> Result<(), Memory>
    requires rise { RiseFrom 0 runs.now }
    requires long { length weights.now ≡ arity }
    requires some { 0 < slots }
    requires within { old + reach limit weights.now < end_from 0 runs.now }
    requires few { end_from 0 runs.now ≤ 2 ^ 60 }
    requires room { start + slots ^ arity ≤ 2 ^ 60 }
    requires new_rise { RiseFrom 0 new.old.items }
    requires new_end { end_from 0 new.old.items ≡ start }
    ensures { OnOk result (Spread runs.now weights.now slots limit old start new.old.items
        new.new.items) }
{
    let run = run_of(runs, old);
    if old + reach(limit, weights) < run.end {
        let end = start + tuple_count(slots, arity);
        let link = run.link;
        return extend(new, Run { end, link });
    }
    let part = tuple_count(slots, arity - 1);
    let far = reach(limit, &weights[1..]);
    let mut digit = 0;
    while digit < slots {
        let from = old + weights[0] * digit.min(limit) as u64;
        let rank = start + digit as u64 * part;
        let run = run_of(runs, from);
        let until = even_until(weights[0], digit, slots, limit, from + far, run.end);
        if digit < until {
            let end = start + until as u64 * part;
            let link = run.link;
            extend(new, Run { end, link })?;
            digit = until;
        } else {
            spread(
                runs,
                &weights[1..],
                arity - 1,
                slots,
                limit,
                from,
                rank,
                new,
            )?;
            digit += 1;
        }
    }
    Ok(())
}
