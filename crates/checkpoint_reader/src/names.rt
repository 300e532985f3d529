//! The lines of the names that came with the stream.

ghost use Rattle.std.specs.Prelude.{◌≡◌, ◌++◌, ◌∷◌, ◌≤◌, [], ℕ, List, length, drop, Some, true};
ghost use Rattle.std.specs.Prelude.{MatchOption, IfOk, IfErr};
ghost use Rattle.std.specs.List.{All};
ghost use Rattle.std.specs.Option.{option_map, ForSome};
ghost use Rattle.tcq_syntax.specs.Tcq.{IsTcq};
ghost use Rattle.checkpoint_text.specs.Text.{name_line};
ghost use Rattle.checkpoint_reader.specs.Lines.{HasNo, IsNameLine, MayCome, Takes, names_for};
ghost use Rattle.checkpoint_reader.specs.Rules.{AtNames, AtLists, begun, behind_accepted};
ghost use Rattle.checkpoint_reader.specs.Progress.{Reached, IsLineFault, Comes};

use crate::arrivals::Arrivals;
use crate::fault::CheckFault;
use crate::line::{next_line, read_count};
use crate::place::{Job, Place};
use crate::words::rest_of;
use dl_syntax::{Memory, Name};

/// The name that the line tells, where it may come behind those before.
fn name_on<'a>(job: &Job<'_>, came: &Arrivals, line: &'a [u8]) -> Option<&'a [u8]>
    requires tables { All (λ query. IsTcq query.vars query.nodes) job.now.queries.now }
    requires few { length job.now.queries.now ≤ 16 }
    ensures { MatchOption result
        (IsNameLine job.now.ontology.now job.now.queries.now came.now line.entry.now → ⊥) (λ name.
        MayCome job.now.ontology.now job.now.queries.now came.now name.now
        × (line.entry.now ≡ name_line name.now)) }
{
    let Some(name) = rest_of(line, b"name ") else {
        return None;
    };
    if came.may_take(job.ontology, job.queries, name) {
        Some(name)
    } else {
        None
    }
}

/// Reads the name on the line at the place, and gives the place behind it.
fn read_name(job: &Job<'_>, came: &mut Arrivals, place: Place) -> Result<Option<Place>, Memory>
    requires tables { All (λ query. IsTcq query.vars query.nodes) job.now.queries.now }
    requires few { length job.now.queries.now ≤ 16 }
    requires within { place.offset ≤ length job.now.bytes.now }
    ensures { IfOk result (λ r. MatchOption r
        (HasNo (IsNameLine job.now.ontology.now job.now.queries.now came.old)
        (drop place.offset job.now.bytes.now))
        (Comes job.now came.old came.new place)) }
{
    let Some((line, next)) = next_line(job.bytes, place) else {
        return Ok(None);
    };
    let Some(name) = name_on(job, came, line) else {
        return Ok(None);
    };
    came.push(name)?;
    Ok(Some(next))
}

/// Reads the names, whose number comes first, and gives them and the place behind them.
fn read_arrivals(
    job: &Job<'_>,
    accepted: u64,
    start: Place,
) -> Result<(Vec<Name>, Place), CheckFault>
    requires tables { All (λ query. IsTcq query.vars query.nodes) job.now.queries.now }
    requires few { length job.now.queries.now ≤ 16 }
    requires reached { Reached job.now (AtNames (begun (Some []) accepted)) start }
    ensures ok { IfOk result (λ r.
        Reached job.now (AtLists (begun (Some r.0.items) accepted)) r.1) }
    ensures few { IfOk result (λ r. length r.0.items ≤ 4096) }
    ensures fault { IfErr result (IsLineFault job.now) }
{
    let Some((count, behind)) = read_count(job.bytes, start, b"names ") else {
        return Err(start.fault());
    };
    let mut place = behind;
    let mut came = Arrivals::new(job.alloc);
    let mut left = count;
    while left > 0 {
        let Some(next) = read_name(job, &mut came, place)? else {
            return Err(place.fault());
        };
        place = next;
        left -= 1;
    }
    Ok((came.into_names(), place))
}

/// Reads the names that came with the stream, where further ones may come, and gives the place
/// behind them.
pub(crate) fn read_names(
    job: &Job<'_>,
    grows: bool,
    accepted: u64,
    place: Place,
) -> Result<(Option<Vec<Name>>, Place), CheckFault>
    requires tables { All (λ query. IsTcq query.vars query.nodes) job.now.queries.now }
    requires few { length job.now.queries.now ≤ 16 }
    requires reached { Reached job.now (behind_accepted (names_for grows) accepted) place }
    ensures ok { IfOk result (λ r. Reached job.now
        (AtLists (begun (option_map (λ names. names.items) r.0) accepted)) r.1) }
    ensures few { IfOk result (λ r. ForSome r.0 (λ names. length names.items ≤ 4096)) }
    ensures fault { IfErr result (IsLineFault job.now) }
{
    if !grows {
        return Ok((None, place));
    }
    let (names, next) = read_arrivals(job, accepted, place)?;
    Ok((Some(names), next))
}
