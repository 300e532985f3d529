//! A checkpoint, read.

ghost use Rattle.std.specs.Prelude.{◌≡◌, ◌≤◌, length, IfOk, IfErr, OnOk};
ghost use Rattle.std.specs.Prelude.{MatchOption};
ghost use Rattle.std.specs.List.{All};
ghost use Rattle.std.specs.Prelude.{drop};
ghost use Rattle.tcq_syntax.specs.Tcq.{IsTcq};
ghost use Rattle.checkpoint_text.specs.Suspended.{seen_behind, numbers_of};
ghost use Rattle.checkpoint_text.specs.Text.{end_line};
ghost use Rattle.checkpoint_reader.specs.Lines.{HasNo, Takes, names_for};
ghost use Rattle.checkpoint_reader.specs.Rules.{AtAccepted, AtEnd};
ghost use Rattle.checkpoint_reader.specs.Verdict.{IsCheckpoint};
ghost use Rattle.checkpoint_reader.specs.Progress.{IsLineFault, IsRead, IsRefusalOf, Reached};

use crate::draft::Draft;
use crate::fault::CheckFault;
use crate::head::{read_accepted, read_head};
use crate::lists::read_lists;
use crate::names::read_names;
use crate::nodes::read_queries;
use crate::line::next_line;
use crate::place::{Job, Place};
use checkpoint_text::Checkpoint;
use dl_syntax::Ontology;
use std::alloc::Global;
use tcq_syntax::Query;

/// The place behind the last line, which is at this place.
fn read_end(bytes: &[u8], place: Place) -> Option<Place>
    requires { place.offset ≤ length bytes.now }
    ensures { MatchOption result (HasNo (λ line. line ≡ end_line) (drop place.offset bytes.now))
        (Takes bytes.now place end_line) }
{
    let Some((line, next)) = next_line(bytes, place) else {
        return None;
    };
    if line == b"end".as_slice() {
        Some(next)
    } else {
        None
    }
}

/// Reads the last line, where so many lists have occurred, behind which nothing comes.
fn read_last(job: &Job<'_>, draft: &Draft, seen: u64, place: Place) -> Result<(), CheckFault>
    requires seen { seen ≡ seen_behind 0 (numbers_of draft.now.queries) }
    requires reached { Reached job.now (AtEnd draft.now) place }
    ensures ok { OnOk result (IsRead job.now draft.now) }
    ensures fault { IfErr result (IsLineFault job.now) }
{
    let Some(next) = read_end(job.bytes, place) else {
        return Err(place.fault());
    };
    if seen != draft.links().len() as u64 {
        return Err(place.fault());
    }
    if next.offset < job.bytes.len() {
        return Err(next.fault());
    }
    Ok(())
}

/// Reads what comes behind the two first lines.
fn read_rest(job: &Job<'_>, grows: bool, start: Place) -> Result<Checkpoint, CheckFault>
    requires tables { All (λ query. IsTcq query.vars query.nodes) job.now.queries.now }
    requires few { length job.now.queries.now ≤ 16 }
    requires reached { Reached job.now (AtAccepted (names_for grows)) start }
    ensures ok { IfOk result (IsRead job.now) }
    ensures fault { IfErr result (IsLineFault job.now) }
{
    let (accepted, behind) = read_accepted(job, grows, start)?;
    let (names, place) = read_names(job, grows, accepted, behind)?;
    let mut draft = Draft::new(job.alloc, names, accepted);
    let lists_end = read_lists(job, &mut draft, place)?;
    let (seen, last) = read_queries(job, &mut draft, lists_end)?;
    read_last(job, &draft, seen, last)?;
    let checkpoint = draft.into_checkpoint()?;
    Ok(checkpoint)
}

/// Reads the text as the checkpoint for the digest of the sources that say the ontology and the
/// queries. `OtherSources` comes exactly where its two first lines are those of a checkpoint for
/// another digest, and else `BadCheckpoint` with the first line that may not stand behind those
/// before it: where the text ends too early, the one after its last line, and where a line lacks
/// its newline, that line.
pub fn read(
    alloc: Global,
    bytes: &[u8],
    ontology: &Ontology,
    queries: &[Query],
    digest: &[u8; 32],
) -> Result<Checkpoint, CheckFault>
    requires tables { All (λ query. IsTcq query.vars query.nodes) queries.now }
    requires few { length queries.now ≤ 16 }
    ensures ok { IfOk result (λ c.
        IsCheckpoint (record { ontology = ontology.now; queries = queries.now }) digest.now bytes.now
        c) }
    ensures fault { IfErr result
        (IsRefusalOf (record { ontology = ontology.now; queries = queries.now }) digest.now
        bytes.now) }
{
    let job = Job {
        alloc,
        bytes,
        ontology,
        queries,
        digest,
    };
    let (grows, place) = read_head(&job)?;
    read_rest(&job, grows, place)
}
