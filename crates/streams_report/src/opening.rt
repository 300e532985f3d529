//! The monitor that streams are watched by.

ghost use Rattle.std.specs.Prelude.{◌≡◌, IfOk, IfErr, OnOk};
ghost use Rattle.tcq_syntax.specs.Within.{AreWithin};
ghost use Rattle.report_text.specs.Names.{AreSpelled};
ghost use Rattle.monitor_core.specs.Standing.{Stands, no_history, setting_of};
ghost use Rattle.stream_report.specs.Outside.{files_told};
ghost use Rattle.job_sources.specs.Ends.{FilesStay};
ghost use Rattle.job_sources.specs.FileNames.{file_names};
ghost use Rattle.job_sources.specs.Sayings.{setting_in};
ghost use Rattle.job_sources.specs.Sources.{AreTooMany, IsTaken, IsRefused, OpeningFails};
ghost use Rattle.job_sources.specs.Sources.{FilesSay, FilesUnread};
ghost use Rattle.streams_report.specs.Opening.{units_in, refuses_large, OpenedClosed};

use dl_syntax::{Kind, Ontology};
use edge_io::Files;
use job_sources::{Names, REWRITING_LIMIT, Refusal, Sources, read_sources};
use monitor_core::{Monitor, OpenFault, open_closed};
use std::alloc::Global;
use stream_report::Ending;
use tcq_syntax::{Query, sizes};

/// The most units of the queries, so that those of all streams are no more than one may have.
const UNIT_LIMIT: u128 = 1_048_576;

/// The units of the queries over the individuals of the ontology.
fn total_units(ontology: &Ontology, queries: &[Query]) -> u128
    requires { AreWithin ontology.now queries.now }
    ensures { result ≡ units_in (record { ontology = ontology.now; queries = queries.now }) }
{
    let individuals = ontology.count(Kind::Individual);
    let mut total = 0;
    for query in queries {
        total += sizes(query, individuals).units;
    }
    total
}

/// The monitor of what the sources say, before any snapshot, where no name may come, or how the run
/// ends: queries that are too large are refused first.
fn monitor_of(alloc: Global, sources: Sources) -> Result<Monitor, Ending<Refusal>>
    requires { AreWithin sources.ontology sources.queries.items }
    ensures setting { IfOk result (λ monitor. setting_of monitor ≡ setting_in sources) }
    ensures stands { IfOk result (λ monitor. Stands monitor no_history) }
    ensures taken { IfOk result (λ _. IsTaken refuses_large (setting_in sources)) }
    ensures few { IfOk result (λ _. AreTooMany (setting_in sources) → ⊥) }
    ensures refused { IfErr result (IsRefused refuses_large (setting_in sources)) }
{
    let Sources { ontology, queries } = sources;
    let total = total_units(&ontology, &queries);
    if total > UNIT_LIMIT {
        return Err(Ending::Refused(Refusal::TooLarge(total)));
    }
    match open_closed(alloc, ontology, queries, REWRITING_LIMIT) {
        Ok(monitor) => Ok(monitor),
        Err(OpenFault::TooManyRewritings) => Err(Ending::Refused(Refusal::TooManyRewritings)),
        Err(OpenFault::Memory) => Err(Ending::Memory),
    }
}

/// The monitor of the files of these names, before any snapshot, where no name may come, or how the
/// run ends.
pub fn open_streams<F: Files>(
    alloc: Global,
    files: &mut F,
    names: Names<'_>,
) -> Result<Monitor, Ending<Refusal>>
    ensures opens { IfOk result
        (OpenedClosed (FilesSay (F.held files.old) (file_names names.entry))) }
    ensures refuses { IfErr result (OpeningFails refuses_large
        (FilesSay (F.held files.old) (file_names names.entry))
        (FilesUnread (files_told F.Files files.old) (files_told F.Files files.new)
        (file_names names.entry))) }
    ensures held { F.held files.new ≡ F.held files.old }
    ensures stays { OnOk result (files_told F.Files files.new ≡ files_told F.Files files.old) }
    ensures stay { IfErr result (λ ending.
        FilesStay ending (files_told F.Files files.old) (files_told F.Files files.new)) }
{
    let sources = match read_sources(alloc, files, names) {
        Ok(sources) => sources,
        Err(ending) => return Err(ending),
    };
    match monitor_of(alloc, sources) {
        Ok(monitor) => Ok(monitor),
        Err(ending) => Err(ending),
    }
}
