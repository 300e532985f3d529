//! The command `explain`.

ghost use Rattle.std.specs.Prelude.{◌≡◌, IfOk, IfErr, OnOk};
ghost use Rattle.tcq_syntax.specs.Within.{AreWithin};
ghost use Rattle.stream_report.specs.Ends.{StreamEnds};
ghost use Rattle.stream_report.specs.Outside.{files_told, ports_of, outside_of};
ghost use Rattle.job_sources.specs.Ends.{FilesStay};
ghost use Rattle.job_sources.specs.FileNames.{file_names};
ghost use Rattle.job_sources.specs.Sayings.{setting_in};
ghost use Rattle.job_sources.specs.Sources.{AreTooMany, IsRefused, nothing_more, Opens};
ghost use Rattle.job_sources.specs.Sources.{FilesSay, FilesUnread, OpeningFails};
ghost use Rattle.explain_report.specs.Ends.{ExplainEnds, setting_of};
ghost use Rattle.explain_report.specs.Report.{start, explaining};

use crate::reporter::explain_stream;
use edge_io::{Files, Sink, Source};
use job_sources::{Names, REWRITING_LIMIT, Refusal, Sources, read_sources};
use monitor_core::{OpenFault, check_reach};
use proof_search::{Explainer, ProofFault};
use std::alloc::Global;
use stream_report::Ending;

/// Whether what the sources say reaches too many queries.
fn check_sources(alloc: Global, sources: &Sources) -> Result<(), Ending<Refusal>>
    requires { AreWithin sources.now.ontology sources.now.queries.items }
    ensures few { OnOk result (AreTooMany (setting_in sources.now) → ⊥) }
    ensures refused { IfErr result (IsRefused nothing_more (setting_in sources.now)) }
{
    match check_reach(alloc, &sources.ontology, &sources.queries, REWRITING_LIMIT) {
        Ok(()) => Ok(()),
        Err(OpenFault::TooManyRewritings) => Err(Ending::Refused(Refusal::TooManyRewritings)),
        Err(OpenFault::Memory) => Err(Ending::Memory),
    }
}

/// The explainer of what the sources say, or how the run ends.
fn explainer_of(alloc: Global, sources: Sources) -> Result<Explainer, Ending<Refusal>>
    requires { AreWithin sources.ontology sources.queries.items }
    ensures setting { IfOk result (λ explainer. setting_of explainer ≡ setting_in sources) }
    ensures room { IfOk result (λ explainer. explainer.room ≡ 1048576) }
    ensures few { IfOk result (λ _. AreTooMany (setting_in sources) → ⊥) }
    ensures refused { IfErr result (IsRefused nothing_more (setting_in sources)) }
{
    match check_sources(alloc, &sources) {
        Ok(()) => {}
        Err(ending) => return Err(ending),
    }
    let Sources { ontology, queries } = sources;
    match Explainer::new(alloc, ontology, queries, REWRITING_LIMIT) {
        Ok(explainer) => Ok(explainer),
        Err(ProofFault::TooManyRewritings) => Err(Ending::Refused(Refusal::TooManyRewritings)),
        Err(ProofFault::Memory) => Err(Ending::Memory),
    }
}

/// The explainer of what the files of these names say, or how the run ends.
fn open_files<F: Files>(
    alloc: Global,
    files: &mut F,
    names: Names<'_>,
) -> Result<Explainer, Ending<Refusal>>
    ensures opens { IfOk result (λ explainer. Opens nothing_more
        (FilesSay (F.held files.old) (file_names names.entry)) (setting_of explainer)) }
    ensures room { IfOk result (λ explainer. explainer.room ≡ 1048576) }
    ensures refuses { IfErr result (OpeningFails nothing_more
        (FilesSay (F.held files.old) (file_names names.entry))
        (FilesUnread (files_told F.Files files.old) (files_told F.Files files.new)
        (file_names names.entry))) }
    ensures held { F.held files.new ≡ F.held files.old }
    ensures stays { OnOk result (files_told F.Files files.new ≡ files_told F.Files files.old) }
    ensures stay { IfErr result (λ ending.
        FilesStay ending (files_told F.Files files.old) (files_told F.Files files.new)) }
{
    let sources = match read_sources(alloc, files, names) {
        Ok(sources) => sources,
        Err(ending) => return Err(ending),
    };
    match explainer_of(alloc, sources) {
        Ok(explainer) => Ok(explainer),
        Err(ending) => Err(ending),
    }
}

/// Explains the snapshots of the input by the explainer.
fn explain_by<S: Source, K: Sink>(
    alloc: Global,
    explainer: &Explainer,
    input: &mut S,
    out: &mut K,
) -> Ending<Refusal>
    requires { explainer.now.room ≡ 1048576 }
    ensures ends { StreamEnds (explaining (record {
      ontology = (setting_of explainer.now).ontology;
      queries = (setting_of explainer.now).queries;
      room = 1048576;
    })) start result
        (ports_of S.Source K.Sink input.old out.old)
        (ports_of S.Source K.Sink input.new out.new) }
{
    explain_stream(alloc, explainer, input, out)
}

/// Explains the snapshots of the input by the files of these names.
pub fn explain_files<F: Files, S: Source, K: Sink>(
    alloc: Global,
    names: Names<'_>,
    files: &mut F,
    input: &mut S,
    out: &mut K,
) -> Ending<Refusal>
    ensures ends { ExplainEnds (file_names names.entry) result
        (outside_of F.Files S.Source K.Sink files.old input.old out.old)
        (outside_of F.Files S.Source K.Sink files.new input.new out.new) }
{
    match open_files(alloc, files, names) {
        Ok(explainer) => explain_by(alloc, &explainer, input, out),
        Err(ending) => ending,
    }
}
