//! The command `contain`.

ghost use Rattle.std.specs.Prelude.{◌≡◌, None, IfOk, IfErr};
ghost use Rattle.tcq_syntax.specs.Within.{AreWithin};
ghost use Rattle.report_text.specs.Names.{AreSpelled};
ghost use Rattle.stream_report.specs.Outside.{SourceTold, files_told, sink_told};
ghost use Rattle.containment_text.specs.Containments.{IsContainment, refuses_no_leaf};
ghost use Rattle.containment_text.specs.Containments.{first_no_leaf as first_in};
ghost use Rattle.job_sources.specs.FileNames.{file_names};
ghost use Rattle.job_sources.specs.Sources.{AreTooMany};
ghost use Rattle.containment_text.specs.Ends.{ContainEnds};
ghost use Rattle.job_sources.specs.Sources.{IsRefused, IsTaken};

use crate::containing::containment_text;
use crate::leaf_queries::first_no_leaf;
use crate::unions::rewrite_all;
use dl_syntax::Ontology;
use edge_io::{Files, Sink};
use job_sources::{Names, Refusal, read_sources};
use perfect_ref::RewriteFault;
use std::alloc::Global;
use stream_report::{Ending, write_text};
use tcq_syntax::Query;

/// The text of the containments of queries that are leaves, or how the run ends.
fn text_of_leaves(
    alloc: Global,
    ontology: &Ontology,
    queries: &[Query],
) -> Result<Vec<u8>, Ending<Refusal>>
    requires within { AreWithin ontology.now queries.now }
    requires leaves { first_in queries.now ≡ None }
    ensures text { IfOk result (λ text.
        IsContainment (record { ontology = ontology.now; queries = queries.now }) text.items) }
    ensures few { IfOk result (λ _.
        AreTooMany (record { ontology = ontology.now; queries = queries.now }) → ⊥) }
    ensures refused { IfErr result (IsRefused refuses_no_leaf
        (record { ontology = ontology.now; queries = queries.now })) }
{
    let unions = match rewrite_all(alloc, ontology, queries) {
        Ok(unions) => unions,
        Err(RewriteFault::TooManyRewritings) => {
            return Err(Ending::Refused(Refusal::TooManyRewritings));
        }
        Err(RewriteFault::Memory) => return Err(Ending::Memory),
    };
    match containment_text(alloc, ontology, queries, &unions) {
        Ok(text) => Ok(text),
        Err(_) => Err(Ending::Memory),
    }
}

/// The text of the containments, or how the run ends: a query that is no leaf is refused first.
fn containments(
    alloc: Global,
    ontology: &Ontology,
    queries: &[Query],
) -> Result<Vec<u8>, Ending<Refusal>>
    requires within { AreWithin ontology.now queries.now }
    requires spelled { AreSpelled queries.now }
    ensures text { IfOk result (λ text.
        IsContainment (record { ontology = ontology.now; queries = queries.now }) text.items) }
    ensures taken { IfOk result (λ _. IsTaken refuses_no_leaf
        (record { ontology = ontology.now; queries = queries.now })) }
    ensures few { IfOk result (λ _.
        AreTooMany (record { ontology = ontology.now; queries = queries.now }) → ⊥) }
    ensures refused { IfErr result (IsRefused refuses_no_leaf
        (record { ontology = ontology.now; queries = queries.now })) }
{
    match first_no_leaf(queries) {
        Some(name) => Err(Ending::Refused(Refusal::NotALeaf(name))),
        None => match text_of_leaves(alloc, ontology, queries) {
            Ok(text) => Ok(text),
            Err(ending) => Err(ending),
        },
    }
}

/// Writes which queries are contained in which others, by the files of these names, whatever the
/// input is.
pub fn contain_files<F: Files, K: Sink>(
    alloc: Global,
    names: Names<'_>,
    files: &mut F,
    out: &mut K,
) -> Ending<Refusal>
    ensures ends { (input : SourceTold) → ContainEnds (file_names names.entry) result
        (record {
          files = files_told F.Files files.old;
          ports = record { input = input; out = sink_told K.Sink out.old };
        })
        (record {
          files = files_told F.Files files.new;
          ports = record { input = input; out = sink_told K.Sink out.new };
        }) }
{
    match read_sources(alloc, files, names) {
        Ok(sources) => match containments(alloc, &sources.ontology, &sources.queries) {
            Ok(text) => write_text(out, &text),
            Err(ending) => ending,
        },
        Err(ending) => ending,
    }
}
