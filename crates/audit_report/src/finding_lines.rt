//! The lines of what is found of a model.

ghost use Rattle.std.specs.Prelude.{◌≡◌, ◌++◌, List, OnOk, length};
ghost use Rattle.dl_syntax.specs.declared.facts.Fact.{Fact as FactValue};
ghost use Rattle.model_audit.specs.declared.examining.Finding.TheVariants as finding;
ghost use Rattle.model_audit.specs.Examining.{IsFound};
ghost use Rattle.model_audit.specs.Auditing.{finding_of, HasRows};
ghost use Rattle.audit_report.specs.Lines.{finding_text};
ghost use Rattle.audit_report.specs.Auditing.{HasNamedRows, TellsMoreAudit};

use crate::row_lines::append_queries;
use crate::texts::{append_number, append_two};
use dl_syntax::{Memory, Ontology};
use model_audit::Audit;
use tcq_syntax::Query;

/// Appends the line of a right side that is missing.
fn append_broken(out: &mut Vec<u8>, line: u64, inclusion: u32, fact: u32) -> Result<(), Memory>
    ensures { OnOk result (out.new.items ≡ out.old.items
        ++ finding_text line (finding.Broken inclusion fact)) }
{
    out.extend_from_slice(b"line ")?;
    append_number(out, line)?;
    append_two(out, b" broken ", inclusion as u64, b" ", fact as u64)
}

/// Appends the line of a model.
fn append_model(out: &mut Vec<u8>, line: u64) -> Result<(), Memory>
    ensures { OnOk result (out.new.items ≡ out.old.items ++ finding_text line finding.Model) }
{
    out.extend_from_slice(b"line ")?;
    append_number(out, line)?;
    out.extend_from_slice(b" model\n")
}

/// Appends what an audit says of the facts of the model line with this number.
pub fn append_audit(
    out: &mut Vec<u8>,
    ontology: &Ontology,
    queries: &[Query],
    line: u64,
    audit: &Audit,
) -> Result<(), Memory>
    requires { HasNamedRows ontology.now audit.now }
    ensures { OnOk result ((snapshot model : List FactValue) →
        IsFound ontology.now snapshot model (finding_of audit.now) →
        HasRows model (length ontology.now.individuals) queries.now audit.now →
        TellsMoreAudit (record { ontology = ontology.now; queries = queries.now }) snapshot model
        line out.old.items out.new.items) }
{
    match audit {
        Audit::Missing(place) => append_two(out, b"line ", line, b" missing ", *place as u64),
        Audit::Broken { inclusion, fact } => append_broken(out, line, *inclusion, *fact),
        Audit::Clash(number) => append_two(out, b"line ", line, b" clash ", *number as u64),
        Audit::Model(rows) => {
            append_model(out, line)?;
            append_queries(out, ontology, queries, rows.as_slice())
        }
    }
}
