//! The audit of a finite model, with what queries answer in it.
ghost use Rattle.std.specs.Prelude.{◌≡◌, ◌<◌, ◌^◌, ◌↔◌, length, IfOk};
ghost use Rattle.dl_syntax.specs.Chase.{IsConsistent};
ghost use Rattle.model_audit.specs.declared.examining.Finding.{Finding as FindingValue};
ghost use Rattle.model_audit.specs.FiniteModels.{IsFiniteModel};
ghost use Rattle.model_audit.specs.Examining.{IsFound};
ghost use Rattle.model_audit.specs.Auditing.{finding_of, HasRows, HasCertain};

use crate::examining::{Finding, examine};
use crate::outcome::Audit;
use crate::rows::rows_of_queries;
use dl_syntax::{Kind, Memory, Ontology, Snapshot};
use fact_index::build::index;
use std::alloc::Global;
use tcq_syntax::Query;

/// The first fact of the snapshot that the model lacks, the first inclusion and fact whose right
/// side is missing, the first clash that the model meets, or, where it is a finite model of the
/// snapshot, for each query and leaf the rows of declared individuals with a match in it. Then the
/// snapshot is consistent, and each certain answer is among the rows.
pub fn audit(
    alloc: Global,
    ontology: &Ontology,
    queries: &[Query],
    snapshot: &Snapshot,
    model: &Snapshot,
) -> Result<Audit, Memory>
    requires few { length snapshot.now < 2 ^ 32 }
    requires small { length model.now < 2 ^ 32 }
    ensures found { IfOk result (λ a. IsFound ontology.now snapshot.now model.now (finding_of a)) }
    ensures rows { IfOk result (HasRows model.now (length ontology.now.individuals) queries.now) }
    ensures model { IfOk result
        (λ a. (finding_of a ≡ FindingValue.Model)
        ↔ IsFiniteModel ontology.now.inclusions ontology.now.clashes snapshot.now model.now) }
    ensures consistent { IfOk result
        (λ a. finding_of a ≡ FindingValue.Model
        → IsConsistent ontology.now.inclusions ontology.now.clashes snapshot.now) }
    ensures certain { IfOk result
        (HasCertain ontology.now.inclusions snapshot.now (length ontology.now.individuals)
        queries.now) }
{
    let finding = examine(alloc, ontology, snapshot, model)?;
    match finding {
        Finding::Missing(place) => Ok(Audit::Missing(place)),
        Finding::Broken { inclusion, fact } => Ok(Audit::Broken { inclusion, fact }),
        Finding::Clash(number) => Ok(Audit::Clash(number)),
        Finding::Model => {
            let index = index(alloc, model)?;
            let count = ontology.count(Kind::Individual);
            let rows = rows_of_queries(alloc, &index, count, queries)?;
            Ok(Audit::Model(rows))
        }
    }
}
