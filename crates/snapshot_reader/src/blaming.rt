//! The first name at fault for each cause, and the cause that comes first.

ghost use Rattle.std.specs.Prelude.{◌≡◌, ◌≤◌, ◌∷◌, [], map, OnOk};
ghost use Rattle.std.specs.Option.{option_or};
ghost use Rattle.snapshot_reader.specs.Said.{first_unknown, first_misused, first_undeclared};
ghost use Rattle.snapshot_reader.specs.Said.{first_cause};
ghost use Rattle.snapshot_reader.specs.ModelLines.{first_misplaced};
ghost use Rattle.snapshot_reader.specs.Answers.{TellsCause};
ghost use Rattle.snapshot_reader.specs.Gathering.{AreBlamedInModel};
ghost use Rattle.snapshot_reader.specs.Cursor.{written_seen, name_seen};

use crate::SnapFault;
use crate::facts::Written;
use crate::names::{misplaced, misused, undeclared, unknown};
use dl_syntax::{Name, Ontology};
use std::alloc::Global;

/// The most facts that a line writes, repeats counted.
pub(crate) const FACT_LIMIT: usize = 65_536;

/// The first name at fault for each cause.
#[derive(Clone, Copy, Debug)]
pub(crate) struct Blamed<'a> {
    unknown: Option<&'a [u8]>,
    misused: Option<&'a [u8]>,
    undeclared: Option<&'a [u8]>,
}

impl<'a> Blamed<'a> {
    /// No name is at fault.
    pub(crate) fn nothing() -> Blamed<'a>
        ensures { result ≡ record { unknown = None; misused = None; undeclared = None } }
    {
        Blamed {
            unknown: None,
            misused: None,
            undeclared: None,
        }
    }

    /// The first names at fault with one more fact.
    #[cold]
    pub(crate) fn with(self, ontology: &Ontology, written: &Written<'a>) -> Blamed<'a>
        ensures unknown { name_seen result.unknown ≡ option_or (name_seen self.entry.unknown)
            (first_unknown ontology.now (written_seen written.now ∷ [])) }
        ensures misused { name_seen result.misused ≡ option_or (name_seen self.entry.misused)
            (first_misused ontology.now (written_seen written.now ∷ [])) }
        ensures undeclared { name_seen result.undeclared
            ≡ option_or (name_seen self.entry.undeclared)
            (first_undeclared ontology.now (written_seen written.now ∷ [])) }
    {
        Blamed {
            unknown: self.unknown.or(unknown(ontology, written)),
            misused: self.misused.or(misused(ontology, written)),
            undeclared: self.undeclared.or(undeclared(ontology, written)),
        }
    }

    /// Takes in one more fact of a model.
    fn add_of_model(&mut self, ontology: &Ontology, written: &Written<'a>)
        ensures unknown { name_seen self.new.unknown ≡ option_or (name_seen self.old.unknown)
            (first_unknown ontology.now (written_seen written.now ∷ [])) }
        ensures misused { name_seen self.new.misused ≡ option_or (name_seen self.old.misused)
            (first_misused ontology.now (written_seen written.now ∷ [])) }
        ensures misplaced { name_seen self.new.undeclared
            ≡ option_or (name_seen self.old.undeclared)
            (first_misplaced ontology.now (written_seen written.now ∷ [])) }
    {
        self.unknown = self.unknown.or(unknown(ontology, written));
        self.misused = self.misused.or(misused(ontology, written));
        self.undeclared = self.undeclared.or(misplaced(ontology, written));
    }

    /// The cause that comes first, of a line that writes so many facts.
    pub(crate) fn fault(self, alloc: Global, count: usize) -> Result<(), SnapFault>
        ensures cause { TellsCause result (first_cause (name_seen self.entry.unknown)
            (name_seen self.entry.misused) (name_seen self.entry.undeclared) count) }
        ensures few { OnOk result (count ≤ 65536) }
    {
        if let Some(name) = self.unknown {
            return Err(SnapFault::Unknown(Name::new(alloc, name)?));
        }
        if let Some(name) = self.misused {
            return Err(SnapFault::WrongKind(Name::new(alloc, name)?));
        }
        if let Some(name) = self.undeclared {
            return Err(SnapFault::Undeclared(Name::new(alloc, name)?));
        }
        if count > FACT_LIMIT {
            return Err(SnapFault::TooManyFacts);
        }
        Ok(())
    }
}

/// The first names at fault in the facts of a model.
pub(crate) fn blamed_in_model<'a>(ontology: &Ontology, facts: &[Written<'a>]) -> Blamed<'a>
    ensures { AreBlamedInModel ontology.now (map written_seen facts.now) result }
{
    let mut blamed = Blamed::nothing();
    for written in facts {
        blamed.add_of_model(ontology, written);
    }
    blamed
}
