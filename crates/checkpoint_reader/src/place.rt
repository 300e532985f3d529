//! What is read, and places in it.

ghost use Rattle.std.specs.Prelude.{◌≡◌, ◌+◌, ◌<◌, ◌≤◌, ◌^◌};
ghost use Rattle.checkpoint_reader.specs.declared.fault.CheckFault.{CheckFault};

use crate::fault::CheckFault;
use dl_syntax::Ontology;
use std::alloc::Global;
use tcq_syntax::Query;

/// What is read, and for which sources.
#[derive(Clone, Copy)]
pub(crate) struct Job<'a> {
    pub alloc: Global,
    pub bytes: &'a [u8],
    pub ontology: &'a Ontology,
    pub queries: &'a [Query],
    pub digest: &'a [u8; 32],
}

/// A place behind some lines of a text: how many bytes these have, and how many lines they are.
#[derive(Clone, Copy)]
pub(crate) struct Place {
    pub offset: usize,
    pub lines: u64,
    ghost few: { lines ≤ offset },
    ghost small: { offset < 2 ^ 63 },
}

impl Place {
    /// The begin of the text.
    pub(crate) fn start() -> Place
        ensures { (result.offset ≡ 0) × (result.lines ≡ 0) }
    {
        Place {
            offset: 0,
            lines: 0,
        }
    }

    /// The line at the place is at fault.
    pub(crate) fn fault(self) -> CheckFault
        ensures { result ≡ CheckFault.BadCheckpoint (self.lines + 1) }
    {
        CheckFault::BadCheckpoint {
            line: self.lines + 1,
        }
    }
}
