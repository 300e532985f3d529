//! Why a text isn't the checkpoint that is wanted.

ghost use Rattle.std.specs.Prelude.{◌≡◌};

use std::alloc::AllocError;

/// Why a text isn't the checkpoint that is wanted.
#[derive(Clone, Copy, PartialEq, Eq, Debug)]
pub enum CheckFault {
    /// The two first lines are those of a checkpoint for other sources.
    OtherSources { found: [u8; 32], wanted: [u8; 32] },
    /// The line with this number, counted from 1, is the first that may not stand behind those
    /// before it.
    BadCheckpoint { line: u64 },
    Memory,
}

impl From<AllocError> for CheckFault {
    ghost use Rattle.checkpoint_reader.specs.declared.fault.CheckFault.{CheckFault};

    ghost from_gives = { λ _ fault. fault ≡ CheckFault.Memory };

    fn from(_: AllocError) -> CheckFault {
        CheckFault::Memory
    }
}
