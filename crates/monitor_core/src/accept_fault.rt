//! Why a snapshot is not accepted.

ghost use Rattle.std.specs.Prelude.{◌≡◌};

use dl_syntax::Memory;

/// Why a snapshot is not accepted.
#[derive(Clone, Copy, PartialEq, Eq, Debug)]
pub enum AcceptFault {
    /// The least clash that the snapshot meets, counted from 1.
    Contradiction(u32),
    Memory,
}

impl From<Memory> for AcceptFault {
    ghost use Rattle.monitor_core.specs.declared.accept_fault.AcceptFault.{AcceptFault};

    ghost from_gives = { λ _ fault. fault ≡ AcceptFault.Memory };

    fn from(_: Memory) -> AcceptFault {
        AcceptFault::Memory
    }
}
