//! Why a stream is not entered.

ghost use Rattle.std.specs.Prelude.{◌≡◌};

use dl_syntax::Memory;

/// Why a stream is not entered.
#[derive(Clone, Copy, PartialEq, Eq, Debug)]
pub enum EnterFault {
    /// Its name is new, and there are as many streams as may be.
    TooManyStreams,
    Memory,
}

impl From<Memory> for EnterFault {
    ghost use Rattle.many_streams.specs.declared.enter_fault.EnterFault.{EnterFault};

    ghost from_gives = { λ _ fault. fault ≡ EnterFault.Memory };

    fn from(_: Memory) -> EnterFault {
        EnterFault::Memory
    }
}
