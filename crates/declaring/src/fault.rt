//! Why names are not declared.

ghost use Rattle.std.specs.Prelude.{◌≡◌};

use dl_syntax::Memory;

/// Why a list of names is not declared. A place is that of the first name at fault, counted from 0.
#[derive(Clone, Copy, PartialEq, Eq, Debug)]
pub enum DeclareFault {
    /// No further name may come.
    Closed,
    /// The name is declared already, as any kind, or stands earlier in the list.
    NameTwice(u32),
    /// There are as many individuals as there may be.
    TooMany(u32),
    /// The units of the queries, so many with the name, are too many.
    TooLarge { place: u32, total: u128 },
    Memory,
}

impl From<Memory> for DeclareFault {
    ghost use Rattle.declaring.specs.declared.fault.DeclareFault.{DeclareFault};

    ghost from_gives = { λ _ fault. fault ≡ DeclareFault.Memory };

    fn from(_: Memory) -> DeclareFault {
        DeclareFault::Memory
    }
}
