//! How a command ends.

/// How a command ended, where `Refusal` says why its sources can't be used.
#[derive(Clone, Copy, Debug, PartialEq, Eq)]
pub enum Ending<Refusal> {
    Done,
    /// The words name no command.
    Usage,
    Refused(Refusal),
    ReadFault,
    WriteFault,
    Memory,
    /// The input has more bytes than a stream may have.
    StreamLimit,
}
