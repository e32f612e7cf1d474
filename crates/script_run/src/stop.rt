// Why a script is not executed on.

/// Why a script is not executed on.
#[derive(Clone, Copy, Debug, PartialEq, Eq)]
pub enum Stop {
    /// No line is left.
    End,
    /// The line of this number is none of the grammar, is too long, or is one too many.
    Refused { line: u64 },
    /// The source failed.
    ReadFault,
    /// The sink failed.
    WriteFault,
    /// The disk failed. The engine is not to be used again.
    DiskFault,
    /// The page at this place of the pages' area was damaged. The engine is not to be used again.
    Damaged { place: u64 },
}
