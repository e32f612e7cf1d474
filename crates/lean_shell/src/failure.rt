// How a command ends, and the last line that it prints.
ghost use Rattle.std.specs.Prelude.{◌≡◌};
ghost use Rattle.buffered_engine.specs.lean_edge.Outside.{IsWholeLine};
ghost use Rattle.lean_shell.specs.Endings.{last_line, number_of};

use script_lang::{
    ALREADY_FORMATTED, DISK_FAULT, NO_MEMORY, USAGE, fixed_lines, notices_are_no_replies,
};

/// How a command ended, other than well.
#[derive(Clone, Copy, Debug, PartialEq, Eq)]
pub enum Failure {
    /// The words were no command.
    Usage,
    /// The disk failed.
    DiskFault,
    /// Memory was refused.
    Memory,
    /// The disk has a valid master.
    AlreadyFormatted,
}

impl Failure {
    /// The status that the program ends with.
    pub fn status(self) -> u8
        ensures { result ≡ number_of self }
    {
        match self {
            Failure::Usage => 2,
            Failure::DiskFault => 6,
            Failure::Memory => 8,
            Failure::AlreadyFormatted => 9,
        }
    }

    /// The last line.
    pub fn line(self) -> &'static [u8]
        ensures text { result.now ≡ last_line self }
        ensures line { IsWholeLine result.now }
    {
        fixed_lines();
        notices_are_no_replies();
        match self {
            Failure::Usage => USAGE,
            Failure::DiskFault => DISK_FAULT,
            Failure::Memory => NO_MEMORY,
            Failure::AlreadyFormatted => ALREADY_FORMATTED,
        }
    }
}
