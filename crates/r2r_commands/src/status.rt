//! The statuses that the program ends with.

ghost use Rattle.std.specs.Prelude.{◌≡◌};
ghost use Rattle.std.specs.Process.{exit_status};
ghost use Rattle.r2r_commands.specs.Status.{code_of};

use std::process::ExitCode;

/// The status that the program ends with.
#[derive(Clone, Copy, Debug, PartialEq, Eq)]
pub(crate) enum Status {
    /// All was written.
    Done = 0,
    /// The words are no command.
    Usage = 1,
    /// A file could not be read.
    ReadFailed = 2,
    /// A file is malformed.
    Malformed = 3,
    /// A named condition refuses.
    Refused = 4,
    /// The output failed.
    WriteFault = 5,
    /// All was written, and a worker of a run did not return.
    NotReturned = 6,
    /// Memory was refused, and nothing was written.
    NoMemory = 7,
}

impl From<Status> for u8 {
    ghost from_gives = { λ status code. code ≡ code_of status };

    fn from(status: Status) -> u8 {
        status as u8
    }
}

impl From<Status> for ExitCode {
    ghost from_gives = { λ status code. exit_status code ≡ code_of status };

    fn from(status: Status) -> ExitCode {
        ExitCode::from(u8::from(status))
    }
}
