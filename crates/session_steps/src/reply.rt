//! How commands and scripts are answered.

use guard_policy::Denial;
use hii_bytes::Cause;

/// How a command was answered.
#[derive(Clone, Copy, Debug, PartialEq, Eq)]
pub enum Reply {
    /// The command was carried out.
    Accepted,
    /// A guard, a flag or a rule of values forbids it. It changed nothing.
    Denied(Denial),
    /// A text in it could not be read. It changed nothing.
    Refused(Cause),
}

/// How a script ended.
#[derive(Clone, Copy, Debug, PartialEq, Eq)]
pub enum End {
    /// All of its lines were run.
    Done,
    /// The script has more bytes than are run.
    TooLong,
}

/// Which side of a run failed.
#[derive(Clone, Copy, Debug, PartialEq, Eq)]
pub enum RunFault {
    /// The reader of the script.
    Read,
    /// The writer of the answers.
    Write,
}
