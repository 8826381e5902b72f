//! How a run ends, and how that is told.

ghost use Rattle.std.specs.Prelude.{◌≡◌, option_map};
ghost use Rattle.audit_answers.specs.Endings.{fault_of, status_of};

use setup_files::Status;

/// How a run ended.
#[derive(Clone, Copy, PartialEq, Eq)]
pub enum Ended {
    /// The answers are passed on, and the file of `--out` is written, where there is one.
    Done,
    /// What was given is refused, and the answers say why.
    Refused,
    /// The answers could not be written.
    WriteAnswers,
    /// The file of `--out` could not be written.
    WriteOut,
    /// An allocation failed, and the answers say so.
    NoMemory,
}

impl Ended {
    /// The status with which the program ends.
    pub fn status(self) -> Status
        ensures { result ≡ status_of self }
    {
        match self {
            Ended::Done => Status::Done,
            Ended::Refused => Status::Refused,
            Ended::WriteAnswers | Ended::WriteOut => Status::Fault,
            Ended::NoMemory => Status::NoMemory,
        }
    }

    /// Which write failed, if one did.
    pub fn fault(self) -> Option<&'static str>
        ensures { option_map (λ text. text.now) result ≡ fault_of self }
    {
        match self {
            Ended::WriteAnswers => Some("write answers"),
            Ended::WriteOut => Some("write out"),
            Ended::Done | Ended::Refused | Ended::NoMemory => None,
        }
    }
}
