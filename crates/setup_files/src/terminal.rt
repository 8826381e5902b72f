//! What a person at a terminal is told.

use std::io;
use std::io::IsTerminal;

/// What standard input is called at a terminal.
pub const STANDARD_INPUT: &str = "standard input";

/// What standard output is called there.
pub const STANDARD_OUTPUT: &str = "standard output";

/// Which of the standard streams are terminals.
#[derive(Clone, Copy)]
pub struct Terminals {
    /// Whether standard input is one.
    pub input: bool,
    /// Whether standard error is one.
    pub errors: bool,
}

impl Terminals {
    /// The terminals of a program that runs.
    pub fn of(rt: &HostRuntime) -> Terminals {
        Terminals {
            input: rt.stdin().is_terminal(),
            errors: rt.stderr().is_terminal(),
        }
    }

    /// Tells a line on standard error, where standard input is a terminal.
    pub fn greet(self, rt: &impl Eprint, line: &str) {
        if self.input {
            let _ = eprintln!(rt; "{line}");
        }
    }

    /// Tells behind a fault which file it was of, and the system's reason, where standard error is a terminal.
    pub fn explain(self, rt: &impl Eprint, file: &str, reason: Option<io::Error>) {
        if self.errors {
            let _ = match reason {
                Some(reason) => eprintln!(rt; "{file}: {reason}"),
                None => eprintln!(rt; "{file}"),
            };
        }
    }
}
