//! The version of the programs.

/// The version of both programs, as the file VERSION at the top of the repository has it.
pub const VERSION: &str = "0.3.0";
