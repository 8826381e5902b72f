//! As what a question counts.

ghost use Rattle.std.specs.Prelude.{◌≡◌, Option};
ghost use Rattle.guard_policy.specs.code.Answers.{unless};
ghost use Rattle.guard_policy.specs.declared.denial.Denial.{Denial as Denied};
ghost use Rattle.survey_audit.specs.Counts.{is_disabled, is_fixed, is_grayed, is_guarded, is_hidden, is_open, kind_standing, standing_of};

use guard_policy::Denial;
use hii_questions::DenialKind;

/// As what a question counts, by whether it may be changed (own rule).
#[derive(Clone, Copy, PartialEq, Eq)]
pub enum Standing {
    /// It may be changed.
    Open,
    /// A GRAY_OUT_IF forbids it.
    Grayed,
    /// A SUPPRESS_IF forbids it.
    Hidden,
    /// A DISABLE_IF forbids it.
    Disabled,
    /// No condition forbids it: it is locked, or read only, or it has no value here.
    Fixed,
}

impl Standing {
    /// That of a question on which the policy decides so.
    pub fn of(verdict: Result<(), Denial>) -> Standing
        ensures { (denied : Option Denied) → verdict ≡ unless denied → result ≡ standing_of denied }
    {
        match verdict {
            Ok(()) => Standing::Open,
            Err(denial) => by_kind(denial.kind),
        }
    }

    /// Whether it may be changed.
    pub fn is_open(self) -> bool
        ensures { result ≡ is_open self }
    {
        matches!(self, Standing::Open)
    }

    /// Whether a GRAY_OUT_IF forbids it.
    pub fn is_grayed(self) -> bool
        ensures { result ≡ is_grayed self }
    {
        matches!(self, Standing::Grayed)
    }

    /// Whether a SUPPRESS_IF forbids it.
    pub fn is_hidden(self) -> bool
        ensures { result ≡ is_hidden self }
    {
        matches!(self, Standing::Hidden)
    }

    /// Whether a DISABLE_IF forbids it.
    pub fn is_disabled(self) -> bool
        ensures { result ≡ is_disabled self }
    {
        matches!(self, Standing::Disabled)
    }

    /// Whether no condition forbids it.
    pub fn is_fixed(self) -> bool
        ensures { result ≡ is_fixed self }
    {
        matches!(self, Standing::Fixed)
    }

    /// Whether a guard forbids it.
    pub fn is_guarded(self) -> bool
        ensures { result ≡ is_guarded self }
    {
        match self {
            Standing::Grayed | Standing::Hidden | Standing::Disabled => true,
            Standing::Open | Standing::Fixed => false,
        }
    }
}

// That of a question whose change a denial of a kind forbids.
fn by_kind(kind: DenialKind) -> Standing
    ensures { result ≡ kind_standing kind }
{
    match kind {
        DenialKind::GrayOutIf => Standing::Grayed,
        DenialKind::SuppressIf => Standing::Hidden,
        DenialKind::DisableIf => Standing::Disabled,
        _ => Standing::Fixed,
    }
}
