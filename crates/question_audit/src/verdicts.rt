//! Verdicts on questions.

ghost use Rattle.std.specs.Prelude.{◌≡◌, Option};
ghost use Rattle.hii_bytes.specs.Watching.{Puts};
ghost use Rattle.guard_policy.specs.code.Answers.{unless};
ghost use Rattle.guard_policy.specs.declared.denial.Denial.{Denial as Denied};
ghost use Rattle.question_audit.specs.QuestionLines.{verdict_columns};

use audit_text::put_left;
use guard_policy::Denial;
use hii_bytes::Watched;
use std::io::Write;

/// Writes a verdict and its place in columns: `open` has no place.
pub(crate) fn put_verdict<W: Write>(verdict: Result<(), Denial>, out: &mut Watched<W>)
    ensures { (denied : Option Denied) → verdict ≡ unless denied
        → Puts W.contents out.old out.new (verdict_columns denied) }
{
    match verdict {
        Ok(()) => {
            put_left(out, 10, b"open");
            out.put_spaces(9);
        }
        Err(denial) => {
            put_left(out, 10, denial.kind.name().as_bytes());
            out.put(b" ");
            out.put_place(u64::from(denial.place));
        }
    }
}
