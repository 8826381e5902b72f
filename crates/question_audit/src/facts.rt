//! Lines of facts.

ghost use Rattle.std.specs.Prelude.{◌≡◌, Option};
ghost use Rattle.hii_bytes.specs.Watching.{Puts};
ghost use Rattle.guard_policy.specs.code.Answers.{unless};
ghost use Rattle.guard_policy.specs.declared.denial.Denial.{Denial as Denied};
ghost use Rattle.question_audit.specs.ConditionFacts.{column, id_text, verdict_text};

use crate::questions::put_denial;
use audit_text::{put_hexadecimal, put_left};
use guard_policy::Denial;
use hii_bytes::Watched;
use std::io::Write;

// How wide the column of words is.
const COLUMN: usize = 8;

/// Writes a word in its column, and a space.
pub(crate) fn put_column<W: Write>(word: &[u8], out: &mut Watched<W>)
    ensures { Puts W.contents out.old out.new (column word.now) }
{
    put_left(out, COLUMN, word);
    out.put(b" ");
}

/// Writes a verdict: `open`, or the kind of the denial and the place that decides.
pub fn put_verdict_text<W: Write>(verdict: Result<(), Denial>, out: &mut Watched<W>)
    ensures { (denied : Option Denied) → verdict ≡ unless denied
        → Puts W.contents out.old out.new (verdict_text denied) }
{
    match verdict {
        Ok(()) => out.put(b"open"),
        Err(denial) => put_denial(denial, out),
    }
}

/// Writes an id in decimal and in hex digits.
pub fn put_id<W: Write>(id: u16, out: &mut Watched<W>)
    ensures { Puts W.contents out.old out.new (id_text id) }
{
    out.put_decimal(u64::from(id));
    out.put(b" (0x");
    put_hexadecimal(out, u64::from(id));
    out.put(b")");
}
