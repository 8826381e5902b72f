//! The line at which the run of a script ends.

ghost use Rattle.std.specs.Prelude.{◌≡◌, ℕ, IfErr, OnErr, OnOk, Some, option_map};
ghost use Rattle.hii_bytes.specs.Faults.{out_of_memory};
ghost use Rattle.hii_bytes.specs.Watching.{Puts};
ghost use Rattle.hii_bytes.specs.code.NumberSets.{has_number};
ghost use Rattle.ifr_nodes.specs.Nodes.{nodes_of};
ghost use Rattle.ifr_scopes.specs.code.AnyConditions.{any_condition_node};
ghost use Rattle.guard_policy.specs.code.Views.{bytes_of};
ghost use Rattle.condition_text.specs.code.Conditions.{words_of};
ghost use Rattle.question_audit.specs.ConditionFacts.{condition_words};
ghost use Rattle.script_audit.specs.Because as spec;
ghost use Rattle.script_audit.specs.code.Forbiddings.{forbidding_meant};
ghost use Rattle.script_audit.specs.code.Pages.{seen_in};
ghost use Rattle.script_audit.specs.code.Stops.{line_meant};

use crate::because::{Forbidding, put_forbidding, what_forbids};
use crate::depends::{ids_of, put_depends};
use crate::reasons::put_reason;
use crate::spelling::{put_back, put_first, put_front, put_numbered_front, put_spelled};
use audit_json::Telling;
use condition_text::ConditionText;
use form_page::Page;
use guard_policy::{Conditions, Denial};
use hii_bytes::{Fault, Watched};
use question_audit::StoreNames;
use session_steps::Reply;
use std::alloc::Global;
use std::io::Write;

// How many characters of a line are told.
const SHOWN: usize = 200;

/// A line of a script that is not answered with OK, its number, and how it is answered.
#[derive(Clone, Copy)]
pub(crate) struct Stop<'t> {
    pub(crate) number: u64,
    pub(crate) line: &'t [u8],
    pub(crate) reply: Reply,
}

// Writes the line.
fn put_line<W: Write>(telling: Telling, stop: Stop<'_>, out: &mut Watched<W>)
    ensures { Puts W.contents out.old out.new (spec.line_told telling (line_meant stop.entry)) }
{
    put_numbered_front(telling, stop.number, b"line", b"command", out);
    put_first(telling, SHOWN, stop.line, out);
    put_back(telling, out);
}

// Writes the text of a denial behind a space, where it has one.
fn put_message<'a, C: Conditions, W: Write>(
    telling: Telling,
    page: Page<'a, '_, C>,
    denial: Denial,
    out: &mut Watched<W>,
)
    ensures { Puts W.contents out.old out.new (spec.message_told telling (seen_in page.entry) denial) }
{
    if denial.kind.has_text() {
        out.put(b" ");
        put_spelled(telling, page.text(denial.message).chars(), out);
    }
}

// Writes the text of an answer.
fn put_answer_text<'a, C: Conditions, W: Write>(
    telling: Telling,
    page: Page<'a, '_, C>,
    reply: Reply,
    out: &mut Watched<W>,
)
    ensures { Puts W.contents out.old out.new (spec.answer_text telling (seen_in page.entry) reply) }
{
    match reply {
        Reply::Accepted => {}
        Reply::Denied(denial) => {
            out.put(b"DENIED ");
            out.put(denial.kind.name().as_bytes());
            out.put(b" at ");
            out.put_place(u64::from(denial.place));
            put_message(telling, page, denial, out);
        }
        Reply::Refused(cause) => out.put_cause(cause),
    }
}

// Writes an answer.
fn put_answer<'a, C: Conditions, W: Write>(
    telling: Telling,
    page: Page<'a, '_, C>,
    reply: Reply,
    out: &mut Watched<W>,
)
    ensures { Puts W.contents out.old out.new (spec.answer_told telling (seen_in page.entry) reply) }
{
    put_front(telling, b"", b"answer", b"answer", out);
    put_answer_text(telling, page, reply, out);
    put_back(telling, out);
}

// Writes why a line is not answered with OK that no condition forbids.
fn put_because<'a, C: Conditions, W: Write>(
    telling: Telling,
    page: Page<'a, '_, C>,
    stop: Stop<'_>,
    out: &mut Watched<W>,
)
    ensures { Puts W.contents out.old out.new
        (spec.because_told telling (spec.reason_words telling (nodes_of (bytes_of page.entry.policy))
        stop.entry.line.now stop.entry.reply)) }
{
    put_front(telling, b"because  ", b"because", b"text", out);
    put_reason(telling, page, stop.line, stop.reply, out);
    put_back(telling, out);
}

// Writes the condition that forbids it.
fn put_condition<W: Write>(
    telling: Telling,
    package_place: u64,
    forbidding: Forbidding<'_>,
    text: &ConditionText<'_>,
    out: &mut Watched<W>,
)
    requires { words_of text.now
        ≡ condition_words (any_condition_node forbidding.condition) }
    ensures { Puts W.contents out.old out.new
        (spec.because_told telling (spec.condition_text package_place forbidding.entry.state.now
        (any_condition_node forbidding.entry.condition))) }
{
    put_front(telling, b"because  ", b"because", b"text", out);
    put_forbidding(package_place, forbidding, text, out);
    put_back(telling, out);
}

// Writes the line, its answer, the condition that forbids it and the questions that this asks. Where an allocation fails nothing is
// written.
fn put_forbidden<'a, C: Conditions, W: Write>(
    alloc: Global,
    telling: Telling,
    page: Page<'a, '_, C>,
    package_place: u64,
    stop: Stop<'_>,
    forbidding: Forbidding<'a>,
    out: &mut Watched<W>,
) -> Result<(), Fault>
    ensures told { OnOk result (Puts W.contents out.old out.new
        (spec.forbidden_told telling package_place (seen_in page.entry) (line_meant stop.entry) stop.entry.reply
        (forbidding_meant forbidding.entry))) }
    ensures nothing { IfErr result (λ fault. (fault ≡ out_of_memory) × (out.new ≡ out.old)) }
{
    let names = StoreNames::read(alloc, page.policy().forms())?;
    let text = ConditionText::of(forbidding.condition.condition());
    let ids = ids_of(alloc, page.policy().forms(), forbidding.condition)?;
    put_line(telling, stop, out);
    put_answer(telling, page, stop.reply, out);
    put_condition(telling, package_place, forbidding, &text, out);
    put_depends(telling, page, &names, &ids, out);
    Ok(())
}

/// Writes the line, its answer, why, and on what this depends. Where an allocation fails nothing is written.
pub(crate) fn put_stop<'a, C: Conditions, W: Write>(
    alloc: Global,
    telling: Telling,
    page: Page<'a, '_, C>,
    package_place: u64,
    stop: Stop<'_>,
    out: &mut Watched<W>,
) -> Result<(), Fault>
    ensures told { OnOk result (Puts W.contents out.old out.new
        (spec.stop_told telling package_place (seen_in page.entry) (line_meant stop.entry) stop.entry.reply)) }
    ensures nothing { IfErr result (λ fault. (fault ≡ out_of_memory) × (out.new ≡ out.old)) }
{
    match what_forbids(page.policy().forms(), stop.reply) {
        Some(forbidding) => put_forbidden(
            alloc,
            telling,
            page,
            package_place,
            stop,
            forbidding,
            out,
        ),
        None => {
            put_line(telling, stop, out);
            put_answer(telling, page, stop.reply, out);
            put_because(telling, page, stop, out);
            Ok(())
        }
    }
}
