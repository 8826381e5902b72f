//! The lines of answers.

ghost use Rattle.std.specs.Prelude.{◌≡◌, ◌++◌, length, map};
ghost use Rattle.hii_bytes.specs.Watching.{Puts, Writes};
ghost use Rattle.std.specs.List.{flat_map};
ghost use Rattle.browser_rules.specs.Strings.{shown};
ghost use Rattle.hii_languages.specs.code.Views.{chars_left, choice_of};
ghost use Rattle.ifr_nodes.specs.code.Checked.{IsNodeOf};
ghost use Rattle.hii_questions.specs.code.Views.{question_node};
ghost use Rattle.guard_policy.specs.Policy.{warned};
ghost use Rattle.guard_policy.specs.Warned.{warning_of};
ghost use Rattle.guard_policy.specs.code.Views.{bytes_of, world};
ghost use Rattle.guard_policy.specs.code.WarningsLeft.{warnings_among};
ghost use Rattle.session_steps.specs.Texts.{ok_text, count_text, changed_text, message_text, denied_text, warning_text, warning_line, refused_text, refused_at_text};

use arrayvec::ArrayVec;
use form_page::put_shown;
use guard_policy::{Denial, Policy, Warning};
use hii_bytes::{Cause, Fault, Watched};
use hii_languages::{Choice, Languages, ShownChars};
use hii_questions::{DenialKind, Question};
use ifr_scopes::ConditionsOf;
use itoa::Buffer;
use kept_conditions::KeptStores;
use std::io::Write;

const DONE: &[u8] = b"OK\n";

/// Writes that a command was carried out.
#[inline(always)]
pub(crate) fn put_done<W: Write>(out: &mut Watched<W>)
    ensures { Puts W.contents out.old out.new ok_text }
{
    if let Ok(taken) = out.write(DONE) {
        if 0 < taken && taken < DONE.len() {
            out.put(&DONE[taken..]);
        }
    }
}

/// Writes `OK n`.
pub(crate) fn put_count<W: Write>(n: u64, out: &mut Watched<W>)
    ensures { Puts W.contents out.old out.new (count_text n) }
{
    out.put(b"OK ");
    out.put_decimal(n);
    out.put(b"\n");
}

// The line that tells that a question has other bytes.
fn changed_line(question: u16) -> ArrayVec<u8, 14>
    ensures { result.items ≡ changed_text question }
{
    let mut line = ArrayVec::new();
    line.try_extend_from_slice(b"CHANGED ").unwrap();
    let mut buffer = Buffer::new();
    line.try_extend_from_slice(buffer.format(question).as_bytes())
        .unwrap();
    line.push(b'\n');
    line
}

// Writes `CHANGED q`.
fn put_changed<W: Write>(question: u16, out: &mut Watched<W>)
    ensures { Puts W.contents out.old out.new (changed_text question) }
{
    out.put(changed_line(question).as_slice());
}

/// Writes how many questions have changed, and `CHANGED q` for the id of each.
pub(crate) fn put_changes<W: Write>(ids: &[u16], out: &mut Watched<W>)
    ensures { Puts W.contents out.old out.new
        (count_text (length ids.now) ++ flat_map changed_text ids.now) }
{
    put_count(ids.len() as u64, out);
    for id in ids {
        put_changed(*id, out);
    }
}

// Writes a text behind a space, where a denial of this kind has one.
fn put_message<W: Write>(kind: DenialKind, message: ShownChars<'_>, out: &mut Watched<W>)
    ensures { Puts W.contents out.old out.new (message_text kind (chars_left message.entry)) }
{
    if kind.has_text() {
        out.put(b" ");
        put_shown(message, out);
    }
}

/// Writes the line of a denial, with the characters of its text.
pub(crate) fn put_denial<W: Write>(denial: Denial, message: ShownChars<'_>, out: &mut Watched<W>)
    ensures { Puts W.contents out.old out.new (denied_text (chars_left message.entry) denial) }
{
    out.put(b"DENIED ");
    out.put(denial.kind.name().as_bytes());
    out.put(b" at ");
    out.put_place(u64::from(denial.place));
    put_message(denial.kind, message, out);
    out.put(b"\n");
}

// Writes the line of a warning, with the characters of its text.
fn put_warning<W: Write>(warning: Warning, message: ShownChars<'_>, out: &mut Watched<W>)
    ensures { Puts W.contents out.old out.new (warning_text (chars_left message.entry) warning) }
{
    out.put(b"WARNING at ");
    out.put_place(u64::from(warning.place));
    out.put(b" ");
    put_shown(message, out);
    out.put(b"\n");
}

/// Writes a line for each warning of a question over stores, with its text in a language. Of most questions none is asked.
#[inline(always)]
pub(crate) fn put_warnings<'a, W: Write>(
    policy: Policy<'a, '_>,
    question: Question<'a>,
    stores: &mut KeptStores<'a>,
    languages: &Languages<'_>,
    language: Choice,
    out: &mut Watched<W>,
)
    requires package { bytes_of policy ≡ stores.old.ifr }
    requires node { IsNodeOf (bytes_of policy) (question_node question) }
    ensures text { Puts W.contents out.old out.new
        (flat_map (warning_line (shown languages.now (choice_of language)))
        (map warning_of (warned (world policy.entry stores.old.stores) (question_node question.entry)))) }
    ensures same { stores.new ≡ stores.old }
{
    if question.statement().opens_scope() {
        let conditions = policy.warning_conditions(question);
        put_each_warning(policy, conditions, stores, languages, language, out);
    }
}

// Writes a line for each of some WARNING_IFs that holds over stores, with its text in a language.
#[inline(never)]
fn put_each_warning<'a, W: Write>(
    policy: Policy<'a, '_>,
    mut conditions: ConditionsOf<'_, 'a>,
    stores: &mut KeptStores<'a>,
    languages: &Languages<'_>,
    language: Choice,
    out: &mut Watched<W>,
)
    requires { bytes_of policy ≡ stores.old.ifr }
    ensures text { Puts W.contents out.old out.new
        (flat_map (warning_line (shown languages.now (choice_of language)))
        (warnings_among (world policy.entry stores.old.stores) conditions.entry)) }
    ensures same { stores.new ≡ stores.old }
{
    while let Some(warning) = stores.next_warning(policy, &mut conditions) {
        let message = languages.text(language, warning.message);
        put_warning(warning, message.chars(), out);
    }
}

/// Writes the line of a cause without a place.
pub fn put_refusal<W: Write>(cause: Cause, out: &mut Watched<W>)
    ensures { Puts W.contents out.old out.new (refused_text cause) }
{
    out.put_cause(cause);
    out.put(b"\n");
}

/// Writes the line of a cause at its place, of which it tells the lowest 32 bits.
pub fn put_refusal_at<W: Write>(fault: Fault, out: &mut Watched<W>)
    ensures { Puts W.contents out.old out.new (refused_at_text fault) }
{
    out.put_fault(fault);
    out.put(b"\n");
}
