//! Words of an answer that lines and objects share.

ghost use Rattle.std.specs.Prelude.{◌≡◌, ◌==◌, ◌∷◌, ◌++◌, [], nat_le, Some, IfErr, IfOk, codes, length, map, option_map};
ghost use Rattle.std.specs.List.{find};
ghost use Rattle.hii_bytes.specs.Faults.{out_of_memory};
ghost use Rattle.hii_bytes.specs.Watching.{Puts};
ghost use Rattle.ifr_nodes.specs.Guards.{guards};
ghost use Rattle.ifr_nodes.specs.Nodes.{nodes_of};
ghost use Rattle.ifr_nodes.specs.code.Checked.{IsNodeOf};
ghost use Rattle.ifr_scopes.specs.code.Lists.{guard_node};
ghost use Rattle.hii_questions.specs.code.Ranges.{range_in};
ghost use Rattle.hii_questions.specs.code.Views.{question_node, question_view};
ghost use Rattle.guard_policy.specs.code.Views.{bytes_of};
ghost use Rattle.condition_text.specs.code.Conditions.{words_of};
ghost use Rattle.audit_text.specs.Texts.{ascii_name, shown_byte as shown_byte_of};
ghost use Rattle.audit_json.specs.Json.{escaped, json_char};
ghost use Rattle.audit_json.specs.Telling.{told_as};
ghost use Rattle.question_audit.specs.FormLines.{denial_text};
ghost use Rattle.question_audit.specs.ScriptValues.{behind};
ghost use Rattle.unlock_audit.specs.Told as spec;
ghost use Rattle.unlock_audit.specs.Tries.{discarded, with_written as with_written_of};
ghost use Rattle.unlock_audit.specs.code.Answers.{answer_meant};
ghost use Rattle.unlock_audit.specs.code.Details.{AreDetails};

use crate::answer::Answer;
use crate::moves::Move;
use crate::runs::with_written;
use audit_json::{Telling, put_json_char};
use audit_text::{put_hexadecimal, shown_byte};
use browser_commands::Browser;
use condition_text::ConditionText;
use guard_policy::{Denial, Policy};
use hii_bytes::{Fault, Watched};
use hii_questions::{FieldRange, Question};
use hii_varstore::Stores;
use ifr_scopes::Guard;
use itoa::Buffer;
use question_audit::{StoreNames, put_denial};
use std::alloc::Global;
use std::io;
use std::io::Write;

// How many characters a condition has at most that is told.
const SHORT: u64 = 80;

/// What is told of an answer beside itself: the condition of its reason, and the stores with the field that it writes.
#[derive(Drop)]
pub(crate) struct Details<'a> {
    pub(crate) condition: Option<ConditionText<'a>>,
    pub(crate) written: Option<Stores>,
}

// The guard around a question at a place.
fn guard_around<'a>(policy: Policy<'a, '_>, question: Question<'a>, place: u32) -> Option<Guard<'a>>
    requires { IsNodeOf (bytes_of policy) (question_node question) }
    ensures { option_map guard_node result ≡ find (λ g. g.place == place) (guards (question_node question.entry)) }
{
    let mut guards = policy.forms().guards_at(question.place());
    while let Some(guard) = guards.next() {
        if guard.place() == place {
            return Some(guard);
        }
    }
    None
}

// Whether a condition is short enough to be told.
fn is_short(text: &ConditionText<'_>) -> Result<bool, Fault>
    ensures short { IfOk result (λ short. short ≡ nat_le (length (words_of text.now)) 80) }
    ensures refused { IfErr result (λ fault. fault ≡ out_of_memory) }
{
    let mut counted = Watched::new(io::sink());
    text.put(&mut counted);
    if counted.failed() {
        return Err(Fault::out_of_memory());
    }
    Ok(counted.taken() <= SHORT)
}

// The condition of a reason that is a guard around the question, where it is short.
fn short_condition<'a>(
    policy: Policy<'a, '_>,
    question: Question<'a>,
    reason: Denial,
) -> Result<Option<ConditionText<'a>>, Fault>
    requires { IsNodeOf (bytes_of policy) (question_node question) }
    ensures told { IfOk result (λ text. behind (codes ": ") (option_map words_of text)
        ≡ spec.short_condition (find (λ g. g.place == reason.place) (guards (question_node question.entry)))) }
    ensures refused { IfErr result (λ fault. fault ≡ out_of_memory) }
{
    let Some(guard) = guard_around(policy, question, reason.place) else {
        return Ok(None);
    };
    let text = ConditionText::of(guard.condition());
    if is_short(&text)? {
        Ok(Some(text))
    } else {
        Ok(None)
    }
}

impl<'a> Details<'a> {
    /// What is told beside an answer.
    pub(crate) fn of(
        alloc: Global,
        browser: &Browser<'a>,
        question: Question<'a>,
        answer: &Answer,
    ) -> Result<Details<'a>, Fault>
        requires node { IsNodeOf browser.now.state.ifr (question_node question) }
        requires fresh { discarded browser.now.state ≡ browser.now.state }
        ensures told { IfOk result (AreDetails browser.now.state (question_view question.entry) (answer_meant answer.now)) }
        ensures refused { IfErr result (λ fault. fault ≡ out_of_memory) }
    {
        let mut details = Details {
            condition: None,
            written: None,
        };
        match answer {
            Answer::Never(reason) => {
                let page = browser.page();
                details.condition = short_condition(page.policy(), question, *reason)?;
            }
            Answer::Written(each) => details.written = with_written(alloc, browser, *each)?,
            _ => {}
        }
        Ok(details)
    }
}

/// Writes a command.
pub(crate) fn put_set<W: Write>(each: Move, out: &mut Watched<W>)
    ensures { Puts W.contents out.old out.new (spec.set_text each) }
{
    out.put(b"set ");
    out.put_decimal(u64::from(each.id));
    out.put(b" ");
    let mut buffer = Buffer::new();
    out.put(buffer.format(each.value).as_bytes());
}

/// Writes a reason, with its condition where it is told.
pub(crate) fn put_reason<W: Write>(
    reason: Denial,
    condition: Option<&ConditionText<'_>>,
    out: &mut Watched<W>,
)
    ensures { Puts W.contents out.old out.new
        (denial_text reason ++ behind (codes ": ") (option_map (λ text. words_of text.now) condition.entry)) }
{
    put_denial(reason, out);
    if let Some(text) = condition {
        out.put(b": ");
        text.put(out);
    }
}

// A byte of the name of a store, where no bracket closes the answer before its end.
fn name_byte(byte: u8) -> u8
    ensures { result ≡ spec.without_bracket (shown_byte_of byte) }
{
    match shown_byte(byte) {
        b']' => b'?',
        shown => shown,
    }
}

// Writes a character of a name.
fn put_name_byte<W: Write>(telling: Telling, byte: u8, out: &mut Watched<W>)
    ensures { Puts W.contents out.old out.new (told_as telling (byte ∷ []) (json_char byte)) }
{
    match telling {
        Telling::Lines => out.put(&[byte]),
        Telling::Objects => put_json_char(out, char::from(byte)),
    }
}

// Writes the name of a store.
fn put_store<W: Write>(telling: Telling, name: &[u8], out: &mut Watched<W>)
    ensures { Puts W.contents out.old out.new
        (told_as telling (map spec.without_bracket (ascii_name name.now)) (escaped (map spec.without_bracket (ascii_name name.now)))) }
{
    if name.is_empty() {
        out.put(b"-");
        return;
    }
    for byte in name {
        put_name_byte(telling, name_byte(*byte), out);
    }
}

// Writes where a field lies.
fn put_field<W: Write>(
    telling: Telling,
    names: &StoreNames<'_>,
    field: FieldRange,
    out: &mut Watched<W>,
)
    ensures { Puts W.contents out.old out.new (spec.field_text telling (nodes_of names.now) (range_in field)) }
{
    put_store(telling, names.name(field.store), out);
    out.put(b":0x");
    put_hexadecimal(out, u64::from(field.offset));
    out.put(b"(");
    out.put_decimal(field.width as u64);
    out.put(b")");
}

// Writes bytes, the lowest first, as one number.
fn put_bytes<W: Write>(bytes: &[u8], out: &mut Watched<W>)
    ensures { Puts W.contents out.old out.new (spec.bytes_text bytes.now) }
{
    out.put(b"=0x");
    let mut rest = bytes;
    while let [front @ .., byte] = rest {
        out.put_hex(*byte);
        rest = front;
    }
}

// Writes a field that is written, with what these stores hold in it.
fn put_write<W: Write>(
    telling: Telling,
    browser: &Browser<'_>,
    names: &StoreNames<'_>,
    stores: &Stores,
    each: Move,
    out: &mut Watched<W>,
)
    requires names { names.now ≡ browser.now.state.ifr }
    requires fresh { discarded browser.now.state ≡ browser.now.state }
    requires written { with_written_of browser.now.state each ≡ Some stores.now }
    ensures { Puts W.contents out.old out.new (spec.write_text telling (nodes_of browser.now.state.ifr) each) }
{
    let Some(question) = browser.page().questions().find(each.id) else {
        return;
    };
    let Some(field) = question.field() else {
        return;
    };
    put_field(telling, names, field, out);
    if let Some(bytes) = stores.field(field.store, usize::from(field.offset), field.width) {
        put_bytes(bytes, out);
    }
}

/// The same, where there are such stores.
pub(crate) fn put_written<W: Write>(
    telling: Telling,
    browser: &Browser<'_>,
    names: &StoreNames<'_>,
    written: &Option<Stores>,
    each: Move,
    out: &mut Watched<W>,
)
    requires names { names.now ≡ browser.now.state.ifr }
    requires fresh { discarded browser.now.state ≡ browser.now.state }
    requires written { written.now ≡ with_written_of browser.now.state each }
    ensures { Puts W.contents out.old out.new (spec.write_text telling (nodes_of browser.now.state.ifr) each) }
{
    if let Some(stores) = written {
        put_write(telling, browser, names, stores, each, out);
    }
}
