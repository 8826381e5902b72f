//! How warnings are told.

ghost use Rattle.std.specs.Prelude.{◌≡◌, Some, slice_get, true};
ghost use Rattle.std.specs.Fmt.{signed_decimal};
ghost use Rattle.hii_bytes.specs.Watching.{Puts};
ghost use Rattle.ifr_opcodes.specs.Forest.{node_at as node_there};
ghost use Rattle.ifr_opcodes.specs.Opcode.{number};
ghost use Rattle.ifr_expr.specs.code.Expressions.{tree_of};
ghost use Rattle.ifr_nodes.specs.Guards.{is_guard};
ghost use Rattle.ifr_nodes.specs.Nodes.{nodes_of};
ghost use Rattle.ifr_nodes.specs.code.Views.{node_of};
ghost use Rattle.condition_text.specs.Senses.{sense};
ghost use Rattle.condition_text.specs.Texts.{text};
ghost use Rattle.audit_json.specs.Objects.{member, quoted};
ghost use Rattle.check_audit.specs.WarningLines.{asks_text, bounds_members, bounds_text, comes_again, constant_members, constant_text, default_members, default_text, denial_word, holds_member, lack_members, lack_of, lack_text, oddity_members, oddity_text, overlap_members, overlap_text, textless_text, unlike_told, unreached_text, verdict_word, warning_line, warning_object, warning_told, warnings_told, word_of};
ghost use Rattle.check_audit.specs.code.Detailing.{details_of};
ghost use Rattle.check_audit.specs.code.Lacking.{lack_seen};
ghost use Rattle.check_audit.specs.code.Standing.{AllStand, IsGuardAt, StandsIn};

use crate::lacks::{Lack, Lacks};
use crate::warning::{Oddity, Refused, Sharing, Span, Unanswered, Warning};
use audit_json::{
    Telling, end_object, put_kind, put_member, put_number, put_string, put_true, put_word,
};
use audit_text::{opcode_name, put_language};
use condition_text::ConditionText;
use hii_bytes::Watched;
use hii_questions::DenialKind;
use ifr_expr::Expr;
use ifr_nodes::{Node, node_at};
use itoa::Buffer;
use std::io::Write;

/// What warnings tell by a number, or by their place.
#[derive(Clone, Copy)]
pub(crate) struct Details<'s, 'a> {
    /// The bounds that nothing can meet.
    pub spans: &'s [Span],
    /// The package, in which guards stand whose conditions name no question.
    pub ifr: &'s [u8],
    /// The string packages that lack texts of the first one.
    pub lacks: &'s Lacks<'a>,
}

// The word of a warning.
fn word_of(oddity: Oddity) -> &'static [u8]
    ensures { result.now ≡ word_of oddity }
{
    match oddity {
        Oddity::Asks(_) => b"asks",
        Oddity::Bounds(_) => b"bounds",
        Oddity::Constant(_) => b"constant",
        Oddity::Default(_) => b"default",
        Oddity::Language(_) => b"language",
        Oddity::Overlap(_) => b"overlap",
        Oddity::Text(_) => b"text",
        Oddity::Unreached(_) => b"unreached",
    }
}

// Writes a number in decimal digits, with its sign where it is negative.
fn put_signed<W: Write>(number: i128, out: &mut Watched<W>)
    ensures { Puts W.contents out.old out.new (signed_decimal number) }
{
    out.put(Buffer::new().format(number).as_bytes());
}

// Why a question has no answer.
fn lack_of(is_there: bool) -> &'static [u8]
    ensures { result.now ≡ lack_of is_there }
{
    if is_there {
        b": it has no answer here"
    } else {
        b": no such question"
    }
}

// Writes which question has no answer.
fn put_asks<W: Write>(unanswered: Unanswered, out: &mut Watched<W>)
    ensures { Puts W.contents out.old out.new (asks_text unanswered) }
{
    out.put_decimal(u64::from(unanswered.question));
    out.put(lack_of(unanswered.is_there));
}

// Writes which bounds nothing can meet.
fn put_span<W: Write>(span: Span, out: &mut Watched<W>)
    ensures { Puts W.contents out.old out.new (bounds_text (Some span)) }
{
    put_signed(span.minimum, out);
    out.put(b" is above ");
    put_signed(span.maximum, out);
}

// Writes which bounds of some nothing can meet.
fn put_bounds<W: Write>(spans: &[Span], number: u32, out: &mut Watched<W>)
    ensures { Puts W.contents out.old out.new (bounds_text (slice_get spans.now number)) }
{
    if let Some(span) = spans.get(number as usize) {
        put_span(*span, out);
    }
}

// Whether a condition holds.
fn verdict_word(holds: bool) -> &'static [u8]
    ensures { result.now ≡ verdict_word holds }
{
    if holds {
        b" holds: "
    } else {
        b" does not hold: "
    }
}

// The guard at a place.
fn guard_at(ifr: &[u8], place: u32) -> Node<'_>
    requires { IsGuardAt ifr.now place }
    ensures found { node_there (nodes_of ifr.entry.now) place ≡ Some (node_of result) }
    ensures guard { is_guard (number (node_of result).op) ≡ true }
{
    node_at(ifr, place)
}

// Writes which condition names no question, and whether it holds.
fn put_constant<W: Write>(ifr: &[u8], place: u32, holds: bool, out: &mut Watched<W>)
    requires { IsGuardAt ifr.now place }
    ensures { Puts W.contents out.old out.new (constant_text holds (node_there (nodes_of ifr.now) place)) }
{
    let guard = guard_at(ifr, place);
    out.put(opcode_name(guard.op().code));
    out.put(verdict_word(holds));
    ConditionText::of(guard.expression()).put(out);
}

// Why a default is not taken.
fn denial_word(denial: Option<DenialKind>) -> &'static [u8]
    ensures { result.now ≡ denial_word denial }
{
    match denial {
        Some(kind) => kind.name().as_bytes(),
        None => b"no text",
    }
}

// Writes which default is not taken.
fn put_default<W: Write>(refused: Refused, out: &mut Watched<W>)
    ensures { Puts W.contents out.old out.new (default_text refused) }
{
    out.put_decimal(u64::from(refused.class));
    out.put(b" of question ");
    out.put_decimal(u64::from(refused.question));
    out.put(b": ");
    out.put(denial_word(refused.denial));
}

// Writes how many texts a string package lacks.
fn put_lack<W: Write>(lack: Lack<'_>, out: &mut Watched<W>)
    ensures { Puts W.contents out.old out.new (lack_text (Some (lack_seen lack.entry))) }
{
    put_language(out, lack.language);
    out.put(b": ");
    out.put_decimal(lack.lacks as u64);
    out.put(b" of ");
    out.put_decimal(lack.texts as u64);
    out.put(b" texts are those of ");
    put_language(out, lack.first);
}

// Writes how many texts one of some string packages lacks.
fn put_lack_with<W: Write>(lacks: &Lacks<'_>, number: u32, out: &mut Watched<W>)
    ensures { Puts W.contents out.old out.new (lack_text (slice_get lacks.now number)) }
{
    if let Some(lack) = lacks.get(number) {
        put_lack(lack, out);
    }
}

// Writes which questions share bytes.
fn put_overlap<W: Write>(sharing: Sharing, out: &mut Watched<W>)
    ensures { Puts W.contents out.old out.new (overlap_text sharing) }
{
    out.put(b"question ");
    out.put_decimal(u64::from(sharing.question));
    out.put(b" shares bytes with question ");
    out.put_decimal(u64::from(sharing.other));
}

// Writes which string id has no text.
fn put_textless<W: Write>(id: u16, out: &mut Watched<W>)
    ensures { Puts W.contents out.old out.new (textless_text id) }
{
    out.put_decimal(u64::from(id));
    out.put(b": no text");
}

// Writes which form no reference names.
fn put_unreached<W: Write>(form: u16, out: &mut Watched<W>)
    ensures { Puts W.contents out.old out.new (unreached_text form) }
{
    out.put(b"no reference names form ");
    out.put_decimal(u64::from(form));
}

// Writes what is strange.
fn put_oddity<W: Write>(details: Details<'_, '_>, warning: Warning, out: &mut Watched<W>)
    requires { StandsIn details.ifr.now warning }
    ensures { Puts W.contents out.old out.new (oddity_text (details_of details.entry) warning.place warning.oddity) }
{
    match warning.oddity {
        Oddity::Asks(unanswered) => put_asks(unanswered, out),
        Oddity::Bounds(number) => put_bounds(details.spans, number, out),
        Oddity::Constant(holds) => put_constant(details.ifr, warning.place, holds, out),
        Oddity::Default(refused) => put_default(refused, out),
        Oddity::Language(number) => put_lack_with(details.lacks, number, out),
        Oddity::Overlap(sharing) => put_overlap(sharing, out),
        Oddity::Text(id) => put_textless(id, out),
        Oddity::Unreached(form) => put_unreached(form, out),
    }
}

// Writes the line of a warning.
fn put_line<W: Write>(details: Details<'_, '_>, warning: Warning, out: &mut Watched<W>)
    requires { StandsIn details.ifr.now warning }
    ensures { Puts W.contents out.old out.new (warning_line (details_of details.entry) warning) }
{
    out.put(b"WARN ");
    out.put_place(u64::from(warning.place));
    out.put(b" ");
    out.put(word_of(warning.oddity));
    out.put(b" ");
    put_oddity(details, warning, out);
    out.put(b"\n");
}

// Writes a member that is a number with its sign.
fn put_signed_member<W: Write>(key: &[u8], number: i128, out: &mut Watched<W>)
    ensures { Puts W.contents out.old out.new (member key.now (signed_decimal number)) }
{
    put_member(key, out);
    put_signed(number, out);
}

// Writes the members that tell bounds.
fn put_span_members<W: Write>(span: Span, out: &mut Watched<W>)
    ensures { Puts W.contents out.old out.new (bounds_members (Some span)) }
{
    put_signed_member(b"minimum", span.minimum, out);
    put_signed_member(b"maximum", span.maximum, out);
}

// Writes the members that tell which bounds of some nothing can meet.
fn put_bounds_members<W: Write>(spans: &[Span], number: u32, out: &mut Watched<W>)
    ensures { Puts W.contents out.old out.new (bounds_members (slice_get spans.now number)) }
{
    if let Some(span) = spans.get(number as usize) {
        put_span_members(*span, out);
    }
}

// Writes that a condition holds.
fn put_holds<W: Write>(holds: bool, out: &mut Watched<W>)
    ensures { Puts W.contents out.old out.new (holds_member holds) }
{
    if holds {
        put_true(b"holds", out);
    }
}

// Writes a condition in words, in quotes.
fn put_quoted_condition<W: Write>(condition: Expr<'_>, out: &mut Watched<W>)
    ensures { Puts W.contents out.old out.new (quoted (text (sense (tree_of condition.entry)))) }
{
    out.put(b"\"");
    ConditionText::of(condition).put(out);
    out.put(b"\"");
}

// Writes the members that tell which condition names no question, and whether it holds.
fn put_constant_members<W: Write>(ifr: &[u8], place: u32, holds: bool, out: &mut Watched<W>)
    requires { IsGuardAt ifr.now place }
    ensures { Puts W.contents out.old out.new (constant_members holds (node_there (nodes_of ifr.now) place)) }
{
    let guard = guard_at(ifr, place);
    put_holds(holds, out);
    put_member(b"condition", out);
    put_quoted_condition(guard.expression(), out);
}

// Writes the members that tell which default is not taken.
fn put_default_members<W: Write>(refused: Refused, out: &mut Watched<W>)
    ensures { Puts W.contents out.old out.new (default_members refused) }
{
    put_number(b"class", u64::from(refused.class), out);
    put_number(b"question", u64::from(refused.question), out);
    put_word(b"denial", denial_word(refused.denial), out);
}

// Writes the members that tell how many texts a string package lacks.
fn put_lack_members<W: Write>(lack: Lack<'_>, out: &mut Watched<W>)
    ensures { Puts W.contents out.old out.new (lack_members (Some (lack_seen lack.entry))) }
{
    put_string(b"language", lack.language, out);
    put_number(b"lacks", lack.lacks as u64, out);
    put_number(b"texts", lack.texts as u64, out);
}

// Writes the members that tell how many texts one of some string packages lacks.
fn put_members_with<W: Write>(lacks: &Lacks<'_>, number: u32, out: &mut Watched<W>)
    ensures { Puts W.contents out.old out.new (lack_members (slice_get lacks.now number)) }
{
    if let Some(lack) = lacks.get(number) {
        put_lack_members(lack, out);
    }
}

// Writes the members that tell which questions share bytes.
fn put_overlap_members<W: Write>(sharing: Sharing, out: &mut Watched<W>)
    ensures { Puts W.contents out.old out.new (overlap_members sharing) }
{
    put_number(b"question", u64::from(sharing.question), out);
    put_number(b"other", u64::from(sharing.other), out);
}

// Writes the members that tell what is strange.
fn put_members<W: Write>(details: Details<'_, '_>, warning: Warning, out: &mut Watched<W>)
    requires { StandsIn details.ifr.now warning }
    ensures { Puts W.contents out.old out.new (oddity_members (details_of details.entry) warning.place warning.oddity) }
{
    match warning.oddity {
        Oddity::Asks(unanswered) => put_number(b"id", u64::from(unanswered.question), out),
        Oddity::Bounds(number) => put_bounds_members(details.spans, number, out),
        Oddity::Constant(holds) => put_constant_members(details.ifr, warning.place, holds, out),
        Oddity::Default(refused) => put_default_members(refused, out),
        Oddity::Language(number) => put_members_with(details.lacks, number, out),
        Oddity::Overlap(sharing) => put_overlap_members(sharing, out),
        Oddity::Text(id) => put_number(b"id", u64::from(id), out),
        Oddity::Unreached(form) => put_number(b"form", u64::from(form), out),
    }
}

// Writes the object of a warning.
fn put_object<W: Write>(details: Details<'_, '_>, warning: Warning, out: &mut Watched<W>)
    requires { StandsIn details.ifr.now warning }
    ensures { Puts W.contents out.old out.new (warning_object (details_of details.entry) warning) }
{
    put_kind(b"warning", out);
    put_number(b"at", u64::from(warning.place), out);
    put_word(b"word", word_of(warning.oddity), out);
    put_members(details, warning, out);
    end_object(out);
}

// Tells a warning.
fn put_warning<W: Write>(
    telling: Telling,
    details: Details<'_, '_>,
    warning: Warning,
    out: &mut Watched<W>,
)
    requires { StandsIn details.ifr.now warning }
    ensures { Puts W.contents out.old out.new (warning_told telling (details_of details.entry) warning) }
{
    match telling {
        Telling::Lines => put_line(details, warning, out),
        Telling::Objects => put_object(details, warning, out),
    }
}

// Whether a warning is of the place, the word and the id of the last one.
fn comes_again(last: Option<u128>, warning: Warning) -> bool
    ensures { result ≡ comes_again last warning }
{
    last == Some(warning.order())
}

// Tells a warning, unless it is of the place, the word and the id of the last one.
fn put_unlike<W: Write>(
    telling: Telling,
    details: Details<'_, '_>,
    last: Option<u128>,
    warning: Warning,
    out: &mut Watched<W>,
)
    requires { StandsIn details.ifr.now warning }
    ensures { Puts W.contents out.old out.new (unlike_told telling (details_of details.entry) last warning) }
{
    if !comes_again(last, warning) {
        put_warning(telling, details, warning, out);
    }
}

/// Tells warnings, each once, with what is told of them by their numbers.
pub(crate) fn put_warnings<W: Write>(
    telling: Telling,
    details: Details<'_, '_>,
    warnings: &[Warning],
    out: &mut Watched<W>,
)
    requires { AllStand details.ifr.now warnings.now }
    ensures { Puts W.contents out.old out.new (warnings_told telling (details_of details.entry) warnings.now) }
{
    let mut last = None;
    for warning in warnings {
        put_unlike(telling, details, last, *warning, out);
        last = Some(warning.order());
    }
}
