//! References to questions in what conditions say.

ghost use Rattle.std.specs.Prelude.{◌≡◌, ◌-◌, ◌+◌, ◌<◌, ◌^◌, OnOk, OnErr, length, option_map};
ghost use Rattle.std.specs.List.{position};
ghost use Rattle.hii_bytes.specs.Watching.{Puts};
ghost use Rattle.ifr_nodes.specs.Nodes.{nodes_of};
ghost use Rattle.hii_questions.specs.Fields.{asked};
ghost use Rattle.hii_questions.specs.code.Views.{question_view};
ghost use Rattle.guard_policy.specs.code.Views.{bytes_of};
ghost use Rattle.question_rows.specs.Referring as rule;
ghost use Rattle.question_rows.specs.code.Marks.{behind_mark};

use crate::elements::put_html_byte;
use audit_html::put_link;
use form_page::Page;
use guard_policy::Conditions;
use hii_bytes::{Watched, number_of_digits};
use hii_questions::Question;
use std::io::Write;

// Where the first byte of a text stands that is no decimal digit.
fn first_no_digit(text: &[u8]) -> Option<usize>
    ensures { result ≡ position rule.is_no_digit text.now }
{
    text.iter().position(|byte| *byte < 48 || 57 < *byte)
}

// The decimal digits in front of a text.
fn digits_front(text: &[u8]) -> &[u8]
    ensures { result.now ≡ rule.digits_front text.now }
{
    match first_no_digit(text) {
        Some(end) => &text[..end],
        None => text,
    }
}

// What stands behind a mark in front of a text, if it is there.
fn behind_mark<'t>(mark: &[u8], text: &'t [u8]) -> Option<&'t [u8]>
    ensures { option_map (λ behind. behind.now) result ≡ behind_mark mark.now text.now }
{
    if text.len() < mark.len() {
        return None;
    }
    let (front, behind) = text.split_at(mark.len());
    if front == mark { Some(behind) } else { None }
}

/// What names a question by an id in front of a text.
#[derive(Clone, Copy)]
struct Reference<'t> {
    /// The digits of the id, none where there is no reference.
    digits: &'t [u8],
    /// How many bytes it is long.
    size: usize,
}

// The reference in front of a text.
fn reference_front(text: &[u8]) -> Reference<'_>
    ensures digits { result.digits.now ≡ (rule.reference_front text.now).digits }
    ensures size { result.size ≡ (rule.reference_front text.now).size }
{
    if let Some(behind) = behind_mark(b"questionref(", text) {
        let digits = digits_front(behind);
        return Reference {
            digits,
            size: digits.len() + 13,
        };
    }
    if let Some(behind) = behind_mark(b"q", text) {
        let digits = digits_front(behind);
        return Reference {
            digits,
            size: digits.len() + 1,
        };
    }
    Reference {
        digits: b"",
        size: 0,
    }
}

// The question that decimal digits name.
fn question_named<'a, C: Conditions>(page: Page<'a, '_, C>, digits: &[u8]) -> Option<Question<'a>>
    ensures { option_map question_view result
        ≡ option_map (asked (nodes_of (bytes_of page.entry.policy)))
        (rule.question_named (nodes_of (bytes_of page.entry.policy)) digits.now) }
{
    let id = number_of_digits(digits, 10, 5)?;
    if id < 65_536 {
        page.questions().find(id as u16)
    } else {
        None
    }
}

// Writes the start of the link that begins with the first byte of a text, and tells how many bytes of a link are left with it, where
// these are left of one before.
fn put_link_start<C: Conditions, W: Write>(
    page: Page<'_, '_, C>,
    left: usize,
    text: &[u8],
    out: &mut Watched<W>,
) -> usize
    ensures text { Puts W.contents out.old out.new
        (rule.link_start (nodes_of (bytes_of page.entry.policy)) left text.now) }
    ensures left { result
        ≡ rule.link_left (nodes_of (bytes_of page.entry.policy)) left text.now }
{
    if left > 0 {
        return left;
    }
    let reference = reference_front(text);
    match question_named(page, reference.digits) {
        Some(question) => {
            put_link(b"q", question.place(), out);
            reference.size
        }
        None => 0,
    }
}

// Writes the end of the link that ends with a byte, where so many bytes of it are left with this.
fn put_link_end<W: Write>(left: usize, out: &mut Watched<W>)
    ensures { Puts W.contents out.old out.new (rule.link_end left) }
{
    if left == 1 {
        out.put(b"</a>");
    }
}

// Writes what a condition says, with links to the questions that it names.
fn put_linked<C: Conditions, W: Write>(page: Page<'_, '_, C>, words: &[u8], out: &mut Watched<W>)
    ensures { Puts W.contents out.old out.new
        (rule.linked (nodes_of (bytes_of page.entry.policy)) words.now) }
{
    let mut rest = words;
    let mut left = 0;
    while let [byte, behind @ ..] = rest {
        left = put_link_start(page, left, rest, out);
        put_html_byte(*byte, out);
        put_link_end(left, out);
        left = left.saturating_sub(1);
        rest = behind;
    }
}

/// Writes this as an element.
pub(crate) fn put_linked_code<C: Conditions, W: Write>(
    page: Page<'_, '_, C>,
    words: &[u8],
    out: &mut Watched<W>,
)
    ensures { Puts W.contents out.old out.new
        (rule.linked_code (nodes_of (bytes_of page.entry.policy)) words.now) }
{
    out.put(b"<code>");
    put_linked(page, words, out);
    out.put(b"</code>");
}
