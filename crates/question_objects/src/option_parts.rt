//! What is told of an option.

ghost use Rattle.std.specs.Prelude.{◌≡◌, ◌++◌, ℕ, List, IfOk, OnOk, codes, option_map};
ghost use Rattle.hii_bytes.specs.Watching.{Puts};
ghost use Rattle.audit_json.specs.Objects.{inner_object};
ghost use Rattle.condition_text.specs.code.Conditions.{words_of};
ghost use Rattle.ifr_opcodes.specs.Rows.{is_among};
ghost use Rattle.ifr_nodes.specs.code.Checked.{IsNodeOf};
ghost use Rattle.ifr_scopes.specs.code.Parts.{option_node};
ghost use Rattle.guard_policy.specs.code.Views.{bytes_of};
ghost use Rattle.question_audit.specs.code.Pages.{audited};
ghost use Rattle.question_audit.specs.OptionFacts.{with_place};
ghost use Rattle.question_audit.specs.code.Places.{has_place};
ghost use Rattle.question_objects.specs.Options.{option_members, option_verdict_members, told_words as words_told};
ghost use Rattle.question_objects.specs.Values.{word_if_there};

use crate::conditions::put_words;
use crate::detail::Detail;
use crate::members::{put_denial, put_text};
use audit_json::{put_first_member, put_word};
use condition_text::ConditionText;
use form_page::Page;
use guard_policy::{Conditions, Denial};
use hii_bytes::Watched;
use ifr_scopes::OptionView;
use question_audit::{add_place, deciding_words};
use std::alloc::{AllocError, Global};
use std::collections::BTreeSet;
use std::io::Write;

/// What is told in this detail of the guard that denies an option, where it denies none before: these are the places of what does, to
/// which its own is added.
pub(crate) fn told_words<'a, C: Conditions>(
    page: Page<'a, '_, C>,
    detail: Detail,
    option: OptionView<'a>,
    denial: Option<Denial>,
    told: &mut BTreeSet<u32>,
) -> Result<Option<ConditionText<'a>>, AllocError>
    requires { IsNodeOf (bytes_of page.policy) (option_node option) }
    ensures words { IfOk result (λ text. (places : List ℕ)
        → ((place : ℕ) → has_place told.old place ≡ is_among place places)
        → option_map words_of text ≡ words_told detail places (option_node option.entry) denial) }
    ensures places { OnOk result ((places : List ℕ)
        → ((place : ℕ) → has_place told.old place ≡ is_among place places)
        → (place : ℕ) → has_place told.new place ≡ is_among place (with_place denial places)) }
{
    match detail {
        Detail::Alone => deciding_words(page, option, denial, told),
        Detail::Listed => {
            if let Some(denial) = denial {
                add_place(told, denial.place)?;
            }
            Ok(None)
        }
    }
}

// Writes what a guard says, if it is told.
fn put_told<W: Write>(words: Option<ConditionText<'_>>, out: &mut Watched<W>)
    ensures { Puts W.contents out.old out.new
        (word_if_there (codes "condition") (option_map words_of words.entry)) }
{
    if let Some(text) = words {
        put_words(&text, out);
    }
}

// Writes what denies an option by itself, or else whether its question is denied.
fn put_verdict<W: Write>(is_denied: bool, denial: Option<Denial>, out: &mut Watched<W>)
    ensures { Puts W.contents out.old out.new (option_verdict_members is_denied denial) }
{
    match denial {
        Some(denial) => put_denial(b"verdict", b"at", denial, out),
        None => put_word(
            b"verdict",
            if is_denied {
                b"as the question"
            } else {
                b"open"
            },
            out,
        ),
    }
}

// Writes the value of an option, its text, and what denies it.
fn put_members<'a, C: Conditions, W: Write>(
    page: Page<'a, '_, C>,
    is_denied: bool,
    option: OptionView<'a>,
    denial: Option<Denial>,
    out: &mut Watched<W>,
)
    ensures { Puts W.contents out.old out.new
        (option_members (audited page.entry) is_denied (option_node option.entry) denial) }
{
    put_first_member(b"value", out);
    out.put(b"\"");
    out.put_decimal(option.op().value());
    out.put(b"\"");
    put_text(b"text", page.text(option.op().text()), out);
    put_verdict(is_denied, denial, out);
}

/// Writes an option, with what is told of the guard that denies it.
pub(crate) fn put_option<'a, C: Conditions, W: Write>(
    page: Page<'a, '_, C>,
    is_denied: bool,
    option: OptionView<'a>,
    denial: Option<Denial>,
    words: Option<ConditionText<'a>>,
    out: &mut Watched<W>,
)
    ensures { Puts W.contents out.old out.new (inner_object
        (option_members (audited page.entry) is_denied (option_node option.entry) denial
        ++ word_if_there (codes "condition") (option_map words_of words.entry))) }
{
    out.put(b"{");
    put_members(page, is_denied, option, denial, out);
    put_told(words, out);
    out.put(b"}");
}
