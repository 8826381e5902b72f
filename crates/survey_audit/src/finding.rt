//! Questions that are found by a text of theirs.

ghost use Rattle.std.specs.Prelude.{◌≡◌, IfOk, chars};
ghost use Rattle.ifr_nodes.specs.code.Checked.{IsNodeOf};
ghost use Rattle.hii_languages.specs.code.Views.{chars_left};
ghost use Rattle.hii_questions.specs.code.Views.{question_node};
ghost use Rattle.guard_policy.specs.code.Views.{bytes_of};
ghost use Rattle.question_audit.specs.code.Pages.{audited};
ghost use Rattle.survey_audit.specs.Finding as spec;
ghost use Rattle.survey_audit.specs.Finding.{small};

use form_page::Page;
use guard_policy::Conditions;
use hii_languages::ShownChars;
use hii_questions::Question;
use std::alloc::{AllocError, Global};

/// The characters of a text, with small letters of ASCII for its great ones.
pub fn small_letters(alloc: Global, text: &str) -> Result<Vec<char>, AllocError>
    ensures { IfOk result (λ letters. letters.items ≡ small (chars text.now)) }
{
    let mut letters = Vec::new(alloc);
    for c in text.chars() {
        letters.push(c.to_ascii_lowercase())?;
    }
    Ok(letters)
}

// Those of a text of a list as it is shown.
fn shown_letters(alloc: Global, text: ShownChars<'_>) -> Result<Vec<char>, AllocError>
    ensures { IfOk result (λ letters. letters.items ≡ small (chars_left text.entry)) }
{
    let mut letters = Vec::new(alloc);
    let mut text = text;
    while let Some(letter) = text.next() {
        letters.push(letter.to_ascii_lowercase())?;
    }
    Ok(letters)
}

// Whether letters stand within others.
fn has_within(text: &[char], letters: &[char]) -> bool
    ensures { result ≡ spec.has_within text.now letters.now }
{
    let mut rest = text;
    while !rest.starts_with(letters) {
        let Some((_, others)) = rest.split_first() else {
            return false;
        };
        rest = others;
    }
    true
}

/// Whether small letters stand in the prompt or the help of a question, whose letters may be great ones. The one error is that an
/// allocation failed.
pub(crate) fn is_found<'a, C: Conditions>(
    alloc: Global,
    page: Page<'a, '_, C>,
    question: Question<'a>,
    letters: &[char],
) -> Result<bool, AllocError>
    requires { IsNodeOf (bytes_of page.policy) (question_node question) }
    ensures { IfOk result (λ it. it
        ≡ spec.is_found (audited page.entry) letters.now (question_node question.entry)) }
{
    let op = question.statement().op();
    let prompt = shown_letters(alloc, page.text(op.prompt()).chars())?;
    if has_within(&prompt, letters) {
        return Ok(true);
    }
    let help = shown_letters(alloc, page.text(op.help()).chars())?;
    Ok(has_within(&help, letters))
}
