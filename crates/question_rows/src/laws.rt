//! Laws of rows.

ghost use Rattle.std.specs.Prelude.{◌≡◌, ℕ, List, true};
ghost use Rattle.audit_html.specs.Html.{html_text};
ghost use Rattle.question_rows.specs.Elements.{html_line};
ghost use Rattle.question_rows.specs.laws.Plain.{are_plain};

/// What stands of a text in a row has no byte that begins or ends a tag, or ends an attribute.
pub fn texts_begin_and_end_no_tags()
    ensures texts { (text : List ℕ) → are_plain (html_text text) ≡ true }
    ensures lines { (line : List ℕ) → are_plain (html_line line) ≡ true }
{}
