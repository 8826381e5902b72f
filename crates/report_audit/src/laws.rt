//! Laws of a page.

ghost use Rattle.std.specs.Prelude.{◌≡◌, ℕ, Bool, List, []};
ghost use Rattle.audit_html.specs.Html.{html_text};
ghost use Rattle.question_audit.specs.Audited.{Audited};
ghost use Rattle.question_rows.specs.Elements.{html_line};
ghost use Rattle.report_audit.specs.Reports.{report};
ghost use Rattle.report_audit.specs.laws.Tags.{AreEmptyAlike, tags, with_texts};

/// The tags of a page, with their attributes, are the same whatever the texts say that are shown of its list, if the same of these are
/// empty; the texts that defaults give stay. No text has a tag as it stands in a page.
pub fn tags_depend_on_no_text()
    ensures page { (a : Audited) (others : ℕ → List ℕ) (is_reached : ℕ → Bool) → AreEmptyAlike a.texts others
        → tags (report (with_texts a others) is_reached) ≡ tags (report a is_reached) }
    ensures texts { (text : List ℕ) → tags (html_text text) ≡ [] }
    ensures lines { (line : List ℕ) → tags (html_line line) ≡ [] }
{}
