//! The page of a form is that of the chapters.

ghost use Rattle.std.specs.Prelude.{◌≡◌, ℕ, List, Contains};
ghost use Rattle.browser_rules.specs.Pages as chapter;
ghost use Rattle.browser_rules.specs.Policy.{World as ChapterWorld};
ghost use Rattle.hii_bytes.specs.Faults.{HasNone};
ghost use Rattle.ifr_opcodes.specs.Forest.{Node};
ghost use Rattle.ifr_nodes.specs.Nodes.{nodes_of};
ghost use Rattle.hii_varstore.specs.StoreNodes.{layout_of};
ghost use Rattle.hii_varstore.specs.Stores.{StoreMap, shape_of};
ghost use Rattle.hii_questions.specs.Faults.{IsQuestionFault};
ghost use Rattle.guard_policy.specs.World.{World};
ghost use Rattle.form_page.specs.Pages.{listed_statements, page_text};
ghost use Rattle.form_page.specs.Texts.{utf8};
ghost use Rattle.rules_laws.specs.laws.Pages.{EachAnswersAlike};
ghost use Rattle.rules_laws.specs.laws.Policy.{AreAlike};
ghost use Rattle.rules_laws.specs.laws.Stores.{stores_for};

/// Characters are written in UTF-8 as the chapters say.
pub fn texts_are_written_alike()
    ensures { (text : List ℕ) → chapter.in_utf8 text ≡ utf8 text }
{}

/// In worlds that are alike a form has the rows of the chapters.
pub fn a_form_has_the_rows_of_the_chapters()
    ensures { (bytes : List ℕ) (w : ChapterWorld) (v : World) (form : Node) → AreAlike bytes w v
        → Contains (nodes_of bytes) form → chapter.rows_of w form ≡ listed_statements v form }
{}

/// Over the stores of a form set without faults each question answers what it answers by the chapters.
pub fn questions_of_stores_without_fault_answer_alike()
    ensures { (ns : List Node) (held : StoreMap) → HasNone (IsQuestionFault ns)
        → shape_of held ≡ layout_of ns → EachAnswersAlike ns (stores_for held) held }
{}

/// In worlds that are alike, over stores in which each question answers the same, and with the same texts, the page of a form is that
/// of the chapters, byte by byte.
pub fn the_page_of_a_form_is_that_of_the_chapters()
    ensures { (texts shown : ℕ → List ℕ) (bytes : List ℕ) (w : ChapterWorld) (v : World)
        (held : StoreMap) (form : Node) → ((id : ℕ) → texts id ≡ shown id) → AreAlike bytes w v
        → EachAnswersAlike (nodes_of bytes) w.stores held → Contains (nodes_of bytes) form →
        chapter.page texts w form ≡ page_text shown v held form }
{}
