//! What questions have by default is what the chapters say.

ghost use Rattle.std.specs.Prelude.{◌≡◌, ◌==◌, ℕ, IfSome, List, false, option_map, true};
ghost use Rattle.browser_rules.specs.Questions as chapter;
ghost use Rattle.browser_rules.specs.Stores.{Stores};
ghost use Rattle.ifr_opcodes.specs.Fields.{default_kind};
ghost use Rattle.ifr_opcodes.specs.Forest.{Node};
ghost use Rattle.ifr_opcodes.specs.declared.kinds.TheConstants.{TYPE_OTHER};
ghost use Rattle.ifr_nodes.specs.Nodes.{is_question};
ghost use Rattle.ifr_defaults.specs.Defaults.{Sources, default_of, default_with};
ghost use Rattle.rules_laws.specs.laws.Defaults.{HasSameValue};
ghost use Rattle.rules_laws.specs.laws.Questions.{offer_for};

/// A question has for a class of defaults what it has by the chapters, where the expression of the DEFAULT that decides has the same
/// value. A DEFAULT of another Type than OTHER has no expression, and so the same value.
pub fn a_question_has_the_default_of_the_chapters()
    ensures default { (ns : List Node) (stores : Stores) (s : Sources) (q : Node) (class : ℕ) → is_question q ≡ true →
        IfSome (default_with q class) (HasSameValue ns stores s q) →
        chapter.default_of ns stores s.texts q class ≡ option_map offer_for (default_of s q class) }
    ensures plain { (ns : List Node) (stores : Stores) (s : Sources) (q d : Node) → (default_kind d.op == TYPE_OTHER) ≡ false →
        HasSameValue ns stores s q d }
{}
