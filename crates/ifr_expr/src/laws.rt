//! Laws of the definitions of expressions.

ghost use Rattle.std.specs.Prelude.{◌≡◌, ℕ, List};
ghost use Rattle.ifr_opcodes.specs.Forest.{Mark};
ghost use Rattle.ifr_expr.specs.Dependence.{dependence};
ghost use Rattle.ifr_expr.specs.laws.Agreement.{Agree};
ghost use Rattle.ifr_expr.specs.Meaning.{Rule, rule_values, value};
ghost use Rattle.ifr_expr.specs.code.Rules.{AreOrdered, named};
ghost use Rattle.ifr_expr.specs.Trees.{Tree, Means};
ghost use Rattle.ifr_expr.specs.Values.{Value};
ghost use Rattle.std.specs.Prelude.{Some};

/// Opcodes mean one tree at most.
pub fn one_tree()
    ensures { (marks : List Mark) (t u : Tree) → Means marks t → Means marks u → t ≡ u }
{}

/// A reference to a rule has the value of the rule's expression over all rules, in no question.
pub fn a_reference_has_the_value_of_its_rule()
    ensures { (rules : List Rule) (answers : ℕ → Value) (id place : ℕ) (r : Rule) → AreOrdered rules
        → named rules id place ≡ Some r
        → rule_values rules answers id place ≡ value rules answers 0 r.tree }
{}

/// The value of an expression depends on the answers of the questions alone that it or a rule behind it names.
pub fn a_value_depends_on_its_questions_alone()
    ensures { (rules : List Rule) (a b : ℕ → Value) (this : ℕ) (tree : Tree)
        → Agree a b (dependence rules this tree)
        → value rules a this tree ≡ value rules b this tree }
{}
