//! The rules of a form set.

use crate::expr::Expr;

/// What the rules of a form set say (UEFI 2.8, 33.3.8.3, EFI_IFR_RULE).
pub trait Rules<'a> {
    ghost use Rattle.std.specs.Prelude.{◌≡◌, ◌≤◌, List, option_map, IfSome};
    ghost use Rattle.ifr_expr.specs.Meaning.{Rule};
    ghost use Rattle.ifr_expr.specs.code.Rules.{AreOrdered, named};
    ghost use Rattle.ifr_expr.specs.code.Expressions.{tree_of, end_of};

    /// The rules, the latest by place first.
    ghost rules: { Self → List Rule };

    /// The expression of the rule that a reference to this id at this place names, if there is one. It ends before the
    /// place.
    fn rule(&self, id: u8, place: u32) -> Option<Expr<'a>>
        ensures ordered { AreOrdered (rules self.now) }
        ensures named { option_map tree_of result
            ≡ option_map (λ r. r.tree) (named (rules self.now) id place) }
        ensures before { IfSome result (λ expr. end_of expr ≤ place) };
}

/// The same, where rules have numbers: that of a rule is how many stand before it.
pub trait NumberedRules<'a>: Rules<'a> {
    ghost use Rattle.std.specs.Prelude.{IfSome};
    ghost use Rattle.ifr_expr.specs.code.Rules.{AreOrdered};
    ghost use Rattle.ifr_expr.specs.code.RuleValues.{IsNumberOf};

    /// The number of the rule that a reference to this id at this place names. Where none is told, the rule has the same value.
    fn rule_number(&self, id: u8, place: u32) -> Option<usize>
        ensures ordered { IfSome result (λ _. AreOrdered (Self.rules self.now)) }
        ensures number { IfSome result (IsNumberOf (Self.rules self.now) id place) };
}
