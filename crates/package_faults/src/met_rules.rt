//! The rules of a package that were met, and how large they are.

ghost use Rattle.std.specs.Prelude.{◌≡◌, ◌∷◌, ◌++◌, ◌<◌, ◌==◌, ℕ, nat_le, if◌then◌else◌, true, List, [], length, option_map, reverse, OnOk};
ghost use Rattle.std.specs.List.{find};
ghost use Rattle.std.specs.List.Sorted.{IsNonDecreasingBy};
ghost use Rattle.ifr_opcodes.specs.Forest.{Node as Placed};
ghost use Rattle.ifr_expr.specs.code.Expressions.{tree_of};
ghost use Rattle.ifr_nodes.specs.Rules.{is_rule, as_rule, form_end, rule_nodes, rules_among, rule_sizes, size_over};
ghost use Rattle.ifr_nodes.specs.Rules as rules;
ghost use Rattle.ifr_nodes.specs.declared.rules.KeptRule.{KeptRule};
ghost use Rattle.ifr_nodes.specs.declared.rules.RuleSize.{RuleSize as Sized};
ghost use Rattle.ifr_nodes.specs.code.KeptRules.{kept_named, list_of};
ghost use Rattle.ifr_nodes.specs.code.RuleNodes.{Descend};
ghost use Rattle.ifr_nodes.specs.code.Views.{node_of};
ghost use Rattle.package_faults.specs.code.MetRules.{AreMetRules, capped, capped_rule};

use ifr_expr::Expr;
use ifr_nodes::{KeptRule, Node, RuleSize, add_to, end_of, last_ended};
use std::alloc::{AllocError, Global};

/// The least depth of rules that name one another which is too large.
const TOO_DEEP: u8 = 17;

/// The least number of opcodes of a rule, with those of the rules that it names, which is too large.
const TOO_HEAVY: usize = 4097;

/// Rules, those of each id in a list, by place. The size of one that is too large is the least such size. There is no list behind that
/// of the greatest id.
#[derive(Drop)]
pub(crate) struct MetRules {
    pub(crate) rules: Vec<Vec<KeptRule>>,
}

/// Whether a rule is too large.
pub(crate) fn is_too_large(size: RuleSize) -> bool
    ensures { (s : Sized) → size ≡ capped s → result ≡ rules.is_rule_too_large s }
{
    size.depth >= TOO_DEEP || usize::from(size.weight) >= TOO_HEAVY
}

impl MetRules {
    /// No rules.
    pub(crate) fn new(alloc: Global) -> MetRules
        ensures { AreMetRules [] result }
    {
        MetRules {
            rules: Vec::new(alloc),
        }
    }

    // The rules of an id, by place.
    fn of_id(&self, id: u8) -> &[KeptRule]
        ensures { result.now ≡ list_of self.now.rules.items id }
    {
        match self.rules.get(usize::from(id)) {
            Some(rules) => rules,
            None => &[],
        }
    }

    // The rule that a reference to an id at a place names, if there is one.
    fn named(&self, id: u8, place: u32) -> Option<KeptRule>
        ensures { (ns : List Placed) → AreMetRules ns self.now → Descend (rule_nodes ns)
            → result ≡ option_map capped_rule (kept_named (rule_nodes ns) id place) }
    {
        let rule = last_ended(self.of_id(id), place)?;
        if rule.form_ends <= place {
            return None;
        }
        Some(rule)
    }

    /// The size of a rule with this expression.
    pub(crate) fn size_of(&self, expression: Expr<'_>) -> RuleSize
        ensures { (ns : List Placed) → AreMetRules ns self.now → Descend (rule_nodes ns)
            → result ≡ capped (size_over (rule_sizes (rules_among ns)) (tree_of expression.entry)) }
    {
        let mut depth = 0u8;
        let mut weight = expression.len().min(TOO_HEAVY);
        let mut references = expression.references();
        while let Some(reference) = references.next() {
            if let Some(rule) = self.named(reference.id, reference.place) {
                depth = depth.max(rule.size.depth);
                weight = (weight + usize::from(rule.size.weight)).min(TOO_HEAVY);
            }
        }
        RuleSize {
            depth: depth.saturating_add(1).min(TOO_DEEP),
            weight: weight as u16,
        }
    }

    /// Adds the next rule, with its size and the end of the form around it.
    pub(crate) fn add(
        &mut self,
        rule: Node<'_>,
        form_ends: u32,
        size: RuleSize,
    ) -> Result<(), AllocError>
        requires { is_rule (node_of rule) ≡ true }
        ensures { OnOk result ((before : List Placed) → AreMetRules before self.old
            → form_ends ≡ form_end (node_of rule.entry).path
            → size ≡ capped (rules.size (rules_among before) (as_rule (node_of rule.entry)))
            → AreMetRules (before ++ node_of rule.entry ∷ []) self.new) }
    {
        let place = rule.op.place;
        let kept = KeptRule {
            place,
            ends: end_of(rule.ifr, place),
            form_ends,
            size,
        };
        add_to(&mut self.rules, rule.rule().id(), kept)
    }
}
