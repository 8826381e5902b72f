//! The rules of a package, found by their ids, and how large they are.

ghost use Rattle.std.specs.Prelude.{◌≡◌, ◌∷◌, ◌++◌, ◌≤◌, ◌<◌, ◌==◌, ℕ, nat_le, if◌then◌else◌, true, List, [], length, reverse, OnOk};
ghost use Rattle.std.specs.List.{find};
ghost use Rattle.std.specs.List.Sorted.{IsNonDecreasingBy};
ghost use Rattle.ifr_opcodes.specs.Forest.{Node as Placed};
ghost use Rattle.ifr_expr.specs.code.Expressions as expr;
ghost use Rattle.ifr_nodes.specs.Nodes as ends;
ghost use Rattle.ifr_nodes.specs.code.KeptRules.{AreKeptRules, kept_named, list_of};
ghost use Rattle.ifr_nodes.specs.Rules as rules;
ghost use Rattle.ifr_nodes.specs.Rules.{is_rule, as_rule, form_end, rule_nodes, rules_among, rule_sizes, size_over};
ghost use Rattle.ifr_nodes.specs.code.Rules.{fitting_size};
ghost use Rattle.ifr_nodes.specs.code.RuleNodes.{Descend};
ghost use Rattle.ifr_nodes.specs.code.Views.{node_of};

use crate::ends::end_of;
use crate::node::Node;
use ifr_expr::Expr;
use std::alloc::{AllocError, Global};

/// How deeply rules may name one another.
const MAX_DEPTH: u8 = 16;

/// How many opcodes a rule may have, with those of the rules that it names.
const MAX_WEIGHT: usize = 4096;

/// How large a rule is.
#[derive(Clone, Copy, PartialEq, Eq)]
pub struct RuleSize {
    /// One more than the greatest depth of the rules that it names.
    pub depth: u8,
    /// How many opcodes it has, with those of each rule that it names.
    pub weight: u16,
}

/// A rule as it is kept. Places are in bytes from the package's header.
#[derive(Clone, Copy, PartialEq, Eq)]
pub struct KeptRule {
    pub place: u32,
    /// Where it ends.
    pub ends: u32,
    /// Where the form ends in which it stands.
    pub form_ends: u32,
    pub size: RuleSize,
}

/// Rules, those of each id in a list, by place. There is no list behind that of the greatest id.
#[derive(Drop)]
pub struct RuleTable {
    pub rules: Vec<Vec<KeptRule>>,
}

/// The expression of a rule.
pub fn expression_of(rule: Node<'_>) -> Expr<'_>
    requires { is_rule (node_of rule) ≡ true }
    ensures tree { expr.tree_of result ≡ (as_rule (node_of rule.entry)).tree }
    ensures within { expr.end_of result ≤ ends.end_of (node_of rule.entry) }
{
    // the END of the rule's scope has two bytes
    let to = end_of(rule.ifr, rule.op.place) - 2;
    let from = rule.op.place + rule.op.len() as u32;
    Expr::over(rule.ifr, from, to)
}

/// The last rule of a list that ends at or before a place (bytes from the package's header), if one does. The rules stand by where they
/// end.
pub fn last_ended(rules: &[KeptRule], place: u32) -> Option<KeptRule>
    ensures { IsNonDecreasingBy (λ (r : KeptRule). r.ends) rules.now
        → result ≡ find (λ r. nat_le r.ends place) (reverse rules.now) }
{
    let ended = rules.partition_point(|rule| rule.ends <= place);
    if ended == 0 {
        return None;
    }
    Some(rules[ended - 1])
}

// Adds empty lists until there is one of an id.
fn add_lists(lists: &mut Vec<Vec<KeptRule>>, id: u8) -> Result<(), AllocError>
    ensures reached { OnOk result (id < length lists.new.items) }
    ensures stays { OnOk result ((other : ℕ)
        → list_of lists.new.items other ≡ list_of lists.old.items other) }
{
    let alloc = *lists.allocator();
    while lists.len() <= usize::from(id) {
        lists.push(Vec::new(alloc))?;
    }
    Ok(())
}

/// Adds a rule to the list of its id, with empty lists of the ids before it where there are none.
pub fn add_to(lists: &mut Vec<Vec<KeptRule>>, id: u8, rule: KeptRule) -> Result<(), AllocError>
    ensures { OnOk result ((other : ℕ) → list_of lists.new.items other
        ≡ list_of lists.old.items other ++ (if id == other then rule ∷ [] else [])) }
{
    add_lists(lists, id)?;
    lists[usize::from(id)].push(rule)?;
    Ok(())
}

impl RuleTable {
    /// No rules.
    pub fn new(alloc: Global) -> RuleTable
        ensures { AreKeptRules [] result }
    {
        RuleTable {
            rules: Vec::new(alloc),
        }
    }

    // The rules of an id, by place.
    fn of_id(&self, id: u8) -> &[KeptRule]
        ensures { result.now ≡ list_of self.now.rules.items id }
    {
        match self.rules.get(usize::from(id)) {
            Some(rules) => rules,
            None => &[],
        }
    }

    /// The rule that a reference to an id at a place names, if there is one.
    pub fn named(&self, id: u8, place: u32) -> Option<KeptRule>
        ensures { (ns : List Placed) → AreKeptRules ns self.now → Descend (rule_nodes ns)
            → result ≡ kept_named (rule_nodes ns) id place }
    {
        let rule = last_ended(self.of_id(id), place)?;
        if rule.form_ends <= place {
            return None;
        }
        Some(rule)
    }

    /// The size of a rule with this expression, if it is not too large.
    pub(crate) fn size_of(&self, expression: Expr) -> Option<RuleSize>
        ensures { (ns : List Placed) → AreKeptRules ns self.now → Descend (rule_nodes ns)
            → result ≡ fitting_size
            (size_over (rule_sizes (rules_among ns)) (expr.tree_of expression.entry)) }
    {
        let mut depth = 0;
        let mut weight = expression.len();
        let mut references = expression.references();
        while let Some(reference) = references.next() {
            if weight > MAX_WEIGHT {
                return None;
            }
            if let Some(rule) = self.named(reference.id, reference.place) {
                depth = depth.max(rule.size.depth);
                weight += rule.size.weight as usize;
            }
        }
        if depth >= MAX_DEPTH || weight > MAX_WEIGHT {
            return None;
        }
        Some(RuleSize {
            depth: depth + 1,
            weight: weight as u16,
        })
    }

    /// Adds the next rule, with its size and the end of the form around it.
    pub(crate) fn add(
        &mut self,
        rule: Node,
        form_ends: u32,
        size: RuleSize,
    ) -> Result<(), AllocError>
        requires { is_rule (node_of rule) ≡ true }
        ensures { OnOk result ((before : List Placed) → AreKeptRules before self.old
            → form_ends ≡ form_end (node_of rule.entry).path
            → size ≡ rules.size (rules_among before) (as_rule (node_of rule.entry))
            → AreKeptRules (before ++ node_of rule.entry ∷ []) self.new) }
    {
        let place = rule.op.place;
        let kept = KeptRule {
            place,
            ends: end_of(rule.ifr, place),
            form_ends,
            size,
        };
        add_to(&mut self.rules, rule.rule().id(), kept)
    }
}
