//! Rules.

ghost use Rattle.std.specs.Prelude.{◌≡◌, true};
ghost use Rattle.ifr_nodes.specs.Checked.{IsChecked};
ghost use Rattle.ifr_nodes.specs.Rules.{is_rule};
ghost use Rattle.ifr_nodes.specs.code.Checked.{IsChecked-prop};
ghost use Rattle.ifr_index.specs.code.Tables.{AreOfKind, AreOfKind-prop};
ghost use Rattle.ifr_nodes.specs.code.Views.{node_of};

use ifr_expr::Expr;
use ifr_nodes::{Node, expression_of, node_at};

/// A rule (UEFI 2.8, 33.3.8.3, EFI_IFR_RULE).
#[derive(Clone, Copy)]
pub struct RuleView<'a> {
    pub(crate) node: Node<'a>,
    pub ghost rule: { is_rule (node_of node) ≡ true },
}

impl<'a> RuleView<'a> {
    ghost use Rattle.ifr_expr.specs.code.Expressions.{tree_of};
    ghost use Rattle.ifr_nodes.specs.Rules.{as_rule};
    ghost use Rattle.ifr_scopes.specs.code.Lists.{rule_node};

    /// The place of the rule, in bytes from the package's header.
    pub fn place(self) -> u32
        ensures { result ≡ (rule_node self.entry).place }
    {
        self.node.op().place
    }

    /// What the rule says: the expression that its scope is.
    pub fn expression(self) -> Expr<'a>
        ensures { tree_of result ≡ (as_rule (rule_node self.entry)).tree }
    {
        expression_of(self.node)
    }
}

/// The rules that are left of a package, by place.
#[derive(Drop)]
pub struct RuleViews<'s, 'a> {
    pub(crate) ifr: &'a [u8],
    pub(crate) places: &'s [u32],
    pub ghost checked: { IsChecked ifr.now } by { IsChecked-prop ifr.now },
    pub ghost stand: { AreOfKind is_rule ifr.now places.now } by { AreOfKind-prop is_rule ifr.now places.now },
}

impl<'s, 'a> Iterator for RuleViews<'s, 'a> {
    ghost use Rattle.std.specs.Iterator.{YieldsFirstBy, item_count};
    ghost use Rattle.ifr_scopes.specs.code.Lists.{rule_node, rules_left};

    type Item = RuleView<'a>;

    ghost next_gives = { YieldsFirstBy rule_node rules_left };

    ghost remaining = { item_count rules_left };

    fn next(&mut self) -> Option<RuleView<'a>> {
        let (place, places) = self.places.split_first()?;
        self.places = places;
        Some(RuleView {
            node: node_at(self.ifr, *place),
        })
    }
}
