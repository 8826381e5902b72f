//! The statements of a form that its page shows.

ghost use Rattle.std.specs.Prelude.{◌≡◌, IfSome};
ghost use Rattle.ifr_nodes.specs.code.Checked.{IsNodeOf, AreNodesOf, AreNodesOf-prop};
ghost use Rattle.ifr_scopes.specs.code.Lists.{statement_node};
ghost use Rattle.ifr_scopes.specs.code.StatementsLeft.{statements_of_left};
ghost use Rattle.guard_policy.specs.code.Effects.{AreEffectsBy, AreEffectsBy-prop};
ghost use Rattle.guard_policy.specs.code.Views.{bytes_of};

use crate::decisions::is_listed;
use crate::page::Page;
use guard_policy::{Conditions, Effects};
use ifr_scopes::{Statement, StatementsOf};

/// The statements that are left of a page, by place: those of its form that are not hidden.
#[derive(Drop)]
pub(crate) struct Listed<'a, 's, C: Conditions> {
    pub(crate) page: Page<'a, 's, C>,
    pub(crate) statements: StatementsOf<'s, 'a>,
    // The denials of the guards that were asked last.
    pub(crate) last: Effects,
    pub ghost together: { AreNodesOf (bytes_of page.policy) (statements_of_left statements) } by { AreNodesOf-prop (bytes_of page.policy) (statements_of_left statements) },
    pub ghost asked: { AreEffectsBy page.policy (C.holding page.conditions.now) last } by { AreEffectsBy-prop page.policy (C.holding page.conditions.now) last },
}

impl<'a, 's, C: Conditions> Listed<'a, 's, C> {
    ghost use Rattle.std.specs.Iterator.{YieldsFirstBy};
    ghost use Rattle.form_page.specs.code.ListedViews.{all_left, listed_left};

    /// Takes the first statement, also one that is hidden.
    pub(crate) fn take_first(&mut self) -> Option<Statement<'a>>
        ensures steps { YieldsFirstBy statement_node all_left self.old result self.new }
        ensures page { self.new.page ≡ self.old.page }
        ensures node { IfSome result (λ statement. IsNodeOf (bytes_of self.old.page.policy)
            (statement_node statement)) }
    {
        self.statements.next()
    }

    /// Takes the first statement that is not hidden.
    pub(crate) fn step(&mut self) -> Option<Statement<'a>>
        ensures steps { YieldsFirstBy statement_node listed_left self.old result self.new }
        ensures page { self.new.page ≡ self.old.page }
        ensures node { IfSome result (λ statement. IsNodeOf (bytes_of self.old.page.policy)
            (statement_node statement)) }
    {
        let page = self.page;
        while let Some(statement) = self.statements.next() {
            if is_listed(page, statement, &mut self.last) {
                return Some(statement);
            }
        }
        None
    }
}

impl<'a, 's, C: Conditions> Iterator for Listed<'a, 's, C> {
    ghost use Rattle.std.specs.Iterator.{YieldsFirstBy, item_count};
    ghost use Rattle.form_page.specs.code.ListedViews.{listed_left};

    type Item = Statement<'a>;

    ghost next_gives = { YieldsFirstBy statement_node listed_left };

    ghost remaining = { item_count listed_left };

    fn next(&mut self) -> Option<Statement<'a>> {
        self.step()
    }
}
