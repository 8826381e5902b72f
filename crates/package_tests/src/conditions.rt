//! The condition of a guard: the questions that it asks, what it names, and the rules that it refers to.

use ifr_expr::{Name, RuleReference};
use ifr_scopes::Forms;
use std::process::Abort;

pub(crate) fn condition_is_told(rt: &impl Abort, forms: &Forms<'_>) {
    let condition = forms.guards().next().expect(rt, "a guard").condition();
    assert!(rt; condition.len() == 14 && condition.support().eq([9, 1, 2, 7, 8]));
    let first = RuleReference { id: 5, place: 128 };
    let second = RuleReference { id: 6, place: 133 };
    assert!(rt; condition.references().eq([first, second]));
    assert!(rt;
        condition.names().eq([
            Name::Question(9),
            Name::Question(1),
            Name::Question(2),
            Name::Question(7),
            Name::Question(8),
            Name::Rule(first),
            Name::Rule(second),
            Name::This,
        ])
    );
}
