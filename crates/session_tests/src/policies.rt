//! Decisions, each with the place that decides.

ghost use Rattle.std.specs.Prelude.{◌≡◌, ◌==◌, IfSome};
ghost use Rattle.ifr_nodes.specs.Accepted.{IsAccepted};
ghost use Rattle.ifr_nodes.specs.code.Checked.{IsNodeOf};
ghost use Rattle.ifr_scopes.specs.code.Lists.{form_node};
ghost use Rattle.ifr_scopes.specs.code.Parts.{option_node};
ghost use Rattle.hii_questions.specs.code.Views.{question_node};
ghost use Rattle.guard_policy.specs.code.Views.{bytes_of};

use guard_policy::{Conditions, Decision, Denial, Policy};
use hii_questions::laws::questions_of_ids_are_questions;
use hii_questions::{DenialKind, Question, Questions};
use hii_varstore::Stores;
use ifr_scopes::laws::a_node_is_that_of_its_place;
use ifr_scopes::{Form, OptionView};
use std::process::Abort;

fn question_of<'a>(questions: &Questions<'a>, id: u16) -> Option<Question<'a>>
    requires { IsAccepted questions.now.ifr }
    ensures { IfSome result (λ question. IsNodeOf questions.now.ifr (question_node question)) }
{
    a_node_is_that_of_its_place();
    questions_of_ids_are_questions();
    questions.find(id)
}

fn first_option<'a>(questions: &Questions<'a>, question: Question<'a>) -> Option<OptionView<'a>>
    requires accepted { IsAccepted questions.now.ifr }
    requires node { IsNodeOf questions.now.ifr (question_node question) }
    ensures { IfSome result (λ option. IsNodeOf questions.now.ifr (option_node option)) }
{
    question.statement().options().next()
}

// The first option of the question of an id.
fn option_of<'a>(questions: &Questions<'a>, id: u16) -> Option<OptionView<'a>>
    requires { IsAccepted questions.now.ifr }
    ensures { IfSome result (λ option. IsNodeOf questions.now.ifr (option_node option)) }
{
    first_option(questions, question_of(questions, id)?)
}

// What decides, and where, if something does.
fn by(decided: Result<(), Denial>) -> Option<(DenialKind, u32)> {
    let denial = decided.err()?;
    Some((denial.kind, denial.place))
}

// Each of what follows asks a policy for one decision, or for those of one thing. None has a clause, so that no test carries more than
// the contracts of one.

fn form_decided<'a>(
    policy: Policy<'a, '_>,
    questions: &Questions<'a>,
    form: Form<'a>,
    stores: &Stores,
) -> Option<(DenialKind, u32)>
    requires accepted { IsAccepted questions.now.ifr }
    requires together { bytes_of policy ≡ questions.now.ifr }
    requires node { IsNodeOf questions.now.ifr (form_node form) }
{
    by(policy.opens(form, stores))
}

fn statement_decided<'a>(
    policy: Policy<'a, '_>,
    questions: &Questions<'a>,
    stores: &Stores,
) -> [Option<(DenialKind, u32)>; 2]
    requires accepted { IsAccepted questions.now.ifr }
    requires together { bytes_of policy ≡ questions.now.ifr }
{
    let Some(question) = question_of(questions, 6) else {
        return [None; 2];
    };
    let statement = question.statement();
    [
        by(policy.listed(statement, stores)),
        by(policy.changeable(statement, stores)),
    ]
}

fn option_decided<'a>(
    policy: Policy<'a, '_>,
    questions: &Questions<'a>,
    stores: &Stores,
) -> Option<(DenialKind, u32)>
    requires accepted { IsAccepted questions.now.ifr }
    requires together { bytes_of policy ≡ questions.now.ifr }
{
    by(policy.option_open(question_of(questions, 5)?, 1, stores))
}

fn value_decided<'a>(
    policy: Policy<'a, '_>,
    questions: &Questions<'a>,
    stores: &Stores,
) -> Option<(DenialKind, u32)>
    requires accepted { IsAccepted questions.now.ifr }
    requires together { bytes_of policy ≡ questions.now.ifr }
{
    by(policy.consistent(question_of(questions, 7)?, stores))
}

fn warned_at<'a>(policy: Policy<'a, '_>, questions: &Questions<'a>, stores: &Stores) -> Option<u32>
    requires accepted { IsAccepted questions.now.ifr }
    requires together { bytes_of policy ≡ questions.now.ifr }
{
    let warning = policy.warnings(question_of(questions, 7)?, stores).next()?;
    Some(warning.place)
}

fn supported_by<'a>(policy: Policy<'a, '_>, questions: &Questions<'a>) -> Option<u16>
    requires accepted { IsAccepted questions.now.ifr }
    requires together { bytes_of policy ≡ questions.now.ifr }
{
    policy
        .support_of(Decision::Consistent(question_of(questions, 7)?))
        .next()
}

// What is decided over stores in which the question 5 is 2 and the others are 0.
pub(crate) fn stores_decide<'a>(
    rt: &impl Abort,
    policy: Policy<'a, '_>,
    questions: &Questions<'a>,
    stores: &Stores,
    form: Form<'a>,
)
    requires accepted { IsAccepted questions.now.ifr }
    requires together { bytes_of policy ≡ questions.now.ifr }
    requires node { IsNodeOf questions.now.ifr (form_node form) }
{
    assert!(rt; form_decided(policy, questions, form, stores).is_none());
    let hidden = Some((DenialKind::SuppressIf, 118));
    assert!(rt; statement_decided(policy, questions, stores) == [hidden; 2]);
    let grayed = Some((DenialKind::GrayOutIf, 179));
    assert!(rt; option_decided(policy, questions, stores) == grayed);
    let inconsistent = Some((DenialKind::InconsistentIf, 79));
    assert!(rt; value_decided(policy, questions, stores) == inconsistent);
    let denied = Some((DenialKind::NoSubmitIf, 91));
    assert!(rt; by(policy.may_submit(stores)) == denied);
    assert!(rt; warned_at(policy, questions, stores) == Some(103));
    assert!(rt; supported_by(policy, questions) == Some(5));
}

// The condition at a place holds alone.
#[derive(Drop)]
struct Alone {
    place: u32,
}

impl Conditions for Alone {
    ghost holding = { λ alone place. alone.place == place };

    fn holds(&self, place: u32) -> bool {
        self.place == place
    }
}

fn form_decided_by<'a>(
    policy: Policy<'a, '_>,
    questions: &Questions<'a>,
    form: Form<'a>,
    alone: &Alone,
) -> [Option<(DenialKind, u32)>; 2]
    requires accepted { IsAccepted questions.now.ifr }
    requires together { bytes_of policy ≡ questions.now.ifr }
    requires node { IsNodeOf questions.now.ifr (form_node form) }
{
    [
        by(policy.opens_by(form, alone)),
        by(policy.may_submit_by(alone)),
    ]
}

fn statement_decided_by<'a>(
    policy: Policy<'a, '_>,
    questions: &Questions<'a>,
    alone: &Alone,
) -> [Option<(DenialKind, u32)>; 2]
    requires accepted { IsAccepted questions.now.ifr }
    requires together { bytes_of policy ≡ questions.now.ifr }
{
    let Some(question) = question_of(questions, 7) else {
        return [None; 2];
    };
    let statement = question.statement();
    [
        by(policy.listed_by(statement, alone)),
        by(policy.changeable_by(statement, alone)),
    ]
}

fn option_decided_by<'a>(
    policy: Policy<'a, '_>,
    questions: &Questions<'a>,
    alone: &Alone,
) -> [Option<(DenialKind, u32)>; 2]
    requires accepted { IsAccepted questions.now.ifr }
    requires together { bytes_of policy ≡ questions.now.ifr }
{
    let Some(option) = option_of(questions, 5) else {
        return [None; 2];
    };
    [
        by(policy.option_listed_by(option, alone)),
        by(policy.option_changeable_by(option, alone)),
    ]
}

fn value_decided_by<'a>(
    policy: Policy<'a, '_>,
    questions: &Questions<'a>,
    alone: &Alone,
) -> Option<(DenialKind, u32)>
    requires accepted { IsAccepted questions.now.ifr }
    requires together { bytes_of policy ≡ questions.now.ifr }
{
    by(policy.option_open_by(question_of(questions, 5)?, 1, alone))
}

pub(crate) fn conditions_decide<'a>(
    rt: &impl Abort,
    policy: Policy<'a, '_>,
    questions: &Questions<'a>,
    form: Form<'a>,
)
    requires accepted { IsAccepted questions.now.ifr }
    requires together { bytes_of policy ≡ questions.now.ifr }
    requires node { IsNodeOf questions.now.ifr (form_node form) }
{
    let suppressed = Some((DenialKind::SuppressIf, 51));
    let alone = Alone { place: 51 };
    assert!(rt; form_decided_by(policy, questions, form, &alone) == [suppressed, None]);
    assert!(rt; statement_decided_by(policy, questions, &alone) == [suppressed; 2]);
    assert!(rt; option_decided_by(policy, questions, &alone) == [suppressed; 2]);
    assert!(rt; value_decided_by(policy, questions, &alone) == suppressed);
}

pub(crate) fn conditions_are_found<'a>(rt: &impl Abort, policy: Policy<'a, '_>, stores: &Stores) {
    assert!(rt; policy.over(stores).holds(91));
    assert!(rt; policy.support_at(51).next() == Some(7));
    assert!(rt; policy.removed(142) && !policy.removed(118));
    assert!(rt; policy.forms().bytes().len() == 224);
}
