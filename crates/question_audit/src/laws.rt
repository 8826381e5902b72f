//! Laws of what is told of the questions of a form set, and of one of them.

ghost use Rattle.std.specs.Prelude.{◌≡◌, ℕ, ◌<◌, filter, length, slice_index, List, true};
ghost use Rattle.std.specs.List.{flat_map};
ghost use Rattle.ifr_opcodes.specs.Forest.{places, Node};
ghost use Rattle.ifr_nodes.specs.Nodes.{is_form, is_question, nodes_of};
ghost use Rattle.question_audit.specs.FormLines.{form_questions};
ghost use Rattle.ifr_opcodes.specs.Rows.{is_among};
ghost use Rattle.hii_questions.specs.Fields.{asked};
ghost use Rattle.guard_policy.specs.Policy.{fixed};
ghost use Rattle.guard_policy.specs.World.{World};
ghost use Rattle.guard_policy.specs.laws.Support.{around, support_over};
ghost use Rattle.question_audit.specs.Dependences.{depends_on};
ghost use Rattle.question_audit.specs.Reasons.{all_reasons, first_reason};
ghost use Rattle.question_audit.specs.declared.when.When.TheVariants.{AtCommands};

use ifr_scopes::Forms;

/// Each question of a form set has one line: the questions of its forms, form by form, are all questions by place, and no two
/// of these have one place.
pub fn each_question_has_one_line(forms: &Forms<'_>)
    ensures lines { flat_map form_questions (filter is_form (nodes_of forms.now))
        ≡ filter is_question (nodes_of forms.now) }
    ensures rise { (i j : ℕ) → i < j → j < length (filter is_question (nodes_of forms.now))
        → slice_index (places (filter is_question (nodes_of forms.now))) i
        < slice_index (places (filter is_question (nodes_of forms.now))) j }
{
    forms.bytes();
}

/// A change depends at commands on the answers that `Policy::support_of` gives for it, through rules too.
pub fn depends_are_the_support_of_a_change()
    ensures { (ns : List Node) (id : ℕ) (n : Node) → is_among id (support_over ns (around n))
        ≡ is_among id (depends_on AtCommands ns n) }
{}

/// The first of all reasons why a question may not be changed is the one that `why` tells.
pub fn the_first_reason_is_the_verdict()
    ensures { (w : World) (n : Node) → is_question n ≡ true
        → first_reason (all_reasons w (asked w.nodes n)) ≡ fixed w n }
{}
