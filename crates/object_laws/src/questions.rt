//! Objects of `questions` and `question`, which `survey` tells, too.

ghost use Rattle.std.specs.Prelude.{◌<◌, ◌^◌, ℕ, Bool, IfSome, Option, codes};
ghost use Rattle.hii_bytes.specs.Numbers.{AreBytes};
ghost use Rattle.ifr_opcodes.specs.Forest.{Node};
ghost use Rattle.hii_questions.specs.Fields.{asked};
ghost use Rattle.question_audit.specs.Audited.{Audited};
ghost use Rattle.question_audit.specs.Reach.{reach_of};
ghost use Rattle.question_objects.specs.FormSets.{form_object, guard_object, rule_object};
ghost use Rattle.question_objects.specs.Objects.{no_question_object, question_object};
ghost use Rattle.question_objects.specs.declared.detail.Detail.{Detail};
ghost use Rattle.json_laws.specs.laws.Telling.{IsReadBack};
ghost use Rattle.object_laws.specs.laws.Questions.{CanShow, IsNearReach, IsPlaced, ShowsTexts};

/// What is told of a form, of a question, alone or under its form, and of guards and rules is read back.
pub fn objects_of_questions_are_read_back()
    ensures form { (a : Audited) (is_reached : ℕ → Bool) (form : Node) → ShowsTexts a.texts → AreBytes form.op → form.place < 2 ^ 64 → IsNearReach (reach_of a.world is_reached form)
        → IsReadBack (codes "form") (form_object a is_reached form) }
    ensures question { (detail : Detail) (a : Audited) (package_place : ℕ) (form : Option Node) (n : Node) → CanShow a package_place n → IfSome form (λ f. AreBytes f.op)
        → IsReadBack (codes "question") (question_object detail a package_place form (asked a.world.nodes n)) }
    ensures guard { (a : Audited) (package_place : ℕ) (g : Node) → IsPlaced package_place g → IsReadBack (codes "guard") (guard_object a package_place g) }
    ensures rule { (package_place : ℕ) (r : Node) → IsPlaced package_place r → IsReadBack (codes "rule") (rule_object package_place r) }
    ensures none { (id : ℕ) → IsReadBack (codes "error") (no_question_object id) }
{}
