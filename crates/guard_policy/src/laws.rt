//! Laws of the definitions of decisions.

ghost use Rattle.std.specs.Prelude.{◌≡◌, ℕ, Bool, List, true, Some};
ghost use Rattle.ifr_opcodes.specs.Forest.{Node};
ghost use Rattle.ifr_nodes.specs.Accepted.{IsAccepted};
ghost use Rattle.ifr_nodes.specs.code.Checked.{IsNodeOf};
ghost use Rattle.ifr_nodes.specs.Nodes.{nodes_of};
ghost use Rattle.hii_varstore.specs.Stores.{StoreMap};
ghost use Rattle.guard_policy.specs.laws.Support.{AnswersAgree, IsSubjectOf, around, conditions, denial, is_by_first, support, support_over, until_met, warning_of};
ghost use Rattle.guard_policy.specs.code.KeptConditions.{Tells, TellsAll, is_by_kept};
ghost use Rattle.guard_policy.specs.World.{world_over};
ghost use Rattle.guard_policy.specs.declared.denial.Denial.{Denial};
ghost use Rattle.guard_policy.specs.declared.support.Decision.{Decision};

/// A decision depends on the answers of its questions alone.
pub fn a_decision_depends_on_its_questions_alone()
    ensures denied { (ns : List Node) (removed : List ℕ) (stores others : StoreMap)
        (decision : Decision)
        → AnswersAgree ns stores others (support (world_over ns removed stores) decision)
        → denial (world_over ns removed others) decision
        ≡ denial (world_over ns removed stores) decision }
    ensures warned { (ns : List Node) (removed : List ℕ) (stores others : StoreMap)
        (decision : Decision)
        → AnswersAgree ns stores others (support (world_over ns removed stores) decision)
        → warning_of (world_over ns removed others) decision
        ≡ warning_of (world_over ns removed stores) decision }
{}

/// A denial depends on the answers of the questions of its conditions alone up to the first that holds: that one decides,
/// or what is behind no condition.
pub fn a_denial_depends_on_what_decides()
    ensures { (ns : List Node) (removed : List ℕ) (stores others : StoreMap)
        (decision : Decision) (d : Denial)
        → is_by_first decision ≡ true → denial (world_over ns removed stores) decision ≡ Some d
        → AnswersAgree ns stores others
        (support_over ns (until_met (world_over ns removed stores)
        (conditions (world_over ns removed stores) decision)))
        → denial (world_over ns removed others) decision ≡ Some d }
{}

/// What is kept of all conditions of an accepted package tells of those around each of its nodes, and of those of a decision.
pub fn what_is_kept_tells()
    ensures node { (bytes removed : List ℕ) (stores : StoreMap) (holding : ℕ → Bool) (n : Node)
        → IsAccepted bytes → IsNodeOf bytes n
        → TellsAll holding (world_over (nodes_of bytes) removed stores)
        → Tells holding (world_over (nodes_of bytes) removed stores) (around n) }
    ensures decision { (bytes removed : List ℕ) (stores : StoreMap) (holding : ℕ → Bool)
        (decision : Decision) → IsAccepted bytes → IsSubjectOf bytes decision
        → is_by_kept decision ≡ true
        → TellsAll holding (world_over (nodes_of bytes) removed stores)
        → Tells holding (world_over (nodes_of bytes) removed stores)
        (conditions (world_over (nodes_of bytes) removed stores) decision) }
{}
