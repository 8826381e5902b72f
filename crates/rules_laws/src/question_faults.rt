//! Questions and their options: which faults the chapters find in them, and which the contracts say.

ghost use Rattle.std.specs.Prelude.{List};
ghost use Rattle.ifr_opcodes.specs.Forest.{Node};
ghost use Rattle.hii_questions.specs.Faults.{IsQuestionFault};
ghost use Rattle.browser_rules.specs.Faults.{question_faults};
ghost use Rattle.hii_bytes.specs.Faults.{AreFaults};

/// The questions among nodes and their options have a fault of a cause at a place by the chapters exactly where they have it by the
/// contracts.
pub fn faults_of_questions_are_the_same()
    ensures { (ns : List Node) → AreFaults (question_faults ns) (IsQuestionFault ns) }
{}
