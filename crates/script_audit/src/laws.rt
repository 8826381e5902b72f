//! Laws of scripts that are run as a whole.

ghost use Rattle.script_audit.specs.laws.Leaving.{LeavesAllAlone, LeavesAllAnswered};
ghost use Rattle.script_audit.specs.laws.Warnings.{AnswersWarnings};

/// What is to be written is what a session leaves of exactly the lines of the script, all of them answered with OK, and all that
/// they changed submitted; and where all are so, it is to be written.
pub fn what_is_left_is_what_the_commands_leave()
    ensures alone { LeavesAllAlone }
    ensures answered { LeavesAllAnswered }
{}

/// The warnings that are told of a line that gives a question a value are those with which the session answers it.
pub fn the_warnings_told_are_those_of_the_session()
    ensures { AnswersWarnings }
{}
