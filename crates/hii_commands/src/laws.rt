//! Laws of the definitions that the contracts cite.

ghost use Rattle.std.specs.Prelude.{◌≡◌, ◌↔◌, ◌++◌, ℕ, List, Ok, Err};
ghost use Rattle.std.specs.List.{concat};
ghost use Rattle.browser_rules.specs.Script.{Command, command_of, cut_lines};
ghost use Rattle.hii_commands.specs.Meaning.{cause_meant};
ghost use Rattle.hii_commands.specs.declared.command.BadLine.{BadLine};
ghost use Rattle.hii_commands.specs.laws.Asking.{Asks, Means, IsRefused};
ghost use Rattle.hii_commands.specs.laws.Limits.{HaveLimits};
ghost use Rattle.hii_commands.specs.laws.Lines.{AreLines, cut_pieces, joined};

/// Lines and scripts have the limits of the rules.
pub fn lines_and_scripts_have_their_limits()
    ensures { HaveLimits }
{}

/// A text has the form of one command at most.
pub fn one_command_is_asked()
    ensures { (text : List ℕ) (a b : Command) → Asks text a → Asks text b → a ≡ b }
{}

/// The rules find exactly the command whose form a line has, and refuse exactly the lines that are too long or have the
/// form of none.
pub fn asked_commands_are_found()
    ensures good { (line : List ℕ) (command : Command) → Means line command ↔ (command_of line ≡ Ok command) }
    ensures bad { (line : List ℕ) (bad : BadLine) → IsRefused line bad ↔ (command_of line ≡ Err (cause_meant bad)) }
{}

/// The bytes are cut into exactly the lines with an LF behind them and what is left.
pub fn lines_are_those_before_an_lf()
    ensures { (bytes : List ℕ) (lines : List (List ℕ)) (rest : List ℕ) →
        (cut_lines bytes ≡ (lines, rest)) ↔ AreLines bytes lines rest }
{}

/// Which lines come does not depend on how the script is cut.
pub fn lines_do_not_depend_on_the_pieces()
    ensures two { (front back : List ℕ) → cut_lines (front ++ back)
        ≡ joined (cut_lines front) (cut_lines back) }
    ensures all { (pieces : List (List ℕ)) → cut_pieces pieces ≡ cut_lines (concat pieces) }
{}
