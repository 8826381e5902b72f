//! How many kept conditions commands and lines evaluate anew is what the chapters say.

ghost use Rattle.std.specs.Prelude.{◌≡◌, ℕ, List};
ghost use Rattle.browser_rules.specs.Renewed as chapter;
ghost use Rattle.browser_rules.specs.Script.{Command};
ghost use Rattle.session_steps.specs.Renewed.{Shown, renewed_by, shown_line};
ghost use Rattle.session_steps.specs.State.{State};
ghost use Rattle.session_laws.specs.laws.Session.{Stands, state_for};

/// A command evaluates as many kept conditions anew as the chapters say, and behind a line a session shows the number that they
/// say.
pub fn commands_renew_what_the_chapters_say()
    ensures command { (s : State) (command : Command) → Stands s → chapter.renewed (state_for s) command ≡ renewed_by s command }
    ensures line { (shown : Shown) (line : List ℕ) → Stands shown.state →
        chapter.renewed_line (state_for shown.state) shown.renewed line ≡ (shown_line shown line).renewed }
{}
