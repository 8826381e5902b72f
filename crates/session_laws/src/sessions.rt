//! What commands and lines do is what the chapters say.

ghost use Rattle.std.specs.Prelude.{◌≡◌, ℕ, List};
ghost use Rattle.browser_rules.specs.Forest.{nodes_of};
ghost use Rattle.browser_rules.specs.Headline as headline;
ghost use Rattle.browser_rules.specs.Packages.{forms_bytes};
ghost use Rattle.browser_rules.specs.Script.{Command};
ghost use Rattle.browser_rules.specs.Session as chapter;
ghost use Rattle.browser_rules.specs.Stores.{SpellsImage, shape_of};
ghost use Rattle.hii_bytes.specs.Numbers.{AreBytes};
ghost use Rattle.rules_laws.specs.laws.Stores.{stores_for};
ghost use Rattle.session_steps.specs.Opening.{Opens};
ghost use Rattle.session_steps.specs.State.{State};
ghost use Rattle.session_steps.specs.Step.{step, step_line};
ghost use Rattle.session_laws.specs.laws.Session.{Stands, outcome_for, state_for};

/// A command leaves the state, and is answered with the text, that the chapters say; it is denied and refused alike.
pub fn a_command_does_what_the_chapters_say()
    ensures { (s : State) (command : Command) → Stands s → chapter.step (state_for s) command ≡ outcome_for (step s command) }
{}

/// So it is with a line of a script.
pub fn a_line_does_what_the_chapters_say()
    ensures { (s : State) (line : List ℕ) → Stands s → chapter.step_line (state_for s) line ≡ outcome_for (step_line s line) }
{}

/// What holds of a session from its opening on holds behind each command and each line.
pub fn a_session_stands_behind_its_lines()
    ensures opened { (list : List ℕ) (n : ℕ) (image language : List ℕ) (start : State) → Opens list n image language start
        → AreBytes list → AreBytes image → Stands start }
    ensures command { (s : State) (command : Command) → Stands s → Stands (step s command).state }
    ensures line { (s : State) (line : List ℕ) → Stands s → Stands (step_line s line).state }
{}

/// Bytes that open a session begin it in the state that the chapters say, over the stores that the image spells by them.
pub fn a_session_begins_where_the_chapters_say()
    ensures state { (list : List ℕ) (n : ℕ) (image language : List ℕ) (start : State) → Opens list n image language start → Stands start →
        headline.start list n language (stores_for start.working) ≡ state_for start }
    ensures stores { (list : List ℕ) (n : ℕ) (image language : List ℕ) (start : State) → Opens list n image language start →
        SpellsImage (shape_of (nodes_of (forms_bytes list n))) image (stores_for start.working) }
{}

/// By the chapters no command and no line changes the forms package.
pub fn the_package_stays()
    ensures command { (s : chapter.State) (command : Command) → (chapter.step s command).state.ifr ≡ s.ifr }
    ensures line { (s : chapter.State) (line : List ℕ) → (chapter.step_line s line).state.ifr ≡ s.ifr }
{}
