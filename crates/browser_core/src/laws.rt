//! Laws of the definitions that the contracts cite.

ghost use Rattle.std.specs.Prelude.{◌≡◌, ◌≢◌, ℕ, List};
ghost use Rattle.hii_bytes.specs.Faults.{HasNone};
ghost use Rattle.browser_rules.specs.Script.{Command};
ghost use Rattle.browser_core.specs.laws.Good.{AreGood};
ghost use Rattle.browser_core.specs.laws.Bytes.{ChangesNamedBytesAlone, KeepsOtherBytes};
ghost use Rattle.session_steps.specs.Opening.{Opens, IsOpenFault};
ghost use Rattle.browser_core.specs.laws.Sealed.{DecidingHasAll, DecidingHasNoOthers, SealedQuestionsAnswerAlike, SessionsAreLaid};
ghost use Rattle.browser_rules.specs.Session as chapter;
ghost use Rattle.browser_core.specs.Opening as rules;
ghost use Rattle.session_steps.specs.State.{State};
ghost use Rattle.session_steps.specs.Step.{step, step_line};

use hii_packages::PackageList;
use hii_varstore::laws::images_without_fault_are_spelled;
use ifr_scopes::laws::bytes_without_framing_fault_are_spelled;
use session_steps::Reply;

/// Good bytes have no fault.
pub fn good_bytes_have_no_fault()
    ensures { (list : List ℕ) (n : ℕ) (image : List ℕ) → AreGood list n image
        → HasNone (IsOpenFault list n image) }
{}

/// Bytes without a fault are good: the list has none, its string packages say texts, its forms package of the number is there,
/// spells a well-formed form set and has good ids, stores and questions, and the image spells its stores.
pub fn bytes_without_fault_are_good(list: &[u8], forms: usize, image: &[u8])
    ensures { HasNone (IsOpenFault list.now forms image.now) → AreGood list.now forms image.now }
{
    let Ok(packages) = PackageList::read(list) else {
        return;
    };
    let Ok(source) = packages.forms(forms) else {
        return;
    };
    bytes_without_framing_fault_are_spelled(source.bytes);
    images_without_fault_are_spelled();
}

/// Good bytes open a session in any language, and what opens one are good bytes.
pub fn good_bytes_open()
    ensures opens { (list : List ℕ) (n : ℕ) (image language : List ℕ) → AreGood list n image →
        (start : State) × Opens list n image language start }
    ensures good { (list : List ℕ) (n : ℕ) (image language : List ℕ) (start : State)
        → Opens list n image language start → AreGood list n image }
{}

/// Bytes that open a session have no fault.
pub fn bytes_that_open_have_no_fault()
    ensures { (list : List ℕ) (n : ℕ) (image language : List ℕ) (start : State)
        → Opens list n image language start → HasNone (IsOpenFault list n image) }
{}

/// Bytes without a fault open a session.
pub fn bytes_without_fault_open(list: &[u8], forms: usize, image: &[u8], language: &[u8])
    ensures { HasNone (IsOpenFault list.now forms image.now) → (start : State)
        × Opens list.now forms image.now language.now start }
{
    bytes_without_fault_are_good(list, forms, image);
    good_bytes_open();
}

/// Bytes open one state at most, by the code's words and by the chapters, so a script has one outcome over them.
pub fn bytes_open_one_state()
    ensures state { (list : List ℕ) (n : ℕ) (image language : List ℕ) (a b : State)
        → Opens list n image language a → Opens list n image language b → a ≡ b }
    ensures begun { (list : List ℕ) (n : ℕ) (image language : List ℕ) (a b : chapter.State)
        → rules.Opens list n image language a → rules.Opens list n image language b → a ≡ b }
{}

/// A command or a line that is not carried out changes nothing.
pub fn refused_commands_change_nothing()
    ensures commands { (s : State) (command : Command) → (step s command).reply ≢ Reply.Accepted
        → (step s command).state ≡ s }
    ensures lines { (s : State) (line : List ℕ) → (step_line s line).reply ≢ Reply.Accepted
        → (step_line s line).state ≡ s }
{}

/// A command changes no byte of the stores but in the fields that it names, wherever a session stands whose stores were
/// submitted as they stood at first.
pub fn commands_change_named_bytes_alone()
    ensures { ChangesNamedBytesAlone }
{}

/// What commands change are bytes in fields of questions that they set: any other byte stays as it was submitted.
pub fn commands_keep_other_bytes()
    ensures { KeepsOtherBytes }
{}

/// Two sessions over one form set whose stores hold the same bytes in a sealed set of questions answer all commands on these
/// alike, and hold the same there afterwards. The stores of each session are those that its package declares; what seals a
/// set are exactly the conditions of the decisions on changes of its questions.
pub fn sealed_questions_answer_alike()
    ensures alike { SealedQuestionsAnswerAlike }
    ensures laid { SessionsAreLaid }
    ensures all { DecidingHasAll }
    ensures others { DecidingHasNoOthers }
{}
