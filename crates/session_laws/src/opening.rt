//! What a session is opened over: which least fault the chapters find in it, and which the contracts say.

ghost use Rattle.std.specs.Prelude.{◌≡◌, ◌↔◌, ℕ, List, []};
ghost use Rattle.hii_bytes.specs.Faults.{HasNone, IsLeast, IsLeastAmong};
ghost use Rattle.hii_bytes.specs.Numbers.{AreBytes};
ghost use Rattle.hii_bytes.specs.declared.cause.Fault.{Fault as CodeFault};
ghost use Rattle.session_steps.specs.Opening.{IsOpenFault};
ghost use Rattle.browser_rules.specs.Faults.{open_faults};

/// A list of bytes, a number and an image have the same least fault by the chapters and by the contracts.
pub fn the_least_fault_is_the_same()
    ensures { (list : List ℕ) (number : ℕ) (image : List ℕ) (fault : CodeFault) → AreBytes list
        → (IsLeastAmong (open_faults list number image) fault
        ↔ IsLeast (IsOpenFault list number image) fault) }
{}

/// They have no fault by the chapters exactly where they have none by the contracts.
pub fn what_has_no_fault_is_the_same()
    ensures { (list : List ℕ) (number : ℕ) (image : List ℕ) → AreBytes list
        → ((open_faults list number image ≡ []) ↔ HasNone (IsOpenFault list number image)) }
{}
