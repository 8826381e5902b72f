//! Laws of the definitions that the contracts cite.

ghost use Rattle.std.specs.Prelude.{◌≡◌, ℕ, Bool, List};
ghost use Rattle.audit_json.specs.declared.telling.Telling.{Telling};
ghost use Rattle.dump_audit.specs.Lines.{IsSplitText};

/// A dump has one text at most, told in lines or in objects.
pub fn a_dump_has_one_text()
    ensures { (telling : Telling) → (is was : Bool) → (dump text other : List ℕ)
        → IsSplitText telling is dump text → IsSplitText telling was dump other
        → text ≡ other }
{}
