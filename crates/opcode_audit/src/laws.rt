//! Laws of the definitions that the contracts cite.

ghost use Rattle.std.specs.Prelude.{◌≡◌, ℕ, List};
ghost use Rattle.browser_rules.specs.Packages.{Package};
ghost use Rattle.browser_rules.specs.Strings.{Spoken};
ghost use Rattle.audit_json.specs.declared.telling.Telling.{Telling};
ghost use Rattle.opcode_audit.specs.Lines.{opcodes_text};
ghost use Rattle.opcode_audit.specs.laws.Telling.{TellsOpcodes};

/// The hex digits of the lines or objects are, one after the other, those of the package behind its header, to its end or where no
/// opcode fits; each begins with the place that is the sum of the lengths before it; and no byte of a text ends one.
pub fn lines_tell_the_package()
    ensures { (telling : Telling) (spoken : List Spoken) (start : ℕ) (p : Package)
        → TellsOpcodes telling p.bytes (opcodes_text telling spoken start p) }
{}
