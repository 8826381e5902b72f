//! Objects of `opcodes`.

ghost use Rattle.std.specs.Prelude.{◌<◌, ◌^◌, ◌+◌, ℕ, List, codes};
ghost use Rattle.hii_bytes.specs.Numbers.{AreBytes};
ghost use Rattle.audit_json.specs.declared.telling.Telling.{Telling};
ghost use Rattle.opcode_audit.specs.Lines.{opcode_object, said_first};
ghost use Rattle.json_laws.specs.laws.Telling.{IsReadBack};

/// What is told of an opcode of a list is read back.
pub fn objects_of_opcodes_are_read_back()
    ensures { (telling : Telling) (list : List ℕ) (base place depth : ℕ) (op : List ℕ) → AreBytes list → place < 2 ^ 64 → base + place < 2 ^ 64 → depth < 2 ^ 64 → AreBytes op
        → IsReadBack (codes "opcode") (opcode_object record { telling = telling; spoken = said_first list; base = base } place depth op) }
{}
