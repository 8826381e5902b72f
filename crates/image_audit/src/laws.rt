//! Laws of what is told of images.

ghost use Rattle.std.specs.Prelude.{◌≡◌, ℕ, List, [], length};
ghost use Rattle.std.specs.Str.Parse.{digits_value};
ghost use Rattle.byteorder.specs.Endian.{little_bytes};
ghost use Rattle.hii_bytes.specs.Faults.{HasNone};
ghost use Rattle.hii_bytes.specs.Numbers.{AreBytes};
ghost use Rattle.hii_varstore.specs.StoreNodes.{IsStoreFault, layout_of};
ghost use Rattle.hii_varstore.specs.Stores.{shape_of};
ghost use Rattle.question_audit.specs.Audited.{Audited};
ghost use Rattle.audit_json.specs.declared.telling.Telling.{Telling};
ghost use Rattle.image_audit.specs.Difference.{difference_told};
ghost use Rattle.image_audit.specs.Lines.{number_digits};

/// The number of a line, its lowest byte first, is the bytes of which it is told.
pub fn a_number_spells_its_bytes()
    ensures { (bytes : List ℕ) → AreBytes bytes
        → little_bytes (length bytes) (digits_value 16 (number_digits bytes)) ≡ bytes }
{}

/// Nothing is told of a form set over the same stores, and where nothing is told the stores are the same.
pub fn nothing_is_told_of_equal_stores()
    ensures same { (telling : Telling) → (a : Audited) → difference_told telling a a ≡ [] }
    ensures others { (telling : Telling) → (a b : Audited) → shape_of a.stores ≡ layout_of a.world.nodes
        → shape_of b.stores ≡ layout_of a.world.nodes → HasNone (IsStoreFault a.world.nodes)
        → difference_told telling a b ≡ [] → a.stores ≡ b.stores }
{}
