//! Objects of `stores` and `image`.

ghost use Rattle.std.specs.Prelude.{◌≡◌, ◌<◌, ◌^◌, ℕ, List, codes};
ghost use Rattle.hii_bytes.specs.Numbers.{AreBytes};
ghost use Rattle.ifr_opcodes.specs.Forest.{Node};
ghost use Rattle.laid_defaults.specs.Laying.{Laid};
ghost use Rattle.store_audit.specs.Defaulted.{count_object};
ghost use Rattle.store_audit.specs.Fillings.{count_from, filled_object, refused_object, wanted_of};
ghost use Rattle.store_audit.specs.HeaderLines.{header_object};
ghost use Rattle.store_audit.specs.StoreLines.{store_object};
ghost use Rattle.store_audit.specs.declared.fillings.Source.{Source};
ghost use Rattle.json_laws.specs.laws.Telling.{IsReadBack};
ghost use Rattle.object_laws.specs.laws.Stores.{HasAlias};

/// What `stores` tells of a store, and the header that names it, is read back.
pub fn objects_of_stores_are_read_back()
    ensures store { (n : Node) → n.place < 2 ^ 64 → AreBytes n.op → IsReadBack (codes "store") (store_object n) }
    ensures header { (path : List ℕ) (n : Node) → AreBytes path → AreBytes n.op → IsReadBack (codes "header") (header_object path n) }
{}

/// What `image` tells of a store that it fills, of one that it does not, and of defaults is read back.
pub fn objects_of_image_are_read_back()
    ensures filled { (n : Node) (source : Source) → AreBytes n.op → count_from (wanted_of n) source < 2 ^ 64 → HasAlias source → IsReadBack (codes "store") (filled_object n source) }
    ensures refused { (n : Node) (source : Source) → IsReadBack (codes "error") (refused_object n source) }
    ensures defaults { (laid : Laid) (class : ℕ) → laid.count < 2 ^ 64 → class < 2 ^ 64 → IsReadBack (codes "defaults") (count_object laid class) }
{}
