//! Objects of `split`.

ghost use Rattle.std.specs.Prelude.{◌<◌, ◌^◌, ℕ, List, ◌∷◌, codes, length};
ghost use Rattle.browser_rules.specs.Strings.{spoken_in};
ghost use Rattle.hii_bytes.specs.Numbers.{AreBytes};
ghost use Rattle.hii_bytes.specs.declared.cause.Fault.{Fault};
ghost use Rattle.hii_dumps.specs.Dumps.{Entry};
ghost use Rattle.hii_packages.specs.Packages.{packages_of};
ghost use Rattle.dump_audit.specs.Findings.{Contents, Refused};
ghost use Rattle.dump_audit.specs.Objects.{list_object, no_list_object, rest_object};
ghost use Rattle.json_laws.specs.laws.Telling.{IsReadBack};

/// What is told of the lists of a dump, and of its rest, is read back.
pub fn objects_of_split_are_read_back()
    ensures contents { (number : ℕ) (list : Entry) → number < 2 ^ 64 → list.place < 2 ^ 64 → length list.bytes < 2 ^ 64 → AreBytes list.bytes
        → IsReadBack (codes "list") (list_object number list (Contents (packages_of list.bytes) (spoken_in list.bytes))) }
    ensures fault { (number : ℕ) (list : Entry) (fault : Fault) → number < 2 ^ 64 → list.place < 2 ^ 64 → length list.bytes < 2 ^ 64 → fault.place < 2 ^ 64
        → IsReadBack (codes "list") (list_object number list (Refused fault)) }
    ensures rest { (place byte : ℕ) (bytes : List ℕ) → place < 2 ^ 64 → length (byte ∷ bytes) < 2 ^ 64
        → IsReadBack (codes "rest") (rest_object place (byte ∷ bytes)) }
    ensures none { (number : ℕ) → IsReadBack (codes "error") (no_list_object number) }
{}
