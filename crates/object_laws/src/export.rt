//! Objects of `export`, and those of `diff` that tell bytes.

ghost use Rattle.std.specs.Prelude.{◌<◌, ◌≤◌, ◌^◌, ℕ, List, codes, length};
ghost use Rattle.std.specs.List.{AllByRecursion};
ghost use Rattle.hii_bytes.specs.Numbers.{AreBytes};
ghost use Rattle.ifr_opcodes.specs.Forest.{Node};
ghost use Rattle.image_audit.specs.Difference.{run_object};
ghost use Rattle.image_audit.specs.Export.{store_object};
ghost use Rattle.image_audit.specs.Lines.{piece_object};
ghost use Rattle.json_laws.specs.laws.Telling.{IsReadBack};

/// What is told of the bytes of a store, or of at most eight of them, and of bytes that are others in another image is read back.
pub fn objects_of_bytes_are_read_back()
    ensures store { (ns : List Node) (id : ℕ) (bytes : List ℕ) → AllByRecursion (λ n. AreBytes n.op) ns → id < 2 ^ 64 → length bytes < 2 ^ 64
        → IsReadBack (codes "store") (store_object ns id bytes) }
    ensures piece { (ns : List Node) (id store at : ℕ) (bytes : List ℕ) → AllByRecursion (λ n. AreBytes n.op) ns → id < 2 ^ 64 → at < 2 ^ 64 → AreBytes bytes → length bytes ≤ 8
        → IsReadBack (codes "set") (piece_object ns id store at bytes) }
    ensures run { (ns : List Node) (store at : ℕ) (xs ys : List ℕ) → AllByRecursion (λ n. AreBytes n.op) ns → store < 2 ^ 64 → at < 2 ^ 64 → AreBytes xs → AreBytes ys
        → IsReadBack (codes "bytes") (run_object ns store at xs ys) }
{}
