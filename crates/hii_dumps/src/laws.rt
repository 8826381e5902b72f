//! Laws of the definitions that the contracts cite.

ghost use Rattle.std.specs.Prelude.{◌≡◌, ℕ, List};
ghost use Rattle.hii_dumps.specs.Dumps.{SpellsDump};

/// A dump is one list of lists and one rest at most.
pub fn a_dump_has_one_split()
    ensures { (dump : List ℕ) (lists others : List (List ℕ)) (rest other : List ℕ)
        → SpellsDump dump lists rest → SpellsDump dump others other
        → (lists ≡ others) × (rest ≡ other) }
{}
