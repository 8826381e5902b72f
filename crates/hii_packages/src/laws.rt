//! Laws of the definitions that the contracts cite.

ghost use Rattle.std.specs.Prelude.{◌≡◌, ◌↔◌, ◌≤◌, ◌==◌, ℕ, List, [], true, length, map, filter, drop, take, IsSome};
ghost use Rattle.std.specs.List.{AllByRecursion};
ghost use Rattle.browser_rules.specs.Faults.{list_faults, number_faults};
ghost use Rattle.browser_rules.specs.Packages.{forms_package, is_bad, list_length, packages_with};
ghost use Rattle.hii_bytes.specs.Faults.{AreFaults, IsLeast, IsLeastAmong};
ghost use Rattle.hii_bytes.specs.declared.cause.Fault.{Fault};
ghost use Rattle.hii_packages.specs.Packages.{packages_of};
ghost use Rattle.hii_packages.specs.laws.Faults.{IsBadLength, IsListFault};
ghost use Rattle.hii_packages.specs.laws.Numbers.{HaveNumbers};
ghost use Rattle.hii_packages.specs.laws.Places.{LiesIn};
ghost use Rattle.hii_packages.specs.laws.Spelling.{SpellsPackages, placed};

/// The Types of packages have the numbers of the standard (UEFI 2.8, 33.3.1 Package Lists and Package Headers).
pub fn packages_have_the_numbers_of_the_standard()
    ensures { HaveNumbers }
{}

/// Bytes spell one list of packages at most.
pub fn one_list_is_spelled()
    ensures { (list : List ℕ) (ps qs : List (List ℕ)) → SpellsPackages list ps
        → SpellsPackages list qs → ps ≡ qs }
{}

/// Bytes that spell packages have no fault.
pub fn spelled_bytes_have_no_fault()
    ensures { (list : List ℕ) (ps : List (List ℕ)) → SpellsPackages list ps → list_faults list ≡ [] }
{}

/// Bytes have no fault exactly where they spell the packages that are read.
pub fn bytes_without_fault_are_spelled()
    ensures { (list : List ℕ) → ((list_faults list ≡ [])
        ↔ SpellsPackages list (map (λ p. p.bytes) (packages_of list))) }
{}

/// The packages that a list spells are read, each at its place, and so are those of a Type.
pub fn packages_that_are_spelled_are_read()
    ensures all { (list : List ℕ) (ps : List (List ℕ)) → SpellsPackages list ps
        → packages_of list ≡ placed 20 ps }
    ensures of_type { (list : List ℕ) (ps : List (List ℕ)) (kind : ℕ) → SpellsPackages list ps
        → packages_with kind list ≡ filter (λ p. p.kind == kind) (placed 20 ps) }
{}

/// A list has a forms package of a number exactly where the number has no fault.
pub fn forms_without_fault_are_there()
    ensures { (list : List ℕ) (n : ℕ) → ((number_faults list n ≡ []) ↔ IsSome (forms_package list n)) }
{}

/// In a list without a fault each package's bytes are those of the list at its place.
pub fn packages_lie_at_their_places()
    ensures { (list : List ℕ) → list_faults list ≡ [] → AllByRecursion (LiesIn list) (packages_of list) }
{}

/// No whole package stands at the front of what is left of a list exactly where the package there has a bad length.
pub fn a_bad_package_has_a_bad_length()
    ensures { (list : List ℕ) (place : ℕ) → list_length list ≤ length list
        → ((is_bad (drop place (take (list_length list) list)) ≡ true) ↔ IsBadLength list place) }
{}

/// Faults of a list that are listed are those that are said by their places, and the least of them is the same.
pub fn faults_of_a_list_are_the_same()
    ensures faults { (list : List ℕ) → AreFaults (list_faults list) (IsListFault list) }
    ensures least { (list : List ℕ) (fault : Fault)
        → (IsLeastAmong (list_faults list) fault ↔ IsLeast (IsListFault list) fault) }
{}
