//! Laws of the definitions that the contracts cite.

ghost use Rattle.std.specs.Prelude.{◌≡◌, ◌≤◌, ℕ, List, [], ◌++◌, length, map, Ok};
ghost use Rattle.browser_rules.specs.Faults.{string_package_faults};
ghost use Rattle.browser_rules.specs.Packages.{Package};
ghost use Rattle.browser_rules.specs.Strings.{Texts, block, front_of, texts_from, Spoken, spoken_by};
ghost use Rattle.sibt_strings.specs.code.Blocks.{texts_said};
ghost use Rattle.sibt_strings.specs.laws.Numbers.{HaveNumbers};
ghost use Rattle.sibt_strings.specs.laws.Spelling.{WholeBlock, HasGoodFields, AreSpelled, Speaks, added, said, spell};

/// The blocks have the numbers of the standard (UEFI 2.8, 33.3.6.2 String Information).
pub fn blocks_have_the_numbers_of_the_standard()
    ensures { HaveNumbers }
{}

/// What stands at the front of bytes is a whole block exactly where they begin with the bytes that spell one, and the texts
/// of bytes are read exactly where they are spelled blocks up to an end block.
pub fn blocks_are_read_as_they_are_spelled()
    ensures read { (texts : Texts) (whole : WholeBlock) (rest : List ℕ) → HasGoodFields whole
        → front_of texts (spell whole ++ rest) ≡ block (added texts whole) rest }
    ensures spelled { (texts : Texts) (bytes : List ℕ) (more : Texts) (rest : List ℕ)
        → front_of texts bytes ≡ block more rest → (whole : WholeBlock) × HasGoodFields whole
        × (added texts whole ≡ more) × (bytes ≡ spell whole ++ rest) }
    ensures all { (bytes : List ℕ) (blocks : List WholeBlock) (n at : ℕ) → AreSpelled bytes blocks
        → length bytes ≤ n → texts_from n [] at bytes ≡ Ok (texts_said (map said blocks)) }
    ensures all_spelled { (bytes : List ℕ) (texts : Texts) (n at : ℕ) → texts_from n [] at bytes ≡ Ok texts →
        (blocks : List WholeBlock) × AreSpelled bytes blocks × (texts_said (map said blocks) ≡ texts) }
{}

/// A string package says one thing at most, which is what is read.
pub fn a_package_says_one_thing()
    ensures one { (p : Package) (spoken other : Spoken) → Speaks p spoken → Speaks p other
        → spoken ≡ other }
    ensures read { (p : Package) (spoken : Spoken) → Speaks p spoken → spoken ≡ spoken_by p }
{}

/// A string package that says something has no fault.
pub fn packages_that_speak_have_no_fault()
    ensures { (p : Package) (spoken : Spoken) → Speaks p spoken → string_package_faults p ≡ [] }
{}

/// A string package without a fault says what is read.
pub fn packages_without_fault_speak()
    ensures { (p : Package) → string_package_faults p ≡ [] → Speaks p (spoken_by p) }
{}
