//! Laws of the definitions that the contracts cite.

ghost use Rattle.std.specs.Prelude.{◌≡◌, ◌↔◌, ℕ, List, true};
ghost use Rattle.browser_rules.specs.Words as chapter;
ghost use Rattle.hii_bytes.specs.Causes.{cause_for};
ghost use Rattle.hii_bytes.specs.Numbers.{AreBytes};
ghost use Rattle.hii_bytes.specs.NumberList.{IsNumberList, IsList, is_number_list, numbers_of};
ghost use Rattle.hii_bytes.specs.declared.cause.Cause.{Cause};

/// Each cause of the chapters is one of the code, and no two of the code are one of the chapters.
pub fn each_cause_has_one_of_the_chapters()
    ensures all { (cause : chapter.Cause) → (code : Cause) × (cause_for code ≡ cause) }
    ensures apart { (cause other : Cause) → cause_for cause ≡ cause_for other → cause ≡ other }
{}

/// A text is one list of numbers at most, that of the function `numbers_of`.
pub fn one_list_of_numbers_is_written()
    ensures { (text numbers : List ℕ) → IsNumberList text numbers → numbers_of text ≡ numbers }
{}

/// The test `is_number_list` finds exactly the texts that are lists of numbers.
pub fn lists_of_numbers_are_found()
    ensures { (text : List ℕ) → IsList text ↔ (is_number_list text ≡ true) }
{}

/// No byte is above 255.
pub fn are_bytes(bytes: &[u8])
    ensures { AreBytes bytes.now }
{}
