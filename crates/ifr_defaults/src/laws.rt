//! Laws of the definitions that the contracts cite.

ghost use Rattle.ifr_defaults.specs.laws.Numbers.{HaveNumbers};

/// The classes of defaults have the numbers of the standard (UEFI 2.8, 33.2.5.8 Defaults).
pub fn classes_have_the_numbers_of_the_standard()
    ensures { HaveNumbers }
{}
