//! Laws of the numbers that the contracts cite.

ghost use Rattle.ifr_opcodes.specs.laws.Standard.{OpcodesAreNumbered, KindsAreNumbered};

/// The opcodes have the numbers of the standard (UEFI 2.8, 33.3.8.3, under the name of each).
pub fn opcodes_have_the_numbers_of_the_standard()
    ensures { OpcodesAreNumbered }
{}

/// The Types of values have the numbers of the standard (UEFI 2.8, 33.3.8.3, EFI_IFR_ONE_OF_OPTION).
pub fn kinds_of_values_have_the_numbers_of_the_standard()
    ensures { KindsAreNumbered }
{}
