//! How wide the numbers of questions are, and how they are shown.

ghost use Rattle.std.specs.Prelude.{◌≡◌, ◌⊎◌};
ghost use Rattle.browser_rules.specs.Opcodes.{number_width};
ghost use Rattle.ifr_opcodes.specs.QuestionFields as fields;

/// How the number of a question is shown (UEFI 2.8, 33.3.8.3, EFI_IFR_DISPLAY).
#[derive(Clone, Copy, Debug, PartialEq, Eq)]
pub enum Display {
    /// As a signed decimal number.
    Signed,
    /// As an unsigned decimal number.
    Unsigned,
    /// As a hexadecimal number.
    Hexadecimal,
}

// How many bytes each number of a question has, by its flags (UEFI 2.8, 33.3.8.3, EFI_IFR_NUMERIC_SIZE).
#[tactic(auto, using(crate::proofs::SizeLemmas::number_widths))]
pub(crate) fn width_of_flags(flags: u8) -> usize
    ensures width { result ≡ number_width flags }
    ensures wide { (result ≡ 1) ⊎ (result ≡ 2) ⊎ (result ≡ 4) ⊎ (result ≡ 8) }
{
    match flags & 0x03 {
        0 => 1,
        1 => 2,
        2 => 4,
        _ => 8,
    }
}

// How the number of a question is shown, by its flags.
pub(crate) fn display_of_flags(flags: u8) -> Display
    ensures { result ≡ fields.display_of_flags flags }
{
    match flags & 0x30 {
        0x00 => Display::Signed,
        0x20 => Display::Hexadecimal,
        _ => Display::Unsigned,
    }
}
