//! Hexadecimal digits.

ghost use Rattle.std.specs.Prelude.{◌≤◌};

/// The lower-case hexadecimal digits of a number that are left, the lowest of them last.
#[derive(Clone, Copy)]
pub(crate) struct HexDigits {
    pub(crate) number: u64,
    pub(crate) count: u32,
    pub ghost few: { count ≤ 16 },
}

impl HexDigits {
    ghost use Rattle.std.specs.Iterator.{YieldsFirstBy};
    ghost use Rattle.form_page.specs.code.Pieces.{digits_left};

    /// Takes the first digit that is left.
    #[tactic(auto, using(crate::proofs::PieceLemmas::first_digit))]
    pub(crate) fn step(&mut self) -> Option<char>
        ensures { YieldsFirstBy (λ c. c) digits_left self.old result self.new }
    {
        if self.count == 0 {
            return None;
        }
        self.count -= 1;
        let digit = (self.number >> (4 * self.count)) % 16;
        Some(char::from_digit(digit as u32, 16).unwrap())
    }
}
