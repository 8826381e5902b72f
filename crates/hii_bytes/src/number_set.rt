//! Sets of numbers of 16 bits.

ghost use Rattle.std.specs.Prelude.{◌≡◌, ◌||◌, ◌==◌, not, false, ℕ, IfOk};
ghost use Rattle.hii_bytes.specs.code.NumberSets.{has_number};

use std::alloc::{AllocError, Global};
use std::marker::Model;

/// A set of numbers of 16 bits, as a table of all: it is asked and filled without a search (own rule). It is seen as
/// whether each number is in it.
#[derive(Drop)]
pub struct NumberSet {
    has: Vec<bool>,
}

impl Model for NumberSet {
    ghost use Rattle.std.specs.Prelude.{◌≡◌, Bool, List, length};

    ghost Value = { List Bool };

    ghost view = { λ s. s.has.items };

    ghost invariant = { λ s. length s.has.items ≡ 65536 };
}

impl NumberSet {
    /// The empty set.
    pub fn new(alloc: Global) -> Result<NumberSet, AllocError>
        ensures { IfOk result (λ numbers. (number : ℕ) → has_number numbers number ≡ false) }
    {
        let mut has = Vec::new(alloc);
        has.extend_from_slice(&[false; 65_536])?;
        Ok(NumberSet { has })
    }

    /// Whether it has a number.
    pub fn contains(&self, number: u16) -> bool
        ensures { result ≡ has_number self.now number }
    {
        self.has[usize::from(number)]
    }

    /// Adds a number, and tells whether it had it not.
    pub fn insert(&mut self, number: u16) -> bool
        ensures new { result ≡ not (has_number self.old number) }
        ensures numbers { (other : ℕ) → has_number self.new other
            ≡ (number == other || has_number self.old other) }
    {
        let at = usize::from(number);
        let is_new = !self.has[at];
        self.has[at] = true;
        is_new
    }
}
