//! What is found by numbers of 16 bits.

ghost use Rattle.std.specs.Prelude.{◌≡◌, ◌==◌};
ghost use Rattle.std.specs.List.{find};
ghost use Rattle.std.specs.List.Sorted.{IsSortedByKey};
ghost use Rattle.std.specs.Ordering.{nat_cmp};

/// What has a number by which it is found.
pub(crate) trait Numbered {
    ghost use Rattle.std.specs.Prelude.{◌≡◌, ℕ};

    ghost number_of: { Self → ℕ };

    /// The number.
    fn number(&self) -> u16
        ensures { result ≡ number_of self.now };
}

/// The first of some things that has a number, where they are sorted by their numbers.
pub(crate) fn first_with<T: Numbered + Copy>(things: &[T], number: u16) -> Option<T>
    requires { IsSortedByKey T.number_of nat_cmp things.now }
    ensures { result ≡ find (λ (thing : T). T.number_of thing == number) things.now }
{
    let first = things.partition_point(|thing| thing.number() < number);
    if first < things.len() && things[first].number() == number {
        return Some(things[first]);
    }
    None
}
