//! What is tried, and what was.

ghost use Rattle.std.specs.Prelude.{◌≡◌, ◌+◌, ◌≤◌, ◌<◌, ◌∷◌, ◌++◌, [], length, option_map};

use crate::moves::Move;
use arrayvec::ArrayVec;

/// Commands, one after the other, or a field that is written.
#[derive(Drop)]
pub(crate) enum Try {
    Commands(ArrayVec<Move, 3>),
    Write(Move),
}

/// How many tries are left, how many were made, and the one that opens the question.
#[derive(Drop)]
pub(crate) struct Tally {
    pub(crate) left: u64,
    pub(crate) tried: u64,
    pub(crate) found: Option<Try>,
    pub ghost few: { left + tried ≤ 65536 },
}

impl Tally {
    ghost use Rattle.unlock_audit.specs.code.Counting.{begun_tally, counted};
    ghost use Rattle.unlock_audit.specs.code.Counting as spec;
    ghost use Rattle.unlock_audit.specs.code.Tallies.{tally_meant, try_meant};

    /// None are made.
    pub(crate) fn new(most: u64) -> Tally
        requires { most ≤ 65536 }
        ensures { tally_meant result ≡ begun_tally most }
    {
        Tally {
            left: most,
            tried: 0,
            found: None,
        }
    }

    /// Whether no further one is made.
    pub(crate) fn is_done(&self) -> bool
        ensures { result ≡ spec.is_done (tally_meant self.now) }
    {
        self.found.is_some() || self.left == 0
    }

    /// A try was made, and this is it, where it opens the question.
    pub(crate) fn count(&mut self, opening: Option<Try>)
        requires { 0 < self.old.left }
        ensures { tally_meant self.new ≡ counted (tally_meant self.old) (option_map try_meant opening) }
    {
        let left = self.left - 1;
        let tried = self.tried + 1;
        *self = Tally {
            left,
            tried,
            found: opening,
        };
    }
}

/// A list with one more command.
pub(crate) fn longer(list: &[Move], each: Move) -> ArrayVec<Move, 3>
    requires { length list.now ≤ 2 }
    ensures { result.items ≡ list.now ++ each ∷ [] }
{
    let mut longer = ArrayVec::new();
    // There is room for them.
    let _ = longer.try_extend_from_slice(list);
    longer.push(each);
    longer
}
