//! The questions that an expression names.

use crate::names::{Name, Names};

/// The ids of the questions that an expression names, those that are left, by place.
#[derive(Clone, Drop)]
pub struct Support<'a> {
    pub(crate) names: Names<'a>,
}

impl<'a> Support<'a> {
    ghost use Rattle.std.specs.Iterator.{YieldsFirstBy};
    ghost use Rattle.ifr_expr.specs.code.Supports.{ids_left};

    // Goes to the next.
    fn step(&mut self) -> Option<u16>
        ensures { YieldsFirstBy (λ id. id) ids_left self.old result self.new }
    {
        while let Some(name) = self.names.next() {
            match name {
                Name::Question(id) => return Some(id),
                Name::This => {}
                Name::Rule(_) => {}
            }
        }
        None
    }
}

impl<'a> Iterator for Support<'a> {
    ghost use Rattle.std.specs.Iterator.{YieldsFirstBy, item_count};
    ghost use Rattle.ifr_expr.specs.code.Supports.{ids_left};

    type Item = u16;

    ghost next_gives = { YieldsFirstBy (λ id. id) ids_left };

    ghost remaining = { item_count ids_left };

    fn next(&mut self) -> Option<u16> {
        self.step()
    }
}
