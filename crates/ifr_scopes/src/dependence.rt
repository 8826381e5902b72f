//! The questions on whose answers an expression depends.

ghost use Rattle.std.specs.Prelude.{reverse};
ghost use Rattle.ifr_scopes.specs.code.Frames.{HaveRoom, HaveRoom-prop};
ghost use Rattle.ifr_nodes.specs.code.Rules.{rules_of};

use crate::forms::Forms;
use arrayvec::ArrayVec;
use ifr_expr::{Expr, Name, Names, Rules};

/// What is left of an expression, and the id of the question in whose scope it stands, or 0.
#[derive(Default, Drop)]
pub(crate) struct Frame<'a> {
    pub(crate) names: Names<'a>,
    pub(crate) this: u16,
}

/// The ids of the questions on whose answers an expression depends, those that are left: those that it names, for THIS
/// the question in whose scope it stands, and those on which the rules that it names depend.
#[derive(Drop)]
pub struct Dependence<'s, 'a> {
    forms: &'s Forms<'a>,
    frames: ArrayVec<Frame<'a>, 17>,
    pub ghost room: { HaveRoom (rules_of forms.now) (reverse frames.items) } by { HaveRoom-prop (rules_of forms.now) (reverse frames.items) },
}

impl<'a> Forms<'a> {
    ghost use Rattle.std.specs.Prelude.{◌≡◌};
    ghost use Rattle.ifr_expr.specs.Dependence.{dependence};
    ghost use Rattle.ifr_expr.specs.code.Expressions.{tree_of};
    ghost use Rattle.ifr_scopes.specs.code.DependenceLeft.{dependence_left};

    /// The questions on whose answers an expression depends that stands in the scope of the question of an id, or of 0 for
    /// none. It takes no memory.
    pub fn dependence(&self, expr: Expr<'a>, this: u16) -> Dependence<'_, 'a>
        ensures { dependence_left result
            ≡ dependence (rules_of self.now) this (tree_of expr.entry) }
    {
        // The package is accepted, so that no rule is too deep.
        self.bytes();
        let mut frames = ArrayVec::new();
        frames.push(Frame {
            names: expr.names(),
            this,
        });
        Dependence {
            forms: self,
            frames,
        }
    }
}

impl<'s, 'a> Dependence<'s, 'a> {
    ghost use Rattle.std.specs.Iterator.{YieldsFirstBy};
    ghost use Rattle.ifr_scopes.specs.code.DependenceLeft.{dependence_left};

    // Goes to the next.
    fn step(&mut self) -> Option<u16>
        ensures { YieldsFirstBy (λ id. id) dependence_left self.old result self.new }
    {
        while let Some(mut frame) = self.frames.pop() {
            let Some(name) = frame.names.next() else {
                continue;
            };
            let this = frame.this;
            self.frames.push(frame);
            match name {
                Name::Question(id) => return Some(id),
                Name::This => {
                    if this != 0 {
                        return Some(this);
                    }
                }
                Name::Rule(reference) => {
                    if let Some(rule) = self.forms.rule(reference.id, reference.place) {
                        self.frames.push(Frame {
                            names: rule.names(),
                            this: 0,
                        });
                    }
                }
            }
        }
        None
    }
}

impl<'s, 'a> Iterator for Dependence<'s, 'a> {
    ghost use Rattle.std.specs.Iterator.{YieldsFirstBy, item_count};
    ghost use Rattle.ifr_scopes.specs.code.DependenceLeft.{dependence_left};

    type Item = u16;

    ghost next_gives = { YieldsFirstBy (λ id. id) dependence_left };

    ghost remaining = { item_count dependence_left };

    fn next(&mut self) -> Option<u16> {
        self.step()
    }
}
