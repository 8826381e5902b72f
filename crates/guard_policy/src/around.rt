//! The conditions around forms, statements and options.

ghost use Rattle.std.specs.Prelude.{◌≡◌, true};
ghost use Rattle.std.specs.Iterator.{YieldsFirstBy};
ghost use Rattle.ifr_opcodes.specs.Forest.{Node};
ghost use Rattle.ifr_nodes.specs.code.Checked.{IsNodeOf};
ghost use Rattle.ifr_index.specs.code.Index.{is_indexed};
ghost use Rattle.ifr_scopes.specs.code.Lists.{guard_node};
ghost use Rattle.guard_policy.specs.code.AskedLeft.{numbered_left, around_left, around_one_left};
ghost use Rattle.guard_policy.specs.laws.Support.{suppressing, around};

use ifr_opcodes::{GRAY_OUT_IF, SUPPRESS_IF};
use ifr_scopes::{Forms, Guard, GuardsAt};

// The next guard of a number.
fn next_of<'a>(guards: &mut GuardsAt<'_, 'a>, code: u8) -> Option<Guard<'a>>
    ensures { YieldsFirstBy guard_node (numbered_left code) guards.old result guards.new }
{
    while let Some(guard) = guards.step() {
        if guard.code() == code {
            return Some(guard);
        }
    }
    None
}

/// The guards around a form, a statement or an option on whose conditions a decision depends, those that are left: the
/// SUPPRESS_IFs, the outermost first, and then the GRAY_OUT_IFs where it is about a change.
#[derive(Drop)]
pub(crate) struct Around<'a, 's> {
    suppressing: GuardsAt<'s, 'a>,
    graying_out: Option<GuardsAt<'s, 'a>>,
}

impl<'a, 's> Around<'a, 's> {
    /// The guards that may hide the form, statement or option at a place.
    pub(crate) fn hiding(forms: &'s Forms<'a>, place: u32) -> Around<'a, 's>
        ensures { (n : Node) → IsNodeOf forms.now n → is_indexed n ≡ true → n.place ≡ place
            → around_left result ≡ suppressing n }
    {
        Around {
            suppressing: forms.guards_at(place),
            graying_out: None,
        }
    }

    /// The guards that may hide the form, statement or option at a place or let it not be changed.
    pub(crate) fn changing(forms: &'s Forms<'a>, place: u32) -> Around<'a, 's>
        ensures { (n : Node) → IsNodeOf forms.now n → is_indexed n ≡ true → n.place ≡ place
            → around_left result ≡ around n }
    {
        let graying_out = forms.guards_at(place);
        let suppressing = forms.guards_at(place);
        Around {
            suppressing,
            graying_out: Some(graying_out),
        }
    }

    /// Goes to the next.
    pub(crate) fn step(&mut self) -> Option<Guard<'a>>
        ensures { YieldsFirstBy guard_node around_left self.old result self.new }
    {
        if let Some(guard) = next_of(&mut self.suppressing, SUPPRESS_IF) {
            return Some(guard);
        }
        match &mut self.graying_out {
            Some(guards) => next_of(guards, GRAY_OUT_IF),
            None => None,
        }
    }
}

/// The next guard around what stands at a place, if there is one.
pub(crate) fn next_around<'a>(around: &mut Option<Around<'a, '_>>) -> Option<Guard<'a>>
    ensures { YieldsFirstBy guard_node around_one_left around.old result around.new }
{
    match around {
        Some(around) => around.step(),
        None => None,
    }
}
