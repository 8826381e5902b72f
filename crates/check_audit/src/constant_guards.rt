//! The guards of a package whose conditions name no question.

ghost use Rattle.std.specs.Prelude.{◌≡◌, ◌∷◌, [], true, List, MatchOption};
ghost use Rattle.ifr_opcodes.specs.Forest.{Node as Placed};
ghost use Rattle.ifr_opcodes.specs.Opcode.{number};
ghost use Rattle.ifr_nodes.specs.Checked.{IsChecked};
ghost use Rattle.ifr_nodes.specs.Guards.{is_guard};
ghost use Rattle.ifr_nodes.specs.Nodes.{nodes_of};
ghost use Rattle.ifr_nodes.specs.code.Views.{node_of};
ghost use Rattle.check_audit.specs.Constants.{constant_guards, holds_always};
ghost use Rattle.check_audit.specs.code.States.{AreStatesOf, constants_left, next_state, states_behind, states_of};

use crate::guard_states::GuardState;
use ifr_nodes::{Node, Nodes};

/// A guard whose condition names no question.
#[derive(Clone, Copy)]
pub(crate) struct ConstantGuard<'a> {
    pub node: Node<'a>,
    /// Whether its condition holds.
    pub holds: bool,
}

/// Those that are left of a package, by place.
#[derive(Drop)]
pub(crate) struct ConstantGuards<'s, 'a> {
    nodes: Nodes<'a>,
    // Of the guards that are left.
    states: &'s [GuardState],
}

// Takes the first of some states off these.
fn take_state(states: &mut &[GuardState]) -> GuardState
    ensures first { result ≡ next_state states.old.now }
    ensures left { states.new.now ≡ states_behind states.old.now }
{
    match *states {
        [state, left @ ..] => {
            let state = *state;
            *states = left;
            state
        }
        [] => GuardState::Asks,
    }
}

impl<'s, 'a> ConstantGuards<'s, 'a> {
    /// All of a package, whose guards have these states.
    pub(crate) fn over(ifr: &'a [u8], states: &'s [GuardState]) -> ConstantGuards<'s, 'a>
        requires checked { IsChecked ifr.now }
        requires told { states.now ≡ states_of (nodes_of ifr.now) }
        ensures told { AreStatesOf (nodes_of ifr.now) result }
        ensures all { constants_left (nodes_of ifr.now) result ≡ constant_guards (nodes_of ifr.now) }
    {
        ConstantGuards {
            nodes: Nodes::over(ifr),
            states,
        }
    }

    /// Goes to the next one.
    pub(crate) fn step(&mut self) -> Option<ConstantGuard<'a>>
        ensures { (ns : List Placed) → AreStatesOf ns self.old → MatchOption result
            (constants_left ns self.old ≡ [])
            (λ guard. (constants_left ns self.old ≡ node_of guard.node ∷ constants_left ns self.new)
            × (is_guard (number (node_of guard.node).op) ≡ true)
            × (guard.holds ≡ holds_always ns (node_of guard.node)) × AreStatesOf ns self.new) }
    {
        while let Some(node) = self.nodes.step() {
            if !node.is_guard() {
                continue;
            }
            match take_state(&mut self.states) {
                GuardState::Asks => {}
                GuardState::Holds => return Some(ConstantGuard { node, holds: true }),
                GuardState::Fails => return Some(ConstantGuard { node, holds: false }),
            }
        }
        None
    }
}
