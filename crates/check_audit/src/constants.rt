//! Warnings of guards whose conditions name no question.

ghost use Rattle.std.specs.Prelude.{◌≡◌, ◌++◌, OnOk};
ghost use Rattle.ifr_nodes.specs.Accepted.{IsAccepted};
ghost use Rattle.ifr_nodes.specs.Nodes.{nodes_of};
ghost use Rattle.check_audit.specs.Constants.{constant_warnings};
ghost use Rattle.check_audit.specs.code.States.{states_of};

use crate::constant_guards::ConstantGuards;
use crate::guard_states::GuardState;
use crate::warning::{Oddity, Warning};
use std::alloc::AllocError;

// How many of some guards have conditions that name no question.
fn constants_count(states: &[GuardState]) -> usize {
    let mut count = 0;
    for state in states {
        if let GuardState::Asks = state {
            continue;
        }
        count += 1;
    }
    count
}

/// Adds the guards of a package whose conditions name no question, in the rules that they name neither. Its guards have
/// these states. Room is taken for as many as there are.
pub(crate) fn add_constants(
    ifr: &[u8],
    states: &[GuardState],
    warnings: &mut Vec<Warning>,
) -> Result<(), AllocError>
    requires accepted { IsAccepted ifr.now }
    requires told { states.now ≡ states_of (nodes_of ifr.now) }
    ensures { OnOk result (warnings.new.items ≡ warnings.old.items ++ constant_warnings (nodes_of ifr.now)) }
{
    warnings.reserve_exact(constants_count(states))?;
    let mut guards = ConstantGuards::over(ifr, states);
    while let Some(guard) = guards.step() {
        warnings.push(Warning {
            place: guard.node.op().place,
            oddity: Oddity::Constant(guard.holds),
        })?;
    }
    Ok(())
}
