//! The LOCKEDs that stand directly in scopes.

ghost use Rattle.std.specs.Prelude.{◌≡◌, ◌∷◌, ℕ, List, Option, IfOk, OnOk};
ghost use Rattle.std.specs.BTreeMap.{get};
ghost use Rattle.std.specs.Ordering.{nat_cmp};
ghost use Rattle.ifr_opcodes.specs.Forest.{Node as Placed};
ghost use Rattle.ifr_nodes.specs.Checked.{IsChecked};
ghost use Rattle.ifr_nodes.specs.Nodes.{nodes_of};
ghost use Rattle.ifr_nodes.specs.code.Around.{IsAround};
ghost use Rattle.ifr_nodes.specs.code.Views.{node_of};
ghost use Rattle.ifr_index.specs.code.LockIndex.{Finds, first_place};

use ifr_nodes::{ScopedNode, ScopedNodes};
use ifr_opcodes::LOCKED;
use std::alloc::{AllocError, Global};
use std::collections::BTreeMap;

// Adds the place of a LOCKED, by the place of what it stands in, where it is the first there.
fn add_lock(
    locks: &mut BTreeMap<u32, u32>,
    nodes: &ScopedNodes,
    met: &ScopedNode,
) -> Result<(), AllocError>
    requires { IsAround nodes.now met.now }
    ensures { OnOk result ((all : ℕ → Option ℕ) (left : List Placed)
        → Finds all (get nat_cmp locks.old) (node_of met.now.node ∷ left)
        → Finds all (get nat_cmp locks.new) left) }
{
    let op = met.node.op();
    if op.code == LOCKED {
        if let Some(scope) = nodes.parent(met) {
            if locks.get(&scope).is_none() {
                locks.insert(scope, op.place)?;
            }
        }
    }
    Ok(())
}

/// The place of the first LOCKED directly in each scope of a package that has one, by the place of what opens the scope.
pub fn scope_locks(alloc: Global, ifr: &[u8]) -> Result<BTreeMap<u32, u32>, AllocError>
    requires { IsChecked ifr.now }
    ensures { IfOk result (λ locks. (scope : ℕ)
        → get nat_cmp locks scope ≡ first_place (nodes_of ifr.now) scope) }
{
    let mut locks = BTreeMap::new(alloc);
    let mut nodes = ScopedNodes::over(ifr);
    while let Some(met) = nodes.step() {
        add_lock(&mut locks, &nodes, &met)?;
    }
    Ok(locks)
}
