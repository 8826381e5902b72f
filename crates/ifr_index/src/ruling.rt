//! The rules of a package that has an index.

ghost use Rattle.std.specs.Prelude.{IfOk, IfErr, OnOk};
ghost use Rattle.hii_bytes.specs.Faults.{HasNone, Refuses};
ghost use Rattle.ifr_nodes.specs.Checked.{IsChecked};
ghost use Rattle.ifr_nodes.specs.Nodes.{nodes_of};
ghost use Rattle.ifr_nodes.specs.ReferenceFaults.{IsReferenceFault};
ghost use Rattle.ifr_nodes.specs.code.KeptRules.{AreKeptRules};
ghost use Rattle.ifr_index.specs.code.Tables.{IsIndexOf};

use crate::index::Index;
use hii_bytes::Fault;
use ifr_nodes::{RuleTable, check_references};
use std::alloc::Global;

/// The rules of a package, or its least fault of nodes among each other, as `check_references` tells it. Where the index knows that
/// there is neither, the nodes are not met again.
pub fn rules_of(alloc: Global, ifr: &[u8], index: &Index) -> Result<RuleTable, Fault>
    requires checked { IsChecked ifr.now }
    requires index { IsIndexOf (nodes_of ifr.now) index.now }
    ensures sound { OnOk result (HasNone (IsReferenceFault (nodes_of ifr.now))) }
    ensures kept { IfOk result (AreKeptRules (nodes_of ifr.now)) }
    ensures refused { IfErr result (Refuses (IsReferenceFault (nodes_of ifr.now))) }
{
    if index.referred {
        return Ok(RuleTable::new(alloc));
    }
    check_references(alloc, ifr, &index.forms)
}
