//! Nodes among each other: which faults the chapters find in them, and which the contracts say.

ghost use Rattle.std.specs.Prelude.{ℕ, List, Contains};
ghost use Rattle.ifr_opcodes.specs.Forest.{Node};
ghost use Rattle.ifr_nodes.specs.Checked.{IsChecked};
ghost use Rattle.ifr_nodes.specs.Nodes.{nodes_of};
ghost use Rattle.ifr_nodes.specs.ReferenceFaults.{IsReferenceFault};
ghost use Rattle.browser_rules.specs.Faults.{reference_faults};
ghost use Rattle.hii_bytes.specs.Faults.{AreFaults};
ghost use Rattle.rules_laws.specs.laws.References.{IsWholeRule};

/// Nodes have a fault among each other of a cause at a place by the chapters exactly where they have it by the contracts, if the tree
/// of each rule has the opcodes of its expression: the chapters count these opcodes, and the contracts those of the tree.
pub fn faults_of_references_are_the_same()
    ensures { (ns : List Node) → ((n : Node) → Contains ns n → IsWholeRule n)
        → AreFaults (reference_faults ns) (IsReferenceFault ns) }
{}

/// The tree of each rule of a package whose nodes have no fault by themselves has the opcodes of its expression.
pub fn rules_of_a_checked_package_are_whole()
    ensures { (bytes : List ℕ) (n : Node) → IsChecked bytes → Contains (nodes_of bytes) n → IsWholeRule n }
{}

/// Nodes that have no fault by themselves have the same faults among each other by the chapters and by the contracts.
pub fn faults_of_references_of_a_checked_package_are_the_same()
    ensures { (bytes : List ℕ) → IsChecked bytes
        → AreFaults (reference_faults (nodes_of bytes)) (IsReferenceFault (nodes_of bytes)) }
{}
