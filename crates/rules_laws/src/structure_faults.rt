//! Nodes by themselves: which faults the chapters find in them, and which the contracts say.

ghost use Rattle.std.specs.Prelude.{◌≡◌, ◌⊎◌, ◌↔◌, ℕ, List, []};
ghost use Rattle.hii_bytes.specs.declared.cause.Cause.{Cause};
ghost use Rattle.hii_bytes.specs.declared.cause.Cause.TheVariants.{Misplaced, ScopeBit};
ghost use Rattle.hii_bytes.specs.declared.cause.Fault.{Fault as CodeFault};
ghost use Rattle.hii_bytes.specs.Faults.{AreFaults, HasNone, IsAmong, IsLeast, IsLeastAmong};
ghost use Rattle.ifr_opcodes.specs.Forest.{Node, SpellsForest};
ghost use Rattle.ifr_opcodes.specs.Reading.{tree_of};
ghost use Rattle.ifr_nodes.specs.Nodes.{nodes_of};
ghost use Rattle.ifr_nodes.specs.Structure.{IsStructureFault};
ghost use Rattle.browser_rules.specs.Faults.{structure_faults};
ghost use Rattle.rules_laws.specs.laws.Structure.{AreToldAtNodes, IsOwnFault};

/// Nodes have, by the chapters, exactly the faults that the contracts say of nodes, and those of the shape of each
/// expression whose opcodes have none: the faults of an expression's opcodes the chapters tell at the nodes of these opcodes alone.
pub fn faults_of_nodes_are_the_same()
    ensures { (ns : List Node) → AreFaults (structure_faults ns) (IsOwnFault ns) }
{}

/// They have exactly the faults that the contracts say, where each fault of an expression's opcodes is that of a node as well.
pub fn faults_of_structure_are_the_same()
    ensures { (ns : List Node) → AreToldAtNodes ns
        → AreFaults (structure_faults ns) (IsStructureFault ns) }
{}

/// In a package that spells a forest each fault of the chapters is one of the contracts, and the other way round, but for this: the
/// contracts tell the Scope of every opcode in an expression, and the chapters that of operators alone, where another is misplaced.
pub fn faults_of_a_package_are_the_same_but_for_scope()
    ensures told { (bytes : List ℕ) (cause : Cause) (place : ℕ) → SpellsForest bytes (tree_of bytes)
        → IsAmong (structure_faults (nodes_of bytes)) cause place
        → IsStructureFault (nodes_of bytes) cause place }
    ensures found { (bytes : List ℕ) (cause : Cause) (place : ℕ) → SpellsForest bytes (tree_of bytes)
        → IsStructureFault (nodes_of bytes) cause place
        → IsAmong (structure_faults (nodes_of bytes)) cause place
        ⊎ ((cause ≡ ScopeBit) × IsAmong (structure_faults (nodes_of bytes)) Misplaced place) }
{}

/// The least fault of the nodes of a package that spells a forest is the same by the chapters and by the contracts.
pub fn the_least_fault_of_structure_is_the_same()
    ensures { (bytes : List ℕ) (fault : CodeFault) → SpellsForest bytes (tree_of bytes)
        → (IsLeastAmong (structure_faults (nodes_of bytes)) fault
        ↔ IsLeast (IsStructureFault (nodes_of bytes)) fault) }
{}

/// The nodes of a package that spells a forest have no fault by the chapters exactly where they have none by the contracts.
pub fn nodes_without_fault_are_the_same()
    ensures { (bytes : List ℕ) → SpellsForest bytes (tree_of bytes)
        → ((structure_faults (nodes_of bytes) ≡ []) ↔ HasNone (IsStructureFault (nodes_of bytes))) }
{}
