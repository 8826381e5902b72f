//! The framing of a forms package: what the chapters say of it, and what the contracts say.

ghost use Rattle.std.specs.Prelude.{◌≡◌, ◌↔◌, ℕ, List, []};
ghost use Rattle.ifr_opcodes.specs.Forest.{SpellsForest};
ghost use Rattle.ifr_opcodes.specs.Reading.{tree_of};
ghost use Rattle.ifr_nodes.specs.Framing.{IsFramingFault};
ghost use Rattle.browser_rules.specs.Faults.{framing_faults};
ghost use Rattle.hii_bytes.specs.Faults.{AreFaults};

/// The framing of a package has a fault of a cause at a place by the chapters exactly where it has it by the contracts.
pub fn faults_of_framing_are_the_same()
    ensures { (bytes : List ℕ) → AreFaults (framing_faults bytes) (IsFramingFault bytes) }
{}

/// The framing of a package has no fault by the chapters exactly where the package spells the forest that it is read as.
pub fn a_package_without_fault_of_framing_spells_a_forest()
    ensures { (bytes : List ℕ) → ((framing_faults bytes ≡ []) ↔ SpellsForest bytes (tree_of bytes)) }
{}
