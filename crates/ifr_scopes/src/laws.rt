//! Laws of the definitions that the contracts cite.

ghost use Rattle.std.specs.Prelude.{◌≡◌, ℕ, ◌+◌, ◌≤◌, ◌<◌, ◌^◌, true, List, ◌∷◌, ◌++◌, length, slice_index, drop, Contains};
ghost use Rattle.hii_bytes.specs.Faults.{HasNone};
ghost use Rattle.hii_bytes.specs.declared.cause.Cause.{Cause};
ghost use Rattle.ifr_opcodes.specs.Forest.{Forest, none, node, flat, AreNodes, SpellsForest, Ancestor, Node, as_ancestor, nodes, places};
ghost use Rattle.ifr_opcodes.specs.Reading.{tree_of};
ghost use Rattle.ifr_nodes.specs.Framing.{IsFramingFault};
ghost use Rattle.ifr_nodes.specs.code.Checked.{AreNodesOf, IsNodeOf};
ghost use Rattle.ifr_nodes.specs.Guards.{guards};
ghost use Rattle.ifr_index.specs.code.Index.{is_indexed, guards_of_indexed, lock_of_indexed};
ghost use Rattle.ifr_nodes.specs.Accepted.{IsAccepted};
ghost use Rattle.ifr_scopes.specs.code.Lists.{form_node, form_package, statement_node, statement_package};
ghost use Rattle.ifr_nodes.specs.Locks.{first_lock};
ghost use Rattle.ifr_nodes.specs.Nodes.{nodes_of, statements};
ghost use Rattle.ifr_scopes.specs.declared.form.Form.{Form};
ghost use Rattle.ifr_scopes.specs.declared.statement.Statement.{Statement};

use ifr_nodes::check_framing;

/// A package spells one forest at most.
pub fn one_forest_is_spelled()
    ensures { (bytes : List ℕ) (f g : Forest) → SpellsForest bytes f
        → SpellsForest bytes g → f ≡ g }
{}

/// Where a package spells a forest, the tree that its bytes are read as is this forest.
pub fn the_tree_is_the_spelled_forest()
    ensures { (bytes : List ℕ) (f : Forest) → SpellsForest bytes f → tree_of bytes ≡ f }
{}

/// The places of the nodes of a package rise.
pub fn places_rise()
    ensures { (bytes : List ℕ) (f : Forest) (i j : ℕ) → SpellsForest bytes f → i < j
        → j < length (nodes f)
        → slice_index (places (nodes f)) i < slice_index (places (nodes f)) j }
{}

/// The bytes at the place of a node are those of its opcode and of the nodes below it.
pub fn a_node_stands_at_its_place()
    ensures { (bytes : List ℕ) (f : Forest) (n : Node) → SpellsForest bytes f
        → Contains (nodes f) n →
        (more : List ℕ) × (drop n.place bytes ≡ flat (node n.op n.children none) ++ more)
        × AreNodes (node n.op n.children none) }
{}

/// The framing of a package has one fault at most.
pub fn one_framing_fault()
    ensures { (bytes : List ℕ) (a b : Cause) (p q : ℕ) → IsFramingFault bytes a p
        → IsFramingFault bytes b q → (p ≡ q) × (a ≡ b) }
{}

/// The framing of a package that spells a forest has no fault.
pub fn spelled_bytes_have_no_framing_fault()
    ensures { (bytes : List ℕ) (f : Forest) → SpellsForest bytes f
        → HasNone (IsFramingFault bytes) }
{}

/// A package whose framing has no fault spells a forest.
pub fn bytes_without_framing_fault_are_spelled(bytes: &[u8])
    requires header { 4 ≤ length bytes.now }
    requires small { length bytes.now < 2 ^ 32 }
    ensures { HasNone (IsFramingFault bytes.now) → (f : Forest) × SpellsForest bytes.now f }
{
    match check_framing(bytes) {
        Ok(()) => {}
        Err(_fault) => {}
    }
}

/// What is looked up at the place of a form, a statement or an option of a package are its guards, and the LOCKED that decides
/// for it.
pub fn guards_and_locks_are_found()
    ensures guards { (bytes : List ℕ) (n : Node) → IsAccepted bytes → IsNodeOf bytes n
        → is_indexed n ≡ true →
        guards_of_indexed (nodes_of bytes) n.place ≡ guards n }
    ensures lock { (bytes : List ℕ) (n : Node) → IsAccepted bytes → IsNodeOf bytes n
        → is_indexed n ≡ true →
        lock_of_indexed (nodes_of bytes) n.place ≡ first_lock (nodes_of bytes) n }
{}

/// A form is one of its package's nodes.
pub fn a_form_is_a_node()
    ensures { (form : Form) → IsNodeOf (form_package form) (form_node form) }
{}

/// A statement is one of its package's nodes.
pub fn a_statement_is_a_node()
    ensures { (statement : Statement)
        → IsNodeOf (statement_package statement) (statement_node statement) }
{}

/// A node of an accepted package is the one at its place.
pub fn a_node_is_that_of_its_place()
    ensures { (bytes : List ℕ) (n : Node) → IsAccepted bytes → Contains (nodes_of bytes) n
        → IsNodeOf bytes n }
{}

/// What stands around a node of an accepted package is a node, and what stands around that one is what stands before it on
/// the path.
pub fn an_ancestor_is_a_node()
    ensures { (bytes : List ℕ) (n : Node) (before after : List Ancestor) (a : Ancestor)
        → IsAccepted bytes → IsNodeOf bytes n → n.path ≡ before ++ a ∷ after
        → (m : Node) × IsNodeOf bytes m × (as_ancestor m ≡ a) × (m.path ≡ before) }
{}

/// The statements of a form of a package are nodes of the package.
pub fn statements_are_nodes()
    ensures { (bytes : List ℕ) (form : Node) → IsAccepted bytes → IsNodeOf bytes form
        → AreNodesOf bytes (statements form) }
{}

/// The statements of a form, and one more, are fewer than a package may have bytes.
pub fn statements_are_few()
    ensures { (form : Form) → 1 + length (statements (form_node form)) < 2 ^ 32 }
{}
