//! What a node of the chapters is, and what stands in and around it, is what the contracts say.

ghost use Rattle.std.specs.Prelude.{◌≡◌, ℕ, List, true};
ghost use Rattle.browser_rules.specs.Forest as forest;
ghost use Rattle.browser_rules.specs.Nodes as chapter;
ghost use Rattle.browser_rules.specs.Opcodes as rows;
ghost use Rattle.ifr_opcodes.specs.Fields.{question_id, ref_target};
ghost use Rattle.ifr_opcodes.specs.Forest.{Node};
ghost use Rattle.ifr_nodes.specs.Guards.{guards};
ghost use Rattle.ifr_nodes.specs.Locks.{first_lock};
ghost use Rattle.ifr_nodes.specs.Nodes as node;
ghost use Rattle.ifr_nodes.specs.ReferenceFaults.{form_with};

/// The nodes of a package are those of the chapters, and each ends where it does there.
pub fn a_package_has_the_nodes_of_the_chapters()
    ensures nodes { (bytes : List ℕ) → forest.nodes_of bytes ≡ node.nodes_of bytes }
    ensures ends { (n : Node) → forest.end_of (forest.as_ancestor n) ≡ node.end_of n }
{}

/// A node is a question exactly where it is one by the chapters; its id, the form of an id and the form to which a reference leads are
/// the same.
pub fn a_node_is_what_the_chapters_say()
    ensures question { (n : Node) → chapter.is_question n ≡ node.is_question n }
    ensures id { (n : Node) → chapter.question_id n ≡ question_id n.op }
    ensures form { (ns : List Node) (id : ℕ) → chapter.form_with ns id ≡ form_with ns id }
    ensures target { (n : Node) → chapter.ref_target n ≡ ref_target n.op }
{}

/// In a form stand the statements of the chapters, and in a question its options, defaults and conditions.
pub fn in_a_node_stands_what_the_chapters_say()
    ensures statements { (form : Node) → chapter.statements form ≡ node.statements form }
    ensures options { (q : Node) → node.is_question q ≡ true → chapter.options q ≡ node.options q }
    ensures defaults { (q : Node) → node.is_question q ≡ true →
        chapter.in_question (λ n. rows.is_a rows.a_default n.op) q ≡ node.defaults q }
    ensures inconsistents { (q : Node) → node.is_question q ≡ true →
        chapter.in_question (chapter.is rows.INCONSISTENT_IF) q ≡ node.inconsistents q }
    ensures no_submits { (q : Node) → node.is_question q ≡ true →
        chapter.in_question (chapter.is rows.NO_SUBMIT_IF) q ≡ node.no_submits q }
    ensures warnings { (q : Node) → node.is_question q ≡ true →
        chapter.in_question (chapter.is rows.WARNING_IF) q ≡ node.warnings q }
{}

/// Around a node stand the guards of the chapters; the question for THIS and the LOCKED that decides are the same.
pub fn around_a_node_stands_what_the_chapters_say()
    ensures guards { (n : Node) → chapter.guards n ≡ guards n }
    ensures this { (n : Node) → chapter.this_of n ≡ node.this_of n }
    ensures lock { (ns : List Node) (n : Node) → chapter.lock_of ns n ≡ first_lock ns n }
{}
