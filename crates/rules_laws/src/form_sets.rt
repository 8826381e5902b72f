//! What a well-formed form set is: a package, and each part of it, has no fault exactly where it is good (UEFI 2.8, 33.3.8 Forms
//! Package; what is good is an own rule).

ghost use Rattle.std.specs.Prelude.{◌≡◌, List, ℕ, true, option_map, Contains};
ghost use Rattle.std.specs.List.{find};
ghost use Rattle.hii_bytes.specs.Faults.{HasNone};
ghost use Rattle.ifr_expr.specs.Meaning.{names};
ghost use Rattle.ifr_opcodes.specs.Fields.{rule_ref_rule};
ghost use Rattle.ifr_opcodes.specs.Forest.{Forest, Node, SpellsForest, nodes};
ghost use Rattle.ifr_nodes.specs.Accepted.{IsAccepted};
ghost use Rattle.ifr_nodes.specs.Checked.{IsChecked};
ghost use Rattle.ifr_nodes.specs.Nodes.{nodes_of};
ghost use Rattle.ifr_nodes.specs.ReferenceFaults.{IsReferenceFault};
ghost use Rattle.ifr_nodes.specs.Rules.{as_rule, rules_among};
ghost use Rattle.ifr_nodes.specs.Structure.{IsStructureFault};
ghost use Rattle.hii_varstore.specs.StoreNodes.{IsStoreFault};
ghost use Rattle.hii_questions.specs.Faults.{IsQuestionFault};
ghost use Rattle.rules_laws.specs.laws.Ids.{AreReferred, AreStores};
ghost use Rattle.rules_laws.specs.laws.Naming.{is_rule_reference, named_rule};
ghost use Rattle.rules_laws.specs.laws.Packages.{IsGoodPackage};
ghost use Rattle.rules_laws.specs.laws.GoodQuestions.{AreGoodQuestions};
ghost use Rattle.rules_laws.specs.laws.WellFormed.{IsFormSet};

/// Of a forest that a package spells no node has a fault by itself, and no expression has one, exactly where the forest is a
/// well-formed form set.
pub fn a_form_set_has_no_structure_fault()
    ensures sound { (bytes : List ℕ) (f : Forest) → SpellsForest bytes f → IsFormSet f
        → HasNone (IsStructureFault (nodes f)) }
    ensures complete { (bytes : List ℕ) (f : Forest) → SpellsForest bytes f
        → HasNone (IsStructureFault (nodes f)) → IsFormSet f }
{}

/// A reference to a rule names the last rule by place that has its id, stands before it under the same innermost FORM and does
/// not hold it in its scope: the one whose value it has.
pub fn a_reference_names_the_last_rule_before_it()
    ensures { (bytes : List ℕ) (n : Node) → IsChecked bytes → Contains (nodes_of bytes) n
        → is_rule_reference n ≡ true →
        find (names (rule_ref_rule n.op) n.place) (rules_among (nodes_of bytes))
        ≡ option_map as_rule (named_rule (nodes_of bytes) n) }
{}

/// Forms, questions, references and rules have no fault among each other exactly where their ids are good and the rules are small.
pub fn good_ids_have_no_reference_fault()
    ensures sound { (bytes : List ℕ) → IsChecked bytes → AreReferred (nodes_of bytes)
        → HasNone (IsReferenceFault (nodes_of bytes)) }
    ensures complete { (bytes : List ℕ) → IsChecked bytes
        → HasNone (IsReferenceFault (nodes_of bytes)) → AreReferred (nodes_of bytes) }
{}

/// Stores have no fault exactly where their ids differ and none is 0.
pub fn good_stores_have_no_fault()
    ensures sound { (ns : List Node) → AreStores ns → HasNone (IsStoreFault ns) }
    ensures complete { (ns : List Node) → HasNone (IsStoreFault ns) → AreStores ns }
{}

/// Questions have no fault exactly where each is good.
pub fn good_questions_have_no_fault()
    ensures sound { (ns : List Node) → AreGoodQuestions ns → HasNone (IsQuestionFault ns) }
    ensures complete { (ns : List Node) → HasNone (IsQuestionFault ns) → AreGoodQuestions ns }
{}

/// A package is accepted, and its stores and questions have no fault, exactly where it is good.
pub fn good_packages_are_accepted()
    ensures accepted { (bytes : List ℕ) → IsGoodPackage bytes → IsAccepted bytes }
    ensures stores { (bytes : List ℕ) → IsGoodPackage bytes
        → HasNone (IsStoreFault (nodes_of bytes)) }
    ensures questions { (bytes : List ℕ) → IsGoodPackage bytes
        → HasNone (IsQuestionFault (nodes_of bytes)) }
    ensures good { (bytes : List ℕ) → IsAccepted bytes → HasNone (IsStoreFault (nodes_of bytes))
        → HasNone (IsQuestionFault (nodes_of bytes)) → IsGoodPackage bytes }
{}
