//! Laws of the definitions that the contracts cite.

ghost use Rattle.std.specs.Prelude.{◌≡◌, ◌↔◌, ◌∷◌, ℕ, List, Some};
ghost use Rattle.browser_rules.specs.Packages.{Package, forms_package};
ghost use Rattle.hii_bytes.specs.Faults.{HasNone, IsLeast};
ghost use Rattle.hii_bytes.specs.declared.cause.Cause.{Cause};
ghost use Rattle.hii_bytes.specs.declared.cause.Fault.{Fault};
ghost use Rattle.ifr_nodes.specs.Accepted.{IsAccepted};
ghost use Rattle.ifr_nodes.specs.Checked.{IsChecked};
ghost use Rattle.ifr_nodes.specs.Nodes.{nodes_of};
ghost use Rattle.ifr_nodes.specs.ReferenceFaults.{IsReferenceFault};
ghost use Rattle.hii_varstore.specs.Faults.{IsImageFault};
ghost use Rattle.hii_varstore.specs.StoreNodes.{IsStoreFault};
ghost use Rattle.hii_questions.specs.Faults.{IsQuestionFault};
ghost use Rattle.package_faults.specs.AllFaults.{AreAll};
ghost use Rattle.session_steps.specs.Opening.{IsFormSetFault, IsOpenFault, layout_in};
ghost use Rattle.check_audit.specs.Verdicts.{AreOthers, IsListFault};

/// The least fault of a list as a whole is the one by which a session over its first forms package is refused, over any image.
pub fn a_list_is_refused_as_by_a_session()
    ensures { (list image : List ℕ) (fault : Fault) → IsLeast (IsListFault list) fault
        → IsLeast (IsOpenFault list 1 image) fault }
{}

/// The least fault of a forms package is the one by which a session over it is refused, over any image.
pub fn a_forms_package_is_refused_as_by_a_session()
    ensures { (list : List ℕ) (n : ℕ) (source : Package) (image : List ℕ) (fault : Fault)
        → HasNone (IsListFault list) → forms_package list n ≡ Some source
        → IsLeast (IsFormSetFault source.bytes) fault → IsLeast (IsOpenFault list n image) fault }
{}

/// Where a forms package has no fault a session over it is refused for its image alone.
pub fn a_good_forms_package_is_refused_for_its_image_alone()
    ensures { (list : List ℕ) (n : ℕ) (source : Package) (image : List ℕ) (cause : Cause) (place : ℕ)
        → HasNone (IsListFault list) → forms_package list n ≡ Some source
        → HasNone (IsFormSetFault source.bytes)
        → (IsOpenFault list n image cause place ↔ IsImageFault (layout_in source.bytes) image cause place) }
{}

/// Where a forms package whose framing and nodes have no fault is refused, the faults that are told are exactly those of one pass, each
/// once and in order: of its references, else of its stores, else of its questions.
pub fn the_faults_of_one_pass_are_told()
    ensures references { (ifr : List ℕ) (fault : Fault) (others : List Fault) → IsChecked ifr
        → IsReferenceFault (nodes_of ifr) fault.cause fault.place → AreOthers ifr fault others
        → AreAll (IsReferenceFault (nodes_of ifr)) (fault ∷ others) }
    ensures stores { (ifr : List ℕ) (fault : Fault) (others : List Fault) → IsAccepted ifr
        → IsStoreFault (nodes_of ifr) fault.cause fault.place → AreOthers ifr fault others
        → AreAll (IsStoreFault (nodes_of ifr)) (fault ∷ others) }
    ensures questions { (ifr : List ℕ) (fault : Fault) (others : List Fault) → IsAccepted ifr
        → HasNone (IsStoreFault (nodes_of ifr)) → AreOthers ifr fault others
        → AreAll (IsQuestionFault (nodes_of ifr)) (fault ∷ others) }
{}
