//! Objects of `survey`.

ghost use Rattle.std.specs.Prelude.{◌<◌, ◌^◌, ℕ, codes};
ghost use Rattle.hii_bytes.specs.declared.cause.Fault.{Fault};
ghost use Rattle.ifr_opcodes.specs.Forest.{Node};
ghost use Rattle.hii_bytes.specs.Numbers.{AreBytes};
ghost use Rattle.question_audit.specs.Audited.{Audited};
ghost use Rattle.store_audit.specs.declared.fillings.Source.{Source};
ghost use Rattle.survey_audit.specs.Lines.{Heading, counts_object, fault_object, list_fault_object, unfit_object};
ghost use Rattle.survey_audit.specs.Opened.{found_object};
ghost use Rattle.survey_audit.specs.declared.counts.Counts.{Counts};
ghost use Rattle.json_laws.specs.laws.Telling.{IsReadBack};
ghost use Rattle.object_laws.specs.laws.Questions.{CanShow};
ghost use Rattle.object_laws.specs.laws.Survey.{AreFew, CanHead};

/// What is told of a forms package of a dump, of a store that is not given what it holds, of a fault and of a question that is found is read back.
pub fn objects_of_survey_are_read_back()
    ensures counts { (h : Heading) (c : Counts) → CanHead h → AreFew c → IsReadBack (codes "set") (counts_object h c) }
    ensures unfit { (h : Heading) (n : Node) (source : Source) → CanHead h → IsReadBack (codes "set") (unfit_object h n source) }
    ensures fault { (h : Heading) (fault : Fault) → CanHead h → fault.place < 2 ^ 64 → IsReadBack (codes "set") (fault_object h fault) }
    ensures list { (list : ℕ) (fault : Fault) → list < 2 ^ 64 → fault.place < 2 ^ 64 → IsReadBack (codes "set") (list_fault_object list fault) }
    ensures found { (h : Heading) (a : Audited) (form n : Node) → h.list < 2 ^ 64 → h.number < 2 ^ 64 → CanShow a h.base n → AreBytes form.op
        → IsReadBack (codes "question") (found_object h a form n) }
{}
