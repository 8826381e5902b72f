//! Objects of `diff` that tell of questions; those that tell bytes stand in `export`.

ghost use Rattle.std.specs.Prelude.{◌≡◌, ◌<◌, ◌^◌, codes};
ghost use Rattle.hii_bytes.specs.Numbers.{AreBytes};
ghost use Rattle.hii_questions.specs.Fields.{asked};
ghost use Rattle.ifr_opcodes.specs.Forest.{Node};
ghost use Rattle.question_audit.specs.Audited.{Audited};
ghost use Rattle.image_audit.specs.Difference.{value_object, verdict_object};
ghost use Rattle.json_laws.specs.laws.Telling.{IsReadBack};
ghost use Rattle.object_laws.specs.laws.Differences.{CanTellValue};
ghost use Rattle.object_laws.specs.laws.Questions.{ShowsTexts};

/// What is told of a value, and of a verdict, that is another one over another image is read back.
pub fn objects_of_differences_are_read_back()
    ensures value { (a b : Audited) (n : Node) → b.world.nodes ≡ a.world.nodes → n.place < 2 ^ 64 → CanTellValue a.texts a.world a.stores n → CanTellValue b.texts b.world b.stores n
        → IsReadBack (codes "value") (value_object a b (asked a.world.nodes n)) }
    ensures verdict { (a b : Audited) (n : Node) → ShowsTexts a.texts → AreBytes n.op → n.place < 2 ^ 64 → IsReadBack (codes "verdict") (verdict_object a b n) }
{}
