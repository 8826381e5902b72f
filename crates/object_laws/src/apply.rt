//! Objects of `apply`.

ghost use Rattle.std.specs.Prelude.{◌<◌, ◌^◌, ℕ, List, IfSome, codes};
ghost use Rattle.hii_bytes.specs.Numbers.{AreBytes};
ghost use Rattle.hii_questions.specs.Fields.{Asked, question_with};
ghost use Rattle.hii_varstore.specs.Stores.{StoreMap};
ghost use Rattle.ifr_opcodes.specs.Forest.{Node};
ghost use Rattle.audit_json.specs.declared.telling.Telling.TheVariants.{Objects};
ghost use Rattle.session_steps.specs.declared.reply.Reply.{Reply};
ghost use Rattle.script_audit.specs.Apply.{change_told, unsubmitted_told};
ghost use Rattle.script_audit.specs.Because.{answer_told, because_told, condition_text, line_told, reason_words};
ghost use Rattle.script_audit.specs.Depends.{depends_told};
ghost use Rattle.script_audit.specs.Script.{Line};
ghost use Rattle.script_audit.specs.Told.{error_told};
ghost use Rattle.script_audit.specs.Values.{Seen};
ghost use Rattle.json_laws.specs.laws.Telling.{IsReadBack};
ghost use Rattle.json_laws.specs.laws.Written.{IsWord};
ghost use Rattle.object_laws.specs.laws.Differences.{CanTellValue};
ghost use Rattle.object_laws.specs.laws.Questions.{ShowsTexts};
ghost use Rattle.object_laws.specs.laws.Scripts.{HasMessage};

/// The line at which a script ends, its answer, why, and on what this depends, is read back; so is what was changed or not submitted.
pub fn objects_of_scripts_are_read_back()
    ensures line { (line : Line) → line.number < 2 ^ 64 → AreBytes line.bytes → IsReadBack (codes "line") (line_told Objects line) }
    ensures answer { (a : Seen) (reply : Reply) → ShowsTexts a.texts → HasMessage reply → IsReadBack (codes "answer") (answer_told Objects a reply) }
    ensures condition { (package_place : ℕ) (state : List ℕ) (c : Node) → IsWord state → IsReadBack (codes "because") (because_told Objects (condition_text package_place state c)) }
    ensures reason { (ns : List Node) (line : List ℕ) (reply : Reply) → AreBytes line → IsReadBack (codes "because") (because_told Objects (reason_words Objects ns line reply)) }
    ensures depends { (a : Seen) (id : ℕ) → IfSome (question_with a.world.nodes id) (CanTellValue a.texts a.world a.stores) → IsReadBack (codes "depends") (depends_told Objects a id) }
    ensures unsubmitted { (qs : List Asked) → IsReadBack (codes "error") (unsubmitted_told Objects qs) }
    ensures changed { (a : Seen) (one other : StoreMap) (n : Node) → CanTellValue a.texts a.world one n → CanTellValue a.texts a.world other n
        → IsReadBack (codes "changed") (change_told Objects a one other n) }
    ensures error { (said : List ℕ) → IsWord said → IsReadBack (codes "error") (error_told Objects said) }
{}
