//! Objects of `unlock`.

ghost use Rattle.std.specs.Prelude.{codes};
ghost use Rattle.hii_bytes.specs.Numbers.{AreBytes};
ghost use Rattle.hii_questions.specs.Fields.{Asked};
ghost use Rattle.ifr_nodes.specs.Nodes.{nodes_of};
ghost use Rattle.session_steps.specs.State.{State, texts};
ghost use Rattle.unlock_audit.specs.Told.{unlock_object};
ghost use Rattle.unlock_audit.specs.Unlock.{Unlock};
ghost use Rattle.json_laws.specs.laws.Telling.{IsReadBack};
ghost use Rattle.object_laws.specs.laws.Questions.{ShowsTexts};
ghost use Rattle.object_laws.specs.laws.Unlocks.{CanUnlock};

/// What opens a question is read back; that there is none of an id is told as by `question`.
pub fn objects_of_unlock_are_read_back()
    ensures { (s : State) (q : Asked) (u : Unlock) → AreBytes q.node.op → ShowsTexts (texts s) → CanUnlock (nodes_of s.ifr) u
        → IsReadBack (codes "unlock") (unlock_object s q u) }
{}
