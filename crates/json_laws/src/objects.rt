//! Objects of audits, each a line, and what they say.

ghost use Rattle.std.specs.Prelude.{◌≡◌, ◌<◌, ◌^◌, ℕ, List, ◌++◌, Some, true, codes};
ghost use Rattle.std.specs.Str.{all_scalars};
ghost use Rattle.hii_bytes.specs.declared.cause.Cause.{Cause};
ghost use Rattle.hii_bytes.specs.declared.cause.Fault.{Fault};
ghost use Rattle.audit_json.specs.Json.{escaped};
ghost use Rattle.audit_json.specs.Objects.{error_object, member_key, object as object_line, object_kind, refused_at_object, refused_object};
ghost use Rattle.json_laws.specs.Reading.{Facts, decoded, string};
ghost use Rattle.json_laws.specs.laws.Telling.{IsReadBack, TellsFacts};
ghost use Rattle.json_laws.specs.laws.Written.{FactsCanBeTold, IsWord, alone, cause_facts, fault_facts, line_of, said_by};

/// A line of a kind is read as this kind, with its facts in their order.
pub fn an_object_gives_its_facts_back()
    ensures { (kind : List ℕ) (facts : Facts) → IsWord kind → FactsCanBeTold facts → decoded (line_of kind facts) ≡ Some (said_by kind facts) }
{}

/// Lines of other kinds or other facts are other lines.
pub fn a_line_tells_one_kind_and_its_facts()
    ensures { (kind word : List ℕ) (facts others : Facts) → IsWord kind → IsWord word → FactsCanBeTold facts → FactsCanBeTold others
        → line_of kind facts ≡ line_of word others → (kind ≡ word) × (facts ≡ others) }
{}

/// Members that tell facts are read back as an object of a kind.
pub fn members_that_tell_facts_are_read_back()
    ensures { (kind members : List ℕ) → IsWord kind → TellsFacts members → IsReadBack kind (object_line kind members) }
{}

/// How a command ends that is refused is read back, too.
pub fn a_refusal_is_read_back()
    ensures error { (line : List ℕ) → all_scalars line ≡ true → decoded (error_object line) ≡ Some (said_by (codes "error") (alone (codes "text") (string line))) }
    ensures cause { (cause : Cause) → decoded (refused_object cause) ≡ Some (said_by (codes "refused") (cause_facts cause)) }
    ensures fault { (fault : Fault) → fault.place < 2 ^ 64 → decoded (refused_at_object fault) ≡ Some (said_by (codes "refused") (fault_facts fault)) }
{}

/// An object whose one text is escaped where it is written is a line, too.
pub fn an_object_of_one_text_is_a_line()
    ensures { (kind key characters : List ℕ) →
        object_kind kind ++ member_key key ++ codes "\"" ++ escaped characters ++ codes "\"}\n" ≡ line_of kind (alone key (string characters)) }
{}
