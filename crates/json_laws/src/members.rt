//! Members of objects, and the facts that they tell.

ghost use Rattle.std.specs.Prelude.{◌≡◌, ℕ, List, [], ◌++◌, true, pos, codes, map};
ghost use Rattle.std.specs.List.{AllByRecursion};
ghost use Rattle.hii_bytes.specs.Numbers.{AreBytes};
ghost use Rattle.hii_bytes.specs.declared.cause.Fault.{Fault};
ghost use Rattle.audit_json.specs.Objects.{array_member, fault_member, first_member, guid_member, inner_object, member, number_member, text_member, true_member, word_member};
ghost use Rattle.audit_text.specs.Texts.{guid_text};
ghost use Rattle.json_laws.specs.Reading.{Facts, Items, Value, array, fact, item, no_facts, no_items, number, object, string, truth};
ghost use Rattle.json_laws.specs.laws.Written.{CanBeTold, EachCanBeTold, FactsCanBeTold, IsWord, alone, behind, each_written, fault_facts, inner_members, items_of, told, written};

/// Each member tells one fact.
pub fn a_member_tells_a_fact()
    ensures number { (key : List ℕ) (n : ℕ) → number_member key n ≡ told (alone key (number (pos n))) }
    ensures text { (key characters : List ℕ) → text_member key characters ≡ told (alone key (string characters)) }
    ensures word { (key word : List ℕ) → IsWord word → word_member key word ≡ told (alone key (string word)) }
    ensures guid { (key guid : List ℕ) → AreBytes guid → guid_member key guid ≡ told (alone key (string (guid_text true guid))) }
    ensures truth { (key : List ℕ) → true_member key ≡ told (alone key truth) }
    ensures fault { (key : List ℕ) (fault : Fault) → fault_member key fault ≡ told (alone key (object (fault_facts fault))) }
    ensures other { (key : List ℕ) (v : Value) → member key (written v) ≡ told (alone key v) }
{}

/// A member that is an array tells its values; without any it tells nothing.
pub fn an_array_tells_its_values()
    ensures some { (key : List ℕ) (v : Value) (values : Items) → array_member key (each_written (item v values)) ≡ told (alone key (array (item v values))) }
    ensures none { (key : List ℕ) → array_member key (each_written no_items) ≡ told no_facts }
    ensures each { (values : List Value) → each_written (items_of values) ≡ map written values }
    ensures good { (values : List Value) → AllByRecursion CanBeTold values → EachCanBeTold (items_of values) }
{}

/// An object in another one tells its members, of which the first has no comma before it.
pub fn an_inner_object_tells_its_members()
    ensures some { (key : List ℕ) (v : Value) (members : Facts) → inner_object (first_member key (written v) ++ told members) ≡ written (object (fact key v members)) }
    ensures behind { (key : List ℕ) (v : Value) (members : Facts) → codes "," ++ inner_members (fact key v members) ≡ told (fact key v members) }
    ensures none { inner_object [] ≡ written (object no_facts) }
{}

/// Members behind others tell their facts behind those.
pub fn members_tell_their_facts_in_order()
    ensures told { (members others : Facts) → told members ++ told others ≡ told (behind members others) }
    ensures good { (members others : Facts) → FactsCanBeTold members → FactsCanBeTold others → FactsCanBeTold (behind members others) }
{}
