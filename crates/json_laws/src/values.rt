//! Values of JSON, as audits write them, and what they say.

ghost use Rattle.std.specs.Prelude.{◌≡◌, ◌<◌, ◌^◌, ℕ, ℤ, List, ◌++◌, Bool, Option, Some, true, pos, decimal, nat_abs};
ghost use Rattle.std.specs.Fmt.{signed_decimal};
ghost use Rattle.std.specs.List.{AllByRecursion};
ghost use Rattle.std.specs.Str.{IsUtf8, all_scalars, chars};
ghost use Rattle.browser_rules.specs.Strings.{characters, shown, spoken_in};
ghost use Rattle.condition_text.specs.Senses.{Sense};
ghost use Rattle.condition_text.specs.Texts.{text as said_in_words};
ghost use Rattle.hii_bytes.specs.Numbers.{AreBytes};
ghost use Rattle.audit_json.specs.Json.{escaped, json_text};
ghost use Rattle.audit_json.specs.Objects.{quoted};
ghost use Rattle.audit_text.specs.Texts.{digits_of, guid_text, hex_text};
ghost use Rattle.audit_text.specs.Words.{attributes_text, opcode_name};
ghost use Rattle.json_laws.specs.Reading.{Value, decoded, number, string};
ghost use Rattle.json_laws.specs.laws.Written.{CanBeTold, IsWord, written};

/// What is written of a text, of a number, and of any value, is read as it.
pub fn values_are_read_back()
    ensures text { (characters : List ℕ) → all_scalars characters ≡ true → decoded (json_text characters) ≡ Some (string characters) }
    ensures natural { (n : ℕ) → n < 2 ^ 64 → decoded (decimal n) ≡ Some (number (pos n)) }
    ensures integer { (n : ℤ) → nat_abs n < 2 ^ 64 → decoded (signed_decimal n) ≡ Some (number n) }
    ensures value { (v : Value) → CanBeTold v → decoded (written v) ≡ Some v }
{}

/// Of two values not the same is written.
pub fn what_is_written_says_one_value()
    ensures { (v w : Value) → CanBeTold v → CanBeTold w → written v ≡ written w → v ≡ w }
{}

/// A word in quotation marks is the text of its characters, and so is a text between words.
pub fn words_are_texts()
    ensures quoted { (word : List ℕ) → IsWord word → quoted word ≡ json_text word }
    ensures between { (one characters other : List ℕ) → IsWord one → IsWord other
        → quoted (one ++ escaped characters ++ other) ≡ json_text (one ++ characters ++ other) }
    ensures characters { (word : List ℕ) → IsWord word → all_scalars word ≡ true }
    ensures alone { (word : List ℕ) → IsWord word → escaped word ≡ word }
    ensures behind { (one other : List ℕ) → escaped (one ++ other) ≡ escaped one ++ escaped other }
{}

/// Numbers, bytes and GUIDs are words in digits, and so are names of opcodes and attributes, and what is said of a condition.
pub fn what_is_quoted_is_words()
    ensures natural { (n : ℕ) → IsWord (decimal n) }
    ensures integer { (n : ℤ) → IsWord (signed_decimal n) }
    ensures hexadecimal { (n : ℕ) → IsWord (hex_text n) }
    ensures digits { (upper : Bool) (bytes : List ℕ) → AreBytes bytes → IsWord (digits_of upper bytes) }
    ensures guid { (upper : Bool) (guid : List ℕ) → AreBytes guid → IsWord (guid_text upper guid) }
    ensures opcode { (code : ℕ) → IsWord (opcode_name code) }
    ensures attributes { (attributes : ℕ) → IsWord (attributes_text attributes) }
    ensures condition { (said : Sense) → IsWord (said_in_words said) }
    ensures behind { (one other : List ℕ) → IsWord one → IsWord other → IsWord (one ++ other) }
{}

/// Bytes of names, what is shown of the string ids of a list, its languages, and what paths spell in UTF-8 are characters.
pub fn texts_are_characters()
    ensures bytes { (text : List ℕ) → AreBytes text → all_scalars text ≡ true }
    ensures units { (text : List ℕ) → AreBytes text → all_scalars (characters text) ≡ true }
    ensures shown { (list : List ℕ) (choice : Option ℕ) (id : ℕ) → AreBytes list → id < 2 ^ 64 → all_scalars (shown (spoken_in list) choice id) ≡ true }
    ensures languages { (list : List ℕ) → AllByRecursion (λ s. all_scalars s.language ≡ true) (spoken_in list) }
    ensures path { (text : List ℕ) → IsUtf8 text → all_scalars (chars text) ≡ true }
{}
