//! What questions hold, where they hold it, what they take and what they answer is what the chapters say.

ghost use Rattle.std.specs.Prelude.{◌≡◌, ℕ, Bool, Contains, IfSome, List, Option, Some, filter, map, option_and_then, option_map, true};
ghost use Rattle.browser_rules.specs.Questions as chapter;
ghost use Rattle.hii_bytes.specs.Faults.{HasNone};
ghost use Rattle.ifr_opcodes.specs.Fields as opcode;
ghost use Rattle.ifr_opcodes.specs.Forest.{Node};
ghost use Rattle.ifr_nodes.specs.Nodes.{is_question};
ghost use Rattle.hii_varstore.specs.StoreNodes.{layout_of};
ghost use Rattle.hii_varstore.specs.Stores.{StoreMap, shape_of};
ghost use Rattle.hii_values.specs.FieldTypes.{FieldType, size_of_type};
ghost use Rattle.hii_values.specs.Inputs.{Offer, number_of_bits};
ghost use Rattle.hii_values.specs.Items.{bytes_of_items, items_in};
ghost use Rattle.hii_values.specs.Types.{element_width, type_of};
ghost use Rattle.hii_questions.specs.Answers.{answer_of, answers};
ghost use Rattle.hii_questions.specs.Changes.{field_bytes, with_field};
ghost use Rattle.hii_questions.specs.Faults.{IsQuestionFault};
ghost use Rattle.hii_questions.specs.Fields.{Field, asked, field_of, is_same_field, meets, question_with, questions};
ghost use Rattle.hii_questions.specs.Fits.{fits, values_offered};
ghost use Rattle.rules_laws.specs.laws.Opcodes.{value_for};
ghost use Rattle.rules_laws.specs.laws.Questions.{HoldsWhole, bytes_or_denial, field_for, offer_for, type_for};
ghost use Rattle.rules_laws.specs.laws.Stores.{stores_for};

/// What the field of a node may hold, how wide it is, what flags are set, and the Type and the value of an option are the same; so
/// is how wide the elements of a question are.
pub fn a_question_holds_what_the_chapters_say()
    ensures flag { (flags flag : ℕ) → chapter.has_flag flags flag ≡ opcode.has_flag flags flag }
    ensures kind { (o : Node) → chapter.option_type o ≡ opcode.option_kind o.op }
    ensures value { (o : Node) → chapter.option_value o ≡ opcode.option_value o.op }
    ensures element { (q : Node) → is_question q ≡ true → chapter.element_width q ≡ element_width q }
    ensures holds { (q : Node) → chapter.type_of q ≡ option_map type_for (type_of q) }
    ensures wide { (t : FieldType) → chapter.width_of (type_for t) ≡ size_of_type t }
{}

/// The questions are those of the chapters, each has the field that it has there, and fields are compared, read and written alike.
pub fn a_question_has_the_field_of_the_chapters()
    ensures field { (ns : List Node) (q : Node) → chapter.field_of ns q ≡ option_map field_for (field_of ns q) }
    ensures which { (ns : List Node) → chapter.questions ns ≡ filter is_question ns }
    ensures listed { (ns : List Node) → questions ns ≡ map (asked ns) (chapter.questions ns) }
    ensures by_id { (ns : List Node) (id : ℕ) → chapter.question_with ns id ≡ question_with ns id }
    ensures same { (f g : Field) → chapter.is_same_field (field_for f) (field_for g) ≡ is_same_field f g }
    ensures met { (f g : Field) → chapter.meets (field_for f) (field_for g) ≡ meets f g }
    ensures read { (m : StoreMap) (f : Option Field) →
        option_and_then (chapter.field_bytes (stores_for m)) (option_map field_for f) ≡ field_bytes m f }
    ensures written { (m : StoreMap) (f : Option Field) (bytes : List ℕ) →
        chapter.with_field (stores_for m) (option_map field_for f) bytes ≡ stores_for (with_field m f bytes) }
{}

/// A question takes of what is offered the bytes that it takes by the chapters, or denies it for the same reason; the offer names the
/// same values of options, and numbers and items are read alike.
pub fn a_question_takes_what_the_chapters_say()
    ensures bytes { (ns : List Node) (q : Node) (offer : Offer) → chapter.fits ns q (offer_for offer) ≡ bytes_or_denial (fits ns q offer) }
    ensures values { (q : Node) (offer : Offer) → chapter.values_offered q (offer_for offer) ≡ values_offered q offer }
    ensures number { (signed : Bool) (width bits : ℕ) → chapter.number_of_bits signed width bits ≡ number_of_bits signed width bits }
    ensures items { (width : ℕ) (bytes : List ℕ) → chapter.items width bytes ≡ items_in width bytes }
    ensures of_items { (width : ℕ) (bytes : List ℕ) → chapter.bytes_of_items width bytes ≡ bytes_of_items width bytes }
{}

/// A question answers what it answers by the chapters exactly where stores that hold bytes of its field hold all of them: of a field
/// that is cut short the contracts read nothing, and the chapters what is there. So all questions of a form set without faults do, in
/// stores of its shape.
pub fn a_question_answers_what_the_chapters_say()
    ensures one { (ns : List Node) (m : StoreMap) (q : Node) → HoldsWhole m (asked ns q) →
        chapter.answer_of ns (stores_for m) q ≡ value_for (answer_of ns m (Some q)) }
    ensures only { (ns : List Node) (m : StoreMap) (q : Node) →
        chapter.answer_of ns (stores_for m) q ≡ value_for (answer_of ns m (Some q)) → HoldsWhole m (asked ns q) }
    ensures whole { (ns : List Node) (m : StoreMap) (q : Node) → HasNone (IsQuestionFault ns) → shape_of m ≡ layout_of ns →
        Contains ns q → is_question q ≡ true → HoldsWhole m (asked ns q) }
    ensures of_id { (ns : List Node) (m : StoreMap) (id : ℕ) → IfSome (question_with ns id) (λ q. HoldsWhole m (asked ns q)) →
        chapter.answers ns (stores_for m) id ≡ value_for (answers ns m id) }
    ensures all { (ns : List Node) (m : StoreMap) (id : ℕ) → HasNone (IsQuestionFault ns) → shape_of m ≡ layout_of ns →
        chapter.answers ns (stores_for m) id ≡ value_for (answers ns m id) }
{}
