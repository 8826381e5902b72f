//! Lines of audits stay one line each, whatever the texts, names, languages and paths are that stand in them.

ghost use Rattle.std.specs.Prelude.{◌≡◌, ◌<◌, ◌^◌, ℕ, Bool, IfSome, List, ◌∷◌, ◌++◌, Option, codes, false, true};
ghost use Rattle.std.specs.List.{AllByRecursion, list_any};
ghost use Rattle.std.specs.Str.{all_scalars};
ghost use Rattle.browser_rules.specs.Packages.{Package};
ghost use Rattle.browser_rules.specs.Strings.{Spoken, spoken_in};
ghost use Rattle.hii_bytes.specs.Numbers.{AreBytes};
ghost use Rattle.hii_bytes.specs.declared.cause.Cause.{Cause};
ghost use Rattle.hii_bytes.specs.declared.cause.Fault.{Fault};
ghost use Rattle.hii_dumps.specs.Dumps.{Entry};
ghost use Rattle.hii_packages.specs.Packages.{packages_of};
ghost use Rattle.ifr_opcodes.specs.Forest.{Node};
ghost use Rattle.ifr_nodes.specs.Nodes.{nodes_of};
ghost use Rattle.hii_varstore.specs.Stores.{StoreMap};
ghost use Rattle.hii_values.specs.declared.denial.DenialKind.{DenialKind};
ghost use Rattle.hii_questions.specs.Fields.{Asked, Field, asked, question_with};
ghost use Rattle.session_steps.specs.State.{State, texts};
ghost use Rattle.session_steps.specs.Texts.{refused_at_text, refused_text};
ghost use Rattle.session_steps.specs.declared.reply.Reply.{Reply};
ghost use Rattle.laid_defaults.specs.Laying.{Laid};
ghost use Rattle.audit_text.specs.Texts.{ascii_name, language_name, safe_text};
ghost use Rattle.audit_json.specs.declared.telling.Telling.{Telling};
ghost use Rattle.audit_json.specs.declared.telling.Telling.TheVariants.{Lines};
ghost use Rattle.dump_audit.specs.Findings.{Contents, Refused};
ghost use Rattle.dump_audit.specs.Lines.{line as split_line, no_list_text, rest_line};
ghost use Rattle.store_audit.specs.Defaulted.{count_line};
ghost use Rattle.store_audit.specs.Fillings.{filled_line, refused_line};
ghost use Rattle.store_audit.specs.HeaderLines.{header_line};
ghost use Rattle.store_audit.specs.StoreLines.{store_line};
ghost use Rattle.store_audit.specs.declared.fillings.Source.{Source};
ghost use Rattle.question_audit.specs.Audited.{Audited};
ghost use Rattle.question_audit.specs.FormLines.{form_text};
ghost use Rattle.question_audit.specs.QuestionFacts.{no_question, question_facts};
ghost use Rattle.question_audit.specs.QuestionLines.{question_line};
ghost use Rattle.question_audit.specs.ScriptValues.{default_taken};
ghost use Rattle.question_audit.specs.declared.origin.Origin.{Origin};
ghost use Rattle.image_audit.specs.Difference.{run_line, value_line, verdict_line};
ghost use Rattle.image_audit.specs.Export.{store_line as held_line};
ghost use Rattle.image_audit.specs.Lines.{piece_line};
ghost use Rattle.opcode_audit.specs.Lines.{line as opcodes_line, said_first};
ghost use Rattle.check_audit.specs.Behind.{seen_before};
ghost use Rattle.check_audit.specs.Constants.{constant_at};
ghost use Rattle.check_audit.specs.GivenDefaults.{refused};
ghost use Rattle.check_audit.specs.Lacks.{Lack, numbered_lacks};
ghost use Rattle.check_audit.specs.Lines.{Setting, also_line, byte_line, good_line, head_line, mostly_line, named_line, opcode_line, text_of};
ghost use Rattle.check_audit.specs.Mostly.{mostly_at};
ghost use Rattle.check_audit.specs.Overlaps.{laid_at, overlap_of};
ghost use Rattle.check_audit.specs.Verdicts.{counts_of};
ghost use Rattle.check_audit.specs.WarningLines.{Details, warning_line, warnings_told};
ghost use Rattle.check_audit.specs.Warnings.{AreWarnings, asking, numbered_bounds, textless_at, unreached_at};
ghost use Rattle.survey_audit.specs.Lines.{Heading, counts_line, fault_line, list_fault_line, unfit_line};
ghost use Rattle.survey_audit.specs.Opened.{found_line};
ghost use Rattle.survey_audit.specs.declared.counts.Counts.{Counts};
ghost use Rattle.script_audit.specs.Apply.{change_told, unsubmitted_told};
ghost use Rattle.script_audit.specs.Because.{answer_told, because_told, condition_text, line_told, reason_words};
ghost use Rattle.script_audit.specs.Depends.{depends_told};
ghost use Rattle.script_audit.specs.Script.{Line};
ghost use Rattle.script_audit.specs.Told.{error_told};
ghost use Rattle.script_audit.specs.Values.{Seen};
ghost use Rattle.unlock_audit.specs.Told.{unlock_line};
ghost use Rattle.unlock_audit.specs.Unlock.{Unlock};
ghost use Rattle.json_laws.specs.laws.Telling.{IsReadBack};
ghost use Rattle.json_laws.specs.laws.Written.{IsWord};
ghost use Rattle.object_laws.specs.laws.Differences.{CanTellValue};
ghost use Rattle.object_laws.specs.laws.Lines.{AreLines, IsLine, IsSafe, TellsLines, is_control};
ghost use Rattle.object_laws.specs.laws.Questions.{HasUnits, ShowsTexts};
ghost use Rattle.object_laws.specs.laws.Scripts.{HasMessage};
ghost use Rattle.object_laws.specs.laws.Unlocks.{CanWrite};

/// A text of any characters, as it stands in a line, is read back as UTF-8 that has none of the unsafe characters, and so are the names
/// of stores and languages, of any bytes. No byte of such a text is a control.
pub fn a_safe_text_has_no_unsafe_character()
    ensures text { (text : List ℕ) → all_scalars text ≡ true → IsSafe (safe_text text) }
    ensures name { (name : List ℕ) → IsSafe (ascii_name name) }
    ensures language { (language : List ℕ) → IsSafe (language_name language) }
    ensures bytes { (text : List ℕ) → IsSafe text → list_any is_control text ≡ false }
{}

/// Each line of `split` is one line: that of a list, with its languages and a title, or with its fault, of a rest, and that there is no
/// list of a number.
pub fn lines_of_split_are_lines()
    ensures contents { (number : ℕ) (list : Entry) → AreBytes list.bytes
        → IsLine (split_line number record { entry = list; finding = Contents (packages_of list.bytes) (spoken_in list.bytes) }) }
    ensures fault { (number : ℕ) (list : Entry) (fault : Fault) → IsLine (split_line number record { entry = list; finding = Refused fault }) }
    ensures rest { (place byte : ℕ) (bytes : List ℕ) → IsLine (rest_line place (byte ∷ bytes)) }
    ensures none { (number : ℕ) → IsLine (no_list_text number) }
{}

/// Each line of `stores` is one line.
pub fn lines_of_stores_are_lines()
    ensures store { (n : Node) → AreBytes n.op → IsLine (store_line n) }
    ensures header { (path : List ℕ) (n : Node) → AreBytes path → AreBytes n.op → IsLine (header_line path n) }
{}

/// Each line of `check` of a forms package and of its fault is one line.
pub fn lines_of_check_are_lines()
    ensures head { (s : Setting) (number : ℕ) (p : Package) → AreBytes p.bytes → ((id : ℕ) → id < 2 ^ 64 → all_scalars (text_of s.spoken id) ≡ true)
        → IsLine (head_line s number p) }
    ensures good { (ifr : List ℕ) → IsLine (good_line (counts_of ifr)) }
    ensures byte { (byte : ℕ) → IsLine (byte_line byte) }
    ensures opcode { (op : List ℕ) → AreBytes op → IsLine (opcode_line op) }
    ensures form { (s : Setting) (ifr : List ℕ) (place : ℕ) → AreBytes ifr → ((id : ℕ) → id < 2 ^ 64 → all_scalars (text_of s.spoken id) ≡ true)
        → IfSome (seen_before ifr place).form (λ n. IsLine (named_line s (codes "form") n)) }
    ensures behind { (s : Setting) (ifr : List ℕ) (place : ℕ) → AreBytes ifr → ((id : ℕ) → id < 2 ^ 64 → all_scalars (text_of s.spoken id) ≡ true)
        → IfSome (seen_before ifr place).question (λ n. IsLine (named_line s (codes "behind") n)) }
    ensures mostly { (cause : Cause) (op : Option (List ℕ)) → IsLine (mostly_line (mostly_at cause op)) }
    ensures also { (fault : Fault) (byte : ℕ) → IsLine (also_line fault byte) }
{}

/// Each line of `questions` is one line, that of a form and that of a question, whatever its prompt, its value, its default and the name
/// of its store are.
pub fn lines_of_questions_are_lines()
    ensures form { (a : Audited) (is_reached : ℕ → Bool) (form : Node) → ShowsTexts a.texts → AreBytes form.op
        → IsLine (codes "FORM " ++ form_text a is_reached form ++ codes "\n") }
    ensures question { (a : Audited) (n : Node) → CanTellValue a.texts a.world a.stores n → IfSome (default_taken a (asked a.world.nodes n) 0) HasUnits
        → IsLine (question_line a (asked a.world.nodes n)) }
{}

/// What `question` tells is lines, one line each: all that is known of a question, where each one that has an id can be told, and that no
/// question has the id.
pub fn lines_of_question_are_lines()
    ensures facts { (a : Audited) (is_reached : ℕ → Bool) (origin : Origin) (n : Node) → AllByRecursion (λ m. AreBytes m.op) a.world.nodes
        → CanTellValue a.texts a.world a.stores n → ((class : ℕ) → IfSome (default_taken a (asked a.world.nodes n) class) HasUnits)
        → ((id : ℕ) → IfSome (question_with a.world.nodes id) (CanTellValue a.texts a.world a.stores))
        → AreLines (question_facts a is_reached origin (asked a.world.nodes n)) }
    ensures none { (id : ℕ) → IsLine (no_question id) }
{}

/// An object that is read back is one line, too: so each of those of which `object_laws` has a law.
pub fn objects_are_lines()
    ensures { (kind line : List ℕ) → IsWord kind → IsReadBack kind line → IsLine line }
{}

/// The line of each opcode is one line, whatever the texts, names and bytes of its fields are.
pub fn lines_of_opcodes_are_lines()
    ensures { (telling : Telling) (list : List ℕ) (base place depth : ℕ) (op : List ℕ) → AreBytes list → AreBytes op
        → IsLine (opcodes_line record { telling = telling; spoken = said_first list; base = base } place depth op) }
{}

/// Each line in which `check` warns is one line, whatever the languages are; and all warnings of a package are told in such lines, one
/// behind the other.
pub fn warnings_of_check_are_lines()
    ensures asks { (d : Details) (place id : ℕ) (is_there : Bool) → IsLine (warning_line d (asking place id is_there)) }
    ensures bounds { (d : Details) (k : ℕ) (ns : List Node) → AllByRecursion (λ w. IsLine (warning_line d w)) (numbered_bounds k ns) }
    ensures constant { (d : Details) (ns : List Node) (g : Node) → IsLine (warning_line d (constant_at ns g)) }
    ensures default { (d : Details) (q : Asked) (n : Node) (denial : Option DenialKind) → IsLine (warning_line d (refused q n denial)) }
    ensures language { (d : Details) (k : ℕ) (lacks : List Lack) → AllByRecursion (λ w. IsLine (warning_line d w)) (numbered_lacks k lacks) }
    ensures overlap { (d : Details) (n m : Node) (before next : Field) → IfSome (overlap_of (laid_at n before) (laid_at m next)) (λ w. IsLine (warning_line d w)) }
    ensures text { (d : Details) (spoken : List Spoken) (place id : ℕ) → IfSome (textless_at spoken place id) (λ w. IsLine (warning_line d w)) }
    ensures unreached { (d : Details) (named : ℕ → Bool) (form : Node) → IfSome (unreached_at named form) (λ w. IsLine (warning_line d w)) }
    ensures all { (d : Details) (spoken : List Spoken) (lacks : List Lack) (ifr : List ℕ) → TellsLines (AreWarnings spoken lacks ifr) (warnings_told Lines d) }
{}

/// A refusal is one line, by its cause alone and with the place of its fault.
pub fn lines_of_refusals_are_lines()
    ensures cause { (cause : Cause) → IsLine (refused_text cause) }
    ensures fault { (fault : Fault) → IsLine (refused_at_text fault) }
{}

/// Each line of `image` is one line: of a store that it fills, of one that it does not, and of defaults, whatever the names of the store
/// and the path of its bytes are.
pub fn lines_of_image_are_lines()
    ensures filled { (n : Node) (source : Source) → IsLine (filled_line n source) }
    ensures refused { (n : Node) (source : Source) → IsLine (refused_line n source) }
    ensures defaults { (laid : Laid) (class : ℕ) → IsLine (count_line laid class) }
{}

/// Each line of `export` is one line, and so is that of bytes that are others in another image.
pub fn lines_of_bytes_are_lines()
    ensures store { (ns : List Node) (id : ℕ) (bytes : List ℕ) → IsLine (held_line ns id bytes) }
    ensures piece { (ns : List Node) (store at : ℕ) (bytes : List ℕ) → AreBytes bytes → IsLine (piece_line ns store at bytes) }
    ensures run { (ns : List Node) (store at : ℕ) (xs ys : List ℕ) → AreBytes xs → AreBytes ys → IsLine (run_line ns store at xs ys) }
{}

/// Each line of `diff` that tells of a question is one line: of a value, and of a verdict, that is another one over another image.
pub fn lines_of_differences_are_lines()
    ensures value { (a b : Audited) (n : Node) → CanTellValue a.texts a.world a.stores n → CanTellValue b.texts b.world b.stores n → IsLine (value_line a b n) }
    ensures verdict { (a b : Audited) (n : Node) → ShowsTexts a.texts → AreBytes n.op → IsLine (verdict_line a b n) }
{}

/// Each line of `survey` is one line: of a forms package, of a store that is not given what it holds, of a fault, and of a question that
/// is found.
pub fn lines_of_survey_are_lines()
    ensures counts { (h : Heading) (c : Counts) → AreBytes h.source.bytes → ((id : ℕ) → id < 2 ^ 64 → all_scalars (text_of h.spoken id) ≡ true) → IsLine (counts_line h c) }
    ensures unfit { (h : Heading) (n : Node) (source : Source) → AreBytes h.source.bytes → ((id : ℕ) → id < 2 ^ 64 → all_scalars (text_of h.spoken id) ≡ true)
        → IsLine (unfit_line h n source) }
    ensures fault { (h : Heading) (fault : Fault) → AreBytes h.source.bytes → IsLine (fault_line h fault) }
    ensures list { (list : ℕ) (fault : Fault) → IsLine (list_fault_line list fault) }
    ensures found { (h : Heading) (a : Audited) (n : Node) → CanTellValue a.texts a.world a.stores n → IfSome (default_taken a (asked a.world.nodes n) 0) HasUnits
        → IsLine (found_line h a n) }
{}

/// Each line of `apply` is one line: the line at which a script ends, whatever its bytes are, its answer, why, and on what this depends,
/// and what was changed or not submitted.
pub fn lines_of_scripts_are_lines()
    ensures line { (line : Line) → AreBytes line.bytes → IsLine (line_told Lines line) }
    ensures answer { (a : Seen) (reply : Reply) → ShowsTexts a.texts → HasMessage reply → IsLine (answer_told Lines a reply) }
    ensures condition { (package_place : ℕ) (state : List ℕ) (c : Node) → IsWord state → IsLine (because_told Lines (condition_text package_place state c)) }
    ensures reason { (ns : List Node) (line : List ℕ) (reply : Reply) → AreBytes line → IsLine (because_told Lines (reason_words Lines ns line reply)) }
    ensures depends { (a : Seen) (id : ℕ) → IfSome (question_with a.world.nodes id) (CanTellValue a.texts a.world a.stores) → IsLine (depends_told Lines a id) }
    ensures unsubmitted { (qs : List Asked) → IsLine (unsubmitted_told Lines qs) }
    ensures changed { (a : Seen) (one other : StoreMap) (n : Node) → CanTellValue a.texts a.world one n → CanTellValue a.texts a.world other n
        → IsLine (change_told Lines a one other n) }
    ensures error { (said : List ℕ) → IsWord said → IsLine (error_told Lines said) }
{}

/// What opens a question is one line, whatever is written and whatever the name of its store is.
pub fn lines_of_unlock_are_lines()
    ensures { (s : State) (q : Asked) (u : Unlock) → AreBytes q.node.op → ShowsTexts (texts s) → CanWrite (nodes_of s.ifr) u.answer → IsLine (unlock_line s q u) }
{}
