//! Objects of `check`.

ghost use Rattle.std.specs.Prelude.{◌≡◌, ◌<◌, ◌^◌, Bool, ℕ, IfSome, List, Option, codes, length, true};
ghost use Rattle.std.specs.List.{AllByRecursion};
ghost use Rattle.std.specs.Str.{all_scalars};
ghost use Rattle.browser_rules.specs.Packages.{Package};
ghost use Rattle.browser_rules.specs.Strings.{Spoken};
ghost use Rattle.hii_bytes.specs.Numbers.{AreBytes};
ghost use Rattle.hii_bytes.specs.declared.cause.Cause.{Cause};
ghost use Rattle.hii_bytes.specs.declared.cause.Fault.{Fault};
ghost use Rattle.ifr_opcodes.specs.Forest.{Node};
ghost use Rattle.ifr_nodes.specs.Nodes.{nodes_of};
ghost use Rattle.hii_values.specs.declared.denial.DenialKind.{DenialKind};
ghost use Rattle.hii_questions.specs.Fields.{Asked, Field};
ghost use Rattle.check_audit.specs.Behind.{seen_before};
ghost use Rattle.check_audit.specs.Constants.{constant_at};
ghost use Rattle.check_audit.specs.GivenDefaults.{refused};
ghost use Rattle.check_audit.specs.Lacks.{Lack, numbered_lacks};
ghost use Rattle.check_audit.specs.Lines.{Setting, also_object, byte_object, good_object, head_object, mostly_object, named_object, opcode_object, text_of};
ghost use Rattle.check_audit.specs.Mostly.{mostly_at};
ghost use Rattle.check_audit.specs.Overlaps.{laid_at, overlap_of};
ghost use Rattle.check_audit.specs.Verdicts.{counts_of};
ghost use Rattle.check_audit.specs.WarningLines.{Details, warning_object};
ghost use Rattle.check_audit.specs.Warnings.{asking, numbered_bounds, textless_at, unreached_at};
ghost use Rattle.json_laws.specs.laws.Telling.{IsReadBack};
ghost use Rattle.object_laws.specs.laws.Checks.{CanDetail};

/// What is told of a forms package, how much it has where it is good, what stands where it has a fault and before it, and the others, is
/// read back; the fault itself is a refusal.
pub fn objects_of_check_are_read_back()
    ensures head { (s : Setting) (number : ℕ) (p : Package) → number < 2 ^ 64 → s.base < 2 ^ 64 → AreBytes p.bytes
        → ((id : ℕ) → id < 2 ^ 64 → all_scalars (text_of s.spoken id) ≡ true) → IsReadBack (codes "forms") (head_object s number p) }
    ensures byte { (byte : ℕ) → byte < 2 ^ 64 → IsReadBack (codes "byte") (byte_object byte) }
    ensures opcode { (op : List ℕ) → AreBytes op → IsReadBack (codes "opcode") (opcode_object op) }
    ensures mostly { (cause : Cause) (op : Option (List ℕ)) → IsReadBack (codes "mostly") (mostly_object (mostly_at cause op)) }
    ensures also { (fault : Fault) (byte : ℕ) → fault.place < 2 ^ 64 → byte < 2 ^ 64 → IsReadBack (codes "also") (also_object fault byte) }
    ensures form { (s : Setting) (ifr : List ℕ) (place : ℕ) → AreBytes ifr → ((id : ℕ) → id < 2 ^ 64 → all_scalars (text_of s.spoken id) ≡ true)
        → IfSome (seen_before ifr place).form (λ n. IsReadBack (codes "form") (named_object s (codes "form") n)) }
    ensures behind { (s : Setting) (ifr : List ℕ) (place : ℕ) → AreBytes ifr → ((id : ℕ) → id < 2 ^ 64 → all_scalars (text_of s.spoken id) ≡ true)
        → IfSome (seen_before ifr place).question (λ n. IsReadBack (codes "behind") (named_object s (codes "behind") n)) }
    ensures good { (ifr : List ℕ) → length (nodes_of ifr) < 2 ^ 64 → IsReadBack (codes "good") (good_object (counts_of ifr)) }
{}

/// What is strange of a forms package is read back, of each word: a condition that asks what has no answer, the bounds by their
/// numbers, a guard whose condition names no question, a default that its question does not take, the string packages that lack
/// texts, two fields that share bytes, a string id without a text, and a form that no reference names.
pub fn warnings_of_check_are_read_back()
    ensures asks { (d : Details) (place id : ℕ) (is_there : Bool) → place < 2 ^ 64 → id < 2 ^ 64 → IsReadBack (codes "warning") (warning_object d (asking place id is_there)) }
    ensures bounds { (d : Details) (k : ℕ) (ns : List Node) → CanDetail d → AllByRecursion (λ n. n.place < 2 ^ 64) ns
        → AllByRecursion (λ w. IsReadBack (codes "warning") (warning_object d w)) (numbered_bounds k ns) }
    ensures constant { (d : Details) (ns : List Node) (g : Node) → g.place < 2 ^ 64 → IsReadBack (codes "warning") (warning_object d (constant_at ns g)) }
    ensures default { (d : Details) (q : Asked) (n : Node) (denial : Option DenialKind) → n.place < 2 ^ 64 → AreBytes n.op → AreBytes q.node.op
        → IsReadBack (codes "warning") (warning_object d (refused q n denial)) }
    ensures language { (d : Details) (k : ℕ) (lacks : List Lack) → CanDetail d
        → AllByRecursion (λ w. IsReadBack (codes "warning") (warning_object d w)) (numbered_lacks k lacks) }
    ensures overlap { (d : Details) (n m : Node) (before next : Field) → m.place < 2 ^ 64 → AreBytes n.op → AreBytes m.op
        → IfSome (overlap_of (laid_at n before) (laid_at m next)) (λ w. IsReadBack (codes "warning") (warning_object d w)) }
    ensures text { (d : Details) (spoken : List Spoken) (place id : ℕ) → place < 2 ^ 64 → id < 2 ^ 64
        → IfSome (textless_at spoken place id) (λ w. IsReadBack (codes "warning") (warning_object d w)) }
    ensures unreached { (d : Details) (named : ℕ → Bool) (form : Node) → form.place < 2 ^ 64 → AreBytes form.op
        → IfSome (unreached_at named form) (λ w. IsReadBack (codes "warning") (warning_object d w)) }
{}
