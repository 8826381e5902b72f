//! What is seen, changed and submitted by the chapters, and what denies it, is what the contracts say.

ghost use Rattle.std.specs.Prelude.{◌≡◌, ℕ, List, true, option_map, Contains};
ghost use Rattle.browser_rules.specs.Policy as chapter;
ghost use Rattle.browser_rules.specs.Stores.{Stores};
ghost use Rattle.hii_bytes.specs.Numbers.{AreBytes};
ghost use Rattle.ifr_opcodes.specs.Forest.{Node};
ghost use Rattle.ifr_nodes.specs.Checked.{IsChecked};
ghost use Rattle.ifr_nodes.specs.Nodes.{is_question, nodes_of};
ghost use Rattle.hii_varstore.specs.Stores.{StoreMap};
ghost use Rattle.hii_values.specs.Denials.{kind_name};
ghost use Rattle.hii_values.specs.declared.denial.DenialKind.{DenialKind};
ghost use Rattle.guard_policy.specs.Policy.{first_closed, fixed, hidden, inconsistent, unsubmitted, warned};
ghost use Rattle.guard_policy.specs.World.{World, removed_at, world_over};
ghost use Rattle.rules_laws.specs.laws.Policy.{AnswerAlike, AreAlike};
ghost use Rattle.rules_laws.specs.Denials.{denial_for, kind_for};

/// The kinds of denials have the names of the chapters.
pub fn denials_have_the_names_of_the_chapters()
    ensures { (kind : DenialKind) → chapter.kind_name (kind_for kind) ≡ kind_name kind }
{}

/// In worlds that are alike the same hides a node of the package.
pub fn the_same_hides_a_node()
    ensures { (bytes : List ℕ) (w : chapter.World) (v : World) (n : Node) → AreAlike bytes w v
        → Contains (nodes_of bytes) n →
        chapter.hidden_by w n ≡ option_map denial_for (hidden v n) }
{}

/// In worlds that are alike the same fixes a node of the package.
pub fn the_same_fixes_a_node()
    ensures { (bytes : List ℕ) (w : chapter.World) (v : World) (n : Node) → AreAlike bytes w v
        → Contains (nodes_of bytes) n →
        chapter.fixed_by w n ≡ option_map denial_for (fixed v n) }
{}

/// In worlds that are alike the same denies the first of some values of a question's options that is denied.
pub fn the_same_closes_values()
    ensures { (bytes : List ℕ) (w : chapter.World) (v : World) (q : Node) (values : List ℕ)
        → AreAlike bytes w v → Contains (nodes_of bytes) q → is_question q ≡ true →
        chapter.values_denied_by w q values ≡ option_map denial_for (first_closed v q values) }
{}

/// In worlds that are alike the same is inconsistent with a question, and the same warns of it.
pub fn the_same_is_inconsistent_and_warned()
    ensures inconsistent { (bytes : List ℕ) (w : chapter.World) (v : World) (q : Node)
        → AreAlike bytes w v → Contains (nodes_of bytes) q → is_question q ≡ true →
        chapter.inconsistent_by w q ≡ option_map denial_for (inconsistent v q) }
    ensures warned { (bytes : List ℕ) (w : chapter.World) (v : World) (q : Node)
        → AreAlike bytes w v → Contains (nodes_of bytes) q → is_question q ≡ true →
        chapter.warnings w q ≡ warned v q }
{}

/// In worlds that are alike the same denies a submission.
pub fn the_same_denies_a_submission()
    ensures { (bytes : List ℕ) (w : chapter.World) (v : World) → AreAlike bytes w v →
        chapter.submission_denied_by w ≡ option_map denial_for (unsubmitted v) }
{}

/// The same is removed at opening, where over the stores the same conditions are met.
pub fn the_same_is_removed_at_opening()
    ensures { (bytes removed : List ℕ) (w : chapter.World) (stores : StoreMap)
        → AreAlike bytes w (world_over (nodes_of bytes) removed stores) →
        chapter.removed_at w.nodes w.stores ≡ removed_at (nodes_of bytes) stores }
{}

/// Over a checked package and stores in which questions answer the same, conditions are met alike, and so worlds are alike.
pub fn conditions_are_met_alike()
    ensures { (bytes removed : List ℕ) (stores : Stores) (held : StoreMap) → IsChecked bytes
        → AreBytes bytes → AnswerAlike (nodes_of bytes) stores held →
        AreAlike bytes (record { nodes = nodes_of bytes; removed = removed; stores = stores })
        (world_over (nodes_of bytes) removed held) }
{}
