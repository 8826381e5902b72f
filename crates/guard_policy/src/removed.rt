//! What was removed when the form set was opened.

ghost use Rattle.std.specs.Prelude.{◌≡◌, IfOk, IfErr};
ghost use Rattle.hii_bytes.specs.Faults.{out_of_memory};
ghost use Rattle.ifr_opcodes.specs.Rows.{is_among};
ghost use Rattle.ifr_nodes.specs.Nodes.{nodes_of};
ghost use Rattle.ifr_scopes.specs.code.Lists.{guard_node};
ghost use Rattle.guard_policy.specs.World.{is_disabling, removed_at};
ghost use Rattle.guard_policy.specs.code.RuleValues.{AreRuleValues};

use crate::conditions::condition_holds_by;
use hii_bytes::Fault;
use hii_questions::Questions;
use hii_varstore::Stores;
use ifr_expr::RuleValues;
use ifr_opcodes::DISABLE_IF;
use ifr_scopes::{AnyCondition, Forms, Guard};
use smallvec::SmallVec;
use std::alloc::Global;
use std::marker::Model;

// How many places are held without an allocation: few forms have more DISABLE_IFs that hold.
const FEW: usize = 8;

/// The DISABLE_IFs whose conditions held when the form set was opened: what stands in their scopes is as if it were not there
/// (UEFI 2.8, 33.3.8.3, EFI_IFR_DISABLE_IF). They are seen as their places, which rise, in bytes
/// from the header of the forms package.
#[derive(Drop)]
pub struct Removed {
    places: SmallVec<u32, FEW>,
}

impl Model for Removed {
    ghost use Rattle.std.specs.Prelude.{ℕ, List};
    ghost use Rattle.hii_bytes.specs.code.FirstFaults.{Rise};

    ghost Value = { List ℕ };

    ghost view = { λ r. r.places.items };

    ghost invariant = { λ r. Rise (λ (place : ℕ). place) 0 r.places.items };
}

// Whether a guard is a DISABLE_IF whose condition holds over these stores, by values of rules over them.
fn disables<'a>(
    guard: Guard<'a>,
    forms: &Forms<'a>,
    questions: &Questions<'a>,
    stores: &Stores,
    rules: &mut RuleValues,
) -> bool
    requires together { questions.now.ifr ≡ forms.now }
    requires kept { AreRuleValues forms.now stores.now rules.old }
    ensures is { result
        ≡ is_disabling (nodes_of forms.now) stores.now (guard_node guard.entry) }
    ensures kept { AreRuleValues forms.now stores.now rules.new }
{
    if guard.code() != DISABLE_IF {
        return false;
    }
    condition_holds_by(AnyCondition::Guard(guard), forms, questions, stores, rules)
}

impl Removed {
    /// What is removed of a form set whose stores are these. Where an allocation fails the fault is OutOfMemory (60) at 0, and
    /// there is no other fault. The questions are those of the same package.
    pub fn at_open<'a>(
        alloc: Global,
        forms: &Forms<'a>,
        questions: &Questions<'a>,
        stores: &Stores,
    ) -> Result<Removed, Fault>
        requires { questions.now.ifr ≡ forms.now }
        ensures removed { IfOk result (λ removed. removed
            ≡ removed_at (nodes_of forms.now) stores.now) }
        ensures refused { IfErr result (λ fault. fault ≡ out_of_memory) }
    {
        let mut rules = RuleValues::new(alloc, forms.rule_count())?;
        let mut places = SmallVec::new(alloc);
        let mut guards = forms.guards();
        while let Some(guard) = guards.next() {
            if disables(guard, forms, questions, stores, &mut rules) {
                places.push(guard.place())?;
            }
        }
        Ok(Removed { places })
    }

    /// Whether the DISABLE_IF at a place is one of them. Mostly there are none.
    #[inline(always)]
    pub(crate) fn has(&self, place: u32) -> bool
        ensures { result ≡ is_among place self.now }
    {
        if self.places.is_empty() {
            return false;
        }
        self.has_among(place)
    }

    // The same, found in a search.
    #[inline(never)]
    fn has_among(&self, place: u32) -> bool
        ensures { result ≡ is_among place self.now }
    {
        self.places.as_slice().binary_search(&place).is_ok()
    }
}
