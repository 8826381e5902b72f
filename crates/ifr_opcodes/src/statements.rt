//! Statements and the questions among them, stores, conditions of questions and opcodes of no effect, by their numbers (UEFI 2.8,
//! 33.3.8.3).

ghost use Rattle.std.specs.Prelude.{◌≡◌};
ghost use Rattle.ifr_opcodes.specs.Rows as rows;

use crate::role::Role;

/// Whether this is the number of a question.
#[tactic(auto, using(crate::proofs::ColumnLemmas::question_at))]
pub fn is_question(code: u8) -> bool
    ensures { result ≡ rows.is_question_number code }
{
    Role::of(code).is_question()
}

/// Whether this is the number of a statement.
#[tactic(auto, using(crate::proofs::ColumnLemmas::statement_at))]
pub fn is_statement(code: u8) -> bool
    ensures { result ≡ rows.is_statement_number code }
{
    Role::of(code).is_statement()
}

/// Whether this is the number of a store.
#[tactic(auto, using(crate::proofs::ColumnLemmas::store_at))]
pub fn is_store(code: u8) -> bool
    ensures { result ≡ rows.is_store_number code }
{
    Role::of(code).is_store()
}

/// Whether this is the number of a condition that a question has beside its options.
#[tactic(auto, using(crate::proofs::ColumnLemmas::condition_at))]
pub fn is_condition(code: u8) -> bool
    ensures { result ≡ rows.is_condition_number code }
{
    Role::of(code).is_condition()
}

/// Whether an opcode of this number has no effect.
#[tactic(auto, using(crate::proofs::ColumnLemmas::ignored_at))]
pub fn is_ignored(code: u8) -> bool
    ensures { result ≡ rows.is_ignored code }
{
    Role::of(code).is_ignored()
}
