//! How wide the elements of lists are.

ghost use Rattle.std.specs.Prelude.{◌≡◌, ◌≤◌, true, IfSome};
ghost use Rattle.ifr_opcodes.specs.Fields.{type_width};
ghost use Rattle.ifr_opcodes.specs.declared.kinds.TheConstants.{TYPE_BOOLEAN};
ghost use Rattle.ifr_scopes.specs.code.Lists.{statement_node};
ghost use Rattle.ifr_nodes.specs.Nodes.{options};
ghost use Rattle.hii_values.specs.code.Widths.{is_width};
ghost use Rattle.hii_values.specs.Types as types;

use ifr_opcodes::{TYPE_NUM_SIZE_16, TYPE_NUM_SIZE_32, TYPE_NUM_SIZE_64};
use ifr_scopes::Statement;

/// The Type of the first option.
pub fn first_kind(statement: Statement<'_>) -> Option<u8>
    ensures first { result ≡ types.first_kind (options (statement_node statement.entry)) }
    ensures numeric { IfSome result (λ kind. kind ≤ TYPE_BOOLEAN) }
{
    let option = statement.options().next()?;
    Some(option.op().kind())
}

// How many bytes a number of a Type has, or a Boolean.
#[tactic(auto, using(crate::proofs::ItemLemmas::kind_widths))]
#[inline(always)]
pub(crate) fn number_width(kind: u8) -> usize
    requires { kind ≤ TYPE_BOOLEAN }
    ensures value { result ≡ type_width kind }
    ensures wide { is_width result ≡ true }
{
    match kind {
        TYPE_NUM_SIZE_16 => 2,
        TYPE_NUM_SIZE_32 => 4,
        TYPE_NUM_SIZE_64 => 8,
        _ => 1,
    }
}

/// How many bytes each element of a list has: 1, 2, 4 or 8.
pub fn element_width(statement: Statement<'_>) -> usize
    ensures value { result ≡ types.element_width (statement_node statement.entry) }
    ensures wide { is_width result ≡ true }
{
    match first_kind(statement) {
        Some(kind) => number_width(kind),
        None => 1,
    }
}
