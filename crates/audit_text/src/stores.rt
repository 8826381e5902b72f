//! What the opcode of a store says of it.

ghost use Rattle.std.specs.Prelude.{◌≡◌};
ghost use Rattle.ifr_opcodes.specs.Opcode.{number};
ghost use Rattle.ifr_scopes.specs.code.Lists.{store_node};
ghost use Rattle.audit_text.specs.Stores as stores;
ghost use Rattle.audit_text.specs.Words as words;

use crate::names::{attributes_text, opcode_name};
use ifr_scopes::{StoreOp, Varstore};

/// The name of a store's opcode.
pub fn store_opcode_name(store: Varstore<'_>) -> &'static [u8]
    ensures { result.now ≡ words.opcode_name (number (store_node store.entry).op) }
{
    match store.op() {
        StoreOp::Varstore(store) => opcode_name(store.op.code),
        StoreOp::VarstoreEfi(store) => opcode_name(store.op.code),
        StoreOp::NameValue(store) => opcode_name(store.op.code),
    }
}

/// The attributes of a variable, or a hyphen for a store of another kind.
pub fn store_attributes(store: Varstore<'_>) -> &'static [u8]
    ensures { result.now ≡ stores.store_attributes (store_node store.entry).op }
{
    match store.op() {
        StoreOp::Varstore(_) => b"-",
        StoreOp::VarstoreEfi(store) => attributes_text(store.attributes()),
        StoreOp::NameValue(_) => b"-",
    }
}
