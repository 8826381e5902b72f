//! The stores that a form set declares.

use ifr_opcodes::{VARSTORE, VARSTORE_EFI, VARSTORE_NAME_VALUE};
use ifr_scopes::{Forms, StoreOp, Varstore};
use std::process::Abort;

// The opcode of a store by its kind, its place, its id and its size.
fn store_fields(store: Varstore<'_>) -> (u8, u32, u16, Option<u16>) {
    let code = match store.op() {
        StoreOp::Varstore(_) => VARSTORE,
        StoreOp::VarstoreEfi(_) => VARSTORE_EFI,
        StoreOp::NameValue(_) => VARSTORE_NAME_VALUE,
    };
    (code, store.place(), store.id(), store.size())
}

pub(crate) fn stores_are_told(rt: &impl Abort, forms: &Forms<'_>) {
    let mut stores = forms.stores();
    assert!(rt; stores.next().map(store_fields) == Some((VARSTORE, 27, 1, Some(2))));
    assert!(rt; stores.next().map(store_fields) == Some((VARSTORE_EFI, 51, 2, Some(9))));
    assert!(rt; stores.next().map(store_fields) == Some((VARSTORE_NAME_VALUE, 78, 3, None)));
}
