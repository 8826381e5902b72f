//! The names of stores.

ghost use Rattle.std.specs.Prelude.{◌≡◌, IfOk, option_map};
ghost use Rattle.ifr_nodes.specs.Nodes.{nodes_of};
ghost use Rattle.ifr_scopes.specs.code.Lists.{store_node};
ghost use Rattle.question_audit.specs.QuestionLines.{name_of, store_with};
ghost use Rattle.question_audit.specs.code.Names.{id_of};

use crate::numbered::{Numbered, first_with};
use ifr_scopes::{Forms, Varstore};
use std::alloc::{AllocError, Global};
use std::marker::Model;

impl<'a> Numbered for Varstore<'a> {
    ghost number_of = { id_of };

    fn number(&self) -> u16 {
        self.id()
    }
}

/// The stores of a form set, of any kind, which are found by their ids. They are seen as the forms package.
#[derive(Drop)]
pub struct StoreNames<'a> {
    ifr: &'a [u8],
    // Sorted by their ids.
    stores: Vec<Varstore<'a>>,
}

impl<'a> Model for StoreNames<'a> {
    ghost use Rattle.std.specs.Prelude.{ℕ, List};
    ghost use Rattle.question_audit.specs.code.Names.{AreStoresOf};

    ghost Value = { List ℕ };

    ghost view = { λ s. s.ifr.now };

    ghost invariant = { λ s. AreStoresOf s.ifr.now s.stores.items };
}

impl<'a> StoreNames<'a> {
    /// The stores of a form set. The one error is that an allocation failed.
    pub fn read(alloc: Global, forms: &Forms<'a>) -> Result<StoreNames<'a>, AllocError>
        ensures { IfOk result (λ names. names ≡ forms.now) }
    {
        let mut stores = Vec::new(alloc);
        for store in forms.stores() {
            stores.push(store)?;
        }
        stores.sort_by_key(|store| store.id())?;
        Ok(StoreNames {
            ifr: forms.bytes(),
            stores,
        })
    }

    /// The store of an id, the first by place, if there is one.
    pub fn find(&self, id: u16) -> Option<Varstore<'a>>
        ensures { option_map store_node result ≡ store_with (nodes_of self.now) id }
    {
        first_with(&self.stores, id)
    }

    /// The bytes of the name of the store of an id, or none where it has no name or is not there.
    pub fn name(&self, id: u16) -> &'a [u8]
        ensures { result.now ≡ name_of (store_with (nodes_of self.now) id) }
    {
        match self.find(id) {
            Some(store) => store.name(),
            None => &[],
        }
    }
}
