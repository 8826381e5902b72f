//! The stores of a form set, as configuration texts name them.

ghost use Rattle.std.specs.Prelude.{◌≡◌, IfOk};
ghost use Rattle.config_text.specs.code.Views.{header_view};
ghost use Rattle.ifr_nodes.specs.Nodes.{nodes_of};
ghost use Rattle.ifr_scopes.specs.code.Lists.{store_node};
ghost use Rattle.session_steps.specs.Configuration.{names_store, store_named};

use config_text::Header;
use ifr_scopes::{Forms, Varstore};
use std::alloc::{AllocError, Global};
use std::marker::Model;

/// The stores that a form set declares, by place. They are seen as the package.
#[derive(Drop)]
pub(crate) struct Varstores<'a> {
    ifr: &'a [u8],
    stores: Vec<Varstore<'a>>,
}

impl<'a> Model for Varstores<'a> {
    ghost use Rattle.std.specs.Prelude.{◌≡◌, ℕ, List, map, filter};
    ghost use Rattle.ifr_nodes.specs.Nodes.{nodes_of, is_store};
    ghost use Rattle.ifr_scopes.specs.code.Lists.{store_node};

    ghost Value = { List ℕ };

    ghost view = { λ s. s.ifr.now };

    ghost invariant = { λ s. map store_node s.stores.items
        ≡ filter is_store (nodes_of s.ifr.now) };
}

impl<'a> Varstores<'a> {
    /// The stores of a form set.
    pub(crate) fn read(alloc: Global, forms: &Forms<'a>) -> Result<Varstores<'a>, AllocError>
        ensures { IfOk result (λ stores. stores ≡ forms.now) }
    {
        let mut stores = Vec::new(alloc);
        for store in forms.stores() {
            stores.push(store)?;
        }
        Ok(Varstores {
            ifr: forms.bytes(),
            stores,
        })
    }

    /// The id of the first store of bytes that a header names, in a list with this device path.
    pub(crate) fn named(&self, header: Header<'_>, path: &[u8]) -> Option<u16>
        ensures { result ≡ store_named (nodes_of self.now) path.now (header_view header.entry) }
    {
        for store in &self.stores {
            if is_named(*store, header, path) {
                return Some(store.id());
            }
        }
        None
    }
}

// Whether a header names a store of bytes, in a list with this device path.
fn is_named(store: Varstore<'_>, header: Header<'_>, path: &[u8]) -> bool
    ensures { result ≡ names_store (header_view header.entry) path.now (store_node store.entry) }
{
    store.size().is_some() && header.names(store.guid().bytes(), store.name(), path)
}
