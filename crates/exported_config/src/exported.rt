//! The text of ExportConfig.

ghost use Rattle.std.specs.Prelude.{◌≡◌, bytes_eq, IfOk, map};
ghost use Rattle.exported_config.specs.Giving as spec;

use crate::block::Block;
use crate::giving::{Given, given_by};
use crate::reading::responses_in;
use crate::response::Response;
use crate::unread::Unread;
use std::alloc::{AllocError, Global};

/// A store of the list by its GUID, 16 bytes, and its name, a byte for each character.
#[derive(Clone, Copy)]
pub struct StoreName<'a> {
    pub guid: &'a [u8],
    pub name: &'a [u8],
}

/// The responses of a text that count: those of a store of the list by GUID and NAME, and the others.
#[derive(Drop)]
pub struct ExportedConfig<'a> {
    own: Vec<Response<'a>>,
    others: Vec<Response<'a>>,
}

// Whether numbers are these bytes.
fn are_bytes(numbers: &[u16], bytes: &[u8]) -> bool
    ensures { result ≡ bytes_eq numbers.now bytes.now }
{
    if numbers.len() != bytes.len() {
        return false;
    }
    for (place, byte) in bytes.iter().enumerate() {
        if numbers[place] != u16::from(*byte) {
            return false;
        }
    }
    true
}

// The bytes of a name, `?` for a character that is none.
fn bytes_of(alloc: Global, name: &[u16]) -> Result<Vec<u8>, AllocError>
    ensures { IfOk result (λ bytes. bytes.items ≡ map spec.byte_of name.now) }
{
    let mut bytes = Vec::with_capacity(alloc, name.len())?;
    for character in name {
        bytes.push(u8::try_from(*character).unwrap_or(b'?'))?;
    }
    Ok(bytes)
}

impl Response<'_> {
    ghost use Rattle.std.specs.Prelude.{◌≡◌, map};
    ghost use Rattle.exported_config.specs.Giving as spec;
    ghost use Rattle.exported_config.specs.code.Views.{named_view, response_view};

    // Whether the response counts: it tells no alternative, and has blocks.
    fn counts(&self) -> bool
        ensures { result ≡ spec.counts (response_view self.now) }
    {
        !self.is_alternative && !self.blocks.is_empty()
    }

    // Whether it is of the store of a GUID and a name.
    fn is_of(&self, store: StoreName<'_>) -> bool
        ensures { result ≡ spec.is_of (response_view self.now) store.entry.guid.now store.entry.name.now }
    {
        match &self.name {
            Some(name) => are_bytes(&self.guid, store.guid) && are_bytes(name, store.name),
            None => false,
        }
    }

    // Whether it has a GUID and a name.
    fn is_named(&self, guid: &[u8], wanted: &[u16]) -> bool
        ensures { result ≡ spec.is_of (response_view self.now) guid.now wanted.now }
    {
        match &self.name {
            Some(name) => are_bytes(&self.guid, guid) && name.as_slice() == wanted,
            None => false,
        }
    }

    // Whether it is of a store of the list.
    fn is_of_a_store(&self, stores: &[StoreName<'_>]) -> bool
        ensures { result ≡ spec.is_of_a_store (map named_view stores.now) (response_view self.now) }
    {
        for store in stores {
            if self.is_of(*store) {
                return true;
            }
        }
        false
    }
}

impl<'a> ExportedConfig<'a> {
    ghost use Rattle.std.specs.Prelude.{◌≡◌, ◌++◌, ◌∷◌, [], Ok, IfOk, OnOk, MatchResult, filter, map, option_map};
    ghost use Rattle.exported_config.specs.Giving as spec;
    ghost use Rattle.exported_config.specs.code.Views.{IsUnread, block_view, exported_view, named_view, response_view, responses_view};

    /// The responses of a text (UEFI 2.8, 34.2.1 String Grammar) that count for the stores of a list, or the first fault of one.
    pub fn read(
        alloc: Global,
        stores: &[StoreName<'_>],
        text: &'a [u8],
    ) -> Result<ExportedConfig<'a>, Unread>
        ensures { MatchResult result
            (λ config. spec.exported (map named_view stores.now) text.entry.now ≡ Ok (exported_view config))
            (λ unread. IsUnread unread (spec.exported (map named_view stores.now) text.entry.now)) }
    {
        let mut config = ExportedConfig {
            own: Vec::new(alloc),
            others: Vec::new(alloc),
        };
        for response in responses_in(alloc, text)? {
            config.take(stores, response)?;
        }
        Ok(config)
    }

    // Takes the next response, if it counts.
    fn take(&mut self, stores: &[StoreName<'_>], response: Response<'a>) -> Result<(), AllocError>
        ensures own { OnOk result (responses_view self.new.own.items ≡ responses_view self.old.own.items
            ++ filter (spec.is_own (map named_view stores.now)) (response_view response.entry ∷ [])) }
        ensures others { OnOk result (responses_view self.new.others.items ≡ responses_view self.old.others.items
            ++ filter (spec.is_other (map named_view stores.now)) (response_view response.entry ∷ [])) }
    {
        if !response.counts() {
            return Ok(());
        }
        if response.is_of_a_store(stores) {
            self.own.push(response)?;
        } else {
            self.others.push(response)?;
        }
        Ok(())
    }

    /// What the text gives to a store of the list that holds so many bytes, if it gives something. The one error is that an
    /// allocation failed.
    pub fn given_to(
        &self,
        alloc: Global,
        store: StoreName<'_>,
        size: u16,
    ) -> Result<Option<Given>, AllocError>
        ensures { IfOk result (λ given. option_map spec.given_view given
            ≡ spec.given_to (exported_view self.now) store.entry.guid.now store.entry.name.now size) }
    {
        let own = self.own_blocks(alloc, store)?;
        if !own.is_empty() {
            return Ok(Some(given_by(alloc, &own, size, None)?));
        }
        let Some(name) = self.other_name(store.guid) else {
            return Ok(None);
        };
        let blocks = self.other_blocks(alloc, store.guid, name)?;
        let alias = bytes_of(alloc, name)?;
        Ok(Some(given_by(alloc, &blocks, size, Some(alias))?))
    }

    // The blocks of the responses of a store.
    fn own_blocks(&self, alloc: Global, store: StoreName<'_>) -> Result<Vec<Block<'a>>, AllocError>
        ensures { IfOk result (λ blocks. map block_view blocks.items
            ≡ spec.blocks_of (responses_view self.now.own.items) store.entry.guid.now store.entry.name.now) }
    {
        let mut blocks = Vec::new(alloc);
        for response in &self.own {
            if response.is_of(store) {
                blocks.extend_from_slice(&response.blocks)?;
            }
        }
        Ok(blocks)
    }

    // The name of the first of the other responses with a GUID.
    fn other_name(&self, guid: &[u8]) -> Option<&Vec<u16>>
        ensures { option_map (λ name. name.now.items) result
            ≡ spec.other_name (responses_view self.now.others.items) guid.now }
    {
        for response in &self.others {
            if are_bytes(&response.guid, guid) {
                return response.name.as_ref();
            }
        }
        None
    }

    // The blocks of the other responses with a GUID and a name.
    fn other_blocks(
        &self,
        alloc: Global,
        guid: &[u8],
        name: &[u16],
    ) -> Result<Vec<Block<'a>>, AllocError>
        ensures { IfOk result (λ blocks. map block_view blocks.items
            ≡ spec.blocks_of (responses_view self.now.others.items) guid.now name.now) }
    {
        let mut blocks = Vec::new(alloc);
        for response in &self.others {
            if response.is_named(guid, name) {
                blocks.extend_from_slice(&response.blocks)?;
            }
        }
        Ok(blocks)
    }
}
