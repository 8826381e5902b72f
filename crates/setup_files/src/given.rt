//! What a form set is opened over (own rule).

ghost use Rattle.std.specs.Prelude.{◌≡◌, ◌≢◌, IfErr, IfOk};

use crate::endings::Status;
use crate::files::{WholeFile, file};
use crate::terminal::Terminals;
use std::rt::Files;

/// What a form set is opened over.
#[derive(Clone, Copy)]
pub struct Given<'a> {
    /// The bytes of the package list.
    pub list: &'a [u8],
    /// Which forms package is opened, counted from 1.
    pub forms: usize,
    /// The image of the stores.
    pub stores: &'a [u8],
    /// The language of the texts.
    pub lang: &'a [u8],
}

/// A package list and an image of its stores, as their files hold them.
#[derive(Drop)]
pub struct FormSetFiles<'p> {
    /// The file of the list.
    pub list: WholeFile<'p>,
    /// The file of the image.
    pub stores: WholeFile<'p>,
}

impl<'p> FormSetFiles<'p> {
    /// Reads both files, the list first, or gives the status with which the program ends.
    pub fn read<R: Files + Print + Eprint + AllocGlobal>(
        rt: &R,
        terminals: Terminals,
        list: &'p str,
        stores: &'p str,
    ) -> Result<FormSetFiles<'p>, Status>
        ensures list { IfOk result (λ files. files.list.path.now ≡ list.now) }
        ensures stores { IfOk result (λ files. files.stores.path.now ≡ stores.now) }
        ensures err { IfErr result (λ status. status ≢ Status.Done) }
    {
        let list = file(rt, terminals, list, "read list")?;
        let stores = file(rt, terminals, stores, "read stores")?;
        Ok(FormSetFiles { list, stores })
    }

    /// What a forms package of the list is opened over, with texts in a language.
    pub fn given<'a>(&'a self, forms: u16, lang: &'a str) -> Given<'a>
        ensures list { result.list.now ≡ self.now.list.bytes.items }
        ensures forms { result.forms ≡ forms }
        ensures stores { result.stores.now ≡ self.now.stores.bytes.items }
        ensures lang { result.lang.now ≡ lang.now }
    {
        Given {
            list: self.list.bytes.as_slice(),
            forms: usize::from(forms),
            stores: self.stores.bytes.as_slice(),
            lang: lang.as_bytes(),
        }
    }
}
