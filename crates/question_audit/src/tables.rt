//! What lines look up of a form set.

ghost use Rattle.std.specs.Prelude.{IfOk};
ghost use Rattle.guard_policy.specs.code.Views.{bytes_of};
ghost use Rattle.question_audit.specs.code.Pages.{audited};
ghost use Rattle.question_audit.specs.code.Looking.{TellsTables};

use crate::guard_table::GuardTable;
use crate::store_names::StoreNames;
use crate::ways::Ways;
use form_page::Page;
use guard_policy::Conditions;
use std::alloc::{AllocError, Global};

/// What lines look up of a form set, found once for all of them.
pub struct Tables<'a> {
    pub ways: Ways,
    pub names: StoreNames<'a>,
    pub guards: GuardTable,
}

impl<'a> Drop for Tables<'a> {
    fn drop(self) {
        let Tables {
            ways: _,
            names: _,
            guards: _,
        } = self;
    }
}

impl<'a> Tables<'a> {
    /// Those of a page's form set over the stores of the page. The one error is that an allocation failed.
    pub fn read<C: Conditions>(
        alloc: Global,
        page: Page<'a, '_, C>,
    ) -> Result<Tables<'a>, AllocError>
        ensures { IfOk result (TellsTables (audited page.entry) (bytes_of page.entry.policy)) }
    {
        let ways = Ways::read(alloc, page)?;
        let names = StoreNames::read(alloc, page.policy().forms())?;
        let guards = GuardTable::read(alloc, page)?;
        Ok(Tables {
            ways,
            names,
            guards,
        })
    }
}
