//! A session over what is given.

ghost use Rattle.std.specs.Prelude.{◌+◌, ◌<◌, ◌^◌, IfOk, IfErr, length};
ghost use Rattle.hii_bytes.specs.Faults.{Refuses};
ghost use Rattle.session_steps.specs.Opening.{IsOpenFault};
ghost use Rattle.audit_commands.specs.code.Givens.{given_asked};

use browser_commands::Browser;
use hii_bytes::Fault;
use question_audit::Origin;
use setup_files::Given;
use std::alloc::Global;
use store_audit::forms_package;

/// A session over what is given, and where its forms package stands in the file.
#[derive(Drop)]
pub(crate) struct Opened<'a> {
    pub browser: Browser<'a>,
    pub place: Origin,
    ghost inside: { place.place + length browser.state.ifr < 2 ^ 64 },
}

impl<'a> Opened<'a> {
    ghost use Rattle.audit_commands.specs.code.Opened.{IsOpened};

    /// Opens a session, where the list begins at a place of the file; or gives the least fault of what is given, by which a session
    /// over it is refused, or that an allocation failed.
    pub(crate) fn read(alloc: Global, given: Given<'a>, origin: Origin) -> Result<Opened<'a>, Fault>
        requires { origin.place + length given.list.now < 2 ^ 64 }
        ensures opened { IfOk result (IsOpened (given_asked given.entry) origin) }
        ensures refused { IfErr result (Refuses (IsOpenFault given.entry.list.now given.entry.forms given.entry.stores.now)) }
    {
        let Given {
            list,
            forms,
            stores,
            lang,
        } = given;
        let package = forms_package(list, forms)?;
        let browser = Browser::open(alloc, list, forms, stores, lang)?;
        let place = Origin {
            holder: origin.holder,
            place: origin.place + package.place,
        };
        Ok(Opened { browser, place })
    }
}
