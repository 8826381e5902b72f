//! What a run is asked for.

ghost use Rattle.std.specs.Prelude.{◌≡◌};
ghost use Rattle.audit_answers.specs.code.Listing.{listed};
ghost use Rattle.audit_commands.specs.Auditing.{asked_of};
ghost use Rattle.audit_commands.specs.code.Givens.{given_asked};

use audit_answers::GivenList;
use audit_options::FormSetOptions;
use setup_files::{FormSetFiles, Given};

/// What a forms package of a list is opened over, by the options of a run and its files.
pub fn given_of<'a>(
    options: FormSetOptions<'a>,
    files: &'a FormSetFiles<'_>,
    list: GivenList<'a>,
) -> Given<'a>
    ensures asked { given_asked result ≡ asked_of options.entry files.now (listed list.entry) }
    ensures list { result.list.now ≡ list.entry.bytes.now }
{
    Given {
        list: list.bytes,
        ..files.given(options.list.forms, options.lang)
    }
}
