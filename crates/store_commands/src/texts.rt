//! The texts from which defaults are taken.

ghost use Rattle.std.specs.Prelude.{◌≡◌, ℕ, List, IfErr, IfOk, option_map};
ghost use Rattle.hii_bytes.specs.Faults.{Refuses};
ghost use Rattle.store_audit.specs.code.Defaulted.{defaults_view};
ghost use Rattle.store_commands.specs.Defaulting.{IsMadeFault, defaults_asked};
ghost use Rattle.store_commands.specs.code.Defaulting.{AreTexts};

use audit_options::ImageOptions;
use hii_bytes::Fault;
use hii_languages::Languages;
use hii_packages::PackageList;
use std::alloc::Global;
use store_audit::{Defaults, forms_package};

/// The texts of a list, where defaults are asked for; or the least fault of its packages, that it has no such forms package, or the first
/// fault of its string packages.
pub(crate) fn texts_for<'a>(
    alloc: Global,
    list: &'a [u8],
    options: &ImageOptions<'_>,
) -> Result<Option<Languages<'a>>, Fault>
    ensures texts { IfOk result (λ texts. AreTexts options.now.defaults list.entry.now texts) }
    ensures refused { IfErr result (Refuses (IsMadeFault options.now list.entry.now)) }
{
    if options.defaults.is_none() {
        return Ok(None);
    }
    forms_package(list, usize::from(options.list.forms))?;
    let packages = PackageList::read(list)?;
    Ok(Some(Languages::read(alloc, &packages)?))
}

/// The defaults that are asked for.
pub(crate) fn defaults_of<'a, 's>(
    options: &ImageOptions<'_>,
    texts: Option<&'s Languages<'a>>,
) -> Option<Defaults<'a, 's>>
    ensures { (list : List ℕ) → AreTexts options.now.defaults list (option_map (λ texts. texts.now) texts.entry)
        → option_map defaults_view result ≡ defaults_asked options.now list }
{
    let class = options.defaults?;
    let languages = texts?;
    Some(Defaults {
        class,
        languages,
        choice: languages.choose(options.lang.as_bytes()),
    })
}
