//! Defaults over the stores of a form set.

ghost use Rattle.std.specs.Prelude.{◌≡◌, option_map};
ghost use Rattle.hii_bytes.specs.Watching.{Puts};
ghost use Rattle.ifr_nodes.specs.Nodes.{nodes_of};
ghost use Rattle.laid_defaults.specs.Laying.{Laid};
ghost use Rattle.hii_varstore.specs.StoreNodes.{layout_of};
ghost use Rattle.hii_varstore.specs.Stores.{shape_of};
ghost use Rattle.store_audit.specs.Defaulted as spec;
ghost use Rattle.store_audit.specs.code.Defaulted.{defaults_view};

use crate::declared::Declared;
use crate::defaults::Defaults;
use audit_json::{Telling, end_object, put_kind, put_number};
use hii_bytes::Watched;
use hii_varstore::Stores;
use laid_defaults::{Setup, lay_defaults};
use std::io::Write;

// Writes how many defaults of a class were taken.
fn put_count_line<W: Write>(count: u64, class: u16, out: &mut Watched<W>)
    ensures { (laid : Laid) → laid.count ≡ count → Puts W.contents out.old out.new (spec.count_line laid class) }
{
    out.put(b"DEFAULTS ");
    out.put_decimal(count);
    out.put(b" of class ");
    out.put_decimal(u64::from(class));
    out.put(b"\n");
}

// Writes that as an object.
fn put_count_object<W: Write>(count: u64, class: u16, out: &mut Watched<W>)
    ensures { (laid : Laid) → laid.count ≡ count → Puts W.contents out.old out.new (spec.count_object laid class) }
{
    put_kind(b"defaults", out);
    put_number(b"count", count, out);
    put_number(b"class", u64::from(class), out);
    end_object(out);
}

// Tells how many defaults of a class were taken.
fn put_count<W: Write>(telling: Telling, count: u64, class: u16, out: &mut Watched<W>)
    ensures { (laid : Laid) → laid.count ≡ count → Puts W.contents out.old out.new (spec.count_told telling laid class) }
{
    match telling {
        Telling::Lines => put_count_line(count, class, out),
        Telling::Objects => put_count_object(count, class, out),
    }
}

// Lays the defaults of a class over stores, and tells how many were taken.
fn put_laid<'a, W: Write>(
    telling: Telling,
    declared: &Declared<'a>,
    defaults: Defaults<'a, '_>,
    stores: &mut Stores,
    out: &mut Watched<W>,
)
    requires { shape_of stores.old ≡ layout_of (nodes_of declared.now) }
    ensures shape { shape_of stores.new ≡ shape_of stores.old }
    ensures laid { stores.new ≡ (spec.laid_over declared.now (defaults_view defaults.entry) stores.old).stores }
    ensures text { Puts W.contents out.old out.new
        (spec.count_told telling (spec.laid_over declared.now (defaults_view defaults.entry) stores.old) defaults.entry.class) }
{
    let setup = Setup {
        forms: declared.forms(),
        questions: declared.questions(),
        languages: defaults.languages,
        choice: defaults.choice,
    };
    let count = lay_defaults(setup, defaults.class, stores);
    put_count(telling, count as u64, defaults.class, out);
}

/// Lays defaults over stores, if they are asked for, and tells how many were taken.
pub(crate) fn put_defaults<'a, W: Write>(
    telling: Telling,
    declared: &Declared<'a>,
    defaults: Option<Defaults<'a, '_>>,
    stores: &mut Stores,
    out: &mut Watched<W>,
)
    requires { shape_of stores.old ≡ layout_of (nodes_of declared.now) }
    ensures shape { shape_of stores.new ≡ shape_of stores.old }
    ensures laid { stores.new ≡ spec.left_by declared.now (option_map defaults_view defaults.entry) stores.old }
    ensures text { Puts W.contents out.old out.new
        (spec.defaults_told telling declared.now (option_map defaults_view defaults.entry) stores.old) }
{
    if let Some(defaults) = defaults {
        put_laid(telling, declared, defaults, stores, out);
    }
}
