//! What is told of a forms package.

ghost use Rattle.std.specs.Prelude.{◌++◌};
ghost use Rattle.hii_bytes.specs.Watching.{Puts};
ghost use Rattle.hii_packages.specs.code.Package.{package_of};
ghost use Rattle.ifr_nodes.specs.Nodes.{nodes_of};
ghost use Rattle.check_audit.specs.Lines.{form_set_members, form_set_words, good_line, good_object, good_told, head_line, head_object, head_told, others_told, package_told, refusal_told, verdict_told};
ghost use Rattle.check_audit.specs.WarningLines.{warnings_told};
ghost use Rattle.check_audit.specs.code.Settings.{HasDetails, setting_of};
ghost use Rattle.check_audit.specs.code.Standing.{AllStand};

use crate::form_set::form_set_of;
use crate::refusal::{put_others, put_refusal};
use crate::setting::Setting;
use crate::verdict::{Counts, Good, Refusal, Verdict};
use crate::warning_lines::{Details, put_warnings};
use audit_json::{Telling, end_object, put_guid_member, put_kind, put_number, put_shown};
use audit_text::{Case, put_guid, put_safe_shown};
use hii_bytes::Watched;
use hii_packages::Package;
use opcode_audit::FirstStrings;
use std::io::Write;

/// Tells which forms package of a list this is, and what is found of it.
pub(crate) fn put_package<W: Write>(
    setting: Setting<'_, '_>,
    number: u64,
    source: Package<'_>,
    verdict: &Verdict,
    out: &mut Watched<W>,
)
    requires { HasDetails source.bytes.now verdict.now }
    ensures { Puts W.contents out.old out.new
        (package_told (setting_of setting.entry) number (package_of source.entry) verdict.now) }
{
    put_head(setting, number, source, out);
    put_verdict(setting, source.bytes, verdict, out);
}

// Tells what is found of a forms package.
fn put_verdict<W: Write>(
    setting: Setting<'_, '_>,
    ifr: &[u8],
    verdict: &Verdict,
    out: &mut Watched<W>,
)
    requires { HasDetails ifr.now verdict.now }
    ensures { Puts W.contents out.old out.new
        (verdict_told (setting_of setting.entry) ifr.now verdict.now) }
{
    match verdict {
        Verdict::Good(good) => put_warned(setting, ifr, good, out),
        Verdict::Refused(refusal) => put_refused(setting, ifr, refusal, out),
    }
}

// Tells by which fault a forms package is refused, and the others that are told beside it.
fn put_refused<W: Write>(
    setting: Setting<'_, '_>,
    ifr: &[u8],
    refusal: &Refusal,
    out: &mut Watched<W>,
)
    ensures { Puts W.contents out.old out.new (refusal_told (setting_of setting.entry) ifr.now refusal.now.fault
        ++ others_told setting.entry.telling setting.entry.base refusal.now.others.items) }
{
    put_refusal(setting, ifr, refusal.fault, out);
    put_others(setting, &refusal.others, out);
}

// Tells which forms package this is.
fn put_head<W: Write>(
    setting: Setting<'_, '_>,
    number: u64,
    source: Package<'_>,
    out: &mut Watched<W>,
)
    ensures { Puts W.contents out.old out.new
        (head_told (setting_of setting.entry) number (package_of source.entry)) }
{
    match setting.telling {
        Telling::Lines => put_head_line(setting, number, source, out),
        Telling::Objects => put_head_object(setting, number, source, out),
    }
}

// Writes the line of a forms package.
fn put_head_line<W: Write>(
    setting: Setting<'_, '_>,
    number: u64,
    source: Package<'_>,
    out: &mut Watched<W>,
)
    ensures { Puts W.contents out.old out.new
        (head_line (setting_of setting.entry) number (package_of source.entry)) }
{
    out.put(b"FORMS ");
    out.put_decimal(number);
    out.put(b" ");
    put_form_set(setting.strings, source, out);
    out.put(b"\n");
}

/// Writes the GUID and the title of the form set with which a forms package begins, or a hyphen, where these are the texts of the
/// first string package.
pub fn put_form_set<W: Write>(strings: &FirstStrings<'_>, source: Package<'_>, out: &mut Watched<W>)
    ensures { Puts W.contents out.old out.new
        (form_set_words strings.now (package_of source.entry)) }
{
    let Some(found) = form_set_of(source) else {
        out.put(b"-");
        return;
    };
    put_guid(out, found.guid, Case::Upper);
    out.put(b" ");
    put_safe_shown(strings.shown(found.title).chars(), out);
}

// Writes the object of a forms package.
fn put_head_object<W: Write>(
    setting: Setting<'_, '_>,
    number: u64,
    source: Package<'_>,
    out: &mut Watched<W>,
)
    ensures { Puts W.contents out.old out.new
        (head_object (setting_of setting.entry) number (package_of source.entry)) }
{
    put_kind(b"forms", out);
    put_number(b"package", number, out);
    put_number(b"at", setting.base, out);
    put_form_set_members(setting.strings, source, out);
    end_object(out);
}

/// Writes the members that tell the GUID and the title of the form set with which a forms package begins, if it does.
pub fn put_form_set_members<W: Write>(
    strings: &FirstStrings<'_>,
    source: Package<'_>,
    out: &mut Watched<W>,
)
    ensures { Puts W.contents out.old out.new
        (form_set_members strings.now (package_of source.entry)) }
{
    let Some(found) = form_set_of(source) else {
        return;
    };
    put_guid_member(b"guid", found.guid, out);
    put_shown(b"title", strings.shown(found.title).chars(), out);
}

// Tells that a forms package is good, and what is strange of it.
fn put_warned<W: Write>(setting: Setting<'_, '_>, ifr: &[u8], good: &Good, out: &mut Watched<W>)
    requires { AllStand ifr.now good.now.warnings.items }
    ensures { Puts W.contents out.old out.new (good_told setting.entry.telling good.now.counts
        ++ warnings_told setting.entry.telling
        record { spans = good.now.spans.items; nodes = nodes_of ifr.now; lacks = setting.entry.lacks.now }
        good.now.warnings.items) }
{
    let details = Details {
        spans: &good.spans,
        ifr,
        lacks: setting.lacks,
    };
    put_good(setting.telling, good.counts, out);
    put_warnings(setting.telling, details, &good.warnings, out);
}

// Tells that a forms package is good.
fn put_good<W: Write>(telling: Telling, counts: Counts, out: &mut Watched<W>)
    ensures { Puts W.contents out.old out.new (good_told telling counts) }
{
    match telling {
        Telling::Lines => put_good_line(counts, out),
        Telling::Objects => put_good_object(counts, out),
    }
}

// Writes the line of a good forms package.
fn put_good_line<W: Write>(counts: Counts, out: &mut Watched<W>)
    ensures { Puts W.contents out.old out.new (good_line counts) }
{
    out.put(b"GOOD ");
    out.put_decimal(counts.forms as u64);
    out.put(b" forms, ");
    out.put_decimal(counts.questions as u64);
    out.put(b" questions, ");
    out.put_decimal(counts.stores as u64);
    out.put(b" stores\n");
}

// Writes the object of a good forms package.
fn put_good_object<W: Write>(counts: Counts, out: &mut Watched<W>)
    ensures { Puts W.contents out.old out.new (good_object counts) }
{
    put_kind(b"good", out);
    put_number(b"forms", counts.forms as u64, out);
    put_number(b"questions", counts.questions as u64, out);
    put_number(b"stores", counts.stores as u64, out);
    end_object(out);
}
