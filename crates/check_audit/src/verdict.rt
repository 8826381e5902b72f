//! Whether a forms package can be opened.

ghost use Rattle.std.specs.Prelude.{◌≡◌, ◌∷◌, ◌<◌, true, false, IfOk, filter, length};
ghost use Rattle.hii_bytes.specs.Faults.{HasNone, IsLeast};
ghost use Rattle.ifr_nodes.specs.Accepted.{IsAccepted, IsPackageFault};
ghost use Rattle.ifr_nodes.specs.Checked.{IsChecked};
ghost use Rattle.ifr_nodes.specs.Nodes.{is_form, is_store, nodes_of};
ghost use Rattle.hii_varstore.specs.StoreNodes.{IsStoreFault, layout_of};
ghost use Rattle.check_audit.specs.Verdicts.{IsRefusal, IsVerdict, counts_of, is_good};
ghost use Rattle.check_audit.specs.Warnings.{AreWarnings, crossed_spans};
ghost use Rattle.check_audit.specs.code.Settings.{HasDetails};
ghost use Rattle.check_audit.specs.code.Standing.{AllStand};

use crate::lacks::Lacks;
use crate::warning::{Span, Warning};
use crate::warnings::warnings_of;
use hii_bytes::{Cause, Fault};
use hii_packages::Package;
use hii_questions::Questions;
use hii_varstore::Layout;
use ifr_nodes::{check_framing, check_structure};
use ifr_scopes::Forms;
use opcode_audit::FirstStrings;
use package_faults::{question_faults, reference_faults, store_faults};
use std::alloc::{AllocError, Global};

/// How many forms, questions and stores a forms package has.
#[derive(Clone, Copy)]
pub(crate) struct Counts {
    pub forms: usize,
    pub questions: usize,
    pub stores: usize,
}

/// What is told of a forms package that has no fault.
#[derive(Drop)]
pub(crate) struct Good {
    pub counts: Counts,
    pub warnings: Vec<Warning>,
    /// The bounds that nothing can meet.
    pub spans: Vec<Span>,
}

/// By which fault a forms package is refused.
#[derive(Drop)]
pub(crate) struct Refusal {
    /// The least fault.
    pub fault: Fault,
    /// The others of the same pass, where all of it are told, by place and then by cause.
    pub others: Vec<Fault>,
}

impl Refusal {
    // The first of these faults, and the others.
    fn of(faults: Vec<Fault>) -> Refusal
        requires { 0 < length faults.items }
        ensures { result.fault ∷ result.others.items ≡ faults.items }
    {
        let mut others = faults;
        let fault = others.remove(0);
        Refusal { fault, others }
    }

    // The refusal of a package by the least fault of its nodes.
    fn by_nodes(alloc: Global, source: Package<'_>, fault: Fault) -> Result<Refusal, AllocError>
        requires { IsLeast (IsPackageFault source.bytes.now) fault }
        ensures { IfOk result (IsRefusal source.entry.bytes.now) }
    {
        if is_checked(source) {
            let faults = reference_faults(alloc, source.bytes)?;
            return Ok(Refusal::of(faults));
        }
        Ok(Refusal {
            fault,
            others: Vec::new(alloc),
        })
    }
}

// Whether the framing of a package and its nodes by themselves have no fault.
fn is_checked(source: Package<'_>) -> bool
    ensures is { result ≡ true → IsChecked source.entry.bytes.now }
    ensures not { result ≡ false → IsChecked source.entry.bytes.now → ⊥ }
{
    check_framing(source.bytes).is_ok() && check_structure(source.bytes).is_ok()
}

/// What is found of a forms package.
#[derive(Drop)]
pub(crate) enum Verdict {
    /// It has no fault.
    Good(Good),
    /// Its least fault, and others.
    Refused(Refusal),
}

impl Verdict {
    /// What is found of a forms package, where the first string package says this, and further ones lack this. The one error is
    /// that an allocation failed.
    pub(crate) fn of(
        alloc: Global,
        strings: &FirstStrings<'_>,
        lacks: &Lacks<'_>,
        source: Package<'_>,
    ) -> Result<Verdict, AllocError>
        ensures found { IfOk result (IsVerdict strings.now lacks.now source.entry.bytes.now) }
        ensures details { IfOk result (HasDetails source.entry.bytes.now) }
    {
        match Forms::read(alloc, source) {
            Ok(forms) => Verdict::over_forms(alloc, strings, lacks, forms),
            Err(fault) if fault.cause == Cause::OutOfMemory => Err(AllocError),
            Err(fault) => Ok(Verdict::Refused(Refusal::by_nodes(alloc, source, fault)?)),
        }
    }

    // The same of one whose nodes have no fault.
    fn over_forms(
        alloc: Global,
        strings: &FirstStrings<'_>,
        lacks: &Lacks<'_>,
        forms: Forms<'_>,
    ) -> Result<Verdict, AllocError>
        requires { IsAccepted forms }
        ensures found { IfOk result (IsVerdict strings.now lacks.now forms.entry) }
        ensures details { IfOk result (HasDetails forms.entry) }
    {
        match Layout::read(alloc, &forms) {
            Ok(layout) => Verdict::over_layout(alloc, strings, lacks, forms, &layout),
            Err(fault) if fault.cause == Cause::OutOfMemory => Err(AllocError),
            Err(_) => {
                let faults = store_faults(alloc, &forms)?;
                Ok(Verdict::Refused(Refusal::of(faults)))
            }
        }
    }

    // The same of one whose stores have none either.
    fn over_layout<'a>(
        alloc: Global,
        strings: &FirstStrings<'_>,
        lacks: &Lacks<'_>,
        forms: Forms<'a>,
        layout: &Layout<'a>,
    ) -> Result<Verdict, AllocError>
        requires accepted { IsAccepted forms }
        requires laid { layout.now ≡ layout_of (nodes_of forms) }
        requires sound { HasNone (IsStoreFault (nodes_of forms)) }
        ensures found { IfOk result (IsVerdict strings.now lacks.now forms.entry) }
        ensures details { IfOk result (HasDetails forms.entry) }
    {
        match Questions::read(alloc, &forms, layout) {
            Ok(questions) => {
                let good = good_of(alloc, strings, lacks, forms, questions)?;
                Ok(Verdict::Good(good))
            }
            Err(fault) if fault.cause == Cause::OutOfMemory => Err(AllocError),
            Err(_) => {
                let faults = question_faults(alloc, &forms, layout)?;
                Ok(Verdict::Refused(Refusal::of(faults)))
            }
        }
    }

    /// Whether it has no fault.
    pub(crate) fn is_good(&self) -> bool
        ensures { result ≡ is_good self.now }
    {
        match self {
            Verdict::Good(_) => true,
            Verdict::Refused(_) => false,
        }
    }
}

// What is told of a forms package that has no fault.
fn good_of<'a>(
    alloc: Global,
    strings: &FirstStrings<'_>,
    lacks: &Lacks<'_>,
    forms: Forms<'a>,
    questions: Questions<'a>,
) -> Result<Good, AllocError>
    requires accepted { IsAccepted forms }
    requires same { questions.ifr ≡ forms }
    ensures counted { IfOk result (λ good. good.counts ≡ counts_of forms.entry) }
    ensures warned { IfOk result (λ good. AreWarnings strings.now lacks.now forms.entry good.warnings.items) }
    ensures spans { IfOk result (λ good. good.spans.items ≡ crossed_spans (nodes_of forms.entry)) }
    ensures stand { IfOk result (λ good. AllStand forms.entry good.warnings.items) }
{
    let counts = counts_of(&forms, &questions);
    let found = warnings_of(alloc, strings, lacks, forms, questions)?;
    Ok(Good {
        counts,
        warnings: found.warnings,
        spans: found.spans,
    })
}

// How much a form set has.
fn counts_of(forms: &Forms<'_>, questions: &Questions<'_>) -> Counts
    requires accepted { IsAccepted forms.now }
    requires same { questions.now.ifr ≡ forms.now }
    ensures { result ≡ counts_of forms.now }
{
    Counts {
        forms: forms_count(forms),
        questions: questions.count(),
        stores: stores_count(forms),
    }
}

// How many forms a form set has.
fn forms_count(forms: &Forms<'_>) -> usize
    requires { IsAccepted forms.now }
    ensures { result ≡ length (filter is_form (nodes_of forms.now)) }
{
    let views = forms.forms();
    views.count()
}

// How many stores it has.
fn stores_count(forms: &Forms<'_>) -> usize
    ensures { result ≡ length (filter is_store (nodes_of forms.now)) }
{
    let views = forms.stores();
    views.count()
}
