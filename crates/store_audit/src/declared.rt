//! What a form set declares.

ghost use Rattle.std.specs.Prelude.{◌≡◌, IfOk, IfErr};
ghost use Rattle.browser_rules.specs.Packages as chapter;
ghost use Rattle.hii_bytes.specs.Faults.{HasNone, IsLeast, Refuses};
ghost use Rattle.hii_packages.specs.code.Package.{package_of};
ghost use Rattle.ifr_nodes.specs.Nodes.{nodes_of};
ghost use Rattle.hii_varstore.specs.StoreNodes.{layout_of};
ghost use Rattle.hii_questions.specs.Fields.{questions as questions_of};
ghost use Rattle.hii_questions.specs.code.LyingIn.{LieIn};
ghost use Rattle.session_steps.specs.Opening.{HasSource, IsBrowsable, IsSourceFault, IsFormSetFault};
ghost use Rattle.store_audit.specs.Declaring.{IsDeclaredFault};

use hii_bytes::Fault;
use hii_packages::{Package, PackageList};
use hii_questions::Questions;
use hii_varstore::Layout;
use ifr_scopes::Forms;
use std::alloc::Global;
use std::marker::Model;

/// The form set of a package list, its buffer stores, and its questions, which are sound. They are seen as the forms package.
pub struct Declared<'a> {
    forms: Forms<'a>,
    layout: Layout<'a>,
    questions: Questions<'a>,
}

impl<'a> Drop for Declared<'a> {
    fn drop(self) {
        let Declared {
            forms: _,
            layout: _,
            questions: _,
        } = self;
    }
}

impl<'a> Model for Declared<'a> {
    ghost use Rattle.std.specs.Prelude.{◌≡◌, ℕ, List};
    ghost use Rattle.ifr_nodes.specs.Nodes.{nodes_of};
    ghost use Rattle.hii_varstore.specs.StoreNodes.{layout_of};
    ghost use Rattle.session_steps.specs.Opening.{IsBrowsable};

    ghost Value = { List ℕ };

    ghost view = { λ d. d.forms };

    ghost invariant = { λ d. (d.layout ≡ layout_of (nodes_of d.forms))
        × (d.questions ≡ record { ifr = d.forms }) × IsBrowsable d.forms };
}

impl<'a> Declared<'a> {
    /// The form set of the forms package of a number in a list, or the least fault of the list's packages (1 to 5), that there
    /// is no such forms package (6), of the forms package (20 to 33, 39, 40), of its stores (34) or of its questions (35 to
    /// 38). String packages are not read. Where an allocation fails the fault is OutOfMemory (60) at 0.
    pub fn read(alloc: Global, list: &'a [u8], number: usize) -> Result<Declared<'a>, Fault>
        ensures found { IfOk result (λ declared. (source : chapter.Package)
            × HasSource list.entry.now number source × (declared ≡ source.bytes)) }
        ensures browsable { IfOk result IsBrowsable }
        ensures sound { IfOk result (λ declared. HasNone (IsDeclaredFault list.entry.now number)) }
        ensures refused { IfErr result (Refuses (IsDeclaredFault list.entry.now number)) }
    {
        let source = forms_package(list, number)?;
        Declared::of_package(alloc, source)
    }

    /// The form set of a forms package, or the least fault of the package (20 to 33, 39, 40), of its stores (34) or of its questions
    /// (35 to 38). Where an allocation fails the fault is OutOfMemory (60) at 0.
    pub fn of_package(alloc: Global, source: Package<'a>) -> Result<Declared<'a>, Fault>
        ensures read { IfOk result (λ declared. declared ≡ source.entry.bytes.now) }
        ensures browsable { IfOk result IsBrowsable }
        ensures sound { IfOk result (λ declared. HasNone (IsFormSetFault source.entry.bytes.now)) }
        ensures refused { IfErr result (Refuses (IsFormSetFault source.entry.bytes.now)) }
    {
        let forms = Forms::read(alloc, source)?;
        let layout = Layout::read(alloc, &forms)?;
        let questions = Questions::read(alloc, &forms, &layout)?;
        Ok(Declared {
            forms,
            layout,
            questions,
        })
    }

    /// The form set.
    pub fn forms(&self) -> &Forms<'a>
        ensures { result.now ≡ self.now }
    {
        &self.forms
    }

    /// The stores of the form set that hold bytes.
    pub fn layout(&self) -> &Layout<'a>
        ensures { result.now ≡ layout_of (nodes_of self.now) }
    {
        &self.layout
    }

    /// The questions of the form set, whose fields lie in these stores.
    pub fn questions(&self) -> &Questions<'a>
        ensures same { result.now ≡ record { ifr = self.now } }
        ensures lie { LieIn (layout_of (nodes_of self.now)) (questions_of (nodes_of self.now)) }
    {
        &self.questions
    }
}

/// The forms package of a number in a list, counted from 1, or the least fault of the list's packages (1 to 5), or that there is no
/// such forms package (6).
pub fn forms_package(list: &[u8], number: usize) -> Result<Package<'_>, Fault>
    ensures found { IfOk result (λ source. HasSource list.entry.now number (package_of source)) }
    ensures refused { IfErr result (IsLeast (IsSourceFault list.entry.now number)) }
{
    let packages = PackageList::read(list)?;
    packages.forms(number)
}
