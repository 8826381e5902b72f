//! Pages: their rows, and their text.

ghost use Rattle.std.specs.Prelude.{◌≡◌};
ghost use Rattle.ifr_nodes.specs.code.Checked.{IsNodeOf};
ghost use Rattle.ifr_scopes.specs.code.Lists.{form_node};
ghost use Rattle.guard_policy.specs.code.Views.{bytes_of};

use form_page::Page;
use guard_policy::{Conditions, Policy};
use hii_bytes::{Watched, WriteFault};
use hii_languages::Languages;
use hii_questions::Questions;
use hii_varstore::Stores;
use ifr_scopes::Form;
use std::alloc::Global;
use std::process::Abort;

const TEXT: &[u8] = b"FORM 1 #2\n  \
1 *     7 Box                      [ ]\n  \
2 *     5 Box                      [<Box>]\n  \
3 *     9 Box                      []\n";

fn has_title_and_rows<C: Conditions>(rt: &impl Abort, page: &Page<'_, '_, C>) {
    assert!(rt; page.title().chars().next() == Some('#'));
    let row = page.rows().next().expect(rt, "a row");
    assert!(rt; row.number == 1 && row.mark == b'*' && row.question == Some(7));
    assert!(rt; row.prompt.chars().next() == Some('B') && row.value.chars().next() == Some(' '));
}

fn is_written<C: Conditions>(rt: &impl Abort, alloc: Global, page: &Page<'_, '_, C>) {
    let mut out = Watched::new(Vec::new(alloc));
    page.put_page(&mut out);
    assert!(rt; out.into_inner().as_slice() == TEXT);
}

// A writer takes 60 bytes.
fn is_cut_short<C: Conditions>(rt: &impl Abort, page: &Page<'_, '_, C>) {
    let mut room = [0u8; 60];
    let mut out = Watched::new(room.as_mut_slice());
    assert!(rt; page.write_page(&mut out) == Err(WriteFault { written: 60 }));
    assert!(rt; TEXT.starts_with(&room));
}

pub(crate) fn page_is_shown<'a, R: Abort + AllocGlobal>(
    rt: &R,
    form: Form<'a>,
    policy: Policy<'a, '_>,
    questions: &Questions<'a>,
    stores: &Stores,
    languages: &Languages<'a>,
)
    requires node { IsNodeOf (bytes_of policy) (form_node form) }
    requires own { questions.now.ifr ≡ bytes_of policy }
{
    let conditions = policy.over(stores);
    let choice = languages.choose(b"en");
    let page = Page::new(
        form,
        policy,
        questions,
        stores,
        languages,
        choice,
        &conditions,
    );
    has_title_and_rows(rt, &page);
    is_written(rt, rt.alloc(), &page);
    is_cut_short(rt, &page);
}
