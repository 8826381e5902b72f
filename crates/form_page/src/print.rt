//! Pages as bytes.

ghost use Rattle.std.specs.List.{flat_map};
ghost use Rattle.hii_bytes.specs.Watching.{pen_of, Puts, Tells};
ghost use Rattle.ifr_scopes.specs.code.Lists.{form_node};
ghost use Rattle.form_page.specs.code.PageViews.{texts_of, world_of};
ghost use Rattle.form_page.specs.Pages as pages;
ghost use Rattle.form_page.specs.code.Views.{rows_left};

use crate::line::Line;
use crate::page::Page;
use crate::rows::Rows;
use crate::shown::put_shown;
use crate::statement_row::put_row_of;
use guard_policy::Conditions;
use hii_bytes::{Watched, WriteFault};
use std::io::Write;

#[inline(never)]
fn put_rows<C: Conditions, W: Write>(rows: Rows<'_, '_, C>, out: &mut Watched<W>)
    ensures { Puts W.contents out.old out.new (flat_map pages.row_text (rows_left rows.entry)) }
{
    let mut rows = rows;
    let mut line = Line::new();
    let page = rows.listed.page;
    while let Some(statement) = rows.listed.take_first() {
        let number = rows.number;
        let listed = &mut rows.listed;
        if put_row_of(page, number, statement, &mut listed.last, &mut line, out) {
            rows.number += 1;
        }
    }
    line.end(out);
}

impl<'a, 's, C: Conditions> Page<'a, 's, C> {
    /// Writes the page: a line with the form's id and title, and a line for each row. A writer's fault is answered with the
    /// bytes that were written before it.
    pub fn write_page<W: Write>(&self, out: &mut Watched<W>) -> Result<(), WriteFault>
        ensures { Tells (pen_of W.contents out.old) (pen_of W.contents out.new) result
            (pages.page_text (texts_of self.now) (world_of self.now) self.now.stores.now
            (form_node self.now.form)) }
    {
        out.restart();
        self.put_page(out);
        if out.failed() {
            return Err(WriteFault {
                written: out.taken(),
            });
        }
        Ok(())
    }

    /// Writes the page as one of several texts: a fault of the writer is asked of the writer.
    pub fn put_page<W: Write>(&self, out: &mut Watched<W>)
        ensures { Puts W.contents out.old out.new
            (pages.page_text (texts_of self.now) (world_of self.now) self.now.stores.now
            (form_node self.now.form)) }
    {
        out.put(b"FORM ");
        out.put_decimal(u64::from(self.form.op().id()));
        out.put(b" ");
        put_shown(self.title().chars(), out);
        out.put(b"\n");
        put_rows(self.rows(), out);
    }
}
