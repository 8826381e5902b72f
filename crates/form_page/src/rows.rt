//! The rows of a page.

ghost use Rattle.std.specs.Prelude.{◌+◌, ◌<◌, ◌^◌, length};
ghost use Rattle.form_page.specs.code.ListedViews.{listed_left};

use crate::listed::Listed;
use crate::row::Row;
use crate::statement_row::row_of;
use guard_policy::Conditions;

/// The rows that are left of a page.
#[derive(Drop)]
pub struct Rows<'a, 's, C: Conditions> {
    pub(crate) listed: Listed<'a, 's, C>,
    pub(crate) number: u32,
    pub ghost few: { number + length (listed_left listed) < 2 ^ 32 },
}

impl<'a, 's, C: Conditions> Iterator for Rows<'a, 's, C> {
    ghost use Rattle.std.specs.Iterator.{YieldsFirstBy, item_count};
    ghost use Rattle.form_page.specs.code.Views.{row_seen, rows_left};

    type Item = Row<'a, 's, C>;

    ghost next_gives = { YieldsFirstBy row_seen rows_left };

    ghost remaining = { item_count rows_left };

    fn next(&mut self) -> Option<Row<'a, 's, C>> {
        let page = self.listed.page;
        while let Some(statement) = self.listed.take_first() {
            let listed = &mut self.listed;
            if let Some(row) = row_of(page, self.number, statement, &mut listed.last) {
                self.number += 1;
                return Some(row);
            }
        }
        None
    }
}
