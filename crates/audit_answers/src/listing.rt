//! The list that options name.

ghost use Rattle.std.specs.Prelude.{◌≡◌, IfErr, IfOk};
ghost use Rattle.dump_audit.specs.Lines.{no_list_told};
ghost use Rattle.audit_answers.specs.Listing.{IsListed, IsUnlisted};
ghost use Rattle.audit_answers.specs.code.Endings.{RefusesBehind};
ghost use Rattle.audit_answers.specs.code.Listing.{listed};

use crate::ended::Ended;
use crate::given::{GivenList, NoList};
use crate::writing::{Answers, finish};
use audit_json::Telling;
use dump_audit::{nth_list, put_no_list};
use question_audit::{Holder, Origin};
use std::io::Write;

/// The list that options name, of the bytes of their file: all of these, or where the file is a dump its list of a number.
pub fn given_list<'a>(file: &'a [u8], take: Option<u64>) -> Result<GivenList<'a>, NoList>
    ensures listed { IfOk result (λ list. IsListed take file.entry.now (listed list)) }
    ensures unlisted { IfErr result (λ none. IsUnlisted take file.entry.now none.number) }
{
    let Some(number) = take else {
        let origin = Origin {
            holder: Holder::List,
            place: 0,
        };
        return Ok(GivenList {
            bytes: file,
            origin,
        });
    };
    let Some(list) = nth_list(file, number) else {
        return Err(NoList { number });
    };
    let origin = Origin {
        holder: Holder::Dump,
        place: list.place,
    };
    Ok(GivenList {
        bytes: list.bytes,
        origin,
    })
}

/// Ends a run that is asked for a list which is not there: that is told.
pub fn refuse_list<A: Write + Drop>(
    telling: Telling,
    none: NoList,
    answers: &mut Answers<A>,
) -> Ended
    ensures { RefusesBehind (no_list_told telling none.number) A.contents answers.old result answers.new }
{
    put_no_list(telling, none.number, answers);
    finish(Ended::Refused, answers)
}
