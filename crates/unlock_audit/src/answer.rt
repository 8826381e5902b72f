//! What opens a question.

ghost use Rattle.std.specs.Prelude.{◌≡◌, ◌≤◌, ◌==◌, [], IfErr, IfOk, option_map};
ghost use Rattle.hii_bytes.specs.Faults.{out_of_memory};
ghost use Rattle.ifr_nodes.specs.Nodes.{nodes_of};
ghost use Rattle.ifr_nodes.specs.code.Checked.{IsNodeOf};
ghost use Rattle.hii_questions.specs.Fields.{asked};
ghost use Rattle.hii_questions.specs.code.Views.{question_node, question_view};
ghost use Rattle.unlock_audit.specs.Moves.{moves};
ghost use Rattle.unlock_audit.specs.Tries.{discarded};
ghost use Rattle.unlock_audit.specs.Unlock as spec;
ghost use Rattle.unlock_audit.specs.code.Answers.{answer_meant, denial_in, unlock_meant};
ghost use Rattle.unlock_audit.specs.code.Askings.{asking_meant};
ghost use Rattle.unlock_audit.specs.code.Tallies.{try_meant};

use crate::asking::Asking;
use crate::moves::{Move, moves_of};
use crate::reasons::{final_reason, needs_new_run, verdict_of};
use crate::search::Search;
use crate::tries::{Tally, Try};
use arrayvec::ArrayVec;
use browser_commands::Browser;
use guard_policy::Denial;
use hii_bytes::Fault;
use hii_questions::Question;
use std::alloc::Global;

/// What opens a question, or why nothing does.
#[derive(Drop)]
pub(crate) enum Answer {
    /// It may be changed.
    Opened,
    /// No command opens it, by this reason.
    Never(Denial),
    /// These commands open it, in this run or in a new one.
    Found {
        again: bool,
        list: ArrayVec<Move, 3>,
    },
    /// A field that is written opens it in a new run.
    Written(Move),
    /// As many tries were made as may be.
    More,
    /// All were made, and some command was answered with OK.
    None,
    /// All were made, and no command was.
    Driver,
}

/// What is known of a question: whether it may be changed, what opens it, the ids that its conditions ask, and how many tries were
/// made.
#[derive(Drop)]
pub(crate) struct Unlock {
    pub(crate) verdict: Result<(), Denial>,
    pub(crate) answer: Answer,
    pub(crate) ids: ArrayVec<u16, 64>,
    pub(crate) tried: u64,
}

impl Unlock {
    // Without a try.
    fn untried(verdict: Result<(), Denial>, answer: Answer) -> Unlock
        ensures meant { unlock_meant result ≡ record {
          verdict = denial_in verdict;
          answer = answer_meant answer;
          ids = [];
          tried = 0;
        } }
        ensures none { result.tried ≡ 0 }
    {
        Unlock {
            verdict,
            answer,
            ids: ArrayVec::new(),
            tried: 0,
        }
    }

    // What opens a question that may not be changed.
    fn of_denied<'a>(
        alloc: Global,
        browser: &mut Browser<'a>,
        question: Question<'a>,
        most: u64,
        verdict: Denial,
    ) -> Result<Unlock, Fault>
        requires node { IsNodeOf browser.old.state.ifr (question_node question) }
        requires fresh { discarded browser.old.state ≡ browser.old.state }
        requires few { most ≤ 65536 }
        ensures meant { IfOk result (λ found. unlock_meant found
            ≡ spec.unlock_unless browser.old.state most (question_view question.entry) verdict
            (spec.final_reason browser.old.state (question_view question.entry))) }
        ensures few { IfOk result (λ found. found.tried ≤ most) }
        ensures same { browser.new.state ≡ browser.old.state }
        ensures refused { IfErr result (λ fault. fault ≡ out_of_memory) }
    {
        let page = browser.page();
        if let Some(reason) = final_reason(page, question) {
            return Ok(Unlock::untried(Err(verdict), Answer::Never(reason)));
        }
        let asking = Asking::of(alloc, page.policy(), page.questions(), question)?;
        let again = needs_new_run(page, question);
        searched(alloc, browser, question, most, again, asking, verdict)
    }

    /// What opens a question, by so many tries at most.
    pub(crate) fn of<'a>(
        alloc: Global,
        browser: &mut Browser<'a>,
        question: Question<'a>,
        most: u64,
    ) -> Result<Unlock, Fault>
        requires node { IsNodeOf browser.old.state.ifr (question_node question) }
        requires asked { question_view question
            ≡ asked (nodes_of browser.old.state.ifr) (question_node question) }
        requires fresh { discarded browser.old.state ≡ browser.old.state }
        requires few { most ≤ 65536 }
        ensures meant { IfOk result (λ found. unlock_meant found
            ≡ spec.unlock browser.old.state most (question_view question.entry)) }
        ensures few { IfOk result (λ found. found.tried ≤ most) }
        ensures same { browser.new.state ≡ browser.old.state }
        ensures refused { IfErr result (λ fault. fault ≡ out_of_memory) }
    {
        match verdict_of(browser.page(), question) {
            Ok(()) => Ok(Unlock::untried(Ok(()), Answer::Opened)),
            Err(verdict) => Unlock::of_denied(alloc, browser, question, most, verdict),
        }
    }
}

// The answer that a try gives that opens the question.
fn answer_by(again: bool, opening: Try) -> Answer
    ensures { answer_meant result ≡ spec.answer_by again (try_meant opening) }
{
    match opening {
        Try::Commands(list) => Answer::Found { again, list },
        Try::Write(each) => Answer::Written(each),
    }
}

// The answer where none does.
fn answer_without(search: Search<'_>, browser: &mut Browser<'_>, is_done: bool) -> Answer
    requires fresh { discarded browser.old.state ≡ browser.old.state }
    ensures meant { answer_meant result ≡ spec.unfound browser.old.state search.entry.moves.now is_done }
    ensures same { browser.new.state ≡ browser.old.state }
{
    if is_done {
        Answer::More
    } else if search.is_some_answered(browser) {
        Answer::None
    } else {
        Answer::Driver
    }
}

// What the tries have come to.
fn answer_of(search: Search<'_>, browser: &mut Browser<'_>, tally: Tally) -> Answer
    requires fresh { discarded browser.old.state ≡ browser.old.state }
    ensures meant { answer_meant result ≡ spec.answer_with search.entry.again
        (spec.unfound browser.old.state search.entry.moves.now (tally.left == 0)) (option_map try_meant tally.found) }
    ensures same { browser.new.state ≡ browser.old.state }
{
    let left = tally.left;
    let found = tally.found;
    match found {
        Some(opening) => answer_by(search.again, opening),
        None => answer_without(search, browser, left == 0),
    }
}

// Makes tries with the commands for the questions that are asked.
fn searched<'a>(
    alloc: Global,
    browser: &mut Browser<'a>,
    question: Question<'a>,
    most: u64,
    again: bool,
    asking: Asking<'a>,
    verdict: Denial,
) -> Result<Unlock, Fault>
    requires fresh { discarded browser.old.state ≡ browser.old.state }
    requires few { most ≤ 65536 }
    requires again { again ≡ spec.needs_new_run browser.old.state (question_view question) }
    ensures meant { IfOk result (λ found. unlock_meant found
        ≡ spec.searched browser.old.state most (question_view question.entry) verdict (asking_meant asking.entry).ids
        (moves (nodes_of browser.old.state.ifr) (asking_meant asking.entry))) }
    ensures few { IfOk result (λ found. found.tried ≤ most) }
    ensures same { browser.new.state ≡ browser.old.state }
    ensures refused { IfErr result (λ fault. fault ≡ out_of_memory) }
{
    let page = browser.page();
    let moves = moves_of(alloc, page.policy().forms(), page.questions(), &asking)?;
    let search = Search {
        alloc,
        id: question.id(),
        again,
        moves: moves.as_slice(),
    };
    let mut tally = Tally::new(most);
    search.try_all(browser, &mut tally)?;
    let tried = tally.tried;
    let answer = answer_of(search, browser, tally);
    Ok(Unlock {
        verdict: Err(verdict),
        answer,
        ids: asking.ids,
        tried,
    })
}
