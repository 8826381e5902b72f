//! What is submitted, and what is discarded.

ghost use Rattle.std.specs.Prelude.{◌≡◌};
ghost use Rattle.hii_bytes.specs.Watching.{Puts};
ghost use Rattle.ifr_nodes.specs.Nodes.{nodes_of};
ghost use Rattle.browser_rules.specs.Script as script;
ghost use Rattle.guard_policy.specs.Policy.{unsubmitted};
ghost use Rattle.guard_policy.specs.code.Answers.{unless};
ghost use Rattle.session_steps.specs.Renewed.{writes_of};
ghost use Rattle.session_steps.specs.State.{world_of};
ghost use Rattle.browser_commands.specs.code.Counting.{counted_all};
ghost use Rattle.session_steps.specs.Step.{step, commit, submitted};

use crate::browser::Browser;
use crate::texts::{put_changes, put_count};
use guard_policy::{Denial, Policy};
use hii_bytes::Watched;
use kept_conditions::laws::the_same_stores_renew_nothing;
use session_steps::Reply;
use std::io::Write;

impl<'a> Browser<'a> {
    // Goes back to the stores as they were last submitted.
    pub(crate) fn discard(&mut self)
        ensures state { self.new.state ≡ (step self.old.state script.Discard).state }
        ensures renewed { self.new.renewed ≡ counted_all self.old.renewed
            (nodes_of self.old.state.ifr) (writes_of self.old.state script.Discard) }
    {
        if !self.is_written {
            the_same_stores_renew_nothing(&self.working);
            return;
        }
        let policy = Policy::new(&self.forms, &self.questions, &self.removed);
        self.working.copy_from(policy, &self.spare, &self.committed);
        self.spare.copy_from(&self.committed);
        self.is_written = false;
        self.submission = None;
    }

    // Whether the working stores may be submitted. No condition is asked where this was asked since they were written.
    fn may_submit(&self) -> Result<(), Denial>
        ensures { result ≡ unless (unsubmitted (world_of self.now.state)) }
    {
        match self.submission {
            Some(answer) => answer,
            None => self.working.may_submit(self.policy()),
        }
    }

    // Whether the working stores may be submitted, which is kept until they are written.
    fn ask_submission(&mut self) -> Result<(), Denial>
        ensures answer { result ≡ unless (unsubmitted (world_of self.old.state)) }
        ensures same { self.new ≡ self.old }
    {
        let answer = self.may_submit();
        self.submission = Some(answer);
        answer
    }

    // Submits the working stores, or writes why they may not be submitted.
    pub(crate) fn submit<W: Write>(&mut self, out: &mut Watched<W>) -> Reply
        ensures state { self.new.state ≡ (submitted self.old.state).state }
        ensures text { Puts W.contents out.old out.new (submitted self.old.state).text }
        ensures reply { result ≡ (submitted self.old.state).reply }
        ensures renewed { self.new.renewed ≡ self.old.renewed }
    {
        match self.ask_submission() {
            Ok(()) => {
                self.commit(out);
                Reply::Accepted
            }
            Err(denial) => self.deny(denial, out),
        }
    }

    // Takes the working stores for those that were last submitted, and writes how many questions have other bytes than before,
    // and each of them by place.
    fn commit<W: Write>(&mut self, out: &mut Watched<W>)
        ensures state { self.new.state ≡ (commit self.old.state).state }
        ensures text { Puts W.contents out.old out.new (commit self.old.state).text }
        ensures renewed { self.new.renewed ≡ self.old.renewed }
    {
        if !self.is_written {
            put_count(0, out);
            return;
        }
        let working = self.working.stores();
        self.questions
            .differing_into(&self.committed, working, &mut self.changed);
        put_changes(&self.changed, out);
        self.committed.copy_from(self.working.stores());
        self.is_written = false;
    }
}
