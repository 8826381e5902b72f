//! The tries, in their order.

ghost use Rattle.std.specs.Prelude.{◌≡◌, ◌≤◌, [], IfErr, OnOk, length, map};
ghost use Rattle.std.specs.List.{list_any};
ghost use Rattle.hii_bytes.specs.Faults.{out_of_memory};
ghost use Rattle.unlock_audit.specs.Tries as spec;
ghost use Rattle.unlock_audit.specs.Tries.{discarded, opens};
ghost use Rattle.unlock_audit.specs.code.Counting.{with_tries, with_try};
ghost use Rattle.unlock_audit.specs.code.Tallies.{tally_meant};

use crate::moves::Move;
use crate::runs::{are_answered, commands_open, write_opens};
use crate::tries::{Tally, Try, longer};
use arrayvec::ArrayVec;
use browser_commands::Browser;
use hii_bytes::Fault;
use std::alloc::Global;

/// For which question tries are made, whether behind a `submit` in a new run, and with which commands.
#[derive(Clone, Copy)]
pub(crate) struct Search<'m> {
    pub(crate) alloc: Global,
    pub(crate) id: u16,
    pub(crate) again: bool,
    pub(crate) moves: &'m [Move],
}

impl<'m> Search<'m> {
    // Tries commands.
    fn try_commands(
        self,
        browser: &mut Browser<'_>,
        list: ArrayVec<Move, 3>,
        tally: &mut Tally,
    ) -> Result<(), Fault>
        requires fresh { discarded browser.old.state ≡ browser.old.state }
        ensures tried { OnOk result (tally_meant tally.new
            ≡ with_try (opens self.entry.again browser.old.state self.entry.id) (tally_meant tally.old) (spec.commands list.items)) }
        ensures same { browser.new.state ≡ browser.old.state }
        ensures refused { IfErr result (λ fault. fault ≡ out_of_memory) }
    {
        if tally.is_done() {
            return Ok(());
        }
        if commands_open(self.alloc, browser, self.id, self.again, list.as_slice())? {
            tally.count(Some(Try::Commands(list)));
        } else {
            tally.count(None);
        }
        Ok(())
    }

    // Tries a field that is written.
    fn try_write(self, browser: &Browser<'_>, each: Move, tally: &mut Tally) -> Result<(), Fault>
        requires fresh { discarded browser.now.state ≡ browser.now.state }
        ensures tried { OnOk result (tally_meant tally.new
            ≡ with_try (opens self.entry.again browser.now.state self.entry.id) (tally_meant tally.old) (spec.write each)) }
        ensures refused { IfErr result (λ fault. fault ≡ out_of_memory) }
    {
        if tally.is_done() {
            return Ok(());
        }
        if write_opens(self.alloc, browser, self.id, each)? {
            tally.count(Some(Try::Write(each)));
        } else {
            tally.count(None);
        }
        Ok(())
    }

    // Tries a list with each command behind it.
    fn try_longer(
        self,
        browser: &mut Browser<'_>,
        list: &[Move],
        tally: &mut Tally,
    ) -> Result<(), Fault>
        requires short { length list.now ≤ 2 }
        requires fresh { discarded browser.old.state ≡ browser.old.state }
        ensures tried { OnOk result (tally_meant tally.new
            ≡ with_tries (opens self.entry.again browser.old.state self.entry.id) (tally_meant tally.old)
            (map (λ l. spec.commands l) (spec.longer self.entry.moves.now list.now))) }
        ensures same { browser.new.state ≡ browser.old.state }
        ensures refused { IfErr result (λ fault. fault ≡ out_of_memory) }
    {
        for each in self.moves {
            self.try_commands(browser, longer(list, *each), tally)?;
        }
        Ok(())
    }

    // Tries a list with each two commands behind it, where with the first it is answered with OK.
    fn try_two_longer(
        self,
        browser: &mut Browser<'_>,
        list: &[Move],
        tally: &mut Tally,
    ) -> Result<(), Fault>
        requires short { length list.now ≤ 1 }
        requires fresh { discarded browser.old.state ≡ browser.old.state }
        ensures tried { OnOk result (tally_meant tally.new
            ≡ with_tries (opens self.entry.again browser.old.state self.entry.id) (tally_meant tally.old)
            (map (λ l. spec.commands l) (spec.longer_each browser.old.state self.entry.moves.now
            (spec.longer self.entry.moves.now list.now)))) }
        ensures same { browser.new.state ≡ browser.old.state }
        ensures refused { IfErr result (λ fault. fault ≡ out_of_memory) }
    {
        for each in self.moves {
            if tally.is_done() {
                return Ok(());
            }
            let list = longer(list, *each);
            if are_answered(browser, list.as_slice()) {
                self.try_longer(browser, list.as_slice(), tally)?;
            }
        }
        Ok(())
    }

    // Tries each three commands of which the first two are answered with OK.
    fn try_threes(self, browser: &mut Browser<'_>, tally: &mut Tally) -> Result<(), Fault>
        requires fresh { discarded browser.old.state ≡ browser.old.state }
        ensures tried { OnOk result (tally_meant tally.new
            ≡ with_tries (opens self.entry.again browser.old.state self.entry.id) (tally_meant tally.old)
            (map (λ l. spec.commands l) (spec.longer_each browser.old.state self.entry.moves.now
            (spec.longer_each browser.old.state self.entry.moves.now (spec.longer self.entry.moves.now []))))) }
        ensures same { browser.new.state ≡ browser.old.state }
        ensures refused { IfErr result (λ fault. fault ≡ out_of_memory) }
    {
        for each in self.moves {
            if tally.is_done() {
                return Ok(());
            }
            let list = longer(&[], *each);
            if are_answered(browser, list.as_slice()) {
                self.try_two_longer(browser, list.as_slice(), tally)?;
            }
        }
        Ok(())
    }

    // Tries fields that are written.
    fn try_writes(self, browser: &Browser<'_>, tally: &mut Tally) -> Result<(), Fault>
        requires fresh { discarded browser.now.state ≡ browser.now.state }
        ensures tried { OnOk result (tally_meant tally.new
            ≡ with_tries (opens self.entry.again browser.now.state self.entry.id) (tally_meant tally.old)
            (map (λ m. spec.write m) self.entry.moves.now)) }
        ensures refused { IfErr result (λ fault. fault ≡ out_of_memory) }
    {
        for each in self.moves {
            self.try_write(browser, *each, tally)?;
        }
        Ok(())
    }

    /// Makes the tries.
    pub(crate) fn try_all(self, browser: &mut Browser<'_>, tally: &mut Tally) -> Result<(), Fault>
        requires fresh { discarded browser.old.state ≡ browser.old.state }
        ensures tried { OnOk result (tally_meant tally.new
            ≡ with_tries (opens self.entry.again browser.old.state self.entry.id) (tally_meant tally.old)
            (spec.tries browser.old.state self.entry.moves.now)) }
        ensures same { browser.new.state ≡ browser.old.state }
        ensures refused { IfErr result (λ fault. fault ≡ out_of_memory) }
    {
        self.try_longer(browser, &[], tally)?;
        self.try_two_longer(browser, &[], tally)?;
        self.try_threes(browser, tally)?;
        self.try_writes(browser, tally)
    }

    /// Whether some command is answered with OK.
    pub(crate) fn is_some_answered(self, browser: &mut Browser<'_>) -> bool
        requires fresh { discarded browser.old.state ≡ browser.old.state }
        ensures answered { result ≡ list_any (spec.is_answered browser.old.state) (spec.longer self.entry.moves.now []) }
        ensures same { browser.new.state ≡ browser.old.state }
    {
        for each in self.moves {
            if are_answered(browser, &[*each]) {
                return true;
            }
        }
        false
    }
}
