//! Configuration texts (UEFI 2.8, 34.2.1 String Grammar).

ghost use Rattle.std.specs.Prelude.{◌≡◌, Some, MatchResult};
ghost use Rattle.hii_bytes.specs.Watching.{Puts};
ghost use Rattle.ifr_nodes.specs.Nodes.{nodes_of};
ghost use Rattle.session_steps.specs.Renewed.{response_writes};
ghost use Rattle.browser_commands.specs.code.Counting.{counted_all};
ghost use Rattle.session_steps.specs.Step as steps;
ghost use Rattle.browser_commands.specs.code.Standing.{IsTold, IsUntold, Routes};
ghost use Rattle.session_steps.specs.Configuration.{store_named};
ghost use Rattle.config_text.specs.Reading.{configuration_in};
ghost use Rattle.config_text.specs.declared.kind.TextKind.TheVariants.{Tell};
ghost use Rattle.config_text.specs.code.Views.{header_view};
ghost use Rattle.config_text.specs.code.TextViews.{request_view, response_view};
ghost use Rattle.std.specs.Option.{ok_or};

use crate::blocks::set_blocks;
use crate::browser::Browser;
use crate::telling::blocks_told;
use crate::texts::put_count;
use config_text::laws::blocks_are_few;
use config_text::{Header, Request, Response, put_response, read_request, read_response};
use guard_policy::{Denial, Policy};
use hii_bytes::Watched;
use hii_questions::DenialKind;
use session_steps::Reply;
use std::io::Write;

impl<'a> Browser<'a> {
    // The id of the store that a header names.
    fn store_named(&self, header: Header<'_>) -> Result<u16, Denial>
        ensures { result
            ≡ ok_or (store_named (nodes_of self.now.state.ifr) self.now.state.path (header_view header.entry))
            (steps.denied_by_none DenialKind.NoStore) }
    {
        match self.varstores.named(header, self.path) {
            Some(store) => Ok(store),
            None => Err(Denial::by(DenialKind::NoStore, 0)),
        }
    }

    // Writes the response to a request over the stores as they were last submitted, or why it is not told.
    pub(crate) fn extract<W: Write>(&self, text: &[u8], out: &mut Watched<W>) -> Reply
        ensures text { Puts W.contents out.old out.new (steps.extract self.now.state text.now).text }
        ensures reply { result ≡ (steps.extract self.now.state text.now).reply }
    {
        let request = match read_request(text) {
            Ok(request) => request,
            Err(cause) => return self.refuse(cause, out),
        };
        match self.told_bytes(&request) {
            Ok(bytes) => {
                out.put(b"CONFIG ");
                put_response(out, &request, bytes);
                out.put(b"\n");
                Reply::Accepted
            }
            Err(denial) => self.deny(denial, out),
        }
    }

    // The bytes of the store that a request names, as they were last submitted, where all of its blocks may be told.
    fn told_bytes(&self, request: &Request<'_>) -> Result<&[u8], Denial>
        ensures { MatchResult result
            (λ bytes. IsTold self.now.state (request_view request.now) bytes.now)
            (IsUntold self.now.state (request_view request.now)) }
    {
        let store = self.store_named(request.header())?;
        let bytes = self.committed.bytes(store).unwrap_or(&[]);
        let blocks = request.blocks_asked(bytes.len());
        blocks_told(&self.questions, store, bytes.len(), blocks)?;
        Ok(bytes)
    }

    // Sets the questions of all blocks of a response and writes how many blocks there are, or writes why none is set.
    pub(crate) fn route<W: Write>(&mut self, text: &[u8], out: &mut Watched<W>) -> Reply
        ensures state { self.new.state ≡ (steps.route self.old.state text.now).state }
        ensures text { Puts W.contents out.old out.new (steps.route self.old.state text.now).text }
        ensures reply { result ≡ (steps.route self.old.state text.now).reply }
        ensures renewed { self.new.renewed ≡ counted_all self.old.renewed
            (nodes_of self.old.state.ifr)
            (response_writes self.old.state (configuration_in Tell text.now)) }
    {
        let response = match read_response(text) {
            Ok(response) => response,
            Err(cause) => return self.refuse(cause, out),
        };
        match self.set_blocks(&response) {
            Ok(count) => {
                put_count(count, out);
                Reply::Accepted
            }
            Err(denial) => self.deny(denial, out),
        }
    }

    // Sets the questions of all blocks of a response and tells how many blocks there are, or tells why none is set.
    fn set_blocks(&mut self, response: &Response<'_>) -> Result<u64, Denial>
        ensures { Routes self.old (response_view response.now) self.new result }
    {
        let store = self.store_named(response.header())?;
        blocks_are_few(response);
        self.is_written = true;
        self.submission = None;
        let policy = Policy::new(&self.forms, &self.questions, &self.removed);
        set_blocks(
            policy,
            &self.questions,
            store,
            response.blocks(),
            &mut self.working,
            &mut self.spare,
        )
    }
}
