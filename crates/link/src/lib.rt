// A link to a store: each call is passed to it as a frame, and the answer is read from the reply frame. Nothing here allocates.

#![tactic(auto)]

ghost use Rattle.std.specs.Prelude.{◌≡◌, None, Ok};
ghost use Rattle.frames.specs.Family.{Fits};
ghost use Rattle.frames.specs.Requests.{requests, request_fault, asked};
ghost use Rattle.frames.specs.Serving.{Replied, question};
ghost use Rattle.link.specs.Passing.{refusal_in};
ghost use Rattle.std.proofs.Common.{rules};

use frames::{Reply, Request, question_reply_frame, read_reply, reply_frame, stamp_bytes};
use store::{Store, StoreFault};

// One store, reached by frames alone.
#[derive(Drop)]
pub struct Link<S> {
    store: S,
}

impl<S> Link<S> {
    pub fn new(store: S) -> Link<S>
        ensures { result.store ≡ store }
    {
        Link { store }
    }
}

impl<S: Store> Link<S> {
    // The reply to a request, through frames.
    fn ask(&mut self, request: Request<'_>) -> Reply
        requires written { request_fault request ≡ None }
        requires fits { Fits requests (asked request) }
        ensures { Replied S.Store.view self.old.store self.new.store (Ok (asked request.entry)) result }
    {
        let frame = request.framed().unwrap();
        let reply = reply_frame(&mut self.store, frame.frame());
        read_reply(reply.frame()).unwrap()
    }

    // The reply to a question, through frames, as `ask`: no one function takes both &mut self and &self.
    fn question(&self, request: Request<'_>) -> Reply
        requires written { request_fault request ≡ None }
        requires fits { Fits requests (asked request) }
        ensures { Replied S.Store.view self.now.store self.now.store (question (Ok (asked request.entry))) result }
    {
        let frame = request.framed().unwrap();
        let reply = question_reply_frame(&self.store, frame.frame());
        read_reply(reply.frame()).unwrap()
    }
}

// The refusal of a store that a reply says. Another reply, or a number of no store's, does not come back: the contracts below show it.
fn refusal(reply: Reply) -> StoreFault
    ensures { result ≡ refusal_in reply }
{
    match reply {
        Reply::Refused(number) => StoreFault::try_from(number).unwrap_or(StoreFault::NotHeld),
        Reply::Done(_) | Reply::Version(_) => StoreFault::NotHeld,
    }
}

impl<S: Store> Store for Link<S> {
    ghost view = { λ l. S.Store.view l.store };

    ghost last_held = { Prim.search rules };

    fn put(&mut self, item: u8, stamp: u32, code: u64, mark: u64) -> Result<bool, StoreFault> {
        let reply = self.ask(Request::Put {
            item,
            stamp,
            code,
            mark,
        });
        reply.done().ok_or(refusal(reply))
    }

    fn commit(&mut self, item: u8, stamp: u32) -> Result<bool, StoreFault> {
        let reply = self.ask(Request::Commit { item, stamp });
        reply.done().ok_or(refusal(reply))
    }

    fn last(&self, item: u8) -> Result<(u32, u64, u64), StoreFault> {
        let reply = self.question(Request::Last { item });
        reply.version().ok_or(refusal(reply))
    }

    fn pick(&self, item: u8, stamps: [u32; 8]) -> Result<(u32, u64, u64), StoreFault> {
        let bytes = stamp_bytes(&stamps);
        let reply = self.question(Request::Pick {
            item,
            stamps: &bytes,
        });
        reply.version().ok_or(refusal(reply))
    }
}
