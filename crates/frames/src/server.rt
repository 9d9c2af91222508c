// Serving frames from a store.
ghost use Rattle.std.specs.Prelude.{◌≡◌, ◌<◌, length, take, None, Ok};
ghost use Rattle.layout.specs.Layout.{parsed};
ghost use Rattle.store.specs.Outcomes.{PickOutcome};
ghost use Rattle.frames.specs.Family.{Again, Only, read_as};
ghost use Rattle.frames.specs.Requests.{requests, asked, request_fault, stamp_widths, Figures};
ghost use Rattle.frames.specs.Replies.{replies};
ghost use Rattle.frames.specs.Serving.{OutcomeReplied, Sendable, Replied, question, Served, Answered};
ghost use Rattle.frames.specs.declared.reply.Reply.TheVariants.{Version};

use super::fault::FrameFault;
use super::framed::Framed;
use super::reply::{Reply, write_reply};
use super::request::{Request, read_request};
use super::stamps::stamps_of;
use store::Store;

// What was written reads back as written and no other bytes pass for it, for requests and for replies.
pub fn frames_stand() -> u8
    ensures requests_again { Again requests }
    ensures requests_only { Only requests }
    ensures replies_again { Again replies }
    ensures replies_only { Only replies }
    ensures figures { Figures }
{
    0
}

// The reply of a store to a pick whose stamps are bytes.
fn pick_reply<S: Store>(store: &S, item: u8, stamps: &[u8]) -> Reply
    requires { length stamps.now ≡ 32 }
    ensures value { OutcomeReplied Version (PickOutcome (S.Store.view store.now) item (parsed stamp_widths stamps.now)) result }
    ensures sendable { Sendable result }
{
    match stamps_of(stamps) {
        Some(stamps) => store.pick(item, stamps).into(),
        None => FrameFault::Length.into(),
    }
}

// The reply of a shared store to a question; put and commit are of no kind that it knows.
fn question_reply<S: Store>(store: &S, request: Request<'_>) -> Reply
    requires { request_fault request ≡ None }
    ensures value { Replied S.Store.view store.now store.now (question (Ok (asked request.entry))) result }
    ensures sendable { Sendable result }
{
    match request {
        Request::Last { item } => store.last(item).into(),
        Request::Pick { item, stamps } => pick_reply(store, item, stamps),
        Request::Put { .. } | Request::Commit { .. } => FrameFault::Kind.into(),
    }
}

// The reply of a store to a request.
fn request_reply<S: Store>(store: &mut S, request: Request<'_>) -> Reply
    requires { request_fault request ≡ None }
    ensures value { Replied S.Store.view store.old store.new (Ok (asked request.entry)) result }
    ensures sendable { Sendable result }
{
    match request {
        Request::Put {
            item,
            stamp,
            code,
            mark,
        } => { store.put(item, stamp, code, mark).into() }
        Request::Commit { item, stamp } => store.commit(item, stamp).into(),
        Request::Last { .. } | Request::Pick { .. } => question_reply(store, request),
    }
}

// The reply of a store to a frame.
fn reply_to<S: Store>(store: &mut S, frame: &[u8]) -> Reply
    ensures value { Replied S.Store.view store.old store.new (read_as requests frame.now) result }
    ensures sendable { Sendable result }
{
    match read_request(frame) {
        Ok(request) => request_reply(store, request),
        Err(unread) => unread.into(),
    }
}

// Serves a frame: refuses 8 for a reply buffer under 21 bytes, buffer and store unchanged. Else the reply stands at the front of the
// buffer, the bytes after it are unchanged, and its length is the answer; a frame refused with 6 or 7 leaves the store uncalled.
pub fn serve<S: Store>(store: &mut S, frame: &[u8], reply: &mut [u8]) -> Result<usize, FrameFault>
    ensures served { Served (Replied S.Store.view store.old store.new (read_as requests frame.now)) reply.old reply.new result }
    ensures unmoved { length reply.old < 21 → store.new ≡ store.old }
{
    if reply.len() < 21 {
        return Err(FrameFault::Buffer);
    }
    write_reply(reply_to(store, frame), reply)
}

// The reply of a shared store to a frame. Beside each function over &mut S stands one over &S: no one function takes both.
fn question_to<S: Store>(store: &S, frame: &[u8]) -> Reply
    ensures value { Replied S.Store.view store.now store.now (question (read_as requests frame.now)) result }
    ensures sendable { Sendable result }
{
    match read_request(frame) {
        Ok(request) => question_reply(store, request),
        Err(fault) => fault.into(),
    }
}

// Serves a frame from a shared store, as `serve` does; put and commit are refused with 6.
pub fn serve_question<S: Store>(
    store: &S,
    frame: &[u8],
    reply: &mut [u8],
) -> Result<usize, FrameFault>
    ensures { Served (Replied S.Store.view store.now store.now (question (read_as requests frame.now))) reply.old reply.new result }
{
    if reply.len() < 21 {
        return Err(FrameFault::Buffer);
    }
    write_reply(question_to(store, frame), reply)
}

// The frame of the reply of a store to a frame; one refused with 6 or 7 leaves the store uncalled.
pub fn reply_frame<S: Store>(store: &mut S, frame: &[u8]) -> Framed<21>
    ensures { Answered (Replied S.Store.view store.old store.new (read_as requests frame.now)) (take result.length result.bytes) }
{
    let mut bytes = [0; 21];
    let length = serve(store, frame, &mut bytes).unwrap();
    Framed::new(bytes, length)
}

// The frame of the reply of a shared store to a frame; put and commit are refused with 6.
pub fn question_reply_frame<S: Store>(store: &S, frame: &[u8]) -> Framed<21>
    ensures { Answered (Replied S.Store.view store.now store.now (question (read_as requests frame.now))) (take result.length result.bytes) }
{
    let mut bytes = [0; 21];
    let length = serve_question(store, frame, &mut bytes).unwrap();
    Framed::new(bytes, length)
}
