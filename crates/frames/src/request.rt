// Requests to a store, as frames.
ghost use Rattle.std.specs.Prelude.{◌≡◌, ◌≤◌, take, IfOk, IfErr};
ghost use Rattle.std.specs.Result.{result_err};
ghost use Rattle.frames.specs.Faults.{fault_number};
ghost use Rattle.layout.specs.Layout.{parsed};
ghost use Rattle.frames.specs.Family.{read_as, frame_of, write_answer, written};
ghost use Rattle.frames.specs.Requests.{requests, pick, asked_in, Borrows, pick_fault, request_fault, request_frame, stamp_widths};

use super::fault::FrameFault;
use super::framed::Framed;
use super::place::place;
use layout::{commit_body, put_body, version_of};

// The stamps of a pick are still bytes of its frame, of any length: writing refuses another than 32.
#[derive(Clone, Copy, PartialEq, Eq, Debug)]
pub enum Request<'a> {
    Put {
        item: u8,
        stamp: u32,
        code: u64,
        mark: u64,
    },
    Commit {
        item: u8,
        stamp: u32,
    },
    Last {
        item: u8,
    },
    Pick {
        item: u8,
        stamps: &'a [u8],
    },
}

// The request of a frame: refuses 6 for an empty frame or an unknown kind, then 7 for another length.
pub fn read_request(frame: &[u8]) -> Result<Request<'_>, FrameFault>
    ensures value { asked_in result ≡ read_as requests frame.now }
    ensures refusals { IfErr result (λ e. fault_number e ≤ 7) }
    ensures borrowed { IfOk result (Borrows frame.now) }
{
    match frame {
        [1, item, rest @ ..] => {
            let (stamp, code, mark) = version_of(rest).ok_or(FrameFault::Length)?;
            Ok(Request::Put {
                item: *item,
                stamp,
                code,
                mark,
            })
        }
        [2, item, s0, s1, s2, s3] => {
            let stamp = u32::from_be_bytes([*s0, *s1, *s2, *s3]);
            Ok(Request::Commit { item: *item, stamp })
        }
        [3, item] => Ok(Request::Last { item: *item }),
        [4, item, stamps @ ..] if stamps.len() == 32 => Ok(Request::Pick {
            item: *item,
            stamps,
        }),
        [1..=4, ..] => Err(FrameFault::Length),
        _ => Err(FrameFault::Kind),
    }
}

// Writes the frame of a request to the front of a buffer and answers its length: refuses 8 for a buffer shorter than the frame, then 7
// for a pick that borrows other than 32 bytes, and leaves the buffer.
pub fn write_request(request: Request<'_>, buf: &mut [u8]) -> Result<usize, FrameFault>
    ensures answer { result ≡ write_answer (request_fault request.entry) (request_frame request.entry) buf.old }
    ensures after { buf.new ≡ written (request_fault request.entry) (request_frame request.entry) buf.old }
{
    match request {
        Request::Put {
            item,
            stamp,
            code,
            mark,
        } => { place(buf, 1, &put_body(item, stamp, code, mark)) }
        Request::Commit { item, stamp } => place(buf, 2, &commit_body(item, stamp)),
        Request::Last { item } => place(buf, 3, &[item]),
        Request::Pick { item, stamps } => write_pick(item, stamps, buf),
    }
}

impl Request<'_> {
    // The frame of the request: refuses 7 for a pick that borrows other than 32 bytes.
    pub fn framed(self) -> Result<Framed<34>, FrameFault>
        ensures frame { IfOk result (λ f. take f.length f.bytes ≡ request_frame self.entry) }
        ensures refused { result_err result ≡ request_fault self.entry }
    {
        let mut bytes = [0; 34];
        let length = write_request(self, &mut bytes)?;
        Ok(Framed::new(bytes, length))
    }
}

fn write_pick(item: u8, stamps: &[u8], buf: &mut [u8]) -> Result<usize, FrameFault>
    ensures answer { result ≡ write_answer (pick_fault stamps.now) (frame_of requests (pick item (parsed stamp_widths stamps.now))) buf.old }
    ensures after { buf.new ≡ written (pick_fault stamps.now) (frame_of requests (pick item (parsed stamp_widths stamps.now))) buf.old }
{
    if buf.len() < 34 {
        return Err(FrameFault::Buffer);
    }
    if stamps.len() != 32 {
        return Err(FrameFault::Length);
    }
    let mut body = [item; 33];
    body[1..].copy_from_slice(stamps);
    place(buf, 4, &body)
}
