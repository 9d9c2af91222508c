// Replies of a store, as frames.
ghost use Rattle.std.specs.Prelude.{◌≡◌, Ok, Err, MatchResult};
ghost use Rattle.store.specs.Faults.{number_of};
ghost use Rattle.frames.specs.Faults.{fault_number};
ghost use Rattle.frames.specs.Family.{read_as, frame_of, write_answer, written};
ghost use Rattle.frames.specs.Replies.{replies, reply_fault, done_in, version_in};
ghost use Rattle.frames.specs.declared.reply.Reply.TheVariants as reply;

use super::fault::FrameFault;
use super::place::place;
use layout::{version_body, version_of};
use store::StoreFault;

// Yes or no; stamp, code and mark; or the number of a refusal, any byte: writing refuses a number that is not listed.
#[derive(Clone, Copy, PartialEq, Eq, Debug)]
pub enum Reply {
    Done(bool),
    Version((u32, u64, u64)),
    Refused(u8),
}

impl Reply {
    // The yes or no, absent in another reply.
    pub fn done(self) -> Option<bool>
        ensures { result ≡ done_in self }
    {
        match self {
            Reply::Done(done) => Some(done),
            _ => None,
        }
    }

    // The version, absent in another reply.
    pub fn version(self) -> Option<(u32, u64, u64)>
        ensures { result ≡ version_in self }
    {
        match self {
            Reply::Version(version) => Some(version),
            _ => None,
        }
    }
}

impl From<bool> for Reply {
    ghost from_gives = { λ yes r. r ≡ reply.Done yes };

    fn from(yes: bool) -> Reply {
        Reply::Done(yes)
    }
}

impl From<(u32, u64, u64)> for Reply {
    ghost from_gives = { λ held r. r ≡ reply.Version held };

    fn from(held: (u32, u64, u64)) -> Reply {
        Reply::Version(held)
    }
}

impl From<StoreFault> for Reply {
    ghost from_gives = { λ fault r. r ≡ reply.Refused (number_of fault) };

    fn from(fault: StoreFault) -> Reply {
        Reply::Refused(fault.number())
    }
}

impl From<FrameFault> for Reply {
    ghost from_gives = { λ unread r. r ≡ reply.Refused (fault_number unread) };

    fn from(unread: FrameFault) -> Reply {
        Reply::Refused(unread.number())
    }
}

// The reply to what a store answered.
impl<T: Into<Reply>> From<Result<T, StoreFault>> for Reply {
    ghost from_gives = { λ outcome r. MatchResult outcome (λ answer. T.converts answer r) (λ fault. r ≡ reply.Refused (number_of fault)) };

    fn from(outcome: Result<T, StoreFault>) -> Reply {
        match outcome {
            Ok(answer) => answer.into(),
            Err(fault) => fault.into(),
        }
    }
}

// The reply of a frame: refuses 6 for an empty frame or an unknown kind, then 7 for another length, then 9 for a reply not listed.
pub fn read_reply(frame: &[u8]) -> Result<Reply, FrameFault>
    ensures { result ≡ read_as replies frame.now }
{
    match frame {
        [0x11, 0] => Ok(Reply::Done(false)),
        [0x11, 1] => Ok(Reply::Done(true)),
        [0x12, rest @ ..] => version_of(rest)
            .map(Reply::Version)
            .ok_or(FrameFault::Length),
        [0x13, number @ 1..=7] => Ok(Reply::Refused(*number)),
        [0x11 | 0x13, _] => Err(FrameFault::Unlisted),
        [0x11 | 0x13, ..] => Err(FrameFault::Length),
        _ => Err(FrameFault::Kind),
    }
}

// Writes the frame of a reply to the front of a buffer and answers its length: refuses 8 for a buffer shorter than the frame, then 9
// for a reply not listed, and leaves the buffer.
pub fn write_reply(reply: Reply, buf: &mut [u8]) -> Result<usize, FrameFault>
    ensures answer { result ≡ write_answer (reply_fault reply) (frame_of replies reply) buf.old }
    ensures after { buf.new ≡ written (reply_fault reply) (frame_of replies reply) buf.old }
{
    match reply {
        Reply::Done(done) => place(buf, 0x11, &[u8::from(done)]),
        Reply::Version(version) => place(buf, 0x12, &version_body(version)),
        Reply::Refused(number @ 1..=7) => place(buf, 0x13, &[number]),
        Reply::Refused(_) if buf.len() < 2 => Err(FrameFault::Buffer),
        Reply::Refused(_) => Err(FrameFault::Unlisted),
    }
}
