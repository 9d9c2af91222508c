// Requests, replies and refusals in words.
ghost use Rattle.std.specs.Prelude.{◌≡◌, Some};
ghost use Rattle.std.specs.List.{flat_map};
ghost use Rattle.frames.specs.Faults.{fault_number, reason_of};
ghost use Rattle.frames.specs.Words.{spaced, told, asked_words, replied_words};

use super::fault::FrameFault;
use super::reply::Reply;
use super::request::Request;
use super::stamps::stamps_of;
use std::error::Error;
use std::fmt;

// Why a store or a frame is refused, by the number of the refusal: a reply carries any number.
pub fn refusal_reason(number: u8) -> &'static str
    ensures { result.now ≡ reason_of number }
{
    match number {
        1 => "no item has number 0",
        2 => "no version has stamp 0",
        3 => "another version is held with the stamp",
        4 => "there is no space for another version",
        5 => "no version is held with the stamp",
        6 => "the frame is of no known kind",
        7 => "the frame has not the length of its kind",
        8 => "the buffer is too short",
        9 => "the reply is none of those listed",
        _ => "no refusal has the number",
    }
}

impl fmt::Display for FrameFault {
    ghost output = { λ fault. Some (reason_of (fault_number fault)) };

    fn fmt<W: fmt::Write>(&self, f: &mut fmt::Formatter<W>) -> fmt::Result {
        f.write_str(refusal_reason(self.number()))
    }
}

impl Error for FrameFault {}

// Numbers, a blank before each.
#[derive(Clone, Copy)]
struct Spaced<'a>(&'a [u32]);

impl fmt::Display for Spaced<'_> {
    ghost output = { λ s. Some (flat_map spaced s.0.now) };

    fn fmt<W: fmt::Write>(&self, f: &mut fmt::Formatter<W>) -> fmt::Result {
        for number in self.0 {
            write!(f, " {number}")?;
        }
        Ok(())
    }
}

impl fmt::Display for Request<'_> {
    ghost output = { λ request. Some (asked_words (told request)) };

    fn fmt<W: fmt::Write>(&self, f: &mut fmt::Formatter<W>) -> fmt::Result {
        match *self {
            Request::Put {
                item,
                stamp,
                code,
                mark,
            } => { write!(f, "put item {item} stamp {stamp} code {code} mark {mark}") }
            Request::Commit { item, stamp } => write!(f, "commit item {item} stamp {stamp}"),
            Request::Last { item } => write!(f, "last item {item}"),
            Request::Pick { item, stamps } => match stamps_of(stamps) {
                Some(stamps) => write!(f, "pick item {item} of{}", Spaced(&stamps)),
                None => write!(f, "pick item {item} of"),
            },
        }
    }
}

impl fmt::Display for Reply {
    ghost output = { λ reply. Some (replied_words reply) };

    fn fmt<W: fmt::Write>(&self, f: &mut fmt::Formatter<W>) -> fmt::Result {
        match *self {
            Reply::Done(done) => write!(f, "done {}", u8::from(done)),
            Reply::Version((stamp, code, mark)) => {
                write!(f, "version stamp {stamp} code {code} mark {mark}")
            }
            Reply::Refused(number) => write!(f, "refused {number}: {}", refusal_reason(number)),
        }
    }
}
