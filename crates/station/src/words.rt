// What frames ask and reply, in words.
ghost use Rattle.std.specs.Prelude.{◌≡◌, List, ℕ, Some, codes, IfOk, IfErr};
ghost use Rattle.text.specs.Spelling.{Spells};
ghost use Rattle.frames.specs.Faults.{fault_number};
ghost use Rattle.frames.specs.Family.{read_as};
ghost use Rattle.frames.specs.Requests.{requests};
ghost use Rattle.frames.specs.Replies.{replies};
ghost use Rattle.frames.specs.Words.{reason_words};
ghost use Rattle.station.specs.Words.{request_words, reply_words};

use frames::{FrameFault, read_reply, read_request};
use std::alloc::{AllocError, Global};
use std::fmt;

// The message that was read, or why none was.
fn meaning<M: fmt::Display + Drop>(
    heap: Global,
    read: Result<M, FrameFault>,
) -> Result<String, AllocError>
    ensures message { IfOk read (λ message. (words : List ℕ) → M.output message ≡ Some words → Spells result words) }
    ensures unread { IfErr read (λ fault. Spells result (reason_words (codes "unread") (fault_number fault))) }
{
    match read {
        Ok(message) => format!(in heap; "{message}"),
        Err(fault) => format!(in heap; "unread {}: {fault}", fault.number()),
    }
}

// What the frame of a request asks, or why it asks nothing. A frame is bytes and is read first: what is read has the Display.
pub fn request_meaning(heap: Global, frame: &[u8]) -> Result<String, AllocError>
    ensures { Spells result (request_words (read_as requests frame.now)) }
{
    meaning(heap, read_request(frame))
}

// What the frame of a reply says, or why it says nothing; as request_meaning.
pub fn reply_meaning(heap: Global, frame: &[u8]) -> Result<String, AllocError>
    ensures { Spells result (reply_words (read_as replies frame.now)) }
{
    meaning(heap, read_reply(frame))
}
