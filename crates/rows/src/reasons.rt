// The reason of each refusal of the service, in words.
ghost use Rattle.std.specs.Prelude.{◌≡◌, Some};
ghost use Rattle.rows.specs.Reasons.{reason_of};

use super::fault::Fault;
use std::error::Error;
use std::fmt;

impl Fault {
    pub fn reason(self) -> &'static str
        ensures { result.now ≡ reason_of self }
    {
        match self {
            Fault::Store { item: _, fault } => fault.reason(),
            Fault::Writer => "a writer is a number from 0 to 15",
            Fault::OrderOpen => "the writer has an open order",
            Fault::Sequence => "the sequence is out of range or not above the writer's last",
            Fault::List => "the list is empty, longer than eight, or not as long as the codes",
            Fault::Item => "an item is 0 or stands twice",
            Fault::NoBody => "a code is of no body of its item's kind",
            Fault::NoOrder => "the writer has no open order",
            Fault::Place => "the place is beyond the list",
            Fault::Gathering => "the order is gathering: prepare every place first",
            Fault::Incomplete => "the order is not complete: commit every place first",
            Fault::Sealed => "the order is sealed: commit the rest and close",
            Fault::Reader => "a reader is a number from 0 to 15",
            Fault::ReadOpen => "the reader has an open read",
            Fault::NoRead => "the reader has no open read",
            Fault::Asked => "the first ask was made already",
            Fault::FirstMissing => "a first ask is missing",
            Fault::NotDue => "no second ask is due here",
            Fault::Unfinished => "the read is not finished",
            Fault::Kind => "the body's kind is not the item's",
        }
    }
}

impl fmt::Display for Fault {
    ghost output = { λ fault. Some (reason_of fault) };

    fn fmt<W: fmt::Write>(&self, f: &mut fmt::Formatter<W>) -> fmt::Result {
        f.write_str(self.reason())
    }
}

impl Error for Fault {}
