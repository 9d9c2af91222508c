// Why a line of a sheet is refused, each reason with its refusal number and its text.
ghost use Rattle.std.specs.Prelude.{◌≡◌, Some};
ghost use Rattle.sheet.specs.Faults.{number_of, reason_of, stamp_fault};

use blend::Refusal;
use std::error::Error;
use std::fmt;

#[derive(Clone, Copy, PartialEq, Eq, Debug)]
pub enum LineFault {
    Writer,
    Sequence,
    Full,
    Item,
    Twice,
    Fields,
    Body,
}

impl LineFault {
    pub fn number(self) -> u8
        ensures { result ≡ number_of self }
    {
        // Two pairs of reasons share a number, so it is no discriminant.
        match self {
            LineFault::Writer => 10,
            LineFault::Sequence => 12,
            LineFault::Full => 13,
            LineFault::Item => 14,
            LineFault::Twice => 14,
            LineFault::Fields => 15,
            LineFault::Body => 15,
        }
    }

    pub fn reason(self) -> &'static str
        ensures { result.now ≡ reason_of self }
    {
        match self {
            LineFault::Writer => "a sheet begins with: writer 0 to 15 sequence N",
            LineFault::Sequence => "the sequence is a number from 1 to 268435455",
            LineFault::Full => "a sheet has at most eight items",
            LineFault::Item => "a line begins with an item from 1 to 255",
            LineFault::Twice => "the item stands on an earlier line",
            LineFault::Fields => "the fields are not those of the item's kind",
            LineFault::Body => "the values make no body of the item's kind",
        }
    }
}

impl fmt::Display for LineFault {
    ghost output = { λ fault. Some (reason_of fault) };

    fn fmt<W: fmt::Write>(&self, f: &mut fmt::Formatter<W>) -> fmt::Result {
        f.write_str(self.reason())
    }
}

impl Error for LineFault {}

impl From<Refusal> for LineFault {
    ghost from_gives = { λ refusal fault. fault ≡ stamp_fault refusal };

    fn from(refusal: Refusal) -> LineFault {
        match refusal {
            Refusal::Writer => LineFault::Writer,
            Refusal::Sequence => LineFault::Sequence,
            Refusal::List => LineFault::Full,
            Refusal::Item => LineFault::Item,
            Refusal::NoBody => LineFault::Body,
        }
    }
}
