// Entries, refused lines and stamps in words.
ghost use Rattle.std.specs.Prelude.{Some};
ghost use Rattle.text.specs.Spelling.{Spells};
ghost use Rattle.sheet.specs.Faults.{number_of, reason_of};
ghost use Rattle.sheet.specs.Texts.{or_no_body, body_words, entry_words, refused_line, stamp_words};

use super::entry::Entry;
use super::fault::LineFault;
use blend::{Body, Kind, LineUp, Quantity, TankCard, kind_of, sequence_of, writer_of};
use std::alloc::{AllocError, Global};
use std::error::Error;
use std::fmt;
use std::fmt::Display;

// A body, or that there is none.
#[derive(Clone, Copy)]
struct OrNoBody<B>(Option<B>);

impl<B: Display> Display for OrNoBody<B> {
    ghost output = { λ x. or_no_body B.Display.output x.0 };

    fn fmt<W: fmt::Write>(&self, f: &mut fmt::Formatter<W>) -> fmt::Result {
        match &self.0 {
            Some(body) => write!(f, "{body}"),
            None => f.write_str("no body"),
        }
    }
}

// The body of an entry's code, as a sheet has it after the item.
#[derive(Clone, Copy, PartialEq, Eq, Debug)]
pub struct EntryBody(pub Entry);

impl Display for EntryBody {
    ghost output = { λ x. Some (body_words x.0.item x.0.code) };

    fn fmt<W: fmt::Write>(&self, f: &mut fmt::Formatter<W>) -> fmt::Result {
        let Entry { item, code } = self.0;
        match kind_of(item) {
            Some(Kind::Quantity) => write!(f, "{}", OrNoBody(Quantity::decode(code))),
            Some(Kind::LineUp) => write!(f, "{}", OrNoBody(LineUp::decode(code))),
            Some(Kind::TankCard) => write!(f, "{}", OrNoBody(TankCard::decode(code))),
            None => f.write_str("no body"),
        }
    }
}

// A taken entry: its item, the kind, the code, and the body read back from the code.
impl Display for Entry {
    ghost output = { λ entry. Some (entry_words entry) };

    fn fmt<W: fmt::Write>(&self, f: &mut fmt::Formatter<W>) -> fmt::Result {
        let Some(kind) = kind_of(self.item) else {
            return f.write_str("no item");
        };
        let Entry { item, code } = *self;
        let body = EntryBody(*self);
        write!(f, "item {item} {kind} code {code}: {body}")
    }
}

// A refused line: its number, the refusal number, and the reason.
#[derive(Clone, Copy, PartialEq, Eq, Debug)]
pub struct RefusedLine {
    pub line: usize,
    pub fault: LineFault,
}

impl Display for RefusedLine {
    ghost output = { λ x. Some (refused_line x.line (number_of x.fault) (reason_of x.fault)) };

    fn fmt<W: fmt::Write>(&self, f: &mut fmt::Formatter<W>) -> fmt::Result {
        let RefusedLine { line, fault } = *self;
        let number = fault.number();
        write!(f, "line {line}: refused {number}: {fault}")
    }
}

impl Error for RefusedLine {}

// A stamp with its writer and its sequence. A stamp is a plain number through every layer, so it has no Display of its own.
pub fn stamp_text(heap: Global, stamp: u32) -> Result<String, AllocError>
    ensures { Spells result (stamp_words stamp) }
{
    let writer = writer_of(stamp);
    let sequence = sequence_of(stamp);
    format!(in heap; "stamp {stamp}: writer {writer} sequence {sequence}")
}
