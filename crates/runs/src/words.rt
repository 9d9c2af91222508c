// Calls and answers in words.
ghost use Rattle.std.specs.Prelude.{Some};
ghost use Rattle.runs.specs.Words.{answer_words, call_words};

use super::calls::{Answer, Call};
use std::fmt;

// The call as a script says it; of a list the number of its items.
impl fmt::Display for Call {
    ghost output = { λ call. Some (call_words call) };

    fn fmt<W: fmt::Write>(&self, f: &mut fmt::Formatter<W>) -> fmt::Result {
        match self {
            Call::File {
                writer,
                sequence,
                items,
                codes: _,
            } => {
                let n = items.len();
                write!(f, "file {writer} {sequence} of {n} items")
            }
            Call::Prepare { writer, place } => write!(f, "prepare {writer} {place}"),
            Call::Commit { writer, place } => write!(f, "commit {writer} {place}"),
            Call::Close { writer } => write!(f, "close {writer}"),
            Call::Withdraw { writer } => write!(f, "withdraw {writer}"),
            Call::Open { reader, items } => {
                let n = items.len();
                write!(f, "open {reader} of {n} items")
            }
            Call::First { reader, place } => write!(f, "first {reader} {place}"),
            Call::Second { reader, place } => write!(f, "second {reader} {place}"),
            Call::Take { reader, place } => write!(f, "take {reader} {place}"),
            Call::Release { reader } => write!(f, "release {reader}"),
        }
    }
}

impl fmt::Display for Answer {
    ghost output = { λ answer. Some (answer_words answer) };

    fn fmt<W: fmt::Write>(&self, f: &mut fmt::Formatter<W>) -> fmt::Result {
        match *self {
            Answer::Number(n) => write!(f, "answer {n}"),
            Answer::Shown { stamp, code } => write!(f, "shows stamp {stamp} code {code}"),
            Answer::Refused(fault) => {
                let number = fault.number();
                write!(f, "refused {number}: {fault}")
            }
        }
    }
}
