// Why a line of a script is no call, and why none was read.
ghost use Rattle.std.specs.Prelude.{◌≡◌, Some};
ghost use Rattle.script.specs.Errors.{IsMemory};
ghost use Rattle.script.specs.Words.{fault_words, fault_line, error_words};
ghost use Rattle.script.specs.declared.fault.ScriptError.TheVariants as error;
ghost use Rattle.script.specs.declared.fault.ScriptFault.TheVariants as fault;

use sheet::LineFault;
use std::alloc::{AllocError, AllocFailed};
use std::error::Error;
use std::fmt;

#[derive(Clone, Copy, PartialEq, Eq, Debug)]
pub enum ScriptFault {
    NoCall,
    Numbers,
    TooLarge,
    Entry(LineFault),
}

impl fmt::Display for ScriptFault {
    ghost output = { λ fault. Some (fault_words fault) };

    fn fmt<W: fmt::Write>(&self, f: &mut fmt::Formatter<W>) -> fmt::Result {
        match *self {
            ScriptFault::Entry(entry) => {
                let number = entry.number();
                write!(f, "refused {number}: {entry}")
            }
            ScriptFault::NoCall => f.write_str("no call: it begins with none of the ten calls"),
            ScriptFault::Numbers => f.write_str("no call: the call wants other numbers"),
            ScriptFault::TooLarge => f.write_str("no call: a number is too large for its field"),
        }
    }
}

impl Error for ScriptFault {}

// A fault with the number of the line that has it.
#[derive(Clone, Copy, PartialEq, Eq, Debug)]
pub struct FaultOnLine {
    pub line: usize,
    pub fault: ScriptFault,
}

impl fmt::Display for FaultOnLine {
    ghost output = { λ x. Some (fault_line x.line x.fault) };

    fn fmt<W: fmt::Write>(&self, f: &mut fmt::Formatter<W>) -> fmt::Result {
        let FaultOnLine { line, fault } = *self;
        write!(f, "line {line}: {fault}")
    }
}

impl Error for FaultOnLine {}

// Why no call was read: the line's fault, or want of memory.
#[derive(Clone, Copy, PartialEq, Eq, Debug)]
pub enum ScriptError {
    Fault(ScriptFault),
    Memory(AllocError),
}

impl fmt::Display for ScriptError {
    ghost output = { error_words };

    fn fmt<W: fmt::Write>(&self, f: &mut fmt::Formatter<W>) -> fmt::Result {
        match self {
            ScriptError::Fault(why) => write!(f, "{why}"),
            ScriptError::Memory(why) => write!(f, "{why}"),
        }
    }
}

impl Error for ScriptError {}

impl From<ScriptFault> for ScriptError {
    ghost from_gives = { λ e r. r ≡ error.Fault e };

    fn from(fault: ScriptFault) -> ScriptError {
        ScriptError::Fault(fault)
    }
}

impl From<LineFault> for ScriptError {
    ghost from_gives = { λ e r. r ≡ error.Fault (fault.Entry e) };

    fn from(entry: LineFault) -> ScriptError {
        ScriptError::Fault(ScriptFault::Entry(entry))
    }
}

impl<T: Drop> From<AllocFailed<T>> for ScriptError {
    ghost from_gives = { λ _ r. IsMemory r };

    fn from(failed: AllocFailed<T>) -> ScriptError {
        ScriptError::Memory(AllocError::from(failed))
    }
}

impl From<AllocError> for ScriptError {
    ghost from_gives = { λ _ r. IsMemory r };

    fn from(error: AllocError) -> ScriptError {
        ScriptError::Memory(error)
    }
}
