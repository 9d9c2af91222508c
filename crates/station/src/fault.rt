// Why a line gives no frame, and why none was read.
ghost use Rattle.std.specs.Prelude.{◌≡◌, Some};
ghost use Rattle.station.specs.Faults.{hex_reason, IsMemory, error_words};
ghost use Rattle.station.specs.declared.fault.HexError.TheVariants as error;

use std::alloc::{AllocError, AllocFailed};
use std::error::Error;
use std::fmt;

#[derive(Clone, Copy, PartialEq, Eq, Debug)]
pub enum HexFault {
    Digit,
    Odd,
}

impl HexFault {
    pub fn reason(self) -> &'static str
        ensures { result.now ≡ hex_reason self }
    {
        match self {
            HexFault::Digit => "a character is no hexadecimal digit",
            HexFault::Odd => "a byte has one digit",
        }
    }
}

impl fmt::Display for HexFault {
    ghost output = { λ fault. Some (hex_reason fault) };

    fn fmt<W: fmt::Write>(&self, f: &mut fmt::Formatter<W>) -> fmt::Result {
        f.write_str(self.reason())
    }
}

impl Error for HexFault {}

// Why no bytes were read: the line's fault, or want of memory.
#[derive(Clone, Copy, PartialEq, Eq, Debug)]
pub enum HexError {
    Fault(HexFault),
    Memory(AllocError),
}

impl fmt::Display for HexError {
    ghost output = { λ error. Some (error_words error) };

    fn fmt<W: fmt::Write>(&self, f: &mut fmt::Formatter<W>) -> fmt::Result {
        match self {
            HexError::Fault(why) => write!(f, "{why}"),
            HexError::Memory(_) => f.write_str("memory allocation failed"),
        }
    }
}

impl Error for HexError {}

impl From<HexFault> for HexError {
    ghost from_gives = { λ e r. r ≡ error.Fault e };

    fn from(fault: HexFault) -> HexError {
        HexError::Fault(fault)
    }
}

impl<T: Drop> From<AllocFailed<T>> for HexError {
    ghost from_gives = { λ _ r. IsMemory r };

    fn from(failed: AllocFailed<T>) -> HexError {
        HexError::Memory(AllocError::from(failed))
    }
}
