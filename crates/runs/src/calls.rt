// The ten calls with their arguments, and what is answered.
ghost use Rattle.std.specs.Prelude.{◌≡◌};
ghost use Rattle.runs.specs.Runs.{numbered, shown};

use rows::Fault;

#[derive(Drop)]
pub enum Call {
    File {
        writer: u8,
        sequence: u32,
        items: Vec<u8>,
        codes: Vec<u64>,
    },
    Prepare {
        writer: u8,
        place: u8,
    },
    Commit {
        writer: u8,
        place: u8,
    },
    Close {
        writer: u8,
    },
    Withdraw {
        writer: u8,
    },
    Open {
        reader: u8,
        items: Vec<u8>,
    },
    First {
        reader: u8,
        place: u8,
    },
    Second {
        reader: u8,
        place: u8,
    },
    Take {
        reader: u8,
        place: u8,
    },
    Release {
        reader: u8,
    },
}

// A number; of a take stamp and code; or a refusal.
#[derive(Clone, Copy, PartialEq, Eq, Debug)]
pub enum Answer {
    Number(u32),
    Shown { stamp: u32, code: u64 },
    Refused(Fault),
}

// Two impls: one over any part of an answer would want three more beside it, for a number, for a pair and for a fault.
impl From<Result<u32, Fault>> for Answer {
    ghost from_gives = { λ e r. r ≡ numbered e };

    fn from(answer: Result<u32, Fault>) -> Answer {
        match answer {
            Ok(n) => Answer::Number(n),
            Err(fault) => Answer::Refused(fault),
        }
    }
}

impl From<Result<(u32, u64), Fault>> for Answer {
    ghost from_gives = { λ e r. r ≡ shown e };

    fn from(answer: Result<(u32, u64), Fault>) -> Answer {
        match answer {
            Ok((stamp, code)) => Answer::Shown { stamp, code },
            Err(fault) => Answer::Refused(fault),
        }
    }
}
