// A word of the command line that is none of those that may stand there.
use std::error::Error;
use std::fmt;

// Says which words may stand there.
#[derive(Clone, Copy, Debug)]
pub struct UnknownWord(pub &'static str);

impl fmt::Display for UnknownWord {
    fn fmt<W: fmt::Write>(&self, f: &mut fmt::Formatter<W>) -> fmt::Result {
        f.write_str(self.0)
    }
}

impl Error for UnknownWord {}
