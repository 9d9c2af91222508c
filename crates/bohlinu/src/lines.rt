// A line of an input with its number. Lines are read one at a time: nothing is kept of one while the next is read.
use std::alloc::{AllocError, Global};
use text::{Token, tokens};

#[derive(Clone, Copy)]
pub struct Line<'a> {
    pub number: usize,
    pub text: &'a str,
}

impl<'a> Line<'a> {
    // The line of a text at an index.
    pub(super) fn numbered(at: (usize, &'a str)) -> Line<'a> {
        let (index, text) = at;
        Line {
            number: index.saturating_add(1),
            text,
        }
    }

    // Whether there is more in the line than white space, and it does not begin with #.
    pub(super) fn speaks(&self) -> bool {
        let rest = self.text.trim_start();
        !rest.is_empty() && !rest.starts_with('#')
    }

    // The line as tokens, unless it has none or begins with #.
    pub(super) fn tokens(self, heap: Global) -> Result<Option<TokenLine>, AllocError> {
        let tokens = tokens(heap, self.text.as_bytes())?;
        if tokens.is_empty() || self.text.trim_start().starts_with('#') {
            return Ok(None);
        }
        Ok(Some(TokenLine {
            number: self.number,
            tokens,
        }))
    }
}

#[derive(Drop)]
pub struct TokenLine {
    pub number: usize,
    pub tokens: Vec<Token>,
}
