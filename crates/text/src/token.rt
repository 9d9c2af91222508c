// A line cut at its blanks into tokens.
ghost use Rattle.std.specs.Prelude.{◌≡◌, IfOk, slice_index_or};
ghost use Rattle.text.specs.declared.token.Token.TheVariants.{Other};
ghost use Rattle.text.specs.Tokens.{is_blank as blank_byte, token_at, tokens_of, number_in, is_word, field_at};

use super::number::number_of;
use super::word::Word;
use std::alloc::{AllocError, Global};

#[derive(Clone, Copy, PartialEq, Eq, Debug)]
pub enum Token {
    Number(u64),
    Name(Word),
    Other,
}

// Space, tab, carriage return.
pub fn is_blank(b: u8) -> bool
    ensures { result ≡ blank_byte b }
{
    matches!(b, b' ' | b'\t' | b'\r')
}

impl Token {
    // The number that the token is, if it is one.
    pub fn number(self) -> Option<u64>
        ensures { result ≡ number_in self }
    {
        match self {
            Token::Number(n) => Some(n),
            Token::Name(_) | Token::Other => None,
        }
    }

    // Whether the token is the word.
    pub fn is(self, word: Word) -> bool
        ensures { result ≡ is_word self word }
    {
        self == Token::Name(word)
    }

    // The token that a word of the text is.
    fn read(text: &[u8]) -> Token
        ensures { result ≡ token_at text.now }
    {
        if let Some(n) = number_of(text) {
            return Token::Number(n);
        }
        Word::read(text).map_or(Token::Other, Token::Name)
    }
}

// The tokens of a line.
pub fn tokens(heap: Global, line: &[u8]) -> Result<Vec<Token>, AllocError>
    ensures { IfOk result (λ v. v.items ≡ tokens_of line.now) }
{
    line.split(|b| is_blank(*b))
        .filter(|word| !word.is_empty())
        .map(Token::read)
        .collect(heap)
}

// The token at a place of the line; past its end neither a number nor a word.
pub fn token_at(line: &[Token], place: usize) -> Token
    ensures { result ≡ slice_index_or line.now place Other }
{
    line.get(place).copied().unwrap_or(Token::Other)
}

// The number after a word that stands at a place of the line, if both are there.
pub fn field(line: &[Token], place: u8, word: Word) -> Option<u64>
    ensures { result ≡ field_at line.now place word }
{
    let at = usize::from(place);
    if !token_at(line, at).is(word) {
        return None;
    }
    token_at(line, at + 1).number()
}
