// Lines of text as tokens: decimal numbers and the words that sheets and scripts use.

#![tactic(auto)]

mod number;
mod token;
mod word;

pub use number::number_of;
pub use token::{Token, field, is_blank, token_at, tokens};
pub use word::Word;
