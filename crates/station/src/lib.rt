// A station by lines of text: frames in hexadecimal digits, and requests and replies in words.

#![tactic(auto)]

mod fault;
mod hex;
mod words;

pub use fault::{HexError, HexFault};
pub use frames::refusal_reason;
pub use hex::{hex_bytes, hex_text};
pub use words::{reply_meaning, request_meaning};
