// An order sheet: a heading with writer and sequence, then one item a line with its body in words.

#![tactic(auto)]

mod entry;
mod fault;
mod heading;
mod rows;
mod words;

pub use entry::{Entry, read_entry};
pub use fault::LineFault;
pub use heading::read_heading;
pub use rows::Sheet;
pub use words::{EntryBody, RefusedLine, stamp_text};
